//! The laws of the definitions: each is the contract of a function that does nothing.

ghost use Rattle.certificate.specs.Laws.{ReadingIsSpelling, SpelledOrFaulty, NotBoth};
ghost use Rattle.certificate.specs.Laws.{OneFirstFault, FaultsComeFirst, NoneBeginsAnother};
ghost use Rattle.certificate.specs.Laws.{OneCertificate, OneSpelling, AnswersTellOfBytes};
ghost use Rattle.certificate.specs.Laws.{FaultlessIsSpelledOrCutOff, FaultsShowLast};
ghost use Rattle.certificate.specs.Laws.{FailuresAreOfTheSource, AnnouncementsAreCutOff};
ghost use Rattle.certificate.specs.Laws.{BeginningsHaveNoFault, UpgradesKeepTheRest};
ghost use Rattle.std.specs.Prelude.{◌≡◌, ◌↔◌, IsTrue};

use crate::faults::{FormatFault, ReadFault, WriteFault};

/// A certificate is read exactly where the bytes spell it. Else they have one first fault. Bytes
/// have no fault, except that they may be cut off, exactly where they spell one or are cut off.
#[tactic(auto, using(crate::proofs::CertificateLemmas::read_takes, crate::proofs::LawLemmas::spelled_read, crate::proofs::LawLemmas::spelled_or_faulty, crate::proofs::LawLemmas::not_both, crate::proofs::LawLemmas::faultless))]
pub fn reading_is_spelling()
    ensures both_ways { ReadingIsSpelling }
    ensures all { SpelledOrFaulty }
    ensures apart { NotBoth }
    ensures one { OneFirstFault }
    ensures faultless { FaultlessIsSpelledOrCutOff }
{}

/// The bytes before the first faulty field begin some spelling, or they announce more groups or
/// rows than are there. What begins a spelling has no fault, except that it may be cut off. What
/// announces more than is there is cut off.
#[tactic(auto, using(crate::proofs::CertificateLemmas::before_fault))]
pub fn faults_come_first()
    ensures before { FaultsComeFirst }
    ensures begun { BeginningsHaveNoFault }
    ensures announced { AnnouncementsAreCutOff }
{}

/// No spelling begins another one.
#[tactic(auto, using(crate::proofs::LawLemmas::none_begins_another))]
pub fn none_begins_another()
    ensures { NoneBeginsAnother }
{}

/// A certificate has one spelling, and a spelling is of one certificate.
pub fn one_spelling_a_certificate()
    ensures certificate { OneCertificate }
    ensures spelling { OneSpelling }
{}

/// An answer tells of the bytes that were taken: they spell the certificate, or have its first
/// fault. Where the source failed they have none, unless they are cut off. Where memory was refused
/// they are cut off: more is due.
#[tactic(auto, using(crate::proofs::LawLemmas::told_of_bytes))]
pub fn answers_tell_of_bytes()
    ensures { AnswersTellOfBytes }
{}

/// No more is taken than shows the first fault: it shows with the last byte that was taken, or at
/// the end.
#[tactic(auto, using(crate::proofs::LawLemmas::fault_shows_last))]
pub fn faults_show_last()
    ensures { FaultsShowLast }
{}

/// The answer is that reading failed exactly where the source has failed.
pub fn failures_are_of_the_source()
    ensures { FailuresAreOfTheSource }
{}

/// An upgrade of version 1 changes the magic and puts a 0 behind it. It changes nothing of version 2.
#[tactic(auto, using(crate::proofs::LawLemmas::upgrade_keeps))]
pub fn upgrades_keep_the_rest()
    ensures { UpgradesKeepTheRest }
{}

/// Whether two faults of bytes are the same.
pub fn faults_of_bytes_are_compared(a: FormatFault, b: FormatFault) -> bool
    ensures { IsTrue result ↔ (a ≡ b) }
{
    a == b
}

/// Whether two faults of reading are the same.
pub fn faults_of_reading_are_compared(a: ReadFault, b: ReadFault) -> bool
    ensures { IsTrue result ↔ (a ≡ b) }
{
    a == b
}

/// Whether two faults of writing are the same: there is one.
pub fn faults_of_writing_are_compared(a: WriteFault, b: WriteFault) -> bool
    ensures { IsTrue result ↔ (a ≡ b) }
{
    a == b
}
