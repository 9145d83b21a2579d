//! The laws of the definitions: each is the contract of a function that does nothing.

ghost use Rattle.certificate_runs.specs.Faults.{CertifyCodesDiffer, CheckCodesDiffer};
ghost use Rattle.certificate_runs.specs.Faults.{UpgradeCodesDiffer};
ghost use Rattle.certificate_runs.specs.Laws.{OtherFaultsLeaveTheSink, OtherFaultsWriteNoVerdict};
ghost use Rattle.certificate_runs.specs.Laws.{SilenceIsUnasked, LeastPlansAreCertified};
ghost use Rattle.certificate_runs.specs.Laws.{FirstLinesAreAnswered, SilentRunsAreUnasked};
ghost use Rattle.certificate_runs.specs.Laws.{UnaskedLinesAreSilent, ReportsAnswerTheQuestion};
ghost use Rattle.certificate_runs.specs.Laws.{CertificatesAnswerTheQuestion};
ghost use Rattle.certificate_runs.specs.Laws.{BoundsAreCertified, ClaimsAreOfEndings};
ghost use Rattle.certificate_runs.specs.Laws.{StatusesTellClaims};
ghost use Rattle.certificate_runs.specs.Laws.{ReportedBoundsLackRows, OutcomesWithRowsAreCertified};
ghost use Rattle.certificate_runs.specs.Laws.{CertificatesAreOfOutcomes, WantsAreOfRules};
ghost use Rattle.certificate_runs.specs.Laws.{GroupsAreWantedForRows, SaidBoundsLackRows};
ghost use Rattle.certificate_runs.specs.Laws.{VerdictsAreOnWhatWasRead, WantsAreForVerdicts};
ghost use Rattle.certificate_runs.specs.Laws.{AcceptedCostsAreLeast, AcceptedBoundsAreBelow};
ghost use Rattle.certificate_runs.specs.Laws.{RefusedInputsHaveTheFault, VerdictsAcceptOrRefuse};
ghost use Rattle.certificate_runs.specs.Laws.{CertifiedPlansAreLeast, CertifiedBoundsAreBelow};
ghost use Rattle.certificate_runs.specs.Laws.{CertificatesAreOfTasks, CertificatesAreProved};
ghost use Rattle.certificate_runs.specs.Laws.{FaultyInputsHaveTheirCode};
ghost use Rattle.certificate_runs.specs.Laws.{RefusedCertificatesHaveACause};
ghost use Rattle.certificate_runs.specs.Laws.{MistakenInputsHaveTheirCode};
ghost use Rattle.certificate_runs.specs.Laws.{MistakenCertificatesHaveACause};
ghost use Rattle.certificate_runs.specs.Laws.{VerdictsAreWritten, UpgradesAreWritten};
ghost use Rattle.certificate_runs.specs.Laws.{DrawingsAreWritten};
ghost use Rattle.certificate_runs.specs.Laws.{OtherFaultsDrawNothing, OtherFaultsUpgradeNothing};
ghost use Rattle.certificate_runs.specs.Laws.{DrawingsLackTheirOwn, ReportsLackTheirOwn};
ghost use Rattle.certificate_runs.specs.Laws.{EarlyVerdictsBegin, EarlyUpgradesBegin};
ghost use Rattle.certificate_runs.specs.Laws.{EarlyDrawingsBegin, EarlyCertificatesBegin};
ghost use Rattle.certificate_runs.specs.Laws.{EarlyReportsBegin, AnswerStatusesTell};
ghost use Rattle.certificate_runs.specs.Laws.{VerdictStatusesTell, CertificatesAreAccepted};
ghost use Rattle.certificate_runs.specs.Laws.{ChecksAcceptWhatIsProved, ChecksRefuseForACause};
ghost use Rattle.certificate_runs.specs.Laws.{CertificatesAreTakenAsWritten};
ghost use Rattle.certificate_runs.specs.Laws.{FailedCertificatesAreTold, MemoryHidesNoFault};
ghost use Rattle.certificate_runs.specs.Laws.{FailedVerdictsAreTold, FailedLinesAreTold};
ghost use Rattle.certificate_runs.specs.Laws.{FailedRepliesAreTold, NothingBehindIsTaken};

use crate::certifying::ProofRuled;

/// A run that writes a certificate and ends by another fault than one of writing leaves the sink as
/// it was.
#[tactic(auto, using(crate::proofs::HeadlineLemmas::left))]
pub fn other_faults_leave_the_sink<A: ProofRuled>(asked: &A)
    ensures { OtherFaultsLeaveTheSink (A.rules asked.now) }
{
    let _ = asked;
}

/// And so does one that checks a certificate.
#[tactic(auto, using(crate::proofs::HeadlineLemmas::no_verdict))]
pub fn other_faults_write_no_verdict()
    ensures { OtherFaultsWriteNoVerdict }
{}

/// Nothing is written for lines exactly where none of them asks for an answer. Else one line asks,
/// and what is no report is a certificate of the board that it names. Where the input is known and
/// the sink was empty, a run that ends well leaves there an answer to the input's first lines, and
/// nothing only where no line of the input asks for one.
pub fn silence_is_unasked<A: ProofRuled>(asked: &A)
    ensures lines { SilenceIsUnasked (A.rules asked.now) }
    ensures first { FirstLinesAreAnswered (A.rules asked.now) }
    ensures runs { SilentRunsAreUnasked (A.rules asked.now) }
    ensures unasked { UnaskedLinesAreSilent (A.rules asked.now) }
    ensures certificates { CertificatesAnswerTheQuestion (A.rules asked.now) }
    ensures reports { ReportsAnswerTheQuestion (A.rules asked.now) }
{
    let _ = asked;
}

/// No report names a least plan, and none names a bound except where memory was refused. Other such
/// answers are written as certificates, whose status says whether a plan or a bound is claimed.
#[tactic(auto, using(crate::proofs::HeadlineLemmas::certified, crate::proofs::HeadlineLemmas::bounds_certified, crate::proofs::HeadlineLemmas::claims_of_endings, crate::proofs::HeadlineLemmas::statuses_tell))]
pub fn least_plans_are_certified()
    ensures plans { LeastPlansAreCertified }
    ensures bounds { BoundsAreCertified }
    ensures claims { ClaimsAreOfEndings }
    ensures status { StatusesTellClaims }
{}

/// A bound is reported only of a board that may be answered by it without rows, and nothing of one
/// that may be answered only by what has rows.
pub fn outcomes_with_rows_are_certified<A: ProofRuled>(asked: &A)
    ensures bounds { ReportedBoundsLackRows (A.rules asked.now) }
    ensures outcomes { OutcomesWithRowsAreCertified (A.rules asked.now) }
{
    let _ = asked;
}

/// A certificate that answers a task is of the task's start, goal and costs, and its rows prove it.
/// A plan that it claims is a least one of the task, and no plan of the task costs less than a
/// bound that it claims.
#[tactic(auto, using(crate::proofs::HeadlineLemmas::certified_least, crate::proofs::HeadlineLemmas::certified_below, crate::proofs::HeadlineLemmas::certified_task, crate::proofs::HeadlineLemmas::certified_proved))]
pub fn certificates_tell_of_tasks()
    ensures plans { CertifiedPlansAreLeast }
    ensures bounds { CertifiedBoundsAreBelow }
    ensures tasks { CertificatesAreOfTasks }
    ensures rows { CertificatesAreProved }
{}

/// A certificate claims what an outcome says that its board may be answered by, and has its rows.
/// V3 is reported, memory is refused for groups, and a bound is said only where the rules allow it.
#[tactic(auto, using(crate::proofs::HeadlineLemmas::of_outcomes, crate::proofs::HeadlineLemmas::wants_of_rules, crate::proofs::HeadlineLemmas::groups_wanted, crate::proofs::HeadlineLemmas::bounds_lack))]
pub fn replies_are_of_rules<A: ProofRuled>(asked: &A)
    ensures certificates { CertificatesAreOfOutcomes (A.rules asked.now) }
    ensures wants { WantsAreOfRules (A.rules asked.now) }
    ensures groups { GroupsAreWantedForRows (A.rules asked.now) }
    ensures bounds { SaidBoundsLackRows (A.rules asked.now) }
{
    let _ = asked;
}

/// A verdict is given, or memory is refused for one, only where a certificate was read or a fault
/// of the bytes.
#[tactic(auto, using(crate::proofs::HeadlineLemmas::for_verdicts, crate::proofs::HeadlineLemmas::on_what_was_read))]
pub fn verdicts_are_on_what_was_read()
    ensures verdicts { VerdictsAreOnWhatWasRead }
    ensures wants { WantsAreForVerdicts }
{}

/// A verdict that is true of an input says of a certificate that its plan is least, or that no plan
/// costs less than its bound; or it says the fault by which the input is refused.
#[tactic(auto, using(crate::proofs::HeadlineLemmas::accepted_least, crate::proofs::HeadlineLemmas::accepted_below, crate::proofs::HeadlineLemmas::refused_by, crate::proofs::HeadlineLemmas::either_said))]
pub fn verdicts_tell_of_plans()
    ensures costs { AcceptedCostsAreLeast }
    ensures bounds { AcceptedBoundsAreBelow }
    ensures refused { RefusedInputsHaveTheFault }
    ensures either { VerdictsAcceptOrRefuse }
{}

/// An input is refused with the code of its first fault, or of the first cause against the
/// certificate that it is. So it is where the input is to be drawn.
#[tactic(auto, using(crate::proofs::HeadlineLemmas::faulty_code, crate::proofs::HeadlineLemmas::refused_cause, crate::proofs::HeadlineLemmas::mistaken_code, crate::proofs::HeadlineLemmas::mistaken_cause))]
pub fn refusals_have_their_code()
    ensures faults { FaultyInputsHaveTheirCode }
    ensures causes { RefusedCertificatesHaveACause }
    ensures mistakes { MistakenInputsHaveTheirCode }
    ensures plans { MistakenCertificatesHaveACause }
{}

/// Where the input is known and the sink was empty, a run that ends well leaves there a true
/// verdict on the input, its spelling in version 2, or its drawing, and nothing else.
#[tactic(auto, using(crate::proofs::HeadlineLemmas::verdicts_written, crate::proofs::HeadlineLemmas::upgrades_written, crate::proofs::HeadlineLemmas::drawings_written))]
pub fn runs_leave_what_they_tell()
    ensures verdicts { VerdictsAreWritten }
    ensures upgrades { UpgradesAreWritten }
    ensures drawings { DrawingsAreWritten }
{}

/// A run that draws or upgrades and ends by another fault than one of writing leaves the sink as it
/// was. Memory is refused for a report only where one is due, and for a drawing only where it is.
#[tactic(auto, using(crate::proofs::EndLemmas::drew_nothing, crate::proofs::EndLemmas::upgraded_nothing, crate::proofs::EndLemmas::drawings_lack))]
pub fn other_faults_draw_nothing()
    ensures drawings { OtherFaultsDrawNothing }
    ensures upgrades { OtherFaultsUpgradeNothing }
    ensures memory { DrawingsLackTheirOwn }
{}

/// A run over a certificate says that it can't be read exactly where the source has failed, and that
/// its output can't be written where the sink has failed. No other run lets the sink fail.
#[tactic(auto, using(crate::proofs::EndLemmas::failed_certificates, crate::proofs::EndLemmas::failed_verdicts))]
pub fn failed_certificates_are_named()
    ensures sources { FailedCertificatesAreTold }
    ensures sinks { FailedVerdictsAreTold }
{}

/// The line that a check leaves says that the certificate is accepted with the status 0, and that it
/// is refused with the status 5. Whatever the source is, only a proved certificate has the status 0,
/// and only a fault or a cause against it another one. A check accepts what a run that answers a line
/// writes as a certificate. Where the input is known and the sink was empty, a run that can't write leaves a
/// beginning of a true verdict, of the spelling in version 2, or of the drawing.
pub fn checks_end_as_reported()
    ensures statuses { VerdictStatusesTell }
    ensures proved { ChecksAcceptWhatIsProved }
    ensures refused { ChecksRefuseForACause }
    ensures accepted { CertificatesAreAccepted }
    ensures verdicts { EarlyVerdictsBegin }
    ensures upgrades { EarlyUpgradesBegin }
    ensures drawings { EarlyDrawingsBegin }
{}

/// A certificate that a run writes for a line is drawn, and an upgrade leaves its bytes as they are.
/// No refusal of memory hides a fault of the bytes that were taken.
#[tactic(auto, using(crate::proofs::EndLemmas::taken_as_written, crate::proofs::EndLemmas::no_fault_hidden))]
pub fn certificates_are_taken_as_written()
    ensures taken { CertificatesAreTakenAsWritten }
    ensures memory { MemoryHidesNoFault }
{}

/// How a run ends that answers the board line: the first line that isn't passed over. Its status
/// tells of the output that it leaves. A certificate or a report that can't be written is begun.
/// Memory is refused for a report only where something may be reported. No line behind the board
/// line is taken.
pub fn answers_end_as_reported<A: ProofRuled>(asked: &A)
    ensures status { AnswerStatusesTell (A.rules asked.now) }
    ensures certificates { EarlyCertificatesBegin (A.rules asked.now) }
    ensures reports { EarlyReportsBegin (A.rules asked.now) }
    ensures memory { ReportsLackTheirOwn (A.rules asked.now) }
    ensures behind { NothingBehindIsTaken (A.rules asked.now) }
{
    let _ = asked;
}

/// Such a run says that the input can't be read, or its output written, where a stream has failed.
/// No other run leaves a source that has failed, or lets the sink fail.
#[tactic(auto, using(crate::proofs::EndLemmas::failed_lines, crate::proofs::EndLemmas::failed_replies))]
pub fn failed_lines_are_named<A: ProofRuled>(asked: &A)
    ensures sources { FailedLinesAreTold (A.rules asked.now) }
    ensures sinks { FailedRepliesAreTold (A.rules asked.now) }
{
    let _ = asked;
}

/// No two faults of a run have the same code, except that both refusals of memory of a run that
/// answers a line have one.
pub fn run_codes_differ()
    ensures certify { CertifyCodesDiffer }
    ensures check { CheckCodesDiffer }
    ensures upgrade { UpgradeCodesDiffer }
{}
