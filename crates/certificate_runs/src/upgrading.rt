//! A certificate in, the same in version 2 out.

ghost use Rattle.byte_streams.specs.Streams.{change};
ghost use Rattle.batch_runs.specs.Batches.{LeavesFlushed};
ghost use Rattle.certificate_runs.specs.Upgrading.{Upgrades};
ghost use Rattle.certificate_runs.specs.Headline.{IsTrueUpgrade};

use crate::certifying::put_certificate;
use crate::faults::UpgradeFault;
use byte_streams::{Sink, Source};
use certificate::{ReadFault, read};
use std::alloc::Global;

/// Reads the certificate that the source spells and writes the same in version 2. A certificate in
/// version 2 is written as it is. Answers the status: 0 where it is written, 5 where the bytes
/// spell none, and then nothing is written. What a certificate claims is not checked.
///
/// Nothing is written where the source fails, or where there is no memory for the certificate. What
/// is written is flushed, and a flush that fails counts as a write that failed.
pub fn run_upgrade<S: Source, K: Sink>(
    alloc: Global,
    source: &mut S,
    sink: &mut K,
) -> Result<u8, UpgradeFault>
    ensures upgrades { Upgrades (change S.state source.old source.new)
        (change K.state sink.old sink.new) result }
    ensures truth { IsTrueUpgrade (change S.state source.old source.new)
        (change K.state sink.old sink.new) result }
    ensures flushed { LeavesFlushed K.is_flushed K.state sink.old sink.new }
{
    upgrade_source(alloc, source, sink)
}

// The same, by what was read.
fn upgrade_source<S: Source, K: Sink>(
    alloc: Global,
    source: &mut S,
    sink: &mut K,
) -> Result<u8, UpgradeFault>
    ensures upgrades { Upgrades (change S.state source.old source.new)
        (change K.state sink.old sink.new) result }
    ensures flushed { LeavesFlushed K.is_flushed K.state sink.old sink.new }
{
    match read(alloc, source) {
        Ok(certificate) => match put_certificate(sink, &certificate.upgrade()) {
            Ok(()) => Ok(0),
            Err(_) => Err(UpgradeFault::CertificateWrite),
        },
        Err(ReadFault::Format(_)) => Ok(5),
        Err(ReadFault::Failed) => Err(UpgradeFault::CertificateRead),
        Err(ReadFault::NoMemory(refused)) => Err(UpgradeFault::CertificateMemory(refused)),
    }
}
