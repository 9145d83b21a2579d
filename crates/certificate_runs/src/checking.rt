//! A certificate in, a verdict out.

ghost use Rattle.std.specs.Prelude.{◌≡◌, ◌↔◌, IfOk, IsOk, IsErrOf, OnOk, IsSome, string_bytes};
ghost use Rattle.board.specs.Plans.{NothingBelow, IsLeast};
ghost use Rattle.certificate_check.specs.declared.refusals.Refusal.{Refusal};
ghost use Rattle.certificate_check.specs.Refusals.{AreTablesFit, IsProved, IsFirstRefusal};
ghost use Rattle.byte_streams.specs.Streams.{change};
ghost use Rattle.certificate_runs.specs.Checking.{IsJudgementBy, IsRefusedReport, Checks};
ghost use Rattle.certificate_runs.specs.Checking.{claim_data, PutsVerdict};
ghost use Rattle.certificate.specs.Certificates.{cost_of, plan_of};
ghost use Rattle.batch_runs.specs.Reports.{report_text};
ghost use Rattle.certificate_runs.specs.Checking.{verdict_output};
ghost use Rattle.certificate_runs.specs.Headline.{IsTrueCheck};
ghost use Rattle.certificate_runs.specs.Built.{AreBuiltFor};

use crate::faults::CheckFault;
use batch_runs::{NoReport, accepted_bound_report, accepted_report, refused_certificate_report};
use byte_streams::{Sink, Source};
use certificate::{Certificate, Claim, ReadFault, read};
use certificate_check::{Refusal, check_fit, check_fit_parallel};
use lower_bound::Bound;
use memory::OutOfMemory;
use std::alloc::Global;
use std::thread::Threads;
use table_sets::build_bound;

// From this number of rows on, several threads look at them. Fewer rows are checked in less time
// than would pay for the threads.
const PARALLEL_ROWS: usize = 4_096;

/// Checks the certificate that the source spells with tables that are built for its groups, and
/// writes one line: the least cost or the bound, or the code of the first fault. Answers the
/// status: 0 where it is accepted, 5 where it is refused. Several threads build large tables side
/// by side, and check many rows side by side.
///
/// Nothing is written where the source fails, or where there is no memory for the certificate, for
/// its tables or for the line. Nothing is flushed.
pub fn run_check<R: Threads + Sync, S: Source, K: Sink>(
    rt: &R,
    alloc: Global,
    source: &mut S,
    sink: &mut K,
) -> Result<u8, CheckFault>
    ensures checks { Checks (change S.state source.old source.new)
        (change K.state sink.old sink.new) result }
    ensures truth { IsTrueCheck (change S.state source.old source.new)
        (change K.state sink.old sink.new) result }
{
    check_source(rt, alloc, source, sink)
}

// The same, by what was read.
fn check_source<R: Threads + Sync, S: Source, K: Sink>(
    rt: &R,
    alloc: Global,
    source: &mut S,
    sink: &mut K,
) -> Result<u8, CheckFault>
    ensures { Checks (change S.state source.old source.new) (change K.state sink.old sink.new)
        result }
{
    match read(alloc, source) {
        Ok(certificate) => match build_for(rt, alloc, &certificate) {
            Ok(bound) => match judge(rt, alloc, &certificate, &bound) {
                Ok((text, status)) => put_verdict(sink, text.as_str(), status),
                Err(lacking) => Err(CheckFault::Memory(lacking)),
            },
            Err(refused) => Err(CheckFault::CertificateMemory(refused)),
        },
        Err(ReadFault::Format(fault)) => match refuse(alloc, fault.code()) {
            Ok((text, status)) => put_verdict(sink, text.as_str(), status),
            Err(lacking) => Err(CheckFault::Memory(lacking)),
        },
        Err(ReadFault::Failed) => Err(CheckFault::CertificateRead),
        Err(ReadFault::NoMemory(refused)) => Err(CheckFault::CertificateMemory(refused)),
    }
}

// The groups of a certificate with their tables, for its goal and costs.
fn build_for<R: Threads + Sync>(
    rt: &R,
    alloc: Global,
    certificate: &Certificate,
) -> Result<Bound, OutOfMemory>
    ensures built { IfOk result (AreBuiltFor certificate.now) }
    ensures fit { IfOk result (AreTablesFit certificate.now) }
{
    // The contract of this call says what holds of every certificate, such as that its boards are
    // of one shape.
    let _ = certificate.shape();
    let groups = certificate.groups().copy(alloc)?;
    build_bound(rt, alloc, groups, &certificate.goal(), &certificate.costs())
}

// The line that is written of a certificate that is checked with these tables, and its status.
fn judge<R: Threads + Sync>(
    rt: &R,
    alloc: Global,
    certificate: &Certificate,
    bound: &Bound,
) -> Result<(String, u8), NoReport>
    requires fit { AreTablesFit certificate.now bound.now }
    ensures { IfOk result
        (λ verdict. IsJudgementBy bound.now certificate.now (verdict_output verdict)) }
{
    match check_certificate(rt, certificate, bound) {
        Ok(()) => Ok((accept(alloc, certificate.claim())?, 0)),
        Err(refusal) => refuse(alloc, refusal.code()),
    }
}

// The line that is written of a claim that is proved.
fn accept(alloc: Global, claim: &Claim) -> Result<String, NoReport>
    ensures { IfOk result (λ text. string_bytes text
        ≡ report_text (claim_data (plan_of claim.now) (cost_of claim.now))) }
{
    match claim {
        Claim::Least { cost, .. } => accepted_report(alloc, *cost),
        Claim::Bound { bound } => accepted_bound_report(alloc, *bound),
    }
}

// What the checker says: by several threads where there are many rows, else in this one. The tables
// are fit as they were built, so they are not tested.
fn check_certificate<R: Threads + Sync>(
    rt: &R,
    certificate: &Certificate,
    bound: &Bound,
) -> Result<(), Refusal>
    requires fit { AreTablesFit certificate.now bound.now }
    ensures accepted { IsOk result ↔ IsProved certificate.now bound.now }
    ensures below { OnOk result
        (NothingBelow certificate.now.costs certificate.now.start certificate.now.goal
        certificate.now.cost) }
    ensures least { IsSome certificate.now.plan → OnOk result
        (IsLeast certificate.now.costs certificate.now.start certificate.now.goal
        certificate.now.cost) }
    ensures refused { (refusal : Refusal) →
        IsErrOf result refusal ↔ IsFirstRefusal certificate.now bound.now refusal }
{
    if certificate.rows().len() < PARALLEL_ROWS {
        return check_fit(certificate, bound);
    }
    check_fit_parallel(rt, certificate, bound).unwrap()
}

// The line that is written of a fault, and its status.
pub(crate) fn refuse(alloc: Global, code: &str) -> Result<(String, u8), NoReport>
    ensures { IfOk result (λ verdict. IsRefusedReport code.now (verdict_output verdict)) }
{
    Ok((refused_certificate_report(alloc, code)?, 5))
}

// Writes the line of a verdict, and answers its status.
pub(crate) fn put_verdict<K: Sink>(sink: &mut K, text: &str, status: u8) -> Result<u8, CheckFault>
    ensures { PutsVerdict (change K.state sink.old sink.new)
        (record { text = text.now; status = status }) result }
{
    put_output(sink, text.as_bytes(), status)
}

// Writes bytes, and answers the status.
pub(crate) fn put_output<K: Sink>(sink: &mut K, text: &[u8], status: u8) -> Result<u8, CheckFault>
    ensures { PutsVerdict (change K.state sink.old sink.new)
        (record { text = text.now; status = status }) result }
{
    match sink.put(text) {
        Ok(()) => Ok(status),
        Err(_) => Err(CheckFault::Write),
    }
}
