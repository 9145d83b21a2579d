//! What both searches for an open successor share: what comes before it, and what is said then.

ghost use Rattle.std.specs.Prelude.{ℕ, IfSome, IsNone};
ghost use Rattle.board.specs.declared.moves.Move.{Move};
ghost use Rattle.certificate_check.specs.Refusals.{AreTablesFit, ItsPlanLeads, IsProvedUpToRows};
ghost use Rattle.certificate_check.specs.Refusals.{IsJudgedUpToRows, IsVerdict, IsFirstOpen};
ghost use Rattle.certificate_check.specs.Refusals.{LeavesOpenAt};
ghost use Rattle.certificate.specs.Certificates.{IsCertificate};

use crate::groups::find_unfit;
use crate::plan::check_plan;
use crate::refusals::Refusal;
use crate::rows::{find_row, is_start_proved};
use board::Move;
use certificate::Certificate;
use lower_bound::Bound;
use lower_bound::laws::sums_are_lower_bounds;

// All that is looked at before the successors of the rows: the first cause of C1 to C6 to refuse.
pub(crate) fn check_up_to_rows(certificate: &Certificate, bound: &Bound) -> Result<(), Refusal>
    ensures judged { IsJudgedUpToRows certificate.now bound.now result }
    ensures certificate { IsCertificate certificate.now }
{
    // The contract of this call says what holds of every certificate, such as that its rows rise.
    let _ = certificate.shape();
    if let Err(refusal) = check_plan(certificate) {
        return Err(refusal);
    }
    if let Some(place) = find_unfit(certificate, bound) {
        return Err(Refusal::UnfitGroup(place));
    }
    check_start(certificate, bound)
}

// The same, where the tables are known to be fit: they are not tested.
pub(crate) fn check_fit_up_to_rows(certificate: &Certificate, bound: &Bound) -> Result<(), Refusal>
    requires fit { AreTablesFit certificate.now bound.now }
    ensures judged { IsJudgedUpToRows certificate.now bound.now result }
    ensures certificate { IsCertificate certificate.now }
{
    let _ = certificate.shape();
    match check_plan(certificate) {
        Ok(()) => check_start(certificate, bound),
        Err(refusal) => Err(refusal),
    }
}

// What is looked at between the tables and the rows: that the start has a row or needs none, and
// that the goal has none.
fn check_start(certificate: &Certificate, bound: &Bound) -> Result<(), Refusal>
    requires plan { ItsPlanLeads certificate.now }
    requires fit { AreTablesFit certificate.now bound.now }
    ensures { IsJudgedUpToRows certificate.now bound.now result }
{
    let _ = certificate.shape();
    if !is_start_proved(certificate, bound) {
        return Err(Refusal::StartUnproved);
    }
    if let Some(place) = find_row(certificate, &certificate.goal()) {
        return Err(Refusal::GoalRow(place));
    }
    Ok(())
}

// The answer, by the first open successor where there is one.
pub(crate) fn conclude(
    certificate: &Certificate,
    bound: &Bound,
    first_open: Option<(usize, Move)>,
) -> Result<(), Refusal>
    requires up_to { IsProvedUpToRows certificate.now bound.now }
    requires first { IfSome first_open (λ found.
        IsFirstOpen certificate.now bound.now found.0 found.1) }
    requires none { IsNone first_open → (place : ℕ) (m : Move) →
        ¬ LeavesOpenAt certificate.now bound.now place m }
    ensures { IsVerdict certificate.now bound.now result }
{
    // The contracts of the first two calls say what holds of every certificate and of every bound.
    // The last call is the law that sums of potentials are lower bounds.
    let _ = certificate.shape();
    let _ = bound.partition();
    sums_are_lower_bounds();
    match first_open {
        Some(found) => Err(Refusal::OpenSuccessor(found.0, found.1)),
        None => Ok(()),
    }
}
