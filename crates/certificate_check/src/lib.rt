//! The checker of certificates: what an accepted certificate claims is true, whoever made it.
//!
//! - `check` and `check_parallel` answer Ok exactly where `IsProved`, else the first refusal
//!   (`IsFirstRefusal`). Neither takes memory.
//! - Both judge plan, tables, start's and goal's row (`check_up_to_rows`), find the first open
//!   successor, and conclude. Only the search for it differs. `check_plan` looks at the plan alone.
//! - Threads look at blocks of 4,096 rows; `find_open` goes on from the first block not known to be
//!   closed. An atomic notes an open block, so that later ones are skipped; no proof rests on it.
//! - A successor's row is looked up near the row of its parent: neighbours in rank lie at similar
//!   distances (`Distances`).
//! - `bench/check` times it. Start with `specs/Refusals.antt`, then `src/lib.rt`,
//!   `src/checking.rt`.
#![tactic(auto)]

mod checking;
mod groups;
pub mod laws;
mod lookups;
mod parallel;
mod plan;
mod refusals;
mod rows;
mod successors;

ghost use Rattle.std.specs.Prelude.{IsOk, IfOk};
ghost use Rattle.certificate_check.specs.Refusals.{AreTablesFit, IsVerdict};

use certificate::Certificate;
use checking::{check_fit_up_to_rows, check_up_to_rows, conclude};
use lower_bound::Bound;
use memory::OutOfMemory;
use parallel::find_open_parallel;
pub use plan::check_plan;
pub use refusals::Refusal;
use std::thread::Threads;
use successors::find_open;

/// Whether a certificate proves what it claims with these tables. Three things have to hold:
///
/// - The plan, if there is one, leads from the start to the goal at the stated cost.
/// - The tables are those of its groups, whole, and potentials for its goal and costs.
/// - The rows show with the tables' sums that no plan is cheaper. A row is a board with what it
///   costs at most to reach it.
///
/// The cost of a plan is then the least, and no plan undercuts a bound.
///
/// Else the answer is the first cause to refuse, in the order of the codes. Of a plan:
///
/// - C1: its first illegal move.
/// - C2: another end.
/// - C3: another cost.
///
/// Of plans and bounds, where a bound is the stated cost of its certificate:
///
/// - C4: the first place at which the groups differ, or whose table is folded or no potential. It
///   is the first place of all where the shapes differ.
/// - C5: no row of the start at 0, although the start's sum is below the stated cost. Where the sum
///   is that cost or more, no row is asked for.
/// - C6: the first row of the goal.
/// - C7: the first row, and its first move in the order up, left, right and down, that leaves a
///   board open. The row's cost and the move's are what going there costs. With the sum of the
///   board there it is below the stated cost, and that board has no row, or one of a greater cost.
///
/// A folded table is refused whatever it was folded from, since that can't be seen from it alone.
///
/// The time grows as the sizes of the tables and as the count of rows times its logarithm, and no
/// memory is taken.
pub fn check(certificate: &Certificate, bound: &Bound) -> Result<(), Refusal>
    ensures { IsVerdict certificate.now bound.now result }
{
    if let Err(refusal) = check_up_to_rows(certificate, bound) {
        return Err(refusal);
    }
    let first_open = find_open(certificate, bound, 0);
    conclude(certificate, bound, first_open)
}

/// The same answer as that of `check`, for which several threads look at the rows. It takes no
/// memory itself, and answers `Ok` always, as the clause `answered` says.
pub fn check_parallel(
    rt: &(impl Threads + Sync),
    certificate: &Certificate,
    bound: &Bound,
) -> Result<Result<(), Refusal>, OutOfMemory>
    ensures answered { IsOk result }
    ensures verdict { IfOk result (IsVerdict certificate.now bound.now) }
{
    if let Err(refusal) = check_up_to_rows(certificate, bound) {
        return Ok(Err(refusal));
    }
    let first_open = find_open_parallel(rt, certificate, bound);
    Ok(conclude(certificate, bound, first_open))
}

/// The same answer as that of `check`, where the tables are known to be those of the certificate's
/// groups, whole, and potentials for its goal and costs, as those are that `build_bound` makes for
/// it. They are not tested, so the time doesn't grow with their sizes.
pub fn check_fit(certificate: &Certificate, bound: &Bound) -> Result<(), Refusal>
    requires fit { AreTablesFit certificate.now bound.now }
    ensures { IsVerdict certificate.now bound.now result }
{
    if let Err(refusal) = check_fit_up_to_rows(certificate, bound) {
        return Err(refusal);
    }
    conclude(certificate, bound, find_open(certificate, bound, 0))
}

/// The same answer as that of `check_fit`, for which several threads look at the rows. It takes no
/// memory itself, and answers `Ok` always, as the clause `answered` says.
pub fn check_fit_parallel(
    rt: &(impl Threads + Sync),
    certificate: &Certificate,
    bound: &Bound,
) -> Result<Result<(), Refusal>, OutOfMemory>
    requires fit { AreTablesFit certificate.now bound.now }
    ensures answered { IsOk result }
    ensures verdict { IfOk result (IsVerdict certificate.now bound.now) }
{
    if let Err(refusal) = check_fit_up_to_rows(certificate, bound) {
        return Ok(Err(refusal));
    }
    Ok(conclude(
        certificate,
        bound,
        find_open_parallel(rt, certificate, bound),
    ))
}
