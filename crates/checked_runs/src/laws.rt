//! The laws of the definitions: each is the contract of a function that does nothing.

ghost use Rattle.checked_runs.specs.Faults.{CheckedCodesDiffer};
ghost use Rattle.checked_runs.specs.Laws.{OwnTablesAreAsGood, TablesFoldedFromAreAsGood};
ghost use Rattle.checked_runs.specs.Laws.{BoundsAreAccepted, PlansAreAccepted, ProvedPlansAreLeast};
ghost use Rattle.checked_runs.specs.Laws.{BoundsHaveCertificates, PlansHaveCertificates};
ghost use Rattle.checked_runs.specs.Laws.{ProvedPlansHaveFitTables, NoPlanIsBelowAProvedOne};
ghost use Rattle.checked_runs.specs.Laws.{ProvedBoundsHold, CheckedRunsAreRuns};
ghost use Rattle.checked_runs.specs.Laws.{ProvedBoundsHaveFitTables, NoPlanIsBelowAProvedBound};
ghost use Rattle.checked_runs.specs.Laws.{CheckedPlansAreSolved, CheckedRunsAreTheirs};
ghost use Rattle.checked_runs.specs.Laws.{RefusedRunsAreTheirs};
ghost use Rattle.checked_runs.specs.Laws.{UncertifiedPlansGiveTheirCost};

use board::laws::{keys_are_in_order, rows_suffice};
use lower_bound::laws::sums_are_lower_bounds;
use owners::Spread;

/// The tables of a problem are as good as themselves, where they are whole and potentials: no
/// certificate is refused with them.
pub fn own_tables_are_as_good()
    ensures { OwnTablesAreAsGood }
{}

/// Where they were folded, the whole tables that they were folded from are as good, where those are
/// potentials: no certificate of a run that was guided by folded tables is refused with them.
#[tactic(auto, using(crate::proofs::OutcomeLemmas::folded_from))]
pub fn tables_folded_from_are_as_good()
    ensures { TablesFoldedFromAreAsGood }
{}

/// The checker accepts the rows of each bound that answers a problem, with tables as good. They make
/// a certificate of version 2.
pub fn bounds_are_accepted()
    ensures accepted { BoundsAreAccepted }
    ensures certificates { BoundsHaveCertificates }
{
    keys_are_in_order();
}

/// The checker accepts the plan and the rows of each optimal outcome that answers a problem, with
/// tables as good. `World::finish`, `solve` and `solve_one` ensure `Answers`, so it accepts theirs.
/// They make a certificate of version 2.
pub fn plans_are_accepted()
    ensures accepted { PlansAreAccepted }
    ensures certificates { PlansHaveCertificates }
{
    keys_are_in_order();
}

/// A plan that is called least, and is proved with tables, leads to the goal at its cost, which its
/// rows prove with the sums of these tables. The tables are whole, of the problem's groups, and
/// potentials for its costs and goal. So every plan that leads there costs at least as much.
pub fn proved_plans_are_least()
    ensures plans { ProvedPlansAreLeast }
    ensures tables { ProvedPlansHaveFitTables }
    ensures least { NoPlanIsBelowAProvedOne }
{
    rows_suffice();
    sums_are_lower_bounds();
}

/// The rows of a bound's certificate that is proved with tables prove the bound with the sums of
/// these tables, from the problem's start to its goal. The tables are whole, of the problem's groups,
/// and potentials for its costs and goal. So no plan that leads there costs less than the bound.
pub fn proved_bounds_hold()
    ensures rows { ProvedBoundsHold }
    ensures tables { ProvedBoundsHaveFitTables }
    ensures below { NoPlanIsBelowAProvedBound }
{
    rows_suffice();
    sums_are_lower_bounds();
}

/// For the outcome of a checked run, and for a certificate that is refused, there is an outcome
/// that n workers answer, or one alone. Where memory is refused for the groups of a certificate, the
/// bound is the cost of its plan.
#[tactic(auto, using(crate::proofs::OutcomeLemmas::run_behind))]
pub fn checked_runs_are_runs<S: Spread>()
    ensures runs { CheckedRunsAreRuns S.owner_of }
    ensures costs { UncertifiedPlansGiveTheirCost S.owner_of }
{}

/// A plan that a checked run calls least is that of n workers, or of one alone. So is each other
/// outcome, unless it is the cost of their plan, for whose groups memory was refused. A certificate
/// that is refused is that of a plan of theirs, too, and isn't proved.
#[tactic(auto, using(crate::proofs::OutcomeLemmas::plans_solved, crate::proofs::OutcomeLemmas::refusals_theirs))]
pub fn checked_plans_are_solved<S: Spread>()
    ensures plans { CheckedPlansAreSolved S.owner_of }
    ensures others { CheckedRunsAreTheirs S.owner_of }
    ensures refused { RefusedRunsAreTheirs S.owner_of }
{}

/// A count of workers, memory that was refused, and a certificate that was refused are reported by
/// different codes, whatever the refusal is.
pub fn checked_codes_differ()
    ensures { CheckedCodesDiffer }
{}
