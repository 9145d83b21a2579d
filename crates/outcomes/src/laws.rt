//! The laws of the definitions: each is the contract of a function that does nothing.

ghost use Rattle.outcomes.specs.Laws.{OptimalsAgree, OptimalsAreSolvable, BoundsAreBelow};
ghost use Rattle.outcomes.specs.Laws.{ParityIsOfAnotherClass, BestPlansAreAbove};
ghost use Rattle.outcomes.specs.Laws.{RowsProveBounds, BoundsLackRowsForMemory, EndingsHaveProofs};
ghost use Rattle.outcomes.specs.Laws.{BoundsAreLow, BoundsReachTheStart, BoundsForCostAreHigh};
ghost use Rattle.outcomes.specs.Laws.{RowsCanBeLeft};
ghost use Rattle.std.specs.Prelude.{◌≡◌, ◌↔◌, IsTrue};

use crate::faults::SolveFault;
use crate::outcome::{Cause, Why};

/// Optimal outcomes of one task have one cost.
pub fn optimals_agree()
    ensures { OptimalsAgree }
{}

/// No task has an optimal outcome and is unsolvable.
pub fn optimals_are_solvable()
    ensures { OptimalsAreSolvable }
{}

/// A bound is at most the optimal cost.
pub fn bounds_are_below()
    ensures { BoundsAreBelow }
{}

/// Parity is the reason only where the start isn't in the goal's class.
pub fn parity_is_of_another_class()
    ensures { ParityIsOfAnotherClass }
{}

/// The best plan beside a bound leads to the goal, at a cost above the bound.
pub fn best_plans_are_above()
    ensures { BestPlansAreAbove }
{}

/// The rows of a bound prove it by themselves; it has some unless memory was refused.
pub fn rows_prove_bounds()
    ensures rows { RowsProveBounds }
    ensures none { BoundsLackRowsForMemory }
{}

/// No bound is above the greatest cost and the greatest sum together, or below the start's sum.
pub fn bounds_are_low()
    ensures low { BoundsAreLow }
    ensures start { BoundsReachTheStart }
{}

/// A bound for the cost is above the greatest cost at which a run expands a board.
pub fn bounds_for_cost_are_high()
    ensures { BoundsForCostAreHigh }
{}

/// Whether two reasons are the same.
pub fn reasons_are_compared(a: Why, b: Why) -> bool
    ensures { IsTrue result ↔ (a ≡ b) }
{
    a == b
}

/// Whether two causes are the same.
pub fn causes_are_compared(a: Cause, b: Cause) -> bool
    ensures { IsTrue result ↔ (a ≡ b) }
{
    a == b
}

/// Whether two faults are the same.
pub fn faults_are_compared(a: SolveFault, b: SolveFault) -> bool
    ensures { IsTrue result ↔ (a ≡ b) }
{
    a == b
}

/// Rows that prove what an ending says of a cost exist, though it lists none.
pub fn endings_have_proofs()
    ensures { EndingsHaveProofs }
{}

/// What answers a task does so without rows too.
pub fn rows_can_be_left()
    ensures { RowsCanBeLeft }
{}
