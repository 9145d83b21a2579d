//! Worked runs that the definitions allow: each is the contract of a function that does nothing.

ghost use Rattle.std.specs.Prelude.{◌≡◌};
ghost use Rattle.world_model.specs.Worked.{PlanIsGiven, CutIsGiven, HaltIsGiven, LimitIsGiven};
ghost use Rattle.world_model.specs.Worked.{RefusalsAreGiven, RefusalsOnTheWayAreGiven};
ghost use Rattle.world_model.specs.Worked.{BoardIsExpandedAgain, RelaxationsLower};
ghost use Rattle.world_model.specs.WorkedSteps.{FullLanesRefuse, FullPursesRefuse};
ghost use Rattle.world_model.specs.WorkedSteps.{FullCreditsRefuse, FullPacketsRefuse};
ghost use Rattle.world_model.specs.WorkedSteps.{LastIsSettled, SuccessorsAreInOrder};
ghost use Rattle.world_model.specs.WorkedSteps.{LowerGoalsAreAnnounced, GrantsAreWhole};
ghost use Rattle.world_model.specs.WorkedSteps.{FloorsAreKept, LimitsAreHaltedAt};
ghost use Rattle.world_model.specs.WorkedOutcomes.{WorldsAreReached, MemoryIsGiven};
ghost use Rattle.world_model.specs.WorkedOutcomes.{StartIsGiven, EmptyPlanIsGiven};
ghost use Rattle.world_model.specs.WorkedOutcomes.{PlanAboveIsGiven, NoRowsAreGiven};
ghost use Rattle.world_model.specs.WorkedOutcomes.{ThreeRowsAreGiven, UnsolvableIsGiven};
ghost use Rattle.world_model.specs.WorkedOutcomes.{CostIsGiven, OpeningsAreNotKept};
ghost use Rattle.world_model.specs.WorkedOutcomes.{JobsAreOfAllCounts};

use crate::limits::{CREDIT_DRAWN, GREATEST_GRANT, LANE_LIMIT, PACKET_LIMIT, WORKER_LIMIT};

/// Two workers find a plan of one move; or the run is cut, or halted, before they do.
#[tactic(auto, using(crate::proofs::WorkedLemmas::plan_given, crate::proofs::WorkedLemmas::cut_given, crate::proofs::WorkedLemmas::halt_given, crate::proofs::WorkedLemmas::limit_given))]
pub fn one_move()
    ensures plan { PlanIsGiven }
    ensures cut { CutIsGiven }
    ensures halt { HaltIsGiven }
    ensures limit { LimitIsGiven }
{}

/// What is refused in an opening world, and later.
#[tactic(auto, using(crate::proofs::WorkedLemmas::refusals_given, crate::proofs::WorkedLemmas::way_given))]
pub fn refusals()
    ensures opening { RefusalsAreGiven }
    ensures way { RefusalsOnTheWayAreGiven }
{}

/// What a relaxation makes of a board that is closed.
pub fn relaxations()
    ensures { RelaxationsLower }
{}

/// A board that was expanded is met at a lower cost, and expanded again.
#[tactic(auto, using(crate::proofs::WorkedLemmas::again_given))]
pub fn expanded_again()
    ensures { BoardIsExpandedAgain }
{}

/// How many there may be of each, in figures.
pub fn limits()
    ensures workers { WORKER_LIMIT ≡ 16 }
    ensures items { PACKET_LIMIT ≡ 32 }
    ensures packets { LANE_LIMIT ≡ 64 }
    ensures credit { CREDIT_DRAWN ≡ 64 }
    ensures grant { GREATEST_GRANT ≡ 256 }
{}

/// What a step does at a limit, and just below it.
#[tactic(auto, using(crate::proofs::WorkedLemmas::full_packets, crate::proofs::WorkedLemmas::full_lanes, crate::proofs::WorkedLemmas::full_purses, crate::proofs::WorkedLemmas::full_credits))]
pub fn full_parts()
    ensures packets { FullPacketsRefuse }
    ensures lanes { FullLanesRefuse }
    ensures purses { FullPursesRefuse }
    ensures credits { FullCreditsRefuse }
{}

/// The order in which items are settled and sent.
#[tactic(auto, using(crate::proofs::WorkedLemmas::last_settled, crate::proofs::WorkedLemmas::in_order))]
pub fn item_order()
    ensures settled { LastIsSettled }
    ensures sent { SuccessorsAreInOrder }
{}

/// What a step leaves of a worker and the book, and what it refuses there.
#[tactic(auto, using(crate::proofs::WorkedLemmas::lower_goals, crate::proofs::WorkedLemmas::whole_grants, crate::proofs::WorkedLemmas::kept_floors, crate::proofs::WorkedLemmas::halted_limits))]
pub fn book_steps()
    ensures announce { LowerGoalsAreAnnounced }
    ensures grant { GrantsAreWhole }
    ensures rest { FloorsAreKept }
    ensures halt { LimitsAreHaltedAt }
{}

/// The worlds of the run of one move, in full, half-way and at its end.
#[tactic(auto, using(crate::proofs::WorkedOutcomeLemmas::worlds_reached))]
pub fn whole_worlds()
    ensures { WorldsAreReached }
{}

/// The plans that short runs give, above the bound or least, with their rows or without.
pub fn plans()
    ensures empty { EmptyPlanIsGiven }
    ensures above { PlanAboveIsGiven }
    ensures no_rows { NoRowsAreGiven }
    ensures three { ThreeRowsAreGiven }
{}

/// The other ends of a run: no plan, a cost too high, memory refused, a thread not started.
pub fn other_ends()
    ensures unsolvable { UnsolvableIsGiven }
    ensures cost { CostIsGiven }
    ensures memory { MemoryIsGiven }
    ensures start { StartIsGiven }
{}

/// An opening world is not kept where it has not stopped, nor where it stopped for a thread or for
/// the limit.
#[tactic(auto, using(crate::proofs::WorkedOutcomeLemmas::not_kept))]
pub fn unkept()
    ensures { OpeningsAreNotKept }
{}

/// How many workers a job may have.
#[tactic(auto, using(crate::proofs::WorkedOutcomeLemmas::jobs_of_all))]
pub fn jobs()
    ensures { JobsAreOfAllCounts }
{}
