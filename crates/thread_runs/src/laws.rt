//! The laws of what n workers answer: each is the contract of a function that does nothing.

ghost use Rattle.owners.specs.Owners.{AreWorkers};
ghost use Rattle.thread_runs.specs.Laws.{OneIsAlone, SeveralAreJoined, SolvedRunsEnd};
ghost use Rattle.thread_runs.specs.Laws.{LimitsAreKept, ThreadsAreAsAsked, WholeRunsSayWhy};
ghost use Rattle.thread_runs.specs.Laws.{FiguresAreWithinTheLimit, FiguresSpendTheLimit};
ghost use Rattle.thread_runs.specs.Laws.{SolvedRunsAnswer};

use owners::Spread;
use world_ends::Reading;

/// Each board's owner is one of the workers: the law of a spread, for calls that may start threads.
pub fn owners_are_workers<S: Spread>()
    ensures { AreWorkers S.owner_of }
{}

/// What one worker is asked for is found by it alone.
#[tactic(auto, using(crate::proofs::LawLemmas::one_alone))]
pub fn one_is_alone<A: Reading, S: Spread>()
    ensures { OneIsAlone A.gives S.owner_of }
{}

/// What several workers find is given by a world of their joined threads that is kept. Or one
/// worker finds it alone, and there is such a world that is not kept.
#[tactic(auto, using(crate::proofs::LawLemmas::several_joined))]
pub fn several_are_joined<A: Reading, S: Spread>()
    ensures { SeveralAreJoined A.gives S.owner_of }
{}

/// What is solved ends so without rows.
#[tactic(auto, using(crate::proofs::LawLemmas::solved_ends))]
pub fn solved_runs_end<S: Spread>()
    ensures { SolvedRunsEnd S.owner_of }
{}

/// What is found is found within the limit: by the joined threads, or by one worker alone.
#[tactic(auto, using(crate::proofs::LawLemmas::limits_kept))]
pub fn limits_are_kept<A: Reading, S: Spread>()
    ensures { LimitsAreKept A.gives S.owner_of }
{}

/// The count of expansions that any number of workers answer is within the limit. Beside a bound for
/// the limit it is nearly all of that.
#[tactic(auto, using(crate::proofs::LawLemmas::figures_within, crate::proofs::LawLemmas::figures_spend))]
pub fn figures_are_within_the_limit<S: Spread>()
    ensures within { FiguresAreWithinTheLimit S.owner_of }
    ensures spent { FiguresSpendTheLimit S.owner_of }
{}

/// What threads find is given by a kept world of theirs, of as many workers as were asked for, who
/// own boards as the owners say.
#[tactic(auto, using(crate::proofs::LawLemmas::as_asked))]
pub fn threads_are_as_asked<A: Reading, S: Spread>()
    ensures { ThreadsAreAsAsked A.gives S.owner_of }
{}

/// A bound of a run that stopped by itself is for the limit, for the cost, or for refused memory.
#[tactic(auto, using(crate::proofs::LawLemmas::runs_say_why))]
pub fn whole_runs_say_why()
    ensures { WholeRunsSayWhy }
{}

/// What any number of workers answer is true of the problem, with rows and without them.
#[tactic(auto, using(crate::proofs::LawLemmas::solved_answer))]
pub fn solved_runs_answer<S: Spread>()
    ensures { SolvedRunsAnswer S.owner_of }
{}
