//! The laws of joined worlds: each is the contract of a function that does nothing.

ghost use Rattle.thread_runs.specs.JoinedLaws.{BoardsHaveOwners, JoinedLimitsAreKept, LimitsAreSpent};
ghost use Rattle.thread_runs.specs.JoinedLaws.{GrantsAreCounted, QuietHasNoCredit, QuietIsStill};
ghost use Rattle.thread_runs.specs.JoinedLaws.{JoinedWorldsAnswer, KeptWorldsAloneGive};
ghost use Rattle.thread_runs.specs.JoinedLaws.{NoListStopsThreads, BooksSayWhatIsFound};
ghost use Rattle.thread_runs.specs.JoinedLaws.{FindingsSpendTheirGrants};

use owners::Spread;
use world_ends::Reading;

/// In a joined world each board has the owner that the job says, one of as many workers as the job
/// has.
#[tactic(auto, using(crate::proofs::WorldLemmas::have_owners))]
pub fn boards_have_owners()
    ensures { BoardsHaveOwners }
{}

/// A joined world expanded no more than the limit, and nearly all of it where it was halted for it.
#[tactic(auto, using(crate::proofs::WorldLemmas::limits_kept, crate::proofs::WorldLemmas::limits_spent))]
pub fn limits_are_kept()
    ensures kept { JoinedLimitsAreKept }
    ensures spent { LimitsAreSpent }
{}

/// In a joined world that is quiet no credit is left, and nothing is under way. In any, what was
/// granted is what was expanded and what is left, which is at most one grant for each worker.
pub fn quiet_is_at_rest()
    ensures credit { QuietHasNoCredit }
    ensures still { QuietIsStill }
    ensures granted { GrantsAreCounted }
{}

/// An answer is found of worlds that are kept, and of no other.
pub fn kept_worlds_alone_give<A: Reading>()
    ensures { KeptWorldsAloneGive A.gives }
{}

/// Nothing is found where the shared book says that the run went on, or that a thread could not be
/// started. Where memory was refused something is. What is found is given by a kept world of the
/// joined threads, which have expanded what their book granted, except at most one grant for each.
pub fn findings_are_of_their_books<A: Reading, S: Spread>()
    ensures found { BooksSayWhatIsFound A.gives S.owner_of }
    ensures spent { FindingsSpendTheirGrants A.gives S.owner_of }
{}

/// What a joined world that is kept gives answers its job, in each reading. No list of steps
/// stopped a joined world.
pub fn joined_worlds_answer<A: Reading>()
    ensures answers { JoinedWorldsAnswer A.gives A.answers }
    ensures no_list { NoListStopsThreads }
{
    A::keep_laws();
}
