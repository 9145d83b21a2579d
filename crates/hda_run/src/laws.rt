//! The laws of the definitions: each is the contract of a function that does nothing.

ghost use Rattle.hda_run.specs.Laws.{RunsAloneStop, QuietRunsHaveNoHalt};
ghost use Rattle.hda_run.specs.Laws.{HaltsAreDue, BoundsSpendTheLimit};
ghost use Rattle.hda_run.specs.Laws.{BoundsAreOfTheirWorlds};
ghost use Rattle.hda_run.specs.Laws.{WithoutABoundTheGoalIsKnown, WaitingBeginsThere};
ghost use Rattle.hda_run.specs.Laws.{OptimalTruthsAgree, BoundTruthsAreBelow};
ghost use Rattle.hda_run.specs.Laws.{UnsolvableTruthsHaveNoPlan, TrueRowsProve};
ghost use Rattle.hda_run.specs.Laws.{TrueRowsProveBounds, TrueBoundsHaveProofs};
ghost use Rattle.hda_run.specs.Laws.{WithoutRowsMemoryWasRefused};
ghost use Rattle.hda_run.specs.Laws.{OutcomesAreOfTheirSteps, OutcomesAreOfAllTheirSteps};
ghost use Rattle.hda_run.specs.Laws.{TruePlansLead, KindsAreNamed};
ghost use Rattle.hda_run.specs.Laws.{OpeningsAreAsAsked, PartsAreAsOwned};
ghost use Rattle.hda_run.specs.Laws.{LanesChangeByTwoKinds, OtherLanesAreLeft, SentItemsArrive};
ghost use Rattle.hda_run.specs.Laws.{BookChangesByFiveKinds};
ghost use Rattle.hda_run.specs.Laws.{OneToSixteenMayShare, JobsAreOfAnyShape};

use owners::Spread;

/// A run by one worker has stopped, and for a cause that it met.
pub fn runs_alone_stop()
    ensures stop { RunsAloneStop }
    ensures quiet { QuietRunsHaveNoHalt }
    ensures due { HaltsAreDue }
    ensures spent { BoundsSpendTheLimit }
{}

/// No plan costs less than a bound that is shown. Where none is though a board is open, the goal is
/// known. What waits from an f has something there, and nothing below it.
pub fn shown_bounds_are_as_named<S: Spread>()
    ensures world { BoundsAreOfTheirWorlds S.owner_of }
    ensures none { WithoutABoundTheGoalIsKnown }
    ensures least { WaitingBeginsThere }
{}

/// Outcomes of one problem that tell the truth agree.
#[tactic(auto, using(crate::proofs::LawLemmas::optimal, crate::proofs::LawLemmas::bounded, crate::proofs::LawLemmas::unsolvable))]
pub fn truths_agree()
    ensures optimal { OptimalTruthsAgree }
    ensures bounded { BoundTruthsAreBelow }
    ensures unsolvable { UnsolvableTruthsHaveNoPlan }
{}

/// The plans of outcomes that tell the truth lead to the goal, and their rows prove what they say.
#[tactic(auto, using(crate::proofs::LawLemmas::plans_lead, crate::proofs::LawLemmas::rows_prove, crate::proofs::LawLemmas::bounds_prove))]
pub fn truths_are_proved()
    ensures plans { TruePlansLead }
    ensures rows { TrueRowsProve }
    ensures below { TrueRowsProveBounds }
{}

/// A bound lacks rows only where memory was refused. Rows that prove it exist all the same.
#[tactic(auto, using(crate::proofs::LawLemmas::proofs_exist, crate::proofs::LawLemmas::rows_missing))]
pub fn rows_lack_for_memory_alone()
    ensures unlisted { TrueBoundsHaveProofs }
    ensures refused { WithoutRowsMemoryWasRefused }
{}

/// The outcome of one step is given by a world to which just that step leads, and the outcome of
/// any steps by one to which just these lead.
#[tactic(auto, using(crate::proofs::LawLemmas::of_steps, crate::proofs::LawLemmas::of_all_steps))]
pub fn outcomes_are_of_their_steps()
    ensures one { OutcomesAreOfTheirSteps }
    ensures all { OutcomesAreOfAllTheirSteps }
{}

/// Each of the nine steps is of the kind that has its name.
pub fn kinds_are_named()
    ensures { KindsAreNamed }
{}

/// A send or a delivery alone changes a lane, and only the lane from the sender to the receiver.
/// What is sent arrives there. The book is changed by the five kinds of steps that use it.
pub fn kinds_say_what_changes()
    ensures lanes { LanesChangeByTwoKinds }
    ensures others { OtherLanesAreLeft }
    ensures arrives { SentItemsArrive }
    ensures book { BookChangesByFiveKinds }
{}

/// One worker to sixteen may share a job, and boards of any sides, as long as these are the same.
#[tactic(auto, using(crate::proofs::LawLemmas::any_shape))]
pub fn jobs_are_for_any_team_and_shape()
    ensures workers { OneToSixteenMayShare }
    ensures shapes { JobsAreOfAnyShape }
{}

/// The opening world of a job is as asked, and boards are owned by the spread among all workers.
pub fn worlds_are_as_asked<S: Spread>()
    ensures openings { OpeningsAreAsAsked S.owner_of }
    ensures parts { PartsAreAsOwned S.owner_of }
{}
