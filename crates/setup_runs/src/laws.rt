//! The laws of the definitions: each is the contract of a function that does nothing.

ghost use Rattle.std.specs.Prelude.{◌≡◌};
ghost use Rattle.setup_runs.specs.Laws.{ParityWantsNoMemory, ParityIsAnswered};
ghost use Rattle.setup_runs.specs.Laws.{BoundsAreNeverCut, LimitsAreTheSetups};
ghost use Rattle.setup_runs.specs.Laws.{LimitsAreNearlySpent};
ghost use Rattle.setup_runs.specs.Laws.{ParityIsCertified, CertifiedEndsAreAnswered};
ghost use Rattle.setup_runs.specs.Laws.{StatsAreOfWorlds, StatsAreOfTheSetups};
ghost use Rattle.setup_runs.specs.Laws.{StatsAreWithinTheLimit, FiguresAreOfBoards};
ghost use Rattle.setup_runs.specs.Laws.{MemoryIsLacked, EndedAloneIsWhole};
ghost use Rattle.setup_runs.specs.Laws.{AnswersAreOfWorlds, CertifiedOutcomesAreOfWorlds};
ghost use Rattle.setup_runs.specs.Laws.{AnswersAreReached, RulesAreTheSetups};
ghost use Rattle.setup_runs.specs.Laws.{CertifyingRulesAreTheSetups};
ghost use Rattle.setup_runs.specs.Laws.{HardBoardsAreShared, HardBoardsAreBounded};
ghost use Rattle.setup_runs.specs.Solving.{HasStats, rules_of};
ghost use Rattle.batch_runs.specs.Laws.{FiguresBelongToReports};
ghost use Rattle.batch_runs.specs.Setups.{SetupModel};

use crate::solving::{EASY_EXPANSIONS, ENOUGH_EXPANDED};
use crate::watching::Watch;

/// A board of the other class is never refused for memory.
pub fn parity_wants_no_memory()
    ensures { ParityWantsNoMemory }
{}

/// A board of the other class is answered by its parity alone.
pub fn parity_is_answered()
    ensures { ParityIsAnswered }
{}

/// No bound is answered for a run that was cut. One for the limit is answered after just as many
/// expansions by one worker, and after nearly as many by more.
#[tactic(auto, using(crate::proofs::LawLemmas::never_cut, crate::proofs::LawLemmas::limits, crate::proofs::LawLemmas::limits_nearly))]
pub fn bounds_are_due()
    ensures kept { BoundsAreNeverCut }
    ensures limit { LimitsAreTheSetups }
    ensures nearly { LimitsAreNearlySpent }
{}

/// What may be certified of a board may be answered too, except a bound for which memory was
/// refused.
#[tactic(auto, using(crate::proofs::SolvingLemmas::parity_certified))]
pub fn certified_ends_are_answered()
    ensures parity { ParityIsCertified }
    ensures answered { CertifiedEndsAreAnswered }
{}

/// Stats are those of a world that ends so.
#[tactic(auto, using(crate::proofs::LawLemmas::stats_of_setups))]
pub fn stats_are_of_worlds()
    ensures worlds { StatsAreOfWorlds }
    ensures setups { StatsAreOfTheSetups }
{}

/// The stats of a line count no more expansions than the setup allows. What one worker expanded
/// before all shared a board is not among them.
#[tactic(auto, using(crate::proofs::LawLemmas::stats_within_limits))]
pub fn stats_are_within_the_limit()
    ensures { StatsAreWithinTheLimit }
{}

/// One of several workers expands at most two million for a board before all share it, and 16,384
/// where the setup allows more.
pub fn two_million_are_enough()
    ensures enough { ENOUGH_EXPANDED ≡ 2000000 }
    ensures easy { EASY_EXPANSIONS ≡ 16384 }
{}

/// A bound for which memory was refused lacks it, whoever says so, and no other bound does. What
/// one worker ended by itself is no such bound.
#[tactic(auto, using(crate::proofs::LawLemmas::memory_lacked, crate::proofs::LawLemmas::ended_whole))]
pub fn memory_is_lacked()
    ensures bounds { MemoryIsLacked }
    ensures alone { EndedAloneIsWhole }
{}

/// Each answer of a board of the goal's class is that of a world of its task, within the limit.
#[tactic(auto, using(crate::proofs::LawLemmas::answers_of_worlds, crate::proofs::LawLemmas::answers_reached, crate::proofs::LawLemmas::certified_of_worlds))]
pub fn answers_are_of_worlds()
    ensures answered { AnswersAreOfWorlds }
    ensures reached { AnswersAreReached }
    ensures certified { CertifiedOutcomesAreOfWorlds }
{}

/// What reports may say is what the setup may answer, with rows or without.
#[tactic(auto, using(crate::proofs::LawLemmas::rules_of_setups, crate::proofs::LawLemmas::certifying_rules))]
pub fn rules_are_the_setups()
    ensures answered { RulesAreTheSetups }
    ensures certified { CertifyingRulesAreTheSetups }
{}

/// Of several workers all share a board that two million expansions of one don't solve.
#[tactic(auto, using(crate::proofs::LawLemmas::hard_shared, crate::proofs::LawLemmas::hard_bounded))]
pub fn hard_boards_are_shared()
    ensures shared { HardBoardsAreShared }
    ensures bounded { HardBoardsAreBounded }
{}

/// The figures that a watch takes are those of a board that a line names by the same id.
#[tactic(auto, using(crate::proofs::LawLemmas::figures_of_boards))]
pub fn figures_are_of_boards()
    ensures { FiguresAreOfBoards }
{}

/// Where a run over a known input hands over figures and the output was empty, each report of an
/// ending belongs to figures that the watch took with its id. They are those of the search for the
/// board of its line, under the setup of the run.
#[tactic(auto, using(batch_runs::proofs::BatchLemmas::figures_belong))]
pub fn figures_belong_to_reports<W: Watch>(watch: &W)
    ensures { (setup : SetupModel) → FiguresBelongToReports (rules_of setup)
        (λ id b solved. HasStats setup b solved × W.has_taken watch.now id solved.stats) }
{
    let _ = watch;
}
