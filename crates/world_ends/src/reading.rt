//! What is read of the workers of a world: its outcome with the rows or without, or its ending with
//! figures.

ghost use Rattle.std.specs.Prelude.{◌≡◌, Bool, true, false};
ghost use Rattle.outcomes.specs.declared.outcome.Ending.TheVariants.{Unsolvable};
ghost use Rattle.outcomes.specs.declared.outcome.Why.TheVariants.{Parity};
ghost use Rattle.world_model.specs.Outcomes.{IsGiven};
ghost use Rattle.world_model.specs.Worlds.{WorldState};
ghost use Rattle.world_ends.specs.Endings.{EndsIn};
ghost use Rattle.world_ends.specs.Parts.{states_of, AreOfWorld, IsSeen};
ghost use Rattle.world_ends.specs.Readings.{WorldsAnswer, BoundsAreOfWorlds, IsForParity};
ghost use Rattle.world_ends.specs.Readings.{HasFigures};

use crate::asked::{Asked, Snapshot};
use crate::figures::{Figures, figures_of, no_figures};
use crate::outcome::{ending_of, outcome_of};
use message_ledger::Counting;
use outcomes::{Ending, Outcome, Why};
use owners::Spread;
use std::alloc::Global;
use worker_core::Worker;
use world_model::laws::outcomes_answer;

/// A reading of workers: of the outcome that their world gives, with its rows or without.
pub trait Reading {
    ghost use Rattle.outcomes.specs.Outcomes.{Task};
    ghost use Rattle.outcomes.specs.declared.outcome.Ending.{Ending};

    /// What is read.
    type Answer: Drop;

    /// Whether rows are read.
    ghost has_rows: { Bool };

    /// The world gives the answer.
    ghost gives: { WorldState → Self.Answer → Type 0 };

    /// The answer is a true one to the task.
    ghost answers: { Task → Self.Answer → Type 0 };

    /// The answer without rows.
    ghost end: { Self.Answer → Ending };

    /// The answer for a start that isn't in the goal's class.
    ghost parity: { Self.Answer };

    /// Whether rows are read.
    fn takes_rows() -> bool
        ensures { result ≡ has_rows };

    /// An outcome, where rows are read. Else nothing is said of the answer.
    fn of_outcome(outcome: Outcome) -> Self::Answer
        ensures { has_rows ≡ true → (w : WorldState) → IsGiven w outcome → gives w result };

    /// An ending and figures, where none are. Else nothing is said of the answer.
    fn of_ending(ending: Ending, figures: Figures) -> Self::Answer
        ensures { has_rows ≡ false → (w : WorldState) → EndsIn w ending → HasFigures w figures
            → gives w result };

    /// The answer for a start that isn't in the goal's class.
    fn of_parity() -> Self::Answer
        ensures { result ≡ parity };

    /// The laws of a reading. A function that does nothing has them as its contract.
    fn keep_laws()
        ensures answers { WorldsAnswer gives answers }
        ensures bounds { BoundsAreOfWorlds gives end }
        ensures parity { IsForParity answers parity }
        ensures end { end parity ≡ Unsolvable Parity };
}

/// The outcome with its rows. A bound is given alone where memory is refused for its plan or rows.
pub struct WithRows;

impl Reading for WithRows {
    ghost use Rattle.outcomes.specs.Endings.{without_rows};
    ghost use Rattle.outcomes.specs.Outcomes.{Answers};
    ghost use Rattle.outcomes.specs.declared.outcome.Outcome.TheVariants as outcome;

    type Answer = Outcome;

    ghost has_rows = { true };

    ghost gives = { λ w outcome. IsGiven w outcome };

    ghost answers = { λ task outcome. Answers task outcome };

    ghost end = { λ outcome. without_rows outcome };

    ghost parity = { outcome.Unsolvable Parity };

    fn takes_rows() -> bool {
        true
    }

    fn of_outcome(outcome: Outcome) -> Outcome {
        outcome
    }

    // (not asked for where rows are read)
    fn of_ending(_ending: Ending, _figures: Figures) -> Outcome {
        Outcome::Unsolvable {
            why: Why::Exhausted,
        }
    }

    fn of_parity() -> Outcome {
        Outcome::Unsolvable { why: Why::Parity }
    }

    fn keep_laws() {
        outcomes_answer();
    }
}

/// The ending, for which no memory is taken for rows.
pub struct WithoutRows;

impl Reading for WithoutRows {
    ghost use Rattle.outcomes.specs.Endings.{EndAnswers};

    type Answer = Ending;

    ghost has_rows = { false };

    ghost gives = { λ w ending. EndsIn w ending };

    ghost answers = { λ task ending. EndAnswers task ending };

    ghost end = { λ ending. ending };

    ghost parity = { Unsolvable Parity };

    fn takes_rows() -> bool {
        false
    }

    // (not asked for where no rows are read)
    fn of_outcome(_outcome: Outcome) -> Ending {
        Ending::Unsolvable {
            why: Why::Exhausted,
        }
    }

    fn of_ending(ending: Ending, _figures: Figures) -> Ending {
        ending
    }

    fn of_parity() -> Ending {
        Ending::Unsolvable { why: Why::Parity }
    }

    fn keep_laws() {
        outcomes_answer();
    }
}

/// An ending, and the figures of the world that gives it.
#[derive(Debug, Drop)]
pub struct EndingWithFigures {
    pub ending: Ending,
    pub figures: Figures,
}

/// The ending with the figures of the world. Those of a start that isn't in the goal's class are 0.
pub struct WithFigures;

impl Reading for WithFigures {
    ghost use Rattle.outcomes.specs.Endings.{EndAnswers};
    ghost use Rattle.world_ends.specs.Readings.{EndsWithFigures};

    type Answer = EndingWithFigures;

    ghost has_rows = { false };

    ghost gives = { λ w answer. EndsWithFigures w answer };

    ghost answers = { λ task answer. EndAnswers task answer.ending };

    ghost end = { λ answer. answer.ending };

    ghost parity = { record {
      ending = Unsolvable Parity;
      figures = record { expanded = 0; known = 0 };
    } };

    fn takes_rows() -> bool {
        false
    }

    // (not asked for where no rows are read)
    fn of_outcome(_outcome: Outcome) -> EndingWithFigures {
        EndingWithFigures {
            ending: Ending::Unsolvable {
                why: Why::Exhausted,
            },
            figures: no_figures(),
        }
    }

    fn of_ending(ending: Ending, figures: Figures) -> EndingWithFigures {
        EndingWithFigures { ending, figures }
    }

    fn of_parity() -> EndingWithFigures {
        EndingWithFigures {
            ending: Ending::Unsolvable { why: Why::Parity },
            figures: no_figures(),
        }
    }

    fn keep_laws() {
        outcomes_answer();
    }
}

/// Reads the workers of a world, at any moment.
pub fn read<A: Reading, C: Counting, S: Spread>(
    alloc: Global,
    asked: &Asked<'_>,
    owners: &S,
    workers: &mut [Worker<C>],
    snapshot: Snapshot,
) -> A::Answer
    requires { AreOfWorld asked.now (S.owner_of owners.now) workers.old }
    ensures given { (w : WorldState)
        → IsSeen asked.now (S.owner_of owners.now) workers.old snapshot w
        → A.gives w result }
    ensures same { states_of workers.new ≡ states_of workers.old }
{
    if A::takes_rows() {
        return A::of_outcome(outcome_of(alloc, asked, owners, workers, snapshot));
    }
    let figures = figures_of(workers);
    A::of_ending(ending_of(alloc, asked, owners, workers, snapshot), figures)
}
