//! The laws of endings: each is the contract of a function that does nothing.

ghost use Rattle.std.specs.Prelude.{◌≡◌, ◌↔◌, sum_by};
ghost use Rattle.std.specs.FinMap.{len};
ghost use Rattle.board.specs.Classes.{SameClass};
ghost use Rattle.outcomes.specs.declared.outcome.Ending.{Ending};
ghost use Rattle.outcomes.specs.declared.outcome.Outcome.{Outcome};
ghost use Rattle.outcomes.specs.Endings.{without_rows, EndAnswers};
ghost use Rattle.outcomes.specs.Outcomes.{Task, Answers};
ghost use Rattle.world_model.specs.Credit.{expansion_count};
ghost use Rattle.world_model.specs.Outcomes.{IsGiven};
ghost use Rattle.world_model.specs.Worlds.{WorldState};
ghost use Rattle.world_ends.specs.Endings.{EndsIn};
ghost use Rattle.outcomes.specs.declared.outcome.Ending.TheVariants.{Unsolvable};
ghost use Rattle.outcomes.specs.declared.outcome.Why.TheVariants.{Parity};
ghost use Rattle.world_ends.specs.Readings.{EndsWithFigures};
ghost use Rattle.world_ends.specs.declared.reading.EndingWithFigures.{EndingWithFigures};
ghost use Rattle.world_ends.specs.Laws.{EndingsLackRowsAlone, WantedRowsLeaveABound};
ghost use Rattle.world_ends.specs.Laws.{BoundsLackRowsAlone, WantedRowsLeaveTheBound};
ghost use Rattle.world_ends.specs.Laws.{EndsAreBounds, MemoryEndsAreWanted};
ghost use Rattle.world_ends.specs.Laws.{UnsolvableEndsAreGiven, WorldsHaveParts};
ghost use Rattle.world_ends.specs.Laws.{RowsMakeAnAnswer, RowsMakeABoundAnswer, EndingsAnswer};
ghost use Rattle.world_ends.specs.Laws.{ReadBoundsAreOfWorlds};

use crate::reading::{Reading, WithFigures, WithRows, WithoutRows};
use world_model::laws::outcomes_answer;

/// An ending is an outcome without its rows, and a bound where memory is refused for these.
#[tactic(auto, using(crate::proofs::PartLemmas::rows_alone, crate::proofs::PartLemmas::bound_left, crate::proofs::PartLemmas::rows_make))]
pub fn endings_lack_rows_alone()
    ensures rows { EndingsLackRowsAlone }
    ensures memory { WantedRowsLeaveABound }
    ensures answers { RowsMakeAnAnswer }
{}

/// The same holds of a bound. Without rows memory is asked for only for the plan of a known goal.
/// An ending without a plan is an outcome.
pub fn bounds_lack_rows_alone()
    ensures rows { BoundsLackRowsAlone }
    ensures memory { WantedRowsLeaveTheBound }
    ensures answers { RowsMakeABoundAnswer }
    ensures bounded { EndsAreBounds }
    ensures wanted { MemoryEndsAreWanted }
    ensures unsolvable { UnsolvableEndsAreGiven }
{}

/// Each shaped and sound world has parts: its own task and workers.
#[tactic(auto, using(crate::proofs::PartLemmas::worlds_parts))]
pub fn worlds_have_parts()
    ensures { WorldsHaveParts }
{}

/// A reading's answer for a start of another class than the goal's is the answer of no other task.
#[tactic(auto, using(crate::proofs::PartLemmas::other_class))]
pub fn parity_is_of_other_classes<A: Reading>()
    ensures { (task : Task) → A.answers task A.parity → ¬ SameClass task.start task.goal }
{
    A::keep_laws();
}

/// A bound that an answer names is one that the world gives, in each reading.
#[tactic(auto, using(crate::proofs::PartLemmas::read_bounds))]
pub fn read_bounds_are_of_worlds<A: Reading>()
    ensures { ReadBoundsAreOfWorlds A.gives A.end }
{
    A::keep_laws();
}

/// The ending that a sound world gives answers its task.
#[tactic(auto, using(crate::proofs::PartLemmas::ends_answer))]
pub fn endings_answer()
    ensures { EndingsAnswer }
{
    outcomes_answer();
}

/// The figures of a reading are those of the world that gives it: the boards that its workers have
/// expanded, and those that they know.
pub fn figures_are_of_worlds()
    ensures expanded { (w : WorldState) (answer : EndingWithFigures)
        → ⟦<WithFigures as Reading>⟧.gives w answer
        → answer.figures.expanded ≡ expansion_count w }
    ensures known { (w : WorldState) (answer : EndingWithFigures)
        → ⟦<WithFigures as Reading>⟧.gives w answer
        → answer.figures.known ≡ sum_by (λ worker. len worker.known) w.workers }
{}

/// The reading `WithRows` is of outcomes.
pub fn readings_with_rows_are_outcomes()
    ensures outcomes { (w : WorldState) (outcome : Outcome)
        → ⟦<WithRows as Reading>⟧.gives w outcome ↔ IsGiven w outcome }
    ensures answers { (task : Task) (outcome : Outcome)
        → ⟦<WithRows as Reading>⟧.answers task outcome ↔ Answers task outcome }
    ensures ends { (outcome : Outcome) → ⟦<WithRows as Reading>⟧.end outcome ≡ without_rows outcome }
{}

/// The reading `WithoutRows` is of endings.
pub fn readings_without_rows_are_endings()
    ensures endings { (w : WorldState) (ending : Ending)
        → ⟦<WithoutRows as Reading>⟧.gives w ending ↔ EndsIn w ending }
    ensures ending_answers { (task : Task) (ending : Ending)
        → ⟦<WithoutRows as Reading>⟧.answers task ending ↔ EndAnswers task ending }
    ensures ending_ends { (ending : Ending) → ⟦<WithoutRows as Reading>⟧.end ending ≡ ending }
{}

/// The reading `WithFigures` is of endings with the figures of the world.
pub fn readings_with_figures_are_counted_endings()
    ensures counted { (w : WorldState) (answer : EndingWithFigures)
        → ⟦<WithFigures as Reading>⟧.gives w answer ↔ EndsWithFigures w answer }
    ensures counted_answers { (task : Task) (answer : EndingWithFigures)
        → ⟦<WithFigures as Reading>⟧.answers task answer ↔ EndAnswers task answer.ending }
    ensures counted_ends { (answer : EndingWithFigures)
        → ⟦<WithFigures as Reading>⟧.end answer ≡ answer.ending }
    ensures uncounted { ⟦<WithFigures as Reading>⟧.parity ≡ record {
      ending = Unsolvable Parity;
      figures = record { expanded = 0; known = 0 };
    } }
{}
