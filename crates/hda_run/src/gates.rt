//! Gates, which are called after each accepted step of a worker. A test may hold a worker there.

ghost use Rattle.std.specs.Prelude.{◌≡◌, ⊤, IsTrue};
ghost use Rattle.hda_run.specs.Kinds as kinds;
ghost use Rattle.hda_run.specs.Rounds.{IsBoundSoFar};

use crate::world::World;
use owners::Spread;
use world_model::Step;

/// What a worker does in a step.
#[derive(Clone, Copy, Debug, PartialEq, Eq)]
pub enum Kind {
    /// It expands a board.
    Expand,
    /// It relaxes an item that it holds.
    Settle,
    /// It sends a packet.
    Send,
    /// It takes in a packet.
    Deliver,
    /// It draws credit.
    Draw,
    /// It announces the goal's cost.
    Announce,
    /// It is granted expansions.
    Grant,
    /// It rests.
    Rest,
    /// It halts the run.
    Halt,
}

/// Which of the nine steps it is.
pub fn kind_of(step: Step) -> Kind
    ensures { result ≡ kinds.step_kind_of step }
{
    match step {
        Step::Expand(_) => Kind::Expand,
        Step::Settle(_) => Kind::Settle,
        Step::Send(_, _) => Kind::Send,
        Step::Deliver(_, _) => Kind::Deliver,
        Step::Draw(_) => Kind::Draw,
        Step::Announce(_) => Kind::Announce,
        Step::Grant(_) => Kind::Grant,
        Step::Rest(_) => Kind::Rest,
        Step::Halt(_, _) => Kind::Halt,
    }
}

/// What a worker passes after each step that is accepted, while it holds no lock: a test may hold
/// it there, to try an order of steps. It is also shown how far the search is.
pub trait Gate {
    // A bound is wanted. `wants_bound` is the only call that establishes it.
    ghost is_wanted: { Self → Type 0 } = { λ _. ⊤ };

    /// Returns when the worker that took the step may go on.
    fn pass(&self, worker: usize, kind: Kind);

    /// Is shown, when a search begins, after an expansion and after an item is settled, how many
    /// boards became known by it. No contract says that the count is right.
    fn meet(&self, _boards: usize) {}

    /// Whether a lower bound is wanted. A worker that searches alone asks after each expansion.
    fn wants_bound(&self) -> bool
        ensures { IsTrue result → is_wanted self.now }
    {
        false
    }

    /// Is shown the bound of a world of one worker, where one is wanted: no plan of its job costs
    /// less. None where the goal was met, or no board is open.
    fn show_bound<S: Spread>(&self, _world: &World<'_, S>, _bound: Option<u32>)
        requires wanted { is_wanted self.now }
        requires bound { IsBoundSoFar S.owner_of _world.now _bound }
    {}
}

/// A gate that is always open.
#[derive(Clone, Copy, Debug)]
pub struct Free;

impl Gate for Free {
    fn pass(&self, _worker: usize, _kind: Kind) {}
}
