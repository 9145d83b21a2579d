//! What watches a run.

ghost use Rattle.std.specs.Prelude.{ℕ, List, ⊤};
ghost use Rattle.setup_runs.specs.Solving.{AreFiguresOfLine};

use batch_runs::Stats;
use hda_run::{Gate, Kind, World};
use owners::Spread;

/// A gate that is passed after each step of a search, a clock, and a receiver of the figures of
/// lines. No contract says what becomes of these.
pub trait Watch: Gate {
    ghost use Rattle.batch_runs.specs.declared.stats.Stats.{Stats};

    // Figures were taken with this id. `observe` is the only call that establishes it.
    ghost has_taken: { Self → List ℕ → Stats → Type 0 } = { λ _ _ _. ⊤ };

    /// The microseconds since some moment.
    fn microseconds(&self) -> u64;

    /// Takes the figures of the line with this id, whose board is answered.
    fn observe(&self, id: &str, stats: &Stats)
        requires { AreFiguresOfLine id.now stats.now }
        ensures { has_taken self.now id.now stats.now };

    /// Shows that no bound is known, where one is wanted: several workers share the boards.
    fn show_no_bound(&self)
        requires { Self.is_wanted self.now }
    {}
}

/// A gate alone.
#[derive(Clone, Copy)]
pub(crate) struct Unwatched<'a, G> {
    pub(crate) gate: &'a G,
}

impl<G: Gate> Gate for Unwatched<'_, G> {
    ghost is_wanted = { λ it. G.is_wanted it.gate.now };

    fn pass(&self, worker: usize, kind: Kind) {
        self.gate.pass(worker, kind);
    }

    fn meet(&self, boards: usize) {
        self.gate.meet(boards);
    }

    fn wants_bound(&self) -> bool {
        self.gate.wants_bound()
    }

    fn show_bound<S: Spread>(&self, world: &World<'_, S>, bound: Option<u32>) {
        self.gate.show_bound(world, bound);
    }
}

impl<G: Gate> Watch for Unwatched<'_, G> {
    fn microseconds(&self) -> u64 {
        0
    }

    fn observe(&self, _id: &str, _stats: &Stats) {}
}
