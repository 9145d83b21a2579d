//! Progress and figures, where the arguments ask for them.

ghost use Rattle.std.specs.Prelude.{◌≡◌, true};

use batch_runs::Stats;
use hda_run::{Gate, Kind, World};
use owners::Spread;
use setup_runs::Watch;

/// A watch that is passed where progress was asked for, and takes figures where these were.
#[derive(Clone, Copy)]
pub(crate) struct WhereAsked<'a, W> {
    pub watch: &'a W,
    /// Whether one worker searches alone. With several no bound is shown: boards are on their way
    /// between them.
    pub is_alone: bool,
    pub progress: bool,
    pub stats: bool,
}

impl<W: Watch> Gate for WhereAsked<'_, W> {
    ghost is_wanted = { λ it. W.is_wanted it.watch.now };

    fn pass(&self, worker: usize, kind: Kind) {
        if self.progress {
            self.watch.pass(worker, kind);
        }
    }

    fn meet(&self, boards: usize) {
        if !self.progress {
            return;
        }
        self.watch.meet(boards);
        if !self.is_alone && self.watch.wants_bound() {
            self.watch.show_no_bound();
        }
    }

    fn wants_bound(&self) -> bool {
        self.progress && self.is_alone && self.watch.wants_bound()
    }

    fn show_bound<S: Spread>(&self, world: &World<'_, S>, bound: Option<u32>) {
        self.watch.show_bound(world, bound);
    }
}

impl<W: Watch> Watch for WhereAsked<'_, W> {
    ghost has_taken = { λ it id stats. it.stats ≡ true → W.has_taken it.watch.now id stats };

    fn microseconds(&self) -> u64 {
        if self.stats {
            return self.watch.microseconds();
        }
        0
    }

    fn observe(&self, id: &str, stats: &Stats) {
        if self.stats {
            self.watch.observe(id, stats);
        }
    }
}

/// A watch that does nothing.
#[derive(Clone, Copy)]
pub(crate) struct Unkept;

impl Gate for Unkept {
    fn pass(&self, _worker: usize, _kind: Kind) {}
}

impl Watch for Unkept {
    fn microseconds(&self) -> u64 {
        0
    }

    fn observe(&self, _id: &str, _stats: &Stats) {}
}
