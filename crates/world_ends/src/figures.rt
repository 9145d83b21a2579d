//! How many boards the workers of a world have expanded, and how many they know.

ghost use Rattle.std.specs.Prelude.{◌≡◌};
ghost use Rattle.world_ends.specs.Parts.{states_of};
ghost use Rattle.world_ends.specs.Readings.{AreFiguresOf};

use message_ledger::Counting;
use worker_core::Worker;

/// How many boards all workers have expanded, and how many they know.
#[derive(Clone, Copy, Debug, PartialEq, Eq)]
pub struct Figures {
    pub expanded: u128,
    pub known: u128,
}

/// The figures of workers.
pub(crate) fn figures_of<C: Counting>(workers: &[Worker<C>]) -> Figures
    ensures { AreFiguresOf (states_of workers.now) result }
{
    let mut figures = no_figures();
    'workers: for i in 0..workers.len() {
        let worker = &workers[i];
        figures.expanded += worker.expansions() as u128;
        figures.known += worker.lists().len() as u128;
    }
    figures
}

/// The figures before the first step.
pub(crate) fn no_figures() -> Figures
    ensures { result ≡ record { expanded = 0; known = 0 } }
{
    Figures {
        expanded: 0,
        known: 0,
    }
}
