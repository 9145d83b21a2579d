//! Gates that count expansions, or what is shown of a search, or slow a worker down.

use hda_run::{Gate, Kind, World};
use owners::Spread;
use std::hint::spin_loop;
use std::sync::atomic::{AtomicU64, Ordering};

/// Counts the boards that are expanded.
#[derive(Drop)]
pub struct Counter {
    expanded: AtomicU64,
}

impl Counter {
    /// The counter of a run that has expanded nothing.
    pub fn new() -> Self {
        Counter {
            expanded: AtomicU64::new(0),
        }
    }

    /// How many boards were expanded.
    pub fn expanded(&self) -> u64 {
        self.expanded.load(Ordering::SeqCst)
    }
}

impl Gate for Counter {
    fn pass(&self, _worker: usize, kind: Kind) {
        if kind == Kind::Expand {
            let _ = self.expanded.fetch_add(1, Ordering::SeqCst);
        }
    }
}

/// Counts how often a bound is shown, or that there is none, keeps the last bound, and adds up the
/// boards that become known.
#[derive(Drop)]
pub struct Shown {
    met: AtomicU64,
    times: AtomicU64,
    last: AtomicU64,
}

impl Shown {
    /// A gate to which nothing was shown.
    pub fn new() -> Self {
        Shown {
            met: AtomicU64::new(0),
            times: AtomicU64::new(0),
            last: AtomicU64::new(0),
        }
    }

    /// How many boards became known.
    pub fn met(&self) -> u64 {
        self.met.load(Ordering::SeqCst)
    }

    /// How often a bound was shown, or that there is none.
    pub fn times(&self) -> u64 {
        self.times.load(Ordering::SeqCst)
    }

    /// The last bound that was shown, or 0.
    pub fn last(&self) -> u64 {
        self.last.load(Ordering::SeqCst)
    }
}

impl Gate for Shown {
    fn pass(&self, _worker: usize, _kind: Kind) {}

    fn meet(&self, boards: usize) {
        let _ = self.met.fetch_add(boards as u64, Ordering::SeqCst);
    }

    fn wants_bound(&self) -> bool {
        true
    }

    fn show_bound<S: Spread>(&self, _world: &World<'_, S>, bound: Option<u32>) {
        let _ = self.times.fetch_add(1, Ordering::SeqCst);
        if let Some(bound) = bound {
            self.last.store(u64::from(bound), Ordering::SeqCst);
        }
    }
}

/// Lets one worker spin for this many turns after each of its steps.
#[derive(Clone, Copy)]
pub struct Delay {
    pub worker: usize,
    pub turns: u32,
}

impl Gate for Delay {
    fn pass(&self, worker: usize, _kind: Kind) {
        if worker != self.worker {
            return;
        }
        for _ in 0..self.turns {
            spin_loop();
        }
    }
}
