//! Signs by which workers spare one another the lock, and wake one another.

use std::hint::spin_loop;
use std::sync::Wait;
use std::sync::atomic::{AtomicU64, Ordering};
use std::time::Duration;
use std::{array, thread};
use world_model::WORKER_LIMIT;

// The word of a worker that sleeps, or is about to.
const ASLEEP: u64 = 1;

// The word of any other worker.
const AWAKE: u64 = 0;

// For this many turns without work a worker only spins.
const SPINNING_TURNS: u32 = 8;

// For this many more it lends its core to another thread. Then it sleeps.
const YIELDING_TURNS: u32 = 8;

// It sleeps no longer than this, so that no run depends on a waker.
const SLEEP_MICROSECONDS: u64 = 100;

/// The level of a worker that has nothing to expand.
pub(crate) const NO_LEVEL: u64 = u64::MAX;

// How many levels an f has.
const LEVELS_AT_AN_F: u64 = 1 << 32;

/// The level of a worker that expanded boards of an f in this many rounds.
pub(crate) fn level_at(f: u64, rounds: u32) -> u64 {
    f.saturating_mul(LEVELS_AT_AN_F)
        .saturating_add(u64::from(rounds))
}

/// The f of a level.
pub(crate) fn f_of(level: u64) -> u64 {
    level / LEVELS_AT_AN_F
}

/// Signs beside the lock of a book and beside the rings: whether the book has stopped, which
/// workers sleep, and how low their boards are. They prove nothing: a worker that finds the mark
/// looks at the book, one that is woken looks at its rings, and one that waits for others goes on
/// after a number of turns.
#[derive(Drop)]
pub struct Signs {
    stopped: AtomicU64,
    // For each worker whether it sleeps.
    words: [AtomicU64; WORKER_LIMIT],
    // For each worker its level: about the least f of what it may expand or was sent, and about how
    // many rounds it made at that f, or the greatest number where nobody is to wait for it there.
    levels: [AtomicU64; WORKER_LIMIT],
}

impl Signs {
    /// The signs of a run that goes on, whose workers are awake and have shown no level.
    pub fn new() -> Self {
        Signs {
            stopped: AtomicU64::new(0),
            words: array::from_fn(|_| AtomicU64::new(AWAKE)),
            levels: array::from_fn(|_| AtomicU64::new(NO_LEVEL)),
        }
    }

    /// Whether it is marked that the book has stopped.
    pub fn say_stopped(&self) -> bool {
        self.stopped.load(Ordering::SeqCst) != 0
    }

    /// Marks that the book has stopped, and wakes all workers. The worker that stopped it calls this.
    pub fn mark_stopped(&self) {
        self.stopped.store(1, Ordering::SeqCst);
        for word in &self.words {
            word.store(AWAKE, Ordering::SeqCst);
            word.wake_all();
        }
    }

    /// Wakes a worker, if it sleeps. The worker that sent it a packet calls this.
    pub fn wake(&self, worker: usize) {
        let Some(word) = self.words.get(worker) else {
            return;
        };
        if word.load(Ordering::SeqCst) == ASLEEP {
            word.store(AWAKE, Ordering::SeqCst);
            word.wake_one();
        }
    }

    /// The level that a worker has.
    pub(crate) fn level(&self, worker: usize) -> u64 {
        let Some(level) = self.levels.get(worker) else {
            return NO_LEVEL;
        };
        level.load(Ordering::SeqCst)
    }

    /// The least level of all workers.
    pub(crate) fn lowest_level(&self) -> u64 {
        let mut lowest = NO_LEVEL;
        'levels: for level in &self.levels {
            lowest = lowest.min(level.load(Ordering::SeqCst));
        }
        lowest
    }

    /// Gives a worker a level.
    pub(crate) fn set_level(&self, worker: usize, level: u64) {
        let Some(word) = self.levels.get(worker) else {
            return;
        };
        word.store(level, Ordering::SeqCst);
    }

    /// Lowers a worker's level to the f of another worker, which sent it a packet. Nobody at that f
    /// is to wait for it, until it shows its own level.
    pub(crate) fn lower_level(&self, worker: usize, sender: usize) {
        let Some(level) = self.levels.get(worker) else {
            return;
        };
        let sent = level_at(f_of(self.level(sender)), u32::MAX);
        let _ = level.fetch_min(sent, Ordering::SeqCst);
    }

    /// A worker waits a little after a turn without work, the longer the more there were in a row.
    /// Before it sleeps it takes one turn more with the word that says so: what was sent before is
    /// found by that turn, and a worker that sends later wakes it.
    pub fn wait<R: Wait>(&self, rt: &R, worker: usize, turns: u32) {
        if turns < SPINNING_TURNS {
            spin_loop();
            return;
        }
        if turns < SPINNING_TURNS + YIELDING_TURNS {
            thread::yield_now();
            return;
        }
        let Some(word) = self.words.get(worker) else {
            return;
        };
        if word.swap(ASLEEP, Ordering::SeqCst) == ASLEEP {
            let longest = Duration::from_micros(SLEEP_MICROSECONDS);
            word.park_timeout(rt, ASLEEP as u32, longest);
        }
    }
}
