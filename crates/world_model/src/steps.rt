//! The steps of a run, and why one is refused.

use memory::OutOfMemory;
use outcomes::Want;

/// Why a run is halted.
#[derive(Clone, Copy, Debug, PartialEq, Eq)]
pub enum HaltCause {
    /// The limit on expansions is reached.
    Limit,
    /// Memory was refused.
    Memory(Want),
    /// A thread could not be started.
    Start,
}

/// What stopped a run.
#[derive(Clone, Copy, Debug, PartialEq, Eq)]
pub enum Stop {
    /// No credit is left: no worker has anything to do, and no packet is under way.
    Quiet,
    /// It was halted: the limit on expansions is reached.
    Limit,
    /// It was halted: memory was refused.
    Memory(Want),
    /// It was halted: a thread could not be started.
    Start,
}

/// A step of a run, with the workers that it names.
#[derive(Clone, Copy, Debug)]
pub enum Step {
    /// The worker expands a board.
    Expand(usize),
    /// The worker relaxes an item that it holds.
    Settle(usize),
    /// The first worker sends a packet to the second.
    Send(usize, usize),
    /// The first worker takes in a packet from the second.
    Deliver(usize, usize),
    /// The worker draws credit.
    Draw(usize),
    /// The worker announces the goal's cost.
    Announce(usize),
    /// The worker is granted expansions.
    Grant(usize),
    /// The worker rests: it gives its purse back.
    Rest(usize),
    /// The worker halts the run.
    Halt(usize, HaltCause),
}

/// Why a step is refused.
#[derive(Clone, Copy, Debug, PartialEq, Eq)]
pub enum Refusal {
    /// S1: no board may be expanded below the limit.
    NothingBelowLimit,
    /// S2: no allowance is left.
    NoAllowance,
    /// S3: a packet has no room for all that this board puts there.
    NoRoom,
    /// S4: the lane is full.
    RingFull,
    /// S5: the lane is empty.
    RingEmpty,
    /// S6: the purse is below 2.
    PurseTooSmall,
    /// S7: something is held.
    StillHolding,
    /// S8: memory was refused.
    Memory(OutOfMemory),
    /// S9: not the goal's owner, the goal is unknown, or its cost isn't below the best.
    NothingToAnnounce,
    /// S10: something is held or unsent, a better goal is known, or a board may be expanded.
    NotIdle,
    /// S11: the run is stopped.
    Stopped,
    /// S12: the purse is empty.
    PurseEmpty,
    /// S13: nothing is held, or nothing is unsent.
    NothingThere,
    /// S14: allowance is left.
    AllowanceLeft,
    /// S15: no such worker, or a lane from a worker to itself.
    NoSuchWorker,
    /// S16: the purse or the credit is too great.
    PurseFull,
}

/// Why the book refuses a call.
#[derive(Clone, Copy, Debug, PartialEq, Eq)]
pub enum BookFault {
    /// Q1: the run is stopped.
    RunStopped,
    /// Q2: the purse is empty.
    NoPurse,
    /// Q3: the credit is above 2^63.
    CreditFull,
    /// Q4: the cost isn't below the best.
    NotLower,
    /// Q5: all of the limit is granted.
    NothingLeft,
    /// Q6: the floor is below the limit of the best cost.
    FloorBelowLimit,
    /// Q7: not all of the limit is granted.
    AllowanceRemains,
}
