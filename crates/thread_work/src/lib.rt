//! The threads of a run of hash-distributed A*: what the worker of each does until the run has
//! stopped, how one that has nothing to do gives its core away, and how threads are started and
//! joined. Nothing is assumed of the other threads: a part comes back with the
//! `SealedModel` that it had.
//!
//! - A `Site` is what all threads work with: the handle, the gate, the signs and the book.
//! - `run_all` starts a thread for each part, joins them in order and gives the parts back with
//!   their `SealedModel`s. `work` is one thread's loop.
//! - `run_parts` calls itself for the parts before the last, so no list of handles exists, and each
//!   thread started is joined.
//! - Where a thread cannot be started, the book is halted by Start and the part comes back as it
//!   was.
//! - A round receives, announces, expands up to 16 boards, sends nearly full packets, and rests
//!   if nothing was done and it does not wait.
//! - A worker waits while another one has boards of f lower by more than a lead (`Pace`), or, where
//!   it has no lead, is over 64 rounds behind at the same f: what it expanded might be in vain.
//!   `Signs` has each one's level, which is about the least f of its boards and its rounds there,
//!   and proves nothing: after 32 rounds in a row without a packet, or 16 at the same f, it expands
//!   some anyway. Before it shows a higher f it sends what is unsent; a sender lowers the receiver's
//!   level to its own f.
//! - The book's lock is held for one step or look. A mark in `Signs` says that it has stopped; the
//!   mark proves nothing, so the book is read then.
//! - An idle thread spins 8 rounds, yields 8, then sleeps at most 100 microseconds. Before it
//!   sleeps it looks at its rings once more with its word set.
//! - Start with `src/rounds.rt`, then `src/threads.rt`.
#![tactic(auto)]

mod book_steps;
mod lane_steps;
mod rounds;
mod signs;
mod site;
mod threads;

pub use rounds::work;
pub use signs::Signs;
pub use site::Site;
pub use threads::run_all;
