//! Runs of hash-distributed A* by threads. Whatever the threads do, what is answered rests on what
//! was found once all were joined; where that does not bear an answer out, one worker solves the
//! job alone.
//!
//! - `solve` checks the number of workers. `search_by_workers`, in each reading, takes one that is
//!   known to be from 1 to 16.
//! - `run_by_threads` answers `Some` exactly where the joined world is kept (`IsKept`: what it gives
//!   may be used), so tests can see that threads answered.
//! - Order: number of workers (V2), parity, then threads or one worker. `ledgers` opens the two
//!   ledgers, `opening` makes the parts, `teams` makes the rings, runs and joins.
//! - `outcome_of_joined` takes a `Team`: the parts, the book, and all its tickets. It answers
//!   `Some` exactly where the joined world is kept; the error is refused memory.
//! - `take_apart` sorts parts into workers and ends, `tie_all` looks at each ring, `audit_all` at
//!   each purse, `count_expanded` adds up tickets. Lanes of the joined world exist in proofs alone;
//!   the lowest f in rings is found by taking packets out.
//! - The look (`looks.rt`) reads the workers, never the book alone, and decides both ways.
//! - The outcome is that of the kept joined world, else of one worker's run (`IsSolved`).
//!   `HasWholeRun`: no bound is for a cut or a missing thread.
//! - No clause says that a run ends.
//! - Start with `specs/Threads.antt`, `specs/Solved.antt`, then `src/outcome.rt`, `src/solving.rt`.
#![tactic(auto)]

mod apart;
mod counting;
pub mod joined_laws;
pub mod laws;
mod ledgers;
mod looks;
mod lowest;
mod opening;
mod outcome;
mod solving;
mod team;
mod teams;
mod ties;
mod world;

pub use ledgers::run_by_threads;
pub use solving::{search_by_workers, solve};
