//! Batches whose lines are answered by the search that a setup guides, and certificates of what it
//! proves.
//!
//! - `run_batch` and `run_cert`: `run_lines` and `certify_first` with the search of a setup. Their
//!   closures call `solve_board` or `answer_board`. These make the `Job` (`job_within`) and call
//!   `read_one_over` for one worker or an easy board, and else `search_by_workers`.
//! - The memory of a worker's lists is kept from one board to the next: in a batch for all lines,
//!   in `end_ahead` for all boards of a thread. Where memory is refused over lists that served
//!   before, the worker begins anew over new ones (`read_over`).
//! - `run_watched` is `run_batch` under a `Watch`: a gate, a clock, and a receiver of figures.
//!   Searches read `WithFigures`, whose figures are exact; no contract says what a watch does.
//! - One worker owns all boards, so it is run with the cheapest spread.
//! - `end_ahead`: boards that are held together, at least 16 if they have at most 9 cells and at
//!   least 2 if more, are solved each by one worker, in as many threads as workers. A thread that
//!   has expanded two million takes no other. A board that takes more than two million, or lacks
//!   memory, is solved again at its line; those behind it keep their endings.
//! - `MayAnswer` is what a board may be answered, `MayCertify` with rows. `bounds_are_due` says
//!   what they mean for bounds.
//! - Start with `specs/Solving.antt`, then `src/solving.rt`.
#![tactic(auto)]

mod ahead;
mod batches;
mod certifying;
pub mod laws;
mod solving;
mod watching;

pub use batches::{run_batch, run_watched};
pub use certifying::run_cert;
pub use watching::Watch;
