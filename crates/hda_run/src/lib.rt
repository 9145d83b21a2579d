//! Worlds of workers, and runs of their steps: hash-distributed A* on one thread (Kishimoto,
//! Fukunaga, Botea 2013).
//!
//! - A `Job` is seen as a `JobModel`; its type keeps that shapes agree and tables are potentials,
//!   so sums are lower bounds. A `World` keeps `IsLawful`: it is shaped, sound and credited, and
//!   each worker's lists are in order by the guide.
//! - `World::new`, `step`, `run_steps`, `finish` for replays, `read` in each reading; `solve_one`
//!   and `read_one` for one worker, `search_one` compares no classes. `read_one_over` keeps memory
//!   from one job to the next. `run_and_finish` states the main theorem.
//! - `Gate` is called after each accepted step, while no lock is held; `Free` does nothing. A bound
//!   is shown where one is wanted (`is_wanted`), and is that of the world that is handed over
//!   (`IsBoundSoFar`).
//! - One worker's run ends by a measure, `work_left`: what may be granted and expanded. It
//!   announces the goal as soon as it was met.
//! - Steps are proved on parts (`own_steps`, `book_steps`, `lane_steps`); three laws of
//!   `world_model` keep the invariant.
//! - Start with `specs/Worlds.antt`, `src/world.rt`, `src/finish.rt`; for one worker
//!   `specs/Alone.antt`, `src/alone.rt`.
#![tactic(auto)]

mod alone;
mod faults;
mod finish;
mod gates;
mod headline;
mod job;
pub mod laws;
mod opening;
mod parts;
mod runs;
mod world;

pub use alone::{are_apart, read_one, read_one_over, search_one, solve_one};
pub use faults::{JobFault, WorldFault};
pub use finish::asked_in;
pub use gates::{Free, Gate, Kind, kind_of};
pub use headline::run_and_finish;
pub use job::Job;
pub use runs::run_steps;
pub use world::{World, is_worker_count};
