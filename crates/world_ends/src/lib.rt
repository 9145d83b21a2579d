//! What the parts of a world give when a run has ended: its outcome.
//!
//! - `read` gives what a world gives from its workers, in a `Reading`: an outcome with rows, an
//!   ending without them, or an ending with figures (boards expanded and known). The caller says
//!   what is lowest in the lanes. Worlds and joined threads share it.
//! - `whole_ending` follows the plan back and computes the bound; `rows_for` makes rows behind
//!   that, or the bound is given alone.
//! - An ending is a bound for memory only where the run was halted for it, or where the goal is
//!   known (`EndsIn`). Soundness gives each predecessor, so nothing is tested afterwards.
//! - Laws compare endings with outcomes (`endings_lack_rows_alone`, `bounds_lack_rows_alone`).
//!   `bench/finish` times it.
//! - Start with `specs/Parts.antt`, `specs/Endings.antt`, then `src/outcome.rt`.
#![tactic(auto)]

mod asked;
mod figures;
pub mod laws;
mod lowest;
mod outcome;
mod plan;
mod reading;
mod rows;

pub use asked::{Asked, Snapshot};
pub use figures::Figures;
pub use lowest::lowest_of;
pub use reading::{EndingWithFigures, Reading, WithFigures, WithRows, WithoutRows, read};
pub use rows::rows_for;
