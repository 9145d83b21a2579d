//! Lower bounds on the costs of plans: the values of a board's views, added over groups that share
//! no tile (Korf, Felner 2002). As a heuristic such a sum is admissible.
//!
//! - Contracts see a `Bound` as `BoundModel`: a `PartitionModel`, whole tables (`TableModel`) and
//!   folded ones (`FoldedModel`). One list is empty; the type keeps `IsTables`.
//! - `of` is exactly the sum. Its clause `nothing_below` is the theorem at that board; the law
//!   `sums_are_lower_bounds` says it of all boards.
//! - A bound knows no goal and no weights. `ArePotentials` is a premise, known of built tables and
//!   tested by `is_potential`.
//! - `folded` folds one table after the other and frees each. `partition` and `tables` also say
//!   `IsTables`.
//! - `read` says what the tables read of a board: digits of its search key, where all are whole and
//!   of consecutive tiles on at most 16 cells; else the cells of its numbers. `sum_after_move`
//!   takes that and reads one table; `of_keyed` reads all.
//! - `Parts` are a board's values by folded tables. `parts_after` looks up the moved tile's group
//!   alone (`KeepsOtherTiles`).
//! - Proof: a move of a board is a view move for each group, at the move's cost for one group at
//!   most. So the sum falls by at most the move's cost, and it is 0 at the goal.
//! - A folded sum is at most that of the tables that were folded; it need not be consistent.
//! - Only `folded` takes memory.
//! - Start with `specs/Bounds.antt`, `specs/Laws.antt`, then `src/bound.rt`.
#![tactic(auto)]

mod bound;
mod by_tile;
mod consecutive;
mod faults;
pub mod laws;
mod parts;
mod reading;
mod slides;

pub use bound::{Bound, GREATEST_SUM, TableList};
pub use database_build::{TableFault, is_potential};
pub use faults::PatternFault;
pub use parts::Parts;
pub use reading::Reading;
