//! The tables of all groups of a partition: a whole additive pattern database (Korf, Felner 2002).
//!
//! Groups share no tile, so each table is built without the others: side by side where that pays.
//!
//! - `build_bound` and `build_folded_bound` build a table for each group (`AreBuilt`,
//!   `AreBuiltFolded`); their clause `potentials` makes the sums admissible.
//! - From `PARALLEL_VIEWS` views on, rayon builds the tables side by side, each at a place of its
//!   own. Below that they are built in turn, under the same contract.
//! - Places are made by `memory`: rayon's `collect` would answer std's error, from which no
//!   `OutOfMemory` follows.
//! - Folded tables (trait `GroupTable`) are made of the values of nodes, without a whole table.
//! - Start with `specs/Built.antt`, then `src/building.rt`.
#![tactic(auto)]

mod building;
mod group_tables;
pub mod laws;

pub use building::{build_bound, build_folded_bound};
