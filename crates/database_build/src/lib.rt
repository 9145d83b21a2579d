//! Tables of the values of views: for each placement of a group's tiles and of the blank, what
//! bringing them home costs at least.
//!
//! An additive pattern database (Korf, Felner 2002) is made of such tables. Only moves of the
//! group's tiles count, so the values of groups that share no tile may be added.
//!
//! - Contracts see a `Table` as a `TableModel`: the group and the values by rank. It keeps them by
//!   slot where there are at most 2^25 slots, as bytes where all fit, else by rank (`IsKeptBest`).
//! - `build` gives each view's value (`HoldsValues`), from what `pattern_search` finds of nodes.
//! - `is_potential` makes one pass and takes no memory. It answers false for a table of another
//!   group.
//! - `fold` keeps for each placement of the tiles the least value over the blank's cells
//!   (`IsFoldOf`). By the laws it is at most each such view's value, and one of them.
//! - A `Folded` keeps its values by sparse place (`HasLeast`), as bytes where all fit;
//!   `sparse_value` tells one with one read.
//! - By place instead where there are more than `MOST_PLACES` sparse places, or four for each
//!   value.
//! - Start with `specs/Tables.antt`, `specs/Laws.antt`, then `src/building.rt`.
#![tactic(auto)]

mod building;
mod entries;
mod faults;
mod folding;
pub mod laws;
mod least;
mod potential;
mod table;

pub use building::{build, build_folded, build_folded_in, build_in};
pub use faults::TableFault;
pub use folding::{Folded, MOST_PLACES, PLACES_A_VALUE, fold};
pub use pattern_graph::Frame;
pub use pattern_search::NO_VALUE;
pub use potential::is_potential;
pub use table::Table;
