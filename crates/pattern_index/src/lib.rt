//! Groups of tiles, what they see of a board, and a dense number for each view of a group.
//!
//! A view is the abstraction of a board for a group: where the blank and the group's tiles are,
//! with the other tiles left out. An additive pattern database (Korf, Felner 2002) keeps a value
//! for each view of a group. The number of a view, its rank, is its place in lexicographic order.
//!
//! - Contracts see a `View` as a `ViewModel` (the blank's cell, and the tiles' cells by rising
//!   tile), a `Group` as a `GroupModel`, a `Partition` as a `PartitionModel`.
//! - A group has at most 9 tiles, since 10 make too many views on every board. A view has room for
//!   10 cells; unused places are 0.
//! - `rank` numbers the views in lexicographic order; `unrank` inverts it. `rank_at` needs no view,
//!   only the cell of each number (`cells_of`).
//! - `place` ranks the tiles' cells without the blank's, for folded tables. `sparse_place_at` has
//!   these cells as digits. A moved tile changes it by a multiple of its `stride`.
//! - A rank grows digit by digit from a mask of cells seen, so no place weights are kept and
//!   nothing is divided. `bench/ranks` times it.
//! - E6 and E7 carry no place; the reader of the text knows it. E8 is decided at the first product
//!   above the limit, so nothing wraps.
//! - Only `Partition::copy` takes memory.
//! - Start with `specs/Views.antt`, `specs/Ranks.antt`, `specs/Laws.antt`, then `src/group.rt`.
#![tactic(auto)]

mod cells;
mod faults;
mod group;
pub mod laws;
mod partition;
mod sparse;
mod view;
mod worked;

pub use cells::list_cells;
pub use faults::{GroupFault, PartitionFault};
pub use group::{Group, MAX_SIZE};
pub use partition::{Partition, is_apart};
pub use sparse::{digit_base, sparse_place};
pub use view::{View, cells_of, exchange};
