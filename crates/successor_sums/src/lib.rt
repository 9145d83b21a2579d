//! The successors of a board with their sums, and the cells to which its blank can go.
//!
//! A board is taken apart once, with the cell of each tile beside the tiles. A successor is then
//! two cells exchanged and is given by its key: no board is made of it.
//!
//! - An `UnpackedBoard` is seen as its `BoardModel`. It holds the shape, the key and the cell of
//!   each number; a tile on a cell is a digit of the key.
//! - `successors` gives key, moved tile, its cell, cost and sum of each successor, in the order of
//!   `Move::ALL`, for the checker. Searches take `find_exits` and `ByMoves` from here, and
//!   successors from `owners`.
//! - A `ByMoves` is a list without gaps. `put_if` writes always and counts where the item exists,
//!   so loops over successors have no branch to mispredict.
//! - Write lists in place: a list that is returned is copied behind its own byte writes, which
//!   stalls. Padding is copied too.
//! - No call takes memory.
//! - Start with the first two definitions of `specs/Unpacked.antt`, then `src/unpacked.rt`.
#![tactic(auto)]

mod by_moves;
mod exits;
mod unpacked;

pub use by_moves::{ByMoves, MOVES, items_are_as_made};
pub use exits::find_exits;
pub use unpacked::{Successor, UnpackedBoard};
