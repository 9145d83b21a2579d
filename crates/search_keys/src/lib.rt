//! Boards by their search keys: the cell of each number as a digit of one number.
//!
//! A digit has four bits where a board has at most 16 cells, else five. A move exchanges two digits
//! of the key, and what a group of tiles sees of a board is some digits of it.
//!
//! - A `KeyedBoard` is seen as its `BoardModel`. It holds the shape and the search key; keys of up
//!   to 16 cells fit the lower 64 bits.
//! - `slide` gives the key after a move, which exchanges two digits, and the tile that is moved.
//!   `number_on` finds the number on a cell by one subtraction over all digits (`IsFirstDigit`),
//!   with no loop.
//! - The law `groups_see_digits`: what tiles that follow one another see are digits that follow one
//!   another, as `pattern_index` makes slots of them up to 16 cells.
//! - Items, worlds, workers and open lists know boards by search keys. Rows and certificates keep
//!   `Board::key`.
//! - Proof: what a subtraction of a 1 from each digit leaves is kept while one digit is peeled off
//!   (`ZeroLemmas`), for any number of bits.
//! - Start with `specs/SearchKeys.antt`, `specs/Laws.antt`, then `src/keyed.rt`.
#![tactic(auto)]

mod digits;
mod keyed;
pub mod laws;

pub use digits::short_exchanged;
pub use keyed::{KeyedBoard, Slid};
