//! Boards of the sliding-tile puzzle: shapes, boards and their keys, moves and what they cost,
//! plans, and the two classes of boards.
//!
//! A board is the list of the tiles on its cells, from left to right and from top to bottom, with 0
//! for the blank (Korf 1985).
//!
//! - Contracts see a `Board` as a `BoardModel` (a grid and the numbers on its cells), a `Shape` as
//!   a `ShapeModel`, `Weights` as a `WeightsModel`.
//! - In memory a board is its shape and 25 bytes, unused ones 0. All types are `Copy`; `==` is
//!   equality of what contracts see.
//! - `Board::step` is `Moves`, both ways; `follow` is `Leads`; `same_class` decides the parity
//!   class.
//! - `from_tiles`, `tiles`, `key`, `from_key` convert exactly; `of_key` skips the test for a key
//!   that is known to be a board's.
//! - A call that returns a shape also states that its owner is lawful, since callers see only the
//!   model.
//! - No call takes memory. The faults are E1 to E4, E13 and E14.
//! - A board does not keep the blank's cell: a search key has it as its lowest digit
//!   (`search_keys`).
//! - `follow` adds in 128 bits, since a plan may have almost 2^64 moves of 255 each.
//! - Start with `specs/Boards.antt`, `specs/Moves.antt`, `specs/Plans.antt`, then `src/boards.rt`.
#![tactic(auto)]

mod boards;
mod classes;
mod costs;
mod faults;
pub mod laws;
mod moves;
mod plans;
mod shapes;
mod worked;

pub use boards::Board;
pub use classes::same_class;
pub use costs::{GREATEST_COST, GREATEST_EXPANDED_COST, Weights};
pub use faults::{BoardFault, ShapeFault, TilesFault, WeightsFault};
pub use moves::Move;
pub use plans::follow;
pub use shapes::Shape;
