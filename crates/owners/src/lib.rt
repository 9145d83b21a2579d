//! Which worker owns a board, and what the moves from a board offer to its owners.
//!
//! - A `Spread` says which worker owns a board: any function of the spread, the number of workers
//!   and the board.
//! - `Zobrist`: the exclusive or of a word for each tile and cell (Zobrist 1970), words from
//!   `SplitMix64`. `Abstract`: of tiles 1, 5, 9, .. alone. `ByBlank`: the blank's cell.
//! - `owner_after` finds a successor's owner from its parent's hash, which changes by two words. By
//!   default `owner_by_key` finds the owner by the successor's search key.
//! - `worker_of` has constants for common numbers of workers, since a division by a constant is
//!   cheap.
//! - `offers_of` gives the successors of a board with cost, f and owner (`AreOffered`), except one
//!   that may be left out. No board is made. `has_room` says whether the unsent packets have room
//!   for what goes to others.
//! - Start with `specs/Owners.antt`, `specs/Offers.antt`, then `src/spread.rt`, `src/offer.rt`.
#![tactic(auto)]

pub mod laws;
mod offer;
mod room;
mod spread;
mod terms;
pub mod worked;
mod zobrist;

pub use offer::{Offer, no_offers, offers_of};
pub use room::has_room;
pub use spread::{ByBlank, Moved, Slide, Spread, worker_of};
pub use terms::{Origin, Terms};
pub use zobrist::{Abstract, Zobrist};
