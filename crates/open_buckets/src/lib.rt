//! The open list: what waits to be expanded, in buckets by cost plus sum.
//!
//! - Contracts see an `Open` as an `OpenModel`: at each f the entries in order and the room for
//!   more. In memory: a bucket for each f up to the greatest reserved, and a cursor at or below the
//!   least f.
//! - Only `reserve` takes memory; `put` requires a place, and an entry taken out leaves its place.
//!   `clear` takes out all, so that the list can be used again with the memory that it has.
//! - `take_lowest` takes the last entry of the least f below a limit. `lowest` and `last_at` look
//!   without taking.
//! - `sort_at` sorts one f by cost. A bucket that grows gets 32 places, or just those asked for if
//!   these are refused.
//! - Start with `specs/OpenLists.antt`, then `src/open.rt`.
#![tactic(auto)]

pub mod laws;
mod open;

pub use open::{GREATEST_F, Open};
