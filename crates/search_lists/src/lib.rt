//! The open and the closed list of a search, kept in step.
//!
//! - `SearchLists` is an open list of places in a table of known boards. It knows keys alone; a
//!   `Guide` in clauses gives sums and the goal.
//! - `IsInOrder`: each open board waits at its f, and every entry was put there so.
//! - `relax` puts news into the open list; `next` gives an open board of least f below a limit;
//!   outdated entries go out at their turn.
//! - `next` sorts the entries of an f by g, greatest first, when that f first becomes the least,
//!   and after `order_anew`. Entries that are put there later come first. No clause says so.
//! - Where many boards are known, up to `BATCH` entries of one f take turns. `upcoming` answers
//!   those that come next, and no clause says which these are.
//! - `reserve_boards` asks for 64 boards at once, and only if that is refused for those needed.
//! - `clear` forgets all and keeps the memory, so that one search after another needs little more.
//! - `has_met_goal` is a hint; no clause speaks of it.
//! - Start with `specs/Orders.antt`, then `src/lists.rt`.
#![tactic(auto)]

pub mod laws;
mod lists;

pub use lists::{BATCH, BOARDS_IN_CACHE, Met, Next, SearchLists};
