//! The book of a run, which all workers share: the credit, which shows when the run has ended, the
//! best cost, and what is granted of the limit on expansions.
//!
//! - A `Book` is seen as `BookState`. Its type keeps `IsLawfulBook`: Quiet means no credit, Limit
//!   means all granted, no floor is below the limit of the best cost.
//! - `draw`, `announce`, `grant`, `rest` and `halt` are each one clause, the call of that name in
//!   `BookCalls.antt` of `world_model`.
//! - `rest` answers `Quiet` exactly where no credit is left. `stop` states the invariant, for a
//!   caller that takes the book from a lock.
//! - Floors have room for `WORKER_LIMIT` in the book, so no call takes memory.
//! - Start with `src/book.rt` beside `BookCalls.antt`.
#![tactic(auto)]

mod book;
mod faults;

pub use book::{Book, Rested};
pub use faults::{book_code, codes_differ};
