//! What a thread has of a run of hash-distributed A*: a worker, and its ends of the rings to and
//! from each worker. Each step of such a part keeps what joined parts rest on, whatever the other
//! threads do.
//!
//! - `Sender` and `Receiver` are the ends of an `rtrb` ring, a `LaneOut` and a `LaneIn`. Contracts
//!   see which ring it is and what passed. A sender takes as many packets as its ring has room for,
//!   and a receiver gives those that it has seen. After that a ring may refuse at any time; nothing
//!   has changed then.
//! - `open_rings` makes a ring for each ordered pair, and one of a single packet from each worker
//!   to itself, so loops have no special case. No later call on rings takes memory.
//! - `tie` is lent both ends after the joins: `received ++ left` is `sent`.
//! - A `Search` is what the threads of a run share: the job, the owners, and how many workers there
//!   are.
//! - A `Part` is a worker, its ring ends and its job. `IsSoundPart` is what it keeps, whatever
//!   other threads do.
//! - A `Sealed` is a part that keeps `IsSoundPart`; contracts see its `SealedModel` (job, owners,
//!   number, rings), which no step changes.
//! - Each step requires `IsSoundPart` and keeps it and the `SealedModel`. Steps on the book are
//!   lent the book, so the caller holds the lock.
//! - Differences from a world: Expand leaves out the move back, and an empty purse bars each step
//!   on the book (S12, law `book_steps_need_a_purse`).
//! - Start with `specs/Rings.antt`, `specs/Parts.antt`, then `src/own_steps.rt`.
#![tactic(auto)]

mod book_steps;
mod ends;
mod lane_steps;
pub mod laws;
mod opening;
mod own_steps;
mod part;
mod rows;
mod sealed;
mod search;
mod ties;

pub use ends::{NoRing, Receiver, Sender};
pub use opening::{Means, open_part};
pub use part::Part;
pub use rows::{Ends, NoMemory, Rings, open_rings, take_row};
pub use sealed::Sealed;
pub use search::Search;
pub use ties::tie;
