//! What workers send one another, and how a run tells that nothing is under way: each worker has a
//! purse, each packet carries a share of 1, and the credit is the sum of them all. What workers may
//! expand is counted in the same way.
//!
//! - Contracts see amounts and lists of items: `Purse`, `Credit`, `Grants` are numbers, a `Packet`
//!   is its items, an `Allowance` is what was granted and what is left.
//! - All are generic in a `Counting`: `Plain` counts whole numbers, `Shares` parts of two ledgers
//!   of `std::sync::ledger`, without size or time at run time.
//! - `counts` is what a caller owes to show that a share is one of those summed: with `Plain` a
//!   comparison, with `Shares` nothing.
//! - A thread knows of a book behind a lock what its type says. So the way of counting also fixes
//!   limit, number of workers and possible causes of a stop (`Tokens`, `Capped`).
//! - `seal` takes 1 off a purse for a packet; `open` adds it to the receiver's. A packet has at
//!   least one item and a share of exactly 1.
//! - `audit` and `audit_packet` change nothing; they say that a share is within the credit.
//!   `Gathered` adds up the tickets that come back.
//! - A ledger of credit has 2^64 - 1 parts, one for each 1 of any sum that fits.
//! - Start with `src/counting.rt`, `src/credit.rt`, `src/packet.rt`.
#![tactic(auto)]

mod allowance;
mod counting;
mod credit;
pub mod laws;
mod packet;
mod plain;
mod shares;

pub use allowance::{Allowance, Gathered, Grants, Tickets};
pub use counting::{Counting, Tokens};
pub use credit::{Credit, Purse};
pub use packet::Packet;
pub use plain::Plain;
pub use shares::{Capped, Shares};
