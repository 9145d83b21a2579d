//! The closed list, and all other boards that are known: what is known of each, by their keys.
//!
//! - Contracts see a `Closed` as a `ClosedModel`: keys in order of arrival, what is known of each,
//!   and room. Keys are any `u128`.
//! - `relax` answers `New`, `Lower` or `Kept`, and the key's place. Only `reserve` takes memory;
//!   after a refusal the table is as it was.
//! - `clear` keeps the pages. It writes the buckets of the first chains alone: any other one is
//!   written when its chain is added.
//! - In memory: slots in order of arrival, links and buckets, all in `Pages`.
//! - A chain has a bucket of one cache line: hashes and places of its first seven slots, a list for
//!   the others, and a filter of 16 bits, by the hashes in it.
//! - 127 chains are made with the first slot; from 508 slots on one chain is added with each fourth
//!   slot and takes slots from one other (linear hashing, Litwin 1980).
//! - The lists of eight chains divided in a row are read at once, so that cache misses overlap. All
//!   seven hashes are compared without a branch.
//! - `read_ahead` changes nothing in contracts; it writes a field nobody reads, so that the
//!   compiler keeps the reads.
//! - The invariant `IsIndexed` gives each bucket as a function of the keys (`bucket_of`).
//! - `relink` recurses as deep as a chain's list. Keys made to collide could overflow a stack;
//!   boards that were reached do not.
//! - Start with `specs/Tables.antt` and `src/table.rt`; then `specs/Chains.antt`, `src/index.rt`,
//!   `specs/Storage.antt`.
#![tactic(auto)]

mod index;
mod table;

pub use table::{Closed, Relaxed};
