//! The searches that fill a pattern database: the value of each node of a group's view graph.
//!
//! They go backwards from the goal's node, since each view move can be taken back at its cost.
//! Where every tile costs the same, that is a breadth-first search by layers; elsewhere it is
//! uniform-cost search, with an open list of buckets by cost.
//!
//! `find_values` gives the value of each view of the group as that of its node (`AreFound`, where
//! `IsValue` says what a value is); `database_build` makes its tables of these.
//!
//! - Where every tile costs the same it goes by layers: all nodes that are first met in a layer
//!   have one value. Sets of nodes are bits, 64 orders of a region in a word.
//! - Elsewhere a node waits in the bucket of its value. Buckets are emptied in rising order; an
//!   outdated entry is passed over when it is taken out.
//! - The proof needs no order of buckets. `IsUnderWay` of `SearchLemmas` is the invariant; a node
//!   is put in only where the sum of values falls, so the search ends.
//! - Both searches end in `values_are` of `SearchLemmas`: values that no edge can lower, and that
//!   plans reach, are the values of the views.
//! - `NO_VALUE` is here, since `IsValue` names it; `database_build` exports it again.
//! - Start with `specs/Searches.antt`, then `src/finding.rt` and `src/search.rt`.
#![tactic(auto)]

mod finding;
pub mod laws;
mod layers;
mod search;

pub use finding::{Found, NO_VALUE, find_values};
