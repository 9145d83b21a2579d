//! Tests of what searches are made of:
//!
//! - boards (`board`, `search_keys`);
//! - groups, tables and sums (`pattern_index`, `database_build`, `lower_bound`, `successor_sums`);
//! - the open list and the known boards (`open_buckets`, `closed_table`);
//! - what workers share (`message_ledger`, `incumbent`, `quiescence`, `owners`).
//!
//! What is expected was worked by hand, comes from another program, or is the answer of a
//! breadth-first search or of an ordered map.
#![tactic(auto)]

#[cfg(test)]
mod boards;
#[cfg(test)]
mod calls;
#[cfg(test)]
mod containers;
#[cfg(test)]
mod faults;
#[cfg(test)]
mod fixtures;
#[cfg(test)]
mod folds;
#[cfg(test)]
mod groups;
#[cfg(test)]
mod keys;
#[cfg(test)]
mod parts;
#[cfg(test)]
mod sums;
#[cfg(test)]
mod tables;
#[cfg(test)]
mod workers;
