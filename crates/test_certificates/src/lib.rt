//! Tests of the crates `certificate` and `certificate_check`: certificates by their fields and by
//! their bytes, groups of tiles in them, streams that fail, and what the checker answers.
#![tactic(auto)]

#[cfg(test)]
mod checker;
#[cfg(test)]
mod format;
#[cfg(test)]
mod groups;
#[cfg(test)]
mod streams;
#[cfg(test)]
mod vectors;
