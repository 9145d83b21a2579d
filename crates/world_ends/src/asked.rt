//! What was asked of a run, and what is seen of it beside its workers.

use board::{Board, Weights};
use lower_bound::Bound;
use world_model::Stop;

/// What was asked of a run: plans from a start to a goal, what their moves cost, and the tables
/// whose sums guide the search.
#[derive(Clone, Copy, Debug)]
pub struct Asked<'a> {
    pub start: Board,
    pub goal: Board,
    pub weights: Weights,
    pub bound: &'a Bound,
}

/// What is seen of a world beside its workers: the least cost plus sum of the items in its lanes,
/// if there are any, and what stopped the run, if anything did.
#[derive(Clone, Copy, Debug)]
pub struct Snapshot {
    pub lanes: Option<u32>,
    pub stop: Option<Stop>,
}
