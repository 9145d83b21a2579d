//! A board whose moves are offered, and the search in which they are.

use crate::spread::Spread;
use board::Weights;
use lower_bound::Bound;
use search_keys::KeyedBoard;
use std::marker::Model;

/// A board whose moves are offered. Neither its cost nor its sum is above the greatest cost of a
/// board that is expanded.
#[derive(Drop)]
pub struct Origin<'a> {
    pub board: &'a KeyedBoard,
    /// What it costs to reach it.
    pub cost: u32,
    /// Its sum, by the tables of the search.
    pub sum: u32,
}

/// The search in which moves are offered. Costs and tables have the same sides, and the tables are
/// consistent.
#[derive(Drop)]
pub struct Terms<'a, S: Spread> {
    /// What moves cost.
    pub weights: &'a Weights,
    /// The tables that guide the search.
    pub bound: &'a Bound,
    /// Which worker owns a board.
    pub owners: &'a S,
    /// How many workers there are.
    pub workers: usize,
}

impl<'a> Model for Origin<'a> {
    ghost use Rattle.owners.specs.Terms.{OriginModel, IsOrigin};

    ghost Value = { OriginModel };

    ghost view = { λ o. record { board = o.board.now; cost = o.cost; sum = o.sum } };

    ghost invariant = { λ o. IsOrigin (record {
      board = o.board.now;
      cost = o.cost;
      sum = o.sum;
    }) };
}

impl<'a, S: Spread> Model for Terms<'a, S> {
    ghost use Rattle.owners.specs.Terms.{TermsModel, IsTerms};

    ghost Value = { TermsModel S };

    ghost view = { λ t. record {
      rule = t.weights.now;
      tables = t.bound.now;
      owners = t.owners.now;
      workers = t.workers;
    } };

    ghost invariant = { λ t. IsTerms (record {
      rule = t.weights.now;
      tables = t.bound.now;
      owners = t.owners.now;
      workers = t.workers;
    }) };
}
