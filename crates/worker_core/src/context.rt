//! What the steps of a worker are lent.

use crate::goal::Goal;
use board::Weights;
use lower_bound::Bound;
use owners::Spread;
use std::marker::Model;

/// What a step of a worker is lent: its number among the workers, and the search that they share.
#[derive(Drop)]
pub struct Context<'a, S: Spread> {
    /// Which worker it is, numbered from 0.
    pub me: usize,
    /// How many workers there are.
    pub workers: usize,
    pub goal: &'a Goal,
    /// What moves cost.
    pub weights: &'a Weights,
    /// The tables that guide the search.
    pub bound: &'a Bound,
    /// Which worker owns a board.
    pub owners: &'a S,
}

impl<'a, S: Spread> Model for Context<'a, S> {
    ghost use Rattle.worker_core.specs.Contexts.{ContextModel, context_of, IsContext};

    ghost Value = { ContextModel S };

    ghost view = { λ c. context_of c.me c.workers c.goal.now c.weights.now c.bound.now
        c.owners.now };

    ghost invariant = { λ c. IsContext (context_of c.me c.workers c.goal.now c.weights.now
        c.bound.now c.owners.now) };
}
