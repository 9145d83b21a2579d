//! Jobs.

ghost use Rattle.std.specs.Prelude.{◌≡◌, ◌<◌, ◌↔◌, IsOk, IsErrOf, IfOk};
ghost use Rattle.board.specs.Rows.{IsLowerBound};
ghost use Rattle.lower_bound.specs.Tables.{ArePotentials};
ghost use Rattle.world_model.specs.Shapes.{IsTask};
ghost use Rattle.hda_run.specs.Jobs.{problem, context_in, HasOneShape, task_in};

use crate::faults::JobFault;
use board::{Board, Weights};
use lower_bound::Bound;
use lower_bound::laws::sums_are_lower_bounds;
use owners::Spread;
use std::marker::Model;
use worker_core::{Context, Goal};

/// What is to be solved: the plans from a start to a goal, the weights of moves, tables whose sums
/// guide the search, and how many boards may be expanded.
#[derive(Drop)]
pub struct Job<'a> {
    start: Board,
    goal: Goal,
    weights: Weights,
    bound: &'a Bound,
    limit: u64,
}

impl<'a> Model for Job<'a> {
    ghost use Rattle.hda_run.specs.Jobs.{JobModel, problem, IsProblem};

    ghost Value = { JobModel };

    ghost view = { λ j. problem j.start j.goal j.weights j.bound.now j.limit };

    ghost invariant = { λ j. IsProblem (problem j.start j.goal j.weights j.bound.now j.limit) };
}

impl<'a> Job<'a> {
    /// A job, or V1 where start, goal, weights and bound are not of one shape. Each table has to be
    /// a potential for the goal and the weights.
    pub fn new(
        start: Board,
        goal: Board,
        weights: Weights,
        bound: &'a Bound,
        limit: u64,
    ) -> Result<Self, JobFault>
        requires { ArePotentials weights goal bound.now }
        ensures accepted { IsOk result
            ↔ HasOneShape (problem start goal weights bound.now limit) }
        ensures value { IfOk result (λ job. job ≡ problem start goal weights bound.now limit) }
        ensures fault { (fault : JobFault) → IsErrOf result fault
            ↔ ((fault ≡ JobFault.ShapesDiffer)
            × (¬ HasOneShape (problem start goal weights bound.now limit))) }
    {
        let shape = goal.shape();
        if start.shape() != shape {
            return Err(JobFault::ShapesDiffer);
        }
        if weights.shape() != shape {
            return Err(JobFault::ShapesDiffer);
        }
        if bound.partition().shape() != shape {
            return Err(JobFault::ShapesDiffer);
        }
        sums_are_lower_bounds();
        Ok(Job {
            start,
            goal: Goal::new(&goal),
            weights,
            bound,
            limit,
        })
    }

    /// The board from which plans begin.
    pub fn start(&self) -> &Board
        ensures { result.now ≡ self.now.start }
    {
        &self.start
    }

    /// The board to which they lead.
    pub fn goal(&self) -> &Board
        ensures value { result.now ≡ self.now.goal }
        ensures task { IsTask (task_in self.now) }
    {
        self.goal.board()
    }

    /// The goal, with its search key.
    pub fn keyed_goal(&self) -> &Goal
        ensures value { result.now ≡ self.now.goal }
        ensures task { IsTask (task_in self.now) }
    {
        &self.goal
    }

    /// What moves cost.
    pub fn weights(&self) -> &Weights
        ensures value { result.now ≡ self.now.rule }
        ensures sides { result.now.grid ≡ self.now.goal.grid }
    {
        &self.weights
    }

    /// The tables. The sum of their values is never above the cost of a plan to the goal.
    pub fn bound(&self) -> &Bound
        ensures value { result.now ≡ self.now.tables }
        ensures sides { result.now.split.grid ≡ self.now.goal.grid }
        ensures potentials { ArePotentials self.now.rule self.now.goal self.now.tables }
        ensures lower { IsLowerBound self.now.rule (task_in self.now).sum self.now.goal }
    {
        self.bound
    }

    /// What the steps of worker `me` of `workers` are lent, where boards have these owners.
    pub fn context<'b, S: Spread>(
        &'b self,
        me: usize,
        workers: usize,
        owners: &'b S,
    ) -> Context<'b, S>
        requires { me < workers }
        ensures value { result ≡ context_in self.now me workers owners.now }
        ensures task { IsTask (task_in self.now) }
    {
        Context {
            me,
            workers,
            goal: &self.goal,
            weights: &self.weights,
            bound: self.bound,
            owners,
        }
    }

    /// How many boards may be expanded.
    pub fn limit(&self) -> u64
        ensures { result ≡ self.now.limit }
    {
        self.limit
    }
}
