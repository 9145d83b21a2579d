//! What all lines of a batch have in common.

ghost use Rattle.std.specs.Prelude.{◌≡◌, ◌≤◌, ◌↔◌, [], Ok, IsOk, IfOk, IfErr};
ghost use Rattle.batch_runs.specs.Setups.{Guides, IsFoldedSetup, plain_setup};
ghost use Rattle.world_model.specs.declared.limits.TheConstants.{WORKER_LIMIT};

use board::{Board, Shape, Weights};
use lower_bound::Bound;
use memory::OutOfMemory;
use outcomes::SolveFault;
use pattern_index::Partition;
use std::alloc::Global;
use std::marker::Model;
use world_model::WORKER_LIMIT;

/// How boards are spread over workers.
#[derive(Clone, Copy, Debug, PartialEq, Eq)]
pub enum SpreadKind {
    /// By a hash of all tiles.
    Zobrist,
    /// By the cell of the blank.
    Blank,
    /// By a hash of every fourth tile, from tile 1 on.
    Abstract,
}

/// What all lines of a batch have in common: the goal, the cost rule, the tables that guide the
/// search, the limit on expansions, and the workers.
#[derive(Debug, Drop)]
pub struct Setup {
    goal: Board,
    weights: Weights,
    bound: Bound,
    limit: u64,
    workers: usize,
    spread: SpreadKind,
}

impl Model for Setup {
    ghost use Rattle.batch_runs.specs.Setups.{SetupModel, IsSetup};

    ghost Value = { SetupModel };

    ghost view = { λ s. record {
      goal = s.goal;
      rule = s.weights;
      tables = s.bound;
      limit = s.limit;
      workers = s.workers;
      spread = s.spread;
    } };

    ghost invariant = { λ s. IsSetup (record {
      goal = s.goal;
      rule = s.weights;
      tables = s.bound;
      limit = s.limit;
      workers = s.workers;
      spread = s.spread;
    }) };
}

impl Setup {
    /// The setup with this goal and these weights, which have one shape: without tables and without
    /// a limit, for one worker.
    pub fn new(alloc: Global, goal: Board, weights: Weights) -> Self
        requires { weights.grid ≡ goal.grid }
        ensures { result ≡ plain_setup goal weights }
    {
        // Empty lists take no memory.
        let groups = Partition::new(goal.shape(), Vec::new(alloc)).unwrap();
        let bound = Bound::new(groups, Vec::new(alloc)).unwrap();
        Setup {
            goal,
            weights,
            bound,
            limit: u64::MAX,
            workers: 1,
            spread: SpreadKind::Zobrist,
        }
    }

    /// The setup with these tables, which are of the goal's shape. They are potentials for the goal
    /// and the weights, or folded from such.
    pub fn bound(self, bound: Bound) -> Self
        requires { Guides self.goal self.rule bound }
        ensures { result ≡ record self { tables = bound } }
    {
        let mut setup = self;
        setup.bound = bound;
        setup
    }

    /// The setup with the same tables, folded: no sum of theirs is higher. A setup that has no
    /// whole table stays as it is. An error is answered only where memory was refused.
    pub fn folded(self, alloc: Global) -> Result<Self, OutOfMemory>
        ensures folded { IfOk result (IsFoldedSetup self) }
        ensures kept { self.tables.lookups ≡ [] → result ≡ Ok self }
    {
        let Setup {
            goal,
            weights,
            bound,
            limit,
            workers,
            spread,
        } = self;
        let bound = bound.folded(alloc)?;
        Ok(Setup {
            goal,
            weights,
            bound,
            limit,
            workers,
            spread,
        })
    }

    /// The setup with this limit on the boards that are expanded for a line.
    pub fn limit(self, limit: u64) -> Self
        ensures { result ≡ record self { limit = limit } }
    {
        let mut setup = self;
        setup.limit = limit;
        setup
    }

    /// The setup with this number of workers, or V2 where it is below 1 or above 16.
    pub fn workers(self, workers: usize) -> Result<Self, SolveFault>
        ensures accepted { IsOk result ↔ ((1 ≤ workers) × (workers ≤ WORKER_LIMIT)) }
        ensures value { IfOk result (λ setup. setup ≡ record self { workers = workers }) }
        ensures fault { IfErr result (λ fault. fault ≡ SolveFault.WorkerCount) }
    {
        if workers == 0 {
            return Err(SolveFault::WorkerCount);
        }
        if workers > WORKER_LIMIT {
            return Err(SolveFault::WorkerCount);
        }
        let mut setup = self;
        setup.workers = workers;
        Ok(setup)
    }

    /// The setup with boards spread so over its workers.
    pub fn spread(self, spread: SpreadKind) -> Self
        ensures { result ≡ record self { spread = spread } }
    {
        let mut setup = self;
        setup.spread = spread;
        setup
    }

    /// The goal of each line.
    pub fn goal(&self) -> Board
        ensures { result ≡ self.now.goal }
    {
        self.goal
    }

    /// What a move costs.
    pub fn weights(&self) -> Weights
        ensures value { result ≡ self.now.rule }
        ensures sides { result.grid ≡ self.now.goal.grid }
    {
        self.weights
    }

    /// The shape of each board.
    pub fn shape(&self) -> Shape
        ensures { result ≡ self.now.goal.grid }
    {
        self.goal.shape()
    }

    /// The tables that guide the search; without groups where none were given.
    pub fn tables(&self) -> &Bound
        ensures value { result.now ≡ self.now.tables }
        ensures guides { Guides self.now.goal self.now.rule result.now }
    {
        &self.bound
    }

    /// How many boards may be expanded for a line.
    pub fn expansion_limit(&self) -> u64
        ensures { result ≡ self.now.limit }
    {
        self.limit
    }

    /// How many workers there are.
    pub fn worker_count(&self) -> usize
        ensures value { result ≡ self.now.workers }
        ensures some { 1 ≤ result }
        ensures few { result ≤ WORKER_LIMIT }
    {
        self.workers
    }

    /// How boards are spread over them.
    pub fn spread_kind(&self) -> SpreadKind
        ensures { result ≡ self.now.spread }
    {
        self.spread
    }
}
