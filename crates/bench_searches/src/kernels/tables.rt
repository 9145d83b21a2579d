//! Tables, and what they come to.

ghost use Rattle.std.specs.Prelude.{◌≡◌, length, IfSome};
ghost use Rattle.pattern_index.specs.Groups.{size_of};
ghost use Rattle.pattern_graph.specs.Frames.{FitsGroup};

use crate::kernels::steps::next_state;
use crate::kernels::sums::shuffled;
use board::{Board, Shape, Weights};
use database_build::{Folded, Frame, NO_VALUE, Table, build_folded_in, build_in};
use pattern_index::Group;
use std::alloc::Global;

/// What the values of a table come to: their count, the highest cost among them, their sum, and a
/// number into which all of them are mixed in order. That is FNV-1a with a value in place of a byte.
#[derive(Clone, Copy)]
pub struct Summary {
    pub views: usize,
    pub highest: u16,
    pub sum: u64,
    pub check: u64,
}

impl Summary {
    // Of no values.
    fn empty() -> Self {
        Summary {
            views: 0,
            highest: 0,
            sum: 0,
            check: 14695981039346656037,
        }
    }

    // Adds a value to all but the count.
    fn add(&mut self, value: u16) {
        if value < NO_VALUE && value > self.highest {
            self.highest = value;
        }
        self.sum = self.sum.wrapping_add(value as u64);
        self.check = (self.check ^ value as u64).wrapping_mul(1099511628211);
    }
}

/// What tables are built for: a number for the weights and one for the goal, whether they are folded,
/// and whether all their values are read then.
#[derive(Clone, Copy)]
pub struct Task {
    /// 0 for unit cost, 1 for face cost, or what weights are drawn by.
    pub weights: u64,
    /// 0 for the goal of the shape, or what another one is drawn by.
    pub goal: u64,
    pub is_folded: bool,
    pub is_read: bool,
}

impl Task {
    /// Unit cost, and the goal of the shape.
    pub fn plain() -> Self {
        Task {
            weights: 0,
            goal: 0,
            is_folded: false,
            is_read: true,
        }
    }

    /// The same for folded tables.
    pub fn folded(self) -> Self {
        Task {
            is_folded: true,
            ..self
        }
    }

    /// The same for tables that are built and not read.
    pub fn unread(self) -> Self {
        Task {
            is_read: false,
            ..self
        }
    }

    /// The same for these weights and this goal.
    pub fn drawn(self, weights: usize, goal: usize) -> Self {
        Task {
            weights: weights as u64,
            goal: goal as u64,
            ..self
        }
    }

    // Its weights for a shape, or None where they make none.
    fn weights(&self, shape: Shape) -> Option<Weights>
        ensures { IfSome result (λ weights. weights.grid ≡ shape) }
    {
        match self.weights {
            0 => Some(Weights::unit(shape)),
            1 => Some(Weights::face(shape)),
            seed => Weights::list(shape, drawn_weights(seed).get(1..shape.cells())?).ok(),
        }
    }

    // Its goal for a shape, or None where it makes none.
    fn goal(&self, shape: Shape) -> Option<Board>
        ensures { IfSome result (λ goal. goal.grid ≡ shape) }
    {
        if self.goal == 0 {
            return Some(Board::goal(shape));
        }
        let (numbers, _) = shuffled(shape.cells(), self.goal);
        Board::from_tiles(shape, &numbers[..shape.cells()]).ok()
    }
}

// Weights of 1 to 255 by tile, drawn by a seed.
fn drawn_weights(seed: u64) -> [u8; 25] {
    let mut weights = [0; 25];
    let mut state = seed;
    'tiles: for tile in 1..25 {
        state = next_state(state);
        weights[tile] = ((state >> 33) % 255 + 1) as u8;
    }
    weights
}

/// A table of either kind.
#[derive(Drop)]
pub enum Made {
    Whole(Table),
    Folded(Folded),
}

impl Made {
    /// The table of a group, or None where the task makes none, or finds no memory.
    pub fn new(alloc: Global, frame: &Frame, group: &Group, task: Task) -> Option<Self>
        requires { FitsGroup frame.now group.now }
    {
        let shape = group.shape();
        let goal = task.goal(shape)?;
        let weights = task.weights(shape)?;
        if task.is_folded {
            let fold = build_folded_in(alloc, frame, group, &goal, &weights).ok()?;
            return Some(Made::Folded(fold));
        }
        let table = build_in(alloc, frame, group, &goal, &weights).ok()?;
        Some(Made::Whole(table))
    }

    /// What its values come to.
    pub fn summary(&self) -> Summary {
        match self {
            Made::Whole(table) => table_summary(table),
            Made::Folded(fold) => fold_summary(fold),
        }
    }
}

/// The frame of a group: the one that is given, if it fits, else a new one; None without memory.
pub fn frame_for(alloc: Global, last: Option<Frame>, group: &Group) -> Option<Frame>
    ensures { IfSome result (λ frame. FitsGroup frame group.now) }
{
    if let Some(frame) = last {
        if frame.fits(group) {
            return Some(frame);
        }
    }
    Frame::new(alloc, group).ok()
}

// What the values of a table come to, by rank.
fn table_summary(table: &Table) -> Summary
    ensures { result.views ≡ size_of table.now.selection }
{
    let mut summary = Summary::empty();
    'ranks: for rank in 0..table.group().size() {
        summary.add(table.entry(rank));
    }
    summary.views = table.group().size();
    summary
}

// What the values of a folded table come to, by the places of the tiles.
fn fold_summary(fold: &Folded) -> Summary
    ensures { result.views ≡ length fold.now.least }
{
    let mut summary = Summary::empty();
    'places: for place in 0..fold.size() {
        summary.add(fold.entry(place));
    }
    summary.views = fold.size();
    summary
}
