//! Regions: the cells that the blank reaches past tiles of no group, while the tiles of a group
//! stay where they are.

ghost use Rattle.std.specs.Prelude.{ℕ, suc, ◌≡◌, ◌<◌, ◌≤◌, ◌+◌, ◌^◌, ◌↔◌};
ghost use Rattle.std.specs.Prelude.{IfOk, IsTrue, Contains};
ghost use Rattle.board.specs.Shapes.{cell_count};
ghost use Rattle.pattern_index.specs.Ranks.{ways};
ghost use Rattle.pattern_index.specs.declared.group.TheConstants.{MAX_SIZE};
ghost use Rattle.pattern_graph.specs.Regions.{AreCellsApart, AreSameRegions, IsRegions, IsFree};
ghost use Rattle.pattern_graph.specs.Regions.{region_in};
ghost use Rattle.pattern_graph.specs.Sets.{set_at};
ghost use Rattle.pattern_graph.specs.Numberings.{AreNumberedIn, AreBegun, AreOfSameSets};
ghost use Rattle.pattern_graph.specs.Numberings.{IsLabelled, HasLowered};
ghost use Rattle.pattern_graph.specs.Numberings.{AreLabels, AreSettled, IsSettled};
ghost use Rattle.pattern_graph.specs.Numberings.{IsSettledTowards, IsNextSet};
ghost use Rattle.pattern_graph.specs.Orders.{IsTileCount};

use crate::sets::Choices;
use board::{Move, Shape};
use memory::{OutOfMemory, copy_of, push};
use std::alloc::Global;

// The region of a cell that a tile is on.
const NO_REGION: u32 = 4_294_967_295;

/// Where a region is first met.
#[derive(Clone, Copy)]
pub struct Home {
    /// The place of its set.
    pub set: u32,
    /// Its lowest cell.
    pub cell: u8,
}

/// The regions of all sets of as many cells, numbered from 0.
#[derive(Drop)]
pub struct Regions {
    /// The shape whose cells they are.
    pub shape: Shape,
    /// How many cells each set has, 1 to 9.
    pub count: usize,
    /// The places of sets.
    pub choices: Choices,
    /// The region of each cell of the shape, set by set; any number where a tile is.
    pub numbers: Vec<u32>,
    /// Where each region is first met, by the region's number.
    pub homes: Vec<Home>,
}

impl Regions {
    // The regions of all sets of this count of a shape's cells.
    pub(crate) fn new(alloc: Global, shape: Shape, count: usize) -> Result<Self, OutOfMemory>
        requires count { IsTileCount count }
        requires room { suc count ≤ cell_count shape }
        requires small { ways (cell_count shape) (suc count) ≤ MAX_SIZE }
        ensures { IfOk result (IsRegions shape count) }
    {
        let mut regions = Regions {
            shape,
            count,
            choices: Choices::new(),
            numbers: Vec::new(alloc),
            homes: Vec::new(alloc),
        };
        let sets = regions.choices.count(shape.cells(), count);
        'sets: for set in 0..sets {
            regions.add_set(set)?;
        }
        Ok(regions)
    }

    // Numbers the cells of a set, after those of the sets below it.
    #[tactic(auto, using(crate::proofs::RegionLemmas::set_written))]
    fn add_set(&mut self, set: usize) -> Result<(), OutOfMemory>
        requires { IsNextSet set self.old }
        ensures { IfOk result (λ _. AreBegun self.old.shape self.old.count (set + 1) self.new) }
    {
        let mut cells = [0; 9];
        let placed = &mut cells[..self.count];
        self.choices.write_set(self.shape.cells(), set, placed);
        self.add_row(set, placed)
    }

    // Numbers all cells of the shape while tiles are on those of a set.
    fn add_row(&mut self, set: usize, cells: &[u8]) -> Result<(), OutOfMemory>
        requires next { IsNextSet set self.old }
        requires cells { cells.now ≡ set_at (cell_count self.old.shape) self.old.count set }
        ensures { IfOk result (λ _. AreBegun self.old.shape self.old.count (set + 1) self.new) }
    {
        let shape = self.shape;
        let labels = label_cells(shape, cells);
        'cells: for cell in 0..shape.cells() {
            self.add_cell(set, cell, cells, &labels)?;
        }
        Ok(())
    }

    // Numbers a cell. A free cell has the number of its label, or a new one where it is its label.
    fn add_cell(
        &mut self,
        set: usize,
        cell: usize,
        cells: &[u8],
        labels: &[u8; 25],
    ) -> Result<(), OutOfMemory>
        requires inside { cell < cell_count self.old.shape }
        requires row { IsLabelled self.old.shape set cells.now labels.now }
        requires numbered { AreNumberedIn self.old cells.now labels.now set cell }
        ensures numbered { IfOk result
            (λ _. AreNumberedIn self.new cells.now labels.now set (cell + 1)) }
        ensures same { AreOfSameSets self.old self.new }
    {
        let count = self.shape.cells();
        if stands_on(cells, cell) {
            return push(&mut self.numbers, NO_REGION);
        }
        let label = labels[cell] as usize;
        if label < cell {
            let number = self.numbers[set * count + label];
            return push(&mut self.numbers, number);
        }
        let region = self.homes.len() as u32;
        let home = Home {
            set: set as u32,
            cell: cell as u8,
        };
        push(&mut self.homes, home)?;
        push(&mut self.numbers, region)
    }

    // A copy.
    pub(crate) fn copy(&self, alloc: Global) -> Result<Self, OutOfMemory>
        ensures { IfOk result (AreSameRegions self.now) }
    {
        Ok(Regions {
            shape: self.shape,
            count: self.count,
            choices: self.choices,
            numbers: copy_of(alloc, &self.numbers)?,
            homes: copy_of(alloc, &self.homes)?,
        })
    }

    // The region of the blank's cell while tiles are on these cells.
    pub(crate) fn region(&self, cells: &[u8], blank: u8) -> usize
        requires regions { IsRegions self.now.shape self.now.count self.now }
        requires apart { AreCellsApart self.now.shape self.now.count cells.now blank }
        ensures { result ≡ region_in self.now cells.now blank }
    {
        let set = self.choices.place(cells);
        self.numbers[set * self.shape.cells() + blank as usize] as usize
    }
}

// For each free cell the lowest that the blank reaches from it.
fn label_cells(shape: Shape, cells: &[u8]) -> [u8; 25]
    ensures { AreSettled shape cells.now result }
{
    let mut labels = [0; 25];
    'labels: for cell in 0..shape.cells() {
        labels[cell] = cell as u8;
    }
    let mut is_changed = true;
    'rounds: while is_changed {
        is_changed = lower_labels(shape, cells, &mut labels);
    }
    labels
}

// Lowers the label of each cell to those of its neighbours. Whether one was changed.
fn lower_labels(shape: Shape, cells: &[u8], labels: &mut [u8; 25]) -> bool
    requires { AreLabels shape cells.now labels.old }
    ensures { HasLowered shape cells.now (λ l. (cell : ℕ) → cell < cell_count shape
        → IsSettled shape cells.now l cell) labels.old labels.new result }
{
    let mut is_changed = false;
    'cells: for cell in 0..shape.cells() {
        let is_lowered = lower_label(shape, cells, labels, cell);
        is_changed = is_changed | is_lowered;
    }
    is_changed
}

// Lowers the label of a cell to those of its neighbours. Whether it was changed.
fn lower_label(shape: Shape, cells: &[u8], labels: &mut [u8; 25], cell: usize) -> bool
    requires inside { cell < cell_count shape }
    requires labels { AreLabels shape cells.now labels.old }
    ensures { HasLowered shape cells.now (λ l. IsSettled shape cells.now l cell) labels.old
        labels.new result }
{
    if stands_on(cells, cell) {
        return false;
    }
    let up = lower_towards(shape, cells, labels, cell, Move::U);
    let left = lower_towards(shape, cells, labels, cell, Move::L);
    let right = lower_towards(shape, cells, labels, cell, Move::R);
    let down = lower_towards(shape, cells, labels, cell, Move::D);
    up | left | right | down
}

// Lowers the label of a free cell to that of a neighbour. Whether it was changed.
fn lower_towards(
    shape: Shape,
    cells: &[u8],
    labels: &mut [u8; 25],
    cell: usize,
    direction: Move,
) -> bool
    requires free { IsFree shape cells.now cell }
    requires labels { AreLabels shape cells.now labels.old }
    ensures { HasLowered shape cells.now (λ l. IsSettledTowards shape cells.now l direction cell)
        labels.old labels.new result }
{
    let _ = shape.cells();
    let Some(next) = shape.neighbour(cell, direction) else {
        return false;
    };
    if stands_on(cells, next) {
        return false;
    }
    let label = labels[next];
    if label < labels[cell] {
        labels[cell] = label;
        return true;
    }
    false
}

// Whether a tile is on the cell.
#[tactic(auto, using(std::proofs::lemmas::List::get_or_default))]
pub(crate) fn stands_on(cells: &[u8], cell: usize) -> bool
    requires { cell < 2 ^ 8 }
    ensures { IsTrue result ↔ Contains cells.now cell }
{
    'cells: for other in cells {
        if *other as usize == cell {
            return true;
        }
    }
    false
}
