//! Tables for the groups of a partition, whole or folded, whose values are added.

ghost use Rattle.std.specs.Prelude.{◌≡◌, ◌↔◌, ◌+◌, ◌*◌, ◌<◌, ◌≤◌, [], length, slice_get, All, Some};
ghost use Rattle.std.specs.Prelude.{sum_by};
ghost use Rattle.std.specs.Prelude.{IsTrue, IsOk, IsErrOf, IfOk, MatchOption, Ok};
ghost use Rattle.board.specs.Boards.{BoardModel};
ghost use Rattle.board.specs.Weights.{WeightsModel};
ghost use Rattle.board.specs.Plans.{NothingBelow};
ghost use Rattle.pattern_index.specs.Views.{view_of};
ghost use Rattle.database_build.specs.Tables.{value_in};
ghost use Rattle.database_build.specs.declared.faults.TableFault.{TableFault};
ghost use Rattle.lower_bound.specs.Bounds.{sum_of};
ghost use Rattle.lower_bound.specs.Folded.{AreFoldsOf, AreFolded, KeepsOtherTiles, value_for};
ghost use Rattle.lower_bound.specs.Folded.{values_of};
ghost use Rattle.lower_bound.specs.Tables.{IsTables, AreTablesOf, AreConsistent, ArePotentials};
ghost use Rattle.lower_bound.specs.Tables.{parts_of};
ghost use Rattle.lower_bound.specs.Lists.{AreListed, IsFoldedBound};
ghost use Rattle.lower_bound.specs.Consecutive.{HasConsecutiveTables};
ghost use Rattle.lower_bound.specs.Slides.{HasCells, HasSum, IsMoveOf, IsTileMove};

use crate::by_tile::find_groups_by_tile;
use crate::consecutive::has_consecutive_groups;
use crate::parts::{MOST_GROUPS, Parts};
use crate::reading::{Reading, sum_by_digits, values_by_digits};
use crate::slides::{folded_after, sum_folded as sum_folded_at, sum_whole, whole_after};
use board::Board;
use database_build::{Folded, NO_VALUE, Table, TableFault, fold};
use memory::{OutOfMemory, push, with_capacity};
use pattern_index::{Group, Partition};
use search_keys::KeyedBoard;
use std::alloc::Global;
use std::marker::Model;

/// The greatest sum: `NO_VALUE` of each of 24 groups, the most that a partition may have.
pub const GREATEST_SUM: u32 = 1_572_840;

/// A partition, and a table for each of its groups: all whole, or all folded.
#[derive(Debug, Drop)]
pub struct Bound {
    partition: Partition,
    held: Held,
    // For each number that may be a tile, the place of the group that has it.
    by_tile: [usize; 25],
    // Whether its tables are read by digits of search keys.
    by_digits: bool,
}

// The tables that a bound holds.
#[derive(Debug, Drop)]
enum Held {
    Whole(Vec<Table>),
    Folded(Vec<Folded>),
}

/// The tables of a bound, one for each group and in their order.
#[derive(Clone, Copy, Debug)]
pub enum TableList<'a> {
    /// They are whole.
    Whole(&'a [Table]),
    /// They are folded.
    Folded(&'a [Folded]),
}

impl Model for Bound {
    ghost use Rattle.lower_bound.specs.Tables.{BoundModel, IsTables};
    ghost use Rattle.lower_bound.specs.Lists.{AreHeldWhole, tables_in};
    ghost use Rattle.lower_bound.specs.ByTile.{AreGroupsByTile};
    ghost use Rattle.lower_bound.specs.Consecutive.{HasConsecutiveGroups};
    ghost use Rattle.std.specs.Prelude.{◌↔◌, IsTrue};

    ghost Value = { BoundModel };

    ghost view = { λ b. tables_in b.partition b.held };

    ghost invariant = { λ b. IsTables (tables_in b.partition b.held)
        × AreGroupsByTile b.partition.groups b.by_tile
        × (IsTrue b.by_digits ↔ (AreHeldWhole b.held × HasConsecutiveGroups b.partition)) };
}

impl Bound {
    /// The bound of a partition by these tables, the first for the first group and so on; or E11
    /// where there are more tables or fewer, or one is of another group.
    pub fn new(partition: Partition, tables: Vec<Table>) -> Result<Self, TableFault>
        ensures accepted { IsOk result ↔ AreTablesOf partition.groups tables.items }
        ensures value { IfOk result
            (λ b. b ≡ record { split = partition; lookups = tables.items; folds = [] }) }
        ensures fault { (fault : TableFault) → IsErrOf result fault
            ↔ ((fault ≡ TableFault.WrongCount) × (¬ AreTablesOf partition.groups tables.items)) }
    {
        if !are_tables_of(partition.groups(), &tables) {
            return Err(TableFault::WrongCount);
        }
        let by_tile = find_groups_by_tile(partition.groups());
        let by_digits = has_consecutive_groups(&partition);
        Ok(Bound {
            partition,
            held: Held::Whole(tables),
            by_tile,
            by_digits,
        })
    }

    /// The bound of a partition by these folded tables; or E11 as `new` answers it.
    pub fn of_folded(partition: Partition, folds: Vec<Folded>) -> Result<Self, TableFault>
        ensures accepted { IsOk result ↔ AreFoldsOf partition.groups folds.items }
        ensures value { IfOk result
            (λ b. b ≡ record { split = partition; lookups = []; folds = folds.items }) }
        ensures fault { (fault : TableFault) → IsErrOf result fault
            ↔ ((fault ≡ TableFault.WrongCount) × (¬ AreFoldsOf partition.groups folds.items)) }
    {
        if !are_folds_of(partition.groups(), &folds) {
            return Err(TableFault::WrongCount);
        }
        let by_tile = find_groups_by_tile(partition.groups());
        Ok(Bound {
            partition,
            held: Held::Folded(folds),
            by_tile,
            by_digits: false,
        })
    }

    /// The bound by the same tables, folded: each whole one is freed once it is folded.
    /// Where they are potentials, or were folded from such, so are the folded ones. A bound that
    /// has no whole table stays as it is. An error is answered only where memory was refused.
    pub fn folded(self, alloc: Global) -> Result<Self, OutOfMemory>
        ensures folded { IfOk result (IsFoldedBound self) }
        ensures kept { self.lookups ≡ [] → result ≡ Ok self }
        ensures potentials { (rule : WeightsModel) (goal : BoardModel) →
            ArePotentials rule goal self → IfOk result (ArePotentials rule goal) }
    {
        let Bound {
            partition,
            held,
            by_tile,
            by_digits: _,
        } = self;
        let folds = match held {
            Held::Whole(tables) => fold_all(alloc, tables)?,
            Held::Folded(kept) => kept,
        };
        Ok(Bound {
            partition,
            held: Held::Folded(folds),
            by_tile,
            by_digits: false,
        })
    }

    /// The sum of a board: the values of its views, added over the groups. Where each table is a
    /// potential for a goal and weights, or was folded from one, no plan from the board to that
    /// goal costs less: the sum is an admissible heuristic.
    pub fn of(&self, board: &Board) -> u32
        requires { board.now.grid ≡ self.now.split.grid }
        ensures value { result ≡ sum_of (parts_of self.now) board.now }
        ensures high { result ≤ GREATEST_SUM }
        ensures nothing_below { (rule : WeightsModel) (goal : BoardModel) →
            ArePotentials rule goal self.now → NothingBelow rule board.now goal result }
    {
        // The last clause needs that tiles and grid are a board's. Each `Board` is one, and the
        // contract of `shape` says so.
        let _ = board.shape();
        match &self.held {
            Held::Whole(tables) => sum_values(tables, board),
            Held::Folded(folds) => sum_folded(folds, board),
        }
    }

    /// The sum of a board, by the cell of each of its numbers (`cells_of`): as `of`, without making
    /// a view.
    pub fn sum_at(&self, cells: &[u8; 25]) -> u32
        requires { (b : BoardModel) × HasCells self.now.split.grid cells.now b }
        ensures value { (b : BoardModel) → HasCells self.now.split.grid cells.now b
            → result ≡ sum_of (parts_of self.now) b }
        ensures high { result ≤ GREATEST_SUM }
        ensures nothing_below { (b : BoardModel) → HasCells self.now.split.grid cells.now b
            → (rule : WeightsModel) (goal : BoardModel) → ArePotentials rule goal self.now
            → NothingBelow rule b goal result }
    {
        match &self.held {
            Held::Whole(tables) => sum_whole(tables, cells),
            Held::Folded(folds) => sum_folded_at(folds, cells),
        }
    }

    /// The sum of a board that is known by its search key: as `of`, without the board itself.
    pub fn of_keyed(&self, board: &KeyedBoard) -> u32
        requires { board.now.grid ≡ self.now.split.grid }
        ensures value { result ≡ sum_of (parts_of self.now) board.now }
        ensures high { result ≤ GREATEST_SUM }
        ensures nothing_below { (rule : WeightsModel) (goal : BoardModel) →
            ArePotentials rule goal self.now → NothingBelow rule board.now goal result }
    {
        // The proof needs that this is a board. Each `KeyedBoard` is one, and `shape` says so.
        let _ = board.shape();
        if self.by_digits {
            return sum_by_digits(self.whole(), board);
        }
        self.sum_at(&board.cells())
    }

    // The sum of the board to which a move of a tile leads, by the sum of the board before it and
    // the cell of each number there. Only the table whose group has the tile is read, for the
    // values before and after. Where whole tables are consistent, no other table's value changes.
    fn sum_after(&self, sum: u32, cells: &[u8; 25], tile: u8) -> u32
        requires consistent { AreConsistent self.now }
        requires slide { (b : BoardModel) × (b' : BoardModel)
            × IsTileMove self.now.split.grid cells.now tile b b'
            × (sum ≡ sum_of (parts_of self.now) b) }
        requires low { sum ≤ GREATEST_SUM }
        ensures value { (b b' : BoardModel) → IsTileMove self.now.split.grid cells.now tile b b'
            → sum ≡ sum_of (parts_of self.now) b → result ≡ sum_of (parts_of self.now) b' }
        ensures high { result ≤ sum + NO_VALUE }
    {
        let place = self.by_tile[tile as usize];
        match &self.held {
            Held::Whole(tables) => {
                if place >= tables.len() {
                    return sum;
                }
                whole_after(&tables[place], sum, cells, tile)
            }
            Held::Folded(folds) => {
                if place >= folds.len() {
                    return sum;
                }
                folded_after(&folds[place], sum, cells, tile)
            }
        }
    }

    /// What its tables read of a board.
    pub fn read(&self, board: &KeyedBoard) -> Reading
        ensures { result ≡ board.now }
    {
        if self.by_digits {
            return Reading::by_digits(board);
        }
        Reading::by_cells(board)
    }

    /// The sum of the board to which a move of a tile leads, by the sum of the board before it and
    /// what is read of that. Only the table whose group has the tile is read, for the values before
    /// and after. Where whole tables are consistent, no other table's value changes.
    #[inline(always)]
    #[tactic(auto, using(crate::proofs::ConsecutiveLemmas::held_consecutive))]
    pub fn sum_after_move(&self, sum: u32, reading: &Reading, tile: u8) -> u32
        requires consistent { AreConsistent self.now }
        requires moved { (b' : BoardModel) × IsMoveOf tile reading.now b' }
        requires sum { HasSum self.now reading.now sum }
        requires low { sum ≤ GREATEST_SUM }
        ensures value { (b' : BoardModel) → IsMoveOf tile reading.now b'
            → result ≡ sum_of (parts_of self.now) b' }
        ensures high { result ≤ sum + NO_VALUE }
    {
        if self.by_digits {
            return self.sum_after_by_digits(sum, reading.board(), tile);
        }
        self.sum_after_by_cells(sum, reading, tile)
    }

    // The same by digits of the board's search key.
    #[inline(always)]
    fn sum_after_by_digits(&self, sum: u32, board: &KeyedBoard, tile: u8) -> u32
        requires digits { HasConsecutiveTables self.now }
        requires consistent { AreConsistent self.now }
        requires moved { (b' : BoardModel) × IsMoveOf tile board.now b' }
        requires sum { HasSum self.now board.now sum }
        requires low { sum ≤ GREATEST_SUM }
        ensures value { (b' : BoardModel) → IsMoveOf tile board.now b'
            → result ≡ sum_of (parts_of self.now) b' }
        ensures high { result ≤ sum + NO_VALUE }
    {
        // The proof needs that this is a board. Each `KeyedBoard` is one, and `shape` says so.
        let _ = board.shape();
        let tables = self.whole();
        let group = self.by_tile[tile as usize];
        if group >= tables.len() {
            return sum;
        }
        let (was, is) = values_by_digits(&tables[group], board, tile);
        sum - u32::from(was) + u32::from(is)
    }

    // The same by the cells of the board's numbers.
    #[inline(never)]
    fn sum_after_by_cells(&self, sum: u32, reading: &Reading, tile: u8) -> u32
        requires consistent { AreConsistent self.now }
        requires moved { (b' : BoardModel) × IsMoveOf tile reading.now b' }
        requires sum { HasSum self.now reading.now sum }
        requires low { sum ≤ GREATEST_SUM }
        ensures value { (b' : BoardModel) → IsMoveOf tile reading.now b'
            → result ≡ sum_of (parts_of self.now) b' }
        ensures high { result ≤ sum + NO_VALUE }
    {
        if let Some(cells) = reading.cells() {
            return self.sum_after(sum, cells, tile);
        }
        self.sum_after(sum, &reading.board().cells(), tile)
    }

    /// The values of a board by folded tables, one for each group.
    pub fn parts(&self, board: &Board) -> Parts
        requires grid { board.now.grid ≡ self.now.split.grid }
        requires folded { self.now.lookups ≡ [] }
        ensures { result ≡ values_of (parts_of self.now) board.now }
    {
        Parts::of(self.folds(), board)
    }

    /// The values of a board by folded tables, where these are those of the board before a tile
    /// moved. Only the group of that tile is looked up.
    pub fn parts_after(&self, parts: &Parts, board: &Board, tile: u8) -> Parts
        requires grid { board.now.grid ≡ self.now.split.grid }
        requires folded { self.now.lookups ≡ [] }
        requires before { (before : BoardModel) × KeepsOtherTiles before board.now tile
            × (parts.now ≡ values_of (parts_of self.now) before) }
        ensures { result ≡ values_of (parts_of self.now) board.now }
    {
        parts.after(self.folds(), board, tile)
    }

    // Its whole tables.
    fn whole(&self) -> &[Table]
        ensures value { result.now ≡ self.now.lookups }
        ensures few { length result.now ≤ 24 }
    {
        match &self.held {
            Held::Whole(tables) => tables,
            Held::Folded(_) => &[],
        }
    }

    // Its folded tables, where none is whole.
    #[tactic(auto, using(crate::proofs::PartLemmas::folds_fit))]
    fn folds(&self) -> &[Folded]
        requires { self.now.lookups ≡ [] }
        ensures value { result.now ≡ self.now.folds }
        ensures grids { All (λ fold. fold.selection.grid ≡ self.now.split.grid) result.now }
        ensures few { length result.now ≤ MOST_GROUPS }
    {
        match &self.held {
            // There is no group then.
            Held::Whole(_) => &[],
            Held::Folded(folds) => folds,
        }
    }

    /// Its partition, which has a group for each table.
    pub fn partition(&self) -> &Partition
        ensures value { result.now ≡ self.now.split }
        ensures tables { IsTables self.now }
    {
        &self.partition
    }

    /// Its tables.
    pub fn tables(&self) -> TableList<'_>
        ensures value { AreListed self.now result }
        ensures tables { IsTables self.now }
    {
        match &self.held {
            Held::Whole(tables) => TableList::Whole(tables),
            Held::Folded(folds) => TableList::Folded(folds),
        }
    }

    /// The table of a group, by the group's place in the partition; None where it is folded.
    pub fn table(&self, i: usize) -> Option<&Table>
        requires { i < length self.now.split.groups }
        ensures { MatchOption result (self.now.lookups ≡ [])
            (λ table. slice_get self.now.lookups i ≡ Some table.now) }
    {
        match &self.held {
            Held::Whole(tables) => tables.get(i),
            Held::Folded(_) => None,
        }
    }
}

// Whether there is a table for each group, in order.
fn are_tables_of(groups: &[Group], tables: &[Table]) -> bool
    ensures { IsTrue result ↔ AreTablesOf groups.now tables.now }
{
    if tables.len() != groups.len() {
        return false;
    }
    'tables: for i in 0..tables.len() {
        let same = *tables[i].group() == groups[i];
        if !same {
            return false;
        }
    }
    true
}

// Whether there is a folded table for each group, in order.
fn are_folds_of(groups: &[Group], folds: &[Folded]) -> bool
    ensures { IsTrue result ↔ AreFoldsOf groups.now folds.now }
{
    if folds.len() != groups.len() {
        return false;
    }
    'tables: for i in 0..folds.len() {
        let same = *folds[i].group() == groups[i];
        if !same {
            return false;
        }
    }
    true
}

// The tables, folded; each is freed once it is folded. Where there is none, no memory is refused.
#[tactic(auto, using(crate::proofs::PartLemmas::folded_more))]
fn fold_all(alloc: Global, tables: Vec<Table>) -> Result<Vec<Folded>, OutOfMemory>
    requires { length tables.items ≤ 24 }
    ensures folded { IfOk result (λ folds. AreFolded tables.items folds.items) }
    ensures none { tables.items ≡ [] → IsOk result }
{
    let mut folds = with_capacity(alloc, tables.len())?;
    'whole: for table in tables {
        let folded = fold(alloc, table)?;
        push(&mut folds, folded)?;
    }
    Ok(folds)
}

// Adds what tables say of a board.
fn sum_values(tables: &[Table], board: &Board) -> u32
    requires few { length tables.now ≤ 24 }
    requires grid { All (λ table. table.selection.grid ≡ board.now.grid) tables.now }
    ensures value { result
        ≡ sum_by (λ table. value_in table (view_of table.selection.tiles board.now)) tables.now }
    ensures high { result ≤ NO_VALUE * length tables.now }
{
    let mut sum = 0;
    'tables: for table in tables {
        let view = table.group().view(board);
        sum += u32::from(table.value(&view));
    }
    sum
}

// Adds what folded tables say of a board.
fn sum_folded(folds: &[Folded], board: &Board) -> u32
    requires few { length folds.now ≤ 24 }
    requires grid { All (λ fold. fold.selection.grid ≡ board.now.grid) folds.now }
    ensures value { result ≡ sum_by (value_for board.now) folds.now }
    ensures high { result ≤ NO_VALUE * length folds.now }
{
    let mut sum = 0;
    'tables: for fold in folds {
        let view = fold.group().view(board);
        sum += u32::from(fold.value(&view));
    }
    sum
}
