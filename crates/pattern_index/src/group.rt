//! Groups of tiles.

ghost use Rattle.std.specs.Prelude.{ℕ, suc, ◌≡◌, ◌≢◌, ◌↔◌, ◌+◌, ◌-◌, ◌/◌, ◌<◌, ◌≤◌, Some, None};
ghost use Rattle.std.specs.Prelude.{IsTrue, IsOk, IsErrOf, IfOk, IfErr, IfSome, OnOk, OnSome};
ghost use Rattle.std.specs.Prelude.{MatchOption, IsPermutation, length, All, AllPairs};
ghost use Rattle.std.specs.List.Sorted.{IsNonDecreasing};
ghost use Rattle.board.specs.Shapes.{cell_count};
ghost use Rattle.pattern_index.specs.Views.{ViewModel, IsView, ViewMoves, view_of, view_at};
ghost use Rattle.pattern_index.specs.Views.{exchanged};
ghost use Rattle.pattern_index.specs.Views.{weight_on};
ghost use Rattle.pattern_index.specs.Ranks.{ways, rank_of};
ghost use Rattle.pattern_index.specs.Groups.{GroupModel, IsTile, AreGroupTiles, IsGroup};
ghost use Rattle.pattern_index.specs.Groups.{size_of, rank_in, abstraction_of};
ghost use Rattle.pattern_index.specs.Groups.{folded_size_of, place_in};
ghost use Rattle.pattern_index.specs.Groups.{view_successor};
ghost use Rattle.pattern_index.specs.Sparse.{digits_in, sparse_in, sparse_size_of, stride_of};
ghost use Rattle.pattern_index.specs.Sparse.{slot_in, slot_count_of};
ghost use Rattle.pattern_index.specs.Laws.{factorial};
ghost use Rattle.pattern_index.specs.Faults.{IsFirstGroupFault};
ghost use Rattle.pattern_index.specs.declared.faults.GroupFault.{GroupFault};

use crate::cells::{rank_cells, rank_numbers, rank_tiles};
use crate::faults::GroupFault;
use crate::sparse::{
    are_different, count_numbers, digit_base, sparse_both, sparse_place, sparse_tiles, stride_of,
    write_digits,
};
use crate::view::View;
use board::{Board, Move, Shape, Weights};
use std::marker::Model;

/// The greatest number of views that a group may have, 2^26.
pub const MAX_SIZE: usize = 67_108_864;

/// Some tiles in rising order, 9 at most, with no more than `MAX_SIZE` views.
#[derive(Clone, Copy, Debug)]
pub struct Group {
    shape: Shape,
    count: u8,
    tiles: [u8; 9],
    size: usize,
}

impl Model for Group {
    ghost use Rattle.pattern_index.specs.Groups.{GroupModel};

    ghost Value = { GroupModel };

    ghost use Rattle.pattern_index.specs.Packing.{selection_in, group_storage, IsStoredGroup};
    ghost use Rattle.pattern_index.specs.Packing.{group_storage-selection_in};

    ghost view = { selection_in };

    ghost invariant = { IsStoredGroup };

    ghost inverse = { group_storage };

    ghost inverse_ok = { group_storage-selection_in };
}

impl PartialEq for Group {
    ghost use Rattle.std.specs.Cmp.{partial_equiv_from_equiv};
    ghost use Rattle.pattern_index.specs.Equality.{selection_eq, selection_eq-laws};

    ghost eq = { selection_eq };

    ghost laws = { partial_equiv_from_equiv selection_eq-laws };

    /// Whether the groups have one shape and the same tiles.
    fn eq(&self, other: &Self) -> bool
        ensures value { result ≡ selection_eq self.now other.now }
        ensures same { IsTrue result ↔ (self.now ≡ other.now) }
    {
        self.shape == other.shape && self.tiles() == other.tiles()
    }
}

impl Eq for Group {
    ghost use Rattle.pattern_index.specs.Equality.{selection_eq-laws};

    ghost laws = { selection_eq-laws };
}

impl Group {
    /// The group of these tiles, or the first fault:
    ///
    /// - E5: there is none.
    /// - E6: the first faulty place has a number that is no tile of the shape's boards.
    /// - E7: the first faulty place has a number that an earlier place has too.
    /// - E8: no place is faulty, but there are more than `MAX_SIZE` views.
    pub fn new(shape: Shape, numbers: &[u8]) -> Result<Self, GroupFault>
        ensures accepted { IsOk result ↔
            (0 < length numbers.now) × AreGroupTiles shape numbers.now
            × (size_of (record { grid = shape; tiles = numbers.now }) ≤ MAX_SIZE) }
        ensures grid { IfOk result (λ g. g.grid ≡ shape) }
        ensures tiles { IfOk result (λ g. IsPermutation numbers.now g.tiles) }
        ensures group { IfOk result IsGroup }
        ensures fault { (fault : GroupFault) →
            IsErrOf result fault ↔ IsFirstGroupFault shape numbers.now fault }
    {
        if let Err(fault) = check_tiles(shape, numbers) {
            return Err(fault);
        }
        let Some(size) = count_ways(shape.cells(), numbers.len() + 1) else {
            return Err(GroupFault::TooManyViews);
        };
        let count = numbers.len();
        let mut tiles = [0; 9];
        sort_into(numbers, &mut tiles[..count]);
        Ok(Group {
            shape,
            count: count as u8,
            tiles,
            size,
        })
    }

    /// The shape of its boards.
    pub fn shape(&self) -> Shape
        ensures value { result ≡ self.now.grid }
        ensures group { IsGroup self.now }
    {
        self.shape
    }

    /// Its tiles in rising order.
    #[tactic(auto, using(crate::proofs::GroupLemmas::groups_small))]
    pub fn tiles(&self) -> &[u8]
        ensures value { result.now ≡ self.now.tiles }
        ensures group { IsGroup self.now }
        ensures few { length self.now.tiles ≤ 9 }
        ensures room { suc (length self.now.tiles) ≤ cell_count self.now.grid }
    {
        &self.tiles[..self.count as usize]
    }

    /// How many views it has: N! / (N - k - 1)! for k tiles and N cells.
    pub fn size(&self) -> usize
        ensures value { result ≡ size_of self.now }
        ensures quotient { result ≡ factorial (cell_count self.now.grid)
            / factorial (cell_count self.now.grid - suc (length self.now.tiles)) }
        ensures low { 1 ≤ result }
        ensures high { result ≤ MAX_SIZE }
    {
        self.size
    }

    /// The number of ways to place its tiles, wherever the blank is: N! / (N - k)! for k tiles and
    /// N cells.
    pub fn folded_size(&self) -> usize
        ensures value { result ≡ folded_size_of self.now }
        ensures quotient { result ≡ factorial (cell_count self.now.grid)
            / factorial (cell_count self.now.grid - length self.now.tiles) }
        ensures low { 1 ≤ result }
        ensures high { result ≤ MAX_SIZE }
    {
        self.size() / (self.shape().cells() - self.tiles().len())
    }

    /// What it sees of a board: the board's abstraction for the group.
    #[tactic(auto, using(crate::proofs::ViewMoveLemmas::board_view))]
    pub fn view(&self, board: &Board) -> View
        requires { board.now.grid ≡ self.now.grid }
        ensures value { result ≡ view_of self.now.tiles board.now }
        ensures view { IsView self.now.grid self.now.tiles result }
    {
        View::of_board(self.tiles(), board)
    }

    /// The place of a view among all views of the group, in lexicographic order.
    pub fn rank(&self, view: &View) -> usize
        requires { IsView self.now.grid self.now.tiles view.now }
        ensures value { result ≡ rank_in self.now.grid view.now }
        ensures below { result < size_of self.now }
        ensures high { result < MAX_SIZE }
    {
        rank_cells(self.shape().cells(), view.cells())
    }

    /// The place of the tiles' cells, without the blank's, among all ways to place the tiles, in
    /// lexicographic order.
    pub fn place(&self, view: &View) -> usize
        requires { IsView self.now.grid self.now.tiles view.now }
        ensures value { result ≡ place_in self.now.grid view.now }
        ensures below { result < folded_size_of self.now }
    {
        rank_cells(self.shape().cells(), &view.cells()[1..])
    }

    /// The place of what it sees of a board, by the cell of each of the board's numbers
    /// (`cells_of`): as `rank` of the view, without making one.
    pub fn rank_at(&self, cells: &[u8; 25]) -> usize
        requires { IsView self.now.grid self.now.tiles (view_at self.now.tiles cells.now) }
        ensures value { result ≡ rank_in self.now.grid (view_at self.now.tiles cells.now) }
        ensures below { result < size_of self.now }
        ensures high { result < MAX_SIZE }
    {
        rank_numbers(self.shape().cells(), self.tiles(), cells)
    }

    /// The place of the tiles' cells, by the cell of each of a board's numbers (`cells_of`): as
    /// `place` of the view, without making one.
    pub fn place_at(&self, cells: &[u8; 25]) -> usize
        requires { IsView self.now.grid self.now.tiles (view_at self.now.tiles cells.now) }
        ensures value { result ≡ place_in self.now.grid (view_at self.now.tiles cells.now) }
        ensures below { result < folded_size_of self.now }
        ensures high { result < MAX_SIZE }
    {
        rank_tiles(self.shape().cells(), self.tiles(), cells)
    }

    /// How many numbers have as many digits as there are tiles, each below the count of cells: N^k
    /// for k tiles and N cells. All sparse places are below it.
    pub fn sparse_size(&self) -> usize
        ensures { result ≡ sparse_size_of self.now }
    {
        count_numbers(self.shape().cells(), self.tiles().len())
    }

    /// The sparse place of what it sees of a board, by the cell of each of the board's numbers
    /// (`cells_of`): as `sparse_place` of the view, without making one. It is made in less time than
    /// a rank.
    pub fn sparse_place_at(&self, cells: &[u8; 25]) -> usize
        requires { IsView self.now.grid self.now.tiles (view_at self.now.tiles cells.now) }
        ensures { result ≡ sparse_in self.now.grid (view_at self.now.tiles cells.now) }
    {
        sparse_tiles(self.shape().cells(), self.tiles(), cells)
    }

    /// The sparse place of a view: the number that has the cells of its tiles as digits, that of the
    /// first tile as the lowest.
    pub fn sparse_place(&self, view: &View) -> usize
        requires { IsView self.now.grid self.now.tiles view.now }
        ensures { result ≡ sparse_in self.now.grid view.now }
    {
        sparse_place(self.shape().cells(), &view.cells()[1..])
    }

    /// What a sparse place changes by where a tile goes to the next cell: 0 where the tile is none
    /// of the group's.
    pub fn stride(&self, tile: u8) -> usize
        ensures { result ≡ stride_of (cell_count self.now.grid) self.now.tiles tile }
    {
        stride_of(self.shape().cells(), self.tiles(), tile)
    }

    /// How many numbers have a digit for the blank and for each tile: 16^(k + 1) for k tiles on up to
    /// 16 cells, and N^(k + 1) on N cells more. All slots are below it.
    pub fn slot_count(&self) -> usize
        ensures { result ≡ slot_count_of self.now }
    {
        count_numbers(digit_base(self.shape()), self.tiles().len() + 1)
    }

    /// The slot of a view: the number that has the blank's cell as its lowest digit, and those of the
    /// tiles as the next ones.
    pub fn slot(&self, view: &View) -> usize
        requires { IsView self.now.grid self.now.tiles view.now }
        ensures value { result ≡ slot_in self.now.grid view.now }
        ensures below { result < slot_count_of self.now }
    {
        sparse_place(digit_base(self.shape()), view.cells())
    }

    /// The slot of what it sees of a board, by the cell of each of the board's numbers (`cells_of`):
    /// as `slot` of the view, without making one.
    pub fn slot_at(&self, cells: &[u8; 25]) -> usize
        requires { IsView self.now.grid self.now.tiles (view_at self.now.tiles cells.now) }
        ensures value { result ≡ slot_in self.now.grid (view_at self.now.tiles cells.now) }
        ensures below { result < slot_count_of self.now }
    {
        let base = digit_base(self.shape());
        sparse_tiles(base, self.tiles(), cells) * base + cells[0] as usize
    }

    /// The slots of what it sees of a board before and after the blank and a tile change places, by
    /// the cell of each of the board's numbers (`cells_of`).
    pub fn slots_at(&self, cells: &[u8; 25], tile: u8) -> (usize, usize)
        requires tile { tile < 25 }
        requires before { IsView self.now.grid self.now.tiles (view_at self.now.tiles cells.now) }
        requires after { IsView self.now.grid self.now.tiles
            (view_at self.now.tiles (exchanged cells.now tile)) }
        ensures before { result.0 ≡ slot_in self.now.grid (view_at self.now.tiles cells.now) }
        ensures after { result.1
            ≡ slot_in self.now.grid (view_at self.now.tiles (exchanged cells.now tile)) }
        ensures before_below { result.0 < slot_count_of self.now }
        ensures after_below { result.1 < slot_count_of self.now }
    {
        let base = digit_base(self.shape());
        let (before, after) = sparse_both(base, self.tiles(), cells, tile);
        (
            before * base + cells[0] as usize,
            after * base + cells[tile as usize] as usize,
        )
    }

    /// The place of the views that have a sparse place: the rank of its digits. None where two of
    /// these are the same, since no view has such a sparse place.
    pub fn place_of_sparse(&self, sparse: usize) -> Option<usize>
        ensures some { IfSome result (λ place. place < folded_size_of self.now) }
        ensures view { (v : ViewModel) → IsView self.now.grid self.now.tiles v
            → sparse_in self.now.grid v ≡ sparse → result ≡ Some (place_in self.now.grid v) }
        ensures none { ¬ AllPairs (λ x y. x ≢ y)
            (digits_in (cell_count self.now.grid) (length self.now.tiles) sparse)
            → result ≡ None }
        ensures digits { AllPairs (λ x y. x ≢ y)
            (digits_in (cell_count self.now.grid) (length self.now.tiles) sparse)
            → result ≡ Some (rank_of (cell_count self.now.grid)
            (digits_in (cell_count self.now.grid) (length self.now.tiles) sparse)) }
    {
        let cells = self.shape().cells();
        let count = self.tiles().len();
        let mut digits = [0; 9];
        write_digits(cells, sparse, &mut digits[..count]);
        if !are_different(&digits[..count]) {
            return None;
        }
        Some(rank_cells(cells, &digits[..count]))
    }

    /// The view at a place.
    pub fn unrank(&self, rank: usize) -> View
        requires { rank < size_of self.now }
        ensures view { IsView self.now.grid self.now.tiles result }
        ensures rank { rank_in self.now.grid result ≡ rank }
        ensures one { (v : ViewModel) → IsView self.now.grid self.now.tiles v
            → rank_in self.now.grid v ≡ rank → v ≡ result }
    {
        View::of_rank(self.shape().cells(), self.tiles().len() + 1, rank)
    }

    /// The view after a move of the blank, and the weight of the tile moved where it is the
    /// group's, else 0; or None where the blank would leave the board.
    pub fn step(&self, view: &View, direction: Move, weights: &Weights) -> Option<(View, u32)>
        requires grid { weights.now.grid ≡ self.now.grid }
        requires view { IsView self.now.grid self.now.tiles view.now }
        ensures moves { (v : ViewModel) (cost : ℕ) →
            (result ≡ Some (v, cost))
            ↔ ViewMoves (abstraction_of self.now weights.now) view.now direction v cost }
        ensures value { result
            ≡ view_successor (abstraction_of self.now weights.now) view.now direction }
        ensures view { IfSome result (λ moved. IsView self.now.grid self.now.tiles moved.0) }
        ensures high { IfSome result (λ moved. moved.1 ≤ 255) }
    {
        let to = self.shape().neighbour(view.blank() as usize, direction)?;
        let cost = weight_on(weights, self.tiles(), &view.cells()[1..], to);
        Some((view.moved_to(to as u8), cost))
    }
}

// The first fault of numbers that should be some different tiles, if there is one.
fn check_tiles(shape: Shape, numbers: &[u8]) -> Result<(), GroupFault>
    ensures some { OnOk result (0 < length numbers.now) }
    ensures group { OnOk result (AreGroupTiles shape numbers.now) }
    ensures room { OnOk result (length numbers.now + 1 ≤ cell_count shape) }
    ensures fault { IfErr result (IsFirstGroupFault shape numbers.now) }
{
    if numbers.is_empty() {
        return Err(GroupFault::Empty);
    }
    let cells = shape.cells();
    'places: for place in 0..numbers.len() {
        let number = numbers[place];
        if number == 0 {
            return Err(GroupFault::NotATile);
        }
        if number as usize >= cells {
            return Err(GroupFault::NotATile);
        }
        if numbers[..place].contains(&number) {
            return Err(GroupFault::Repeated);
        }
    }
    Ok(())
}

// The number of ways to list `places` different cells, if a group may have that many views.
fn count_ways(cells: usize, places: usize) -> Option<usize>
    requires few { cells ≤ 25 }
    requires room { places ≤ cells }
    ensures { MatchOption result (MAX_SIZE < ways cells places)
        (λ n. (n ≡ ways cells places) × (n ≤ MAX_SIZE)) }
{
    let mut ways = 1;
    'places: for place in 0..places {
        ways *= cells - place;
        if ways > MAX_SIZE {
            return None;
        }
    }
    Some(ways)
}

// Writes the numbers in rising order.
fn sort_into(numbers: &[u8], tiles: &mut [u8])
    requires { length tiles.old ≡ length numbers.now }
    ensures tiles { IsPermutation numbers.now tiles.new }
    ensures rising { IsNonDecreasing tiles.new }
{
    tiles.copy_from_slice(numbers);
    tiles.sort_unstable();
}

// The weight of the tile on a cell, or 0 where none of the tiles is there.
fn weight_on(weights: &Weights, tiles: &[u8], cells: &[u8], cell: usize) -> u32
    requires same { length cells.now ≡ length tiles.now }
    requires tiles { All (λ tile. IsTile weights.now.grid tile) tiles.now }
    ensures value { result ≡ weight_on weights.now tiles.now cells.now cell }
    ensures high { result ≤ 255 }
{
    for i in 0..tiles.len() {
        if cells[i] as usize == cell {
            return weights.of(tiles[i]);
        }
    }
    0
}
