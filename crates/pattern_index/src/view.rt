//! Views: the cells of the blank and of a group's tiles.

ghost use Rattle.std.specs.Prelude.{ℕ, suc, ◌≡◌, ◌↔◌, ◌==◌, ◌<◌, ◌≤◌, ◌∷◌, if◌then◌else◌};
ghost use Rattle.std.specs.Prelude.{length, slice_index, map, All, IsTrue};
ghost use Rattle.board.specs.Shapes.{cell_count};
ghost use Rattle.board.specs.Boards.{IsBoard, cell_of};
ghost use Rattle.pattern_index.specs.Ranks.{ways, list_at};
ghost use Rattle.pattern_index.specs.Views.{ViewModel, view_of, exchanged};

use crate::cells::list_cells;
use board::Board;
use std::marker::Model;

/// What a group sees of a board, the board's abstraction for that group: the cell of the blank, and
/// those of the group's tiles in rising order of tile.
#[derive(Clone, Copy, Debug)]
pub struct View {
    count: u8,
    places: [u8; 10],
}

impl Model for View {
    ghost use Rattle.pattern_index.specs.Views.{ViewModel};

    ghost Value = { ViewModel };

    ghost use Rattle.pattern_index.specs.Packing.{sight_in, view_storage, IsStoredView};
    ghost use Rattle.pattern_index.specs.Packing.{view_storage-sight_in};

    ghost view = { sight_in };

    ghost invariant = { IsStoredView };

    ghost inverse = { view_storage };

    ghost inverse_ok = { view_storage-sight_in };
}

impl PartialEq for View {
    ghost use Rattle.std.specs.Cmp.{partial_equiv_from_equiv};
    ghost use Rattle.pattern_index.specs.Equality.{sight_eq, sight_eq-laws};

    ghost eq = { sight_eq };

    ghost laws = { partial_equiv_from_equiv sight_eq-laws };

    /// Whether readers see one view.
    fn eq(&self, other: &Self) -> bool
        ensures value { result ≡ sight_eq self.now other.now }
        ensures same { IsTrue result ↔ (self.now ≡ other.now) }
    {
        self.count == other.count && self.places == other.places
    }
}

impl Eq for View {
    ghost use Rattle.pattern_index.specs.Equality.{sight_eq-laws};

    ghost laws = { sight_eq-laws };
}

impl View {
    // The cells, the blank's first.
    pub(crate) fn cells(&self) -> &[u8]
        ensures { result.now ≡ self.now.blank ∷ self.now.cells }
    {
        &self.places[..self.count as usize]
    }

    // The cell of the blank.
    pub(crate) fn blank(&self) -> u8
        ensures { result ≡ self.now.blank }
    {
        self.places[0]
    }

    // What tiles see of a board.
    pub(crate) fn of_board(tiles: &[u8], board: &Board) -> Self
        requires few { length tiles.now ≤ 9 }
        requires tiles { All (λ tile. tile < cell_count board.now.grid) tiles.now }
        ensures value { result ≡ view_of tiles.now board.now }
        ensures board { IsBoard board.now }
    {
        let cells = cells_of(board);
        let count = tiles.len() + 1;
        let mut places = [0; 10];
        pick(&cells, tiles, &mut places[1..count]);
        places[0] = cells[0];
        View {
            count: count as u8,
            places,
        }
    }

    // The view whose cells, the blank's first, have a rank.
    pub(crate) fn of_rank(cells: usize, count: usize, rank: usize) -> Self
        requires few { cells ≤ 25 }
        requires fits { count ≤ cells }
        requires some { 0 < count }
        requires room { count ≤ 10 }
        requires below { rank < ways cells count }
        ensures { result.blank ∷ result.cells ≡ list_at cells count rank }
    {
        let mut places = [0; 10];
        list_cells(cells, rank, &mut places[..count]);
        View {
            count: count as u8,
            places,
        }
    }

    // The view after the blank goes to a cell, from which a tile goes to where the blank was.
    pub(crate) fn moved_to(&self, to: u8) -> Self
        ensures { result ≡ record {
          blank = to;
          cells = map (λ cell. if cell == to then self.now.blank else cell) self.now.cells;
        } }
    {
        let count = self.count as usize;
        let mut places = self.places;
        let blank = places[0];
        replace(&mut places[1..count], to, blank);
        places[0] = to;
        View {
            count: self.count,
            places,
        }
    }
}

/// The cell of each number of a board, by the number, and 0 for those that it doesn't have.
pub fn cells_of(board: &Board) -> [u8; 25]
    ensures board { IsBoard board.now }
    ensures few { cell_count board.now.grid ≤ 25 }
    ensures cells { (number : ℕ) → number < cell_count board.now.grid
        → slice_index result number ≡ cell_of board.now number }
    ensures others { (number : ℕ) → cell_count board.now.grid ≤ number
        → slice_index result number ≡ 0 }
{
    let mut cells = [0; 25];
    'cells: for (cell, tile) in board.tiles().iter().enumerate() {
        cells[*tile as usize] = cell as u8;
    }
    cells
}

// Writes what a list holds at each place.
#[tactic(auto, using(std::proofs::lemmas::List::take_more_set, std::proofs::lemmas::List::map_more))]
fn pick(list: &[u8; 25], places: &[u8], picked: &mut [u8])
    requires same { length picked.old ≡ length places.now }
    requires within { All (λ place. place < 25) places.now }
    ensures { picked.new ≡ map (slice_index list.now) places.now }
{
    for i in 0..places.len() {
        picked[i] = list[places[i] as usize];
    }
}

// Writes one number in place of another, wherever that is.
fn replace(numbers: &mut [u8], from: u8, to: u8)
    ensures { numbers.new ≡ map (λ x. if x == from then to else x) numbers.old }
{
    for number in numbers.iter_mut() {
        *number = number_for(*number, from, to);
    }
}

// One number in place of another.
fn number_for(number: u8, from: u8, to: u8) -> u8
    ensures { result ≡ (if number == from then to else number) }
{
    if number == from { to } else { number }
}

/// The blank and a tile change places, by the cell of each number.
pub fn exchange(cells: &mut [u8; 25], tile: u8)
    requires { tile < 25 }
    ensures { cells.new ≡ exchanged cells.old tile }
{
    let blank = cells[0];
    cells[0] = cells[tile as usize];
    cells[tile as usize] = blank;
}
