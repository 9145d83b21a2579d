//! Sparse places: cells as the digits of a number.

ghost use Rattle.std.specs.Prelude.{ℕ, ◌≡◌, ◌≢◌, ◌↔◌, ◌*◌, ◌^◌, ◌<◌, ◌≤◌, length, map, slice_index};
ghost use Rattle.std.specs.Prelude.{All, AllPairs, IsTrue};
ghost use Rattle.pattern_index.specs.Sparse.{sparse_of, digits_in, stride_of, digit_base};
ghost use Rattle.pattern_index.specs.Views.{exchanged};

use board::Shape;

/// The base in which cells are digits of a slot: 16 where they are no more, so that a digit has four
/// bits, else the count of cells.
pub fn digit_base(shape: Shape) -> usize
    ensures value { result ≡ digit_base shape }
    ensures high { result ≤ 25 }
{
    shape.cells().max(16)
}

/// The number that has these cells, each below a base, as its digits, the first as the lowest.
pub fn sparse_place(base: usize, cells: &[u8]) -> usize
    requires few { base ≤ 25 }
    requires short { length cells.now ≤ 10 }
    requires below { All (λ cell. cell < base) cells.now }
    ensures { result ≡ sparse_of base cells.now }
{
    let mut sparse = 0;
    let mut place = cells.len();
    'cells: while place > 0 {
        place -= 1;
        sparse = sparse * base + cells[place] as usize;
    }
    sparse
}

// The number that has the cells of some tiles as its digits, by a list of the cell of each number.
pub(crate) fn sparse_tiles(count: usize, tiles: &[u8], cells: &[u8; 25]) -> usize
    requires few { count ≤ 25 }
    requires short { length tiles.now ≤ 9 }
    requires tiles { All (λ tile. tile < 25) tiles.now }
    requires within { All (λ cell. cell < count) (map (slice_index cells.now) tiles.now) }
    ensures { result ≡ sparse_of count (map (slice_index cells.now) tiles.now) }
{
    // A loop whose length is known is unrolled.
    match tiles.len() {
        4 => sparse_of_all(4, count, tiles, cells),
        5 => sparse_of_all(5, count, tiles, cells),
        6 => sparse_of_all(6, count, tiles, cells),
        all => sparse_of_all(all, count, tiles, cells),
    }
}

// The same, where there are `all` tiles.
fn sparse_of_all(all: usize, count: usize, tiles: &[u8], cells: &[u8; 25]) -> usize
    requires all { all ≡ length tiles.now }
    requires few { count ≤ 25 }
    requires short { length tiles.now ≤ 9 }
    requires tiles { All (λ tile. tile < 25) tiles.now }
    requires within { All (λ cell. cell < count) (map (slice_index cells.now) tiles.now) }
    ensures { result ≡ sparse_of count (map (slice_index cells.now) tiles.now) }
{
    let mut sparse = 0;
    let mut place = all;
    'tiles: while place > 0 {
        place -= 1;
        sparse = sparse * count + cells[tiles[place] as usize] as usize;
    }
    sparse
}

// The numbers that have the cells of some tiles as their digits, before and after the blank and a
// tile change places. Making both takes less time than making one after the other.
pub(crate) fn sparse_both(base: usize, tiles: &[u8], cells: &[u8; 25], tile: u8) -> (usize, usize)
    requires few { base ≤ 25 }
    requires short { length tiles.now ≤ 9 }
    requires tiles { All (λ number. (0 < number) × (number < 25)) tiles.now }
    requires tile { tile < 25 }
    requires before { All (λ cell. cell < base) (map (slice_index cells.now) tiles.now) }
    requires after { All (λ cell. cell < base)
        (map (slice_index (exchanged cells.now tile)) tiles.now) }
    ensures before { result.0 ≡ sparse_of base (map (slice_index cells.now) tiles.now) }
    ensures after { result.1
        ≡ sparse_of base (map (slice_index (exchanged cells.now tile)) tiles.now) }
{
    let mut before = 0;
    let mut after = 0;
    let mut place = tiles.len();
    'tiles: while place > 0 {
        place -= 1;
        let number = tiles[place];
        before = before * base + cells[number as usize] as usize;
        after = after * base + cell_after(cells, tile, number) as usize;
    }
    (before, after)
}

// The cell of a tile, after the blank and a tile change places.
fn cell_after(cells: &[u8; 25], tile: u8, number: u8) -> u8
    requires some { 0 < number }
    requires number { number < 25 }
    requires tile { tile < 25 }
    ensures { result ≡ slice_index (exchanged cells.now tile) number }
{
    if number == tile {
        cells[0]
    } else {
        cells[number as usize]
    }
}

// Writes the digits of a number to the base `count`, the lowest first.
pub(crate) fn write_digits(count: usize, number: usize, digits: &mut [u8])
    requires some { 0 < count }
    requires few { count ≤ 25 }
    ensures { digits.new ≡ digits_in count (length digits.old) number }
{
    let mut rest = number;
    'places: for place in 0..digits.len() {
        digits[place] = (rest % count) as u8;
        rest /= count;
    }
}

// Whether no two are the same.
pub(crate) fn are_different(cells: &[u8]) -> bool
    ensures { IsTrue result ↔ AllPairs (λ x y. x ≢ y) cells.now }
{
    'places: for place in 0..cells.len() {
        if cells[..place].contains(&cells[place]) {
            return false;
        }
    }
    true
}

// The place value of a tile's digit: the count to the power of the tile's place among these, or 0
// where it is none of them.
pub(crate) fn stride_of(count: usize, tiles: &[u8], tile: u8) -> usize
    requires few { count ≤ 25 }
    requires short { length tiles.now ≤ 9 }
    ensures { result ≡ stride_of count tiles.now tile }
{
    let mut stride = 1;
    'tiles: for place in 0..tiles.len() {
        if tiles[place] == tile {
            return stride;
        }
        stride *= count;
    }
    0
}

// The count to the power of a number of digits.
pub(crate) fn count_numbers(count: usize, digits: usize) -> usize
    requires few { count ≤ 25 }
    requires short { digits ≤ 10 }
    ensures { result ≡ count ^ digits }
{
    let mut numbers = 1;
    'digits: for _ in 0..digits {
        numbers *= count;
    }
    numbers
}
