//! Ranks of lists of cells.

ghost use Rattle.std.specs.Prelude.{ℕ, ◌≡◌, ◌+◌, ◌-◌, ◌*◌, ◌%◌, ◌^◌, ◌<◌, ◌≤◌};
ghost use Rattle.std.specs.Prelude.{suc, ◌∷◌, length, map, slice_index, All, bit_or, count_ones};
ghost use Rattle.pattern_index.specs.Ranks.{ways, IsListing, rank_of, spread, list_at};

use crate::group::MAX_SIZE;

// The rank of a list of different cells below `cells`. It is computed from the front, and each cell
// counts without the smaller ones before it.
pub(crate) fn rank_cells(cells: usize, list: &[u8]) -> usize
    requires few { cells ≤ 25 }
    requires listing { IsListing cells list.now }
    requires fits { length list.now ≤ cells }
    requires small { ways cells (length list.now) ≤ MAX_SIZE }
    ensures { result ≡ rank_of cells list.now }
{
    let mut rank = 0;
    let mut free = cells;
    let mut seen: u32 = 0;
    for cell in list {
        let digit = *cell as usize - bits_below(seen, *cell);
        rank = rank * free + digit;
        seen = with_bit(seen, *cell);
        free -= 1;
    }
    rank
}

// The rank of the cells of the blank and of some tiles, among `count` cells, from the cell of each
// number. It is that of `rank_cells`, without a list of these cells.
pub(crate) fn rank_numbers(count: usize, tiles: &[u8], cells: &[u8; 25]) -> usize
    requires few { count ≤ 25 }
    requires tiles { All (λ tile. tile < 25) tiles.now }
    requires listing { IsListing count (slice_index cells.now 0 ∷ map (slice_index cells.now) tiles.now) }
    requires fits { suc (length tiles.now) ≤ count }
    requires small { ways count (suc (length tiles.now)) ≤ MAX_SIZE }
    ensures { result
        ≡ rank_of count (slice_index cells.now 0 ∷ map (slice_index cells.now) tiles.now) }
{
    let blank = cells[0];
    let mut rank = blank as usize;
    let mut free = count - 1;
    let mut seen = with_bit(0, blank);
    'tiles: for tile in tiles {
        let cell = cells[*tile as usize];
        let digit = cell as usize - bits_below(seen, cell);
        rank = rank * free + digit;
        seen = with_bit(seen, cell);
        free -= 1;
    }
    rank
}

// The rank of the cells of some tiles, among `count` cells, from the cell of each number. It is
// that of `rank_cells`, without a list of these cells.
pub(crate) fn rank_tiles(count: usize, tiles: &[u8], cells: &[u8; 25]) -> usize
    requires few { count ≤ 25 }
    requires tiles { All (λ tile. tile < 25) tiles.now }
    requires listing { IsListing count (map (slice_index cells.now) tiles.now) }
    requires fits { length tiles.now ≤ count }
    requires small { ways count (length tiles.now) ≤ MAX_SIZE }
    ensures { result ≡ rank_of count (map (slice_index cells.now) tiles.now) }
{
    let mut rank = 0;
    let mut free = count;
    let mut seen = 0;
    'tiles: for tile in tiles {
        let cell = cells[*tile as usize];
        let digit = cell as usize - bits_below(seen, cell);
        rank = rank * free + digit;
        seen = with_bit(seen, cell);
        free -= 1;
    }
    rank
}

// The bits below each cell's. Reading them takes less time than shifting one into its place.
const BITS_BELOW: [u32; 32] = [
    0x0, 0x1, 0x3, 0x7, 0xF, 0x1F, 0x3F, 0x7F, 0xFF, 0x1FF, 0x3FF, 0x7FF, 0xFFF, 0x1FFF, 0x3FFF,
    0x7FFF, 0xFFFF, 0x1FFFF, 0x3FFFF, 0x7FFFF, 0xFFFFF, 0x1FFFFF, 0x3FFFFF, 0x7FFFFF, 0xFFFFFF,
    0x1FFFFFF, 0x3FFFFFF, 0x7FFFFFF, 0xFFFFFFF, 0x1FFFFFFF, 0x3FFFFFFF, 0x7FFFFFFF,
];

// How many bits of the mask are below a cell's.
fn bits_below(mask: u32, cell: u8) -> usize
    requires { cell < 32 }
    ensures value { result ≡ count_ones (mask % 2 ^ cell) }
    ensures bound { result ≤ cell }
{
    (mask & BITS_BELOW[cell as usize]).count_ones() as usize
}

// The mask with a cell's bit set.
fn with_bit(mask: u32, cell: u8) -> u32
    requires { cell < 32 }
    ensures { result ≡ bit_or mask (1 * 2 ^ cell % 2 ^ 32) }
{
    mask | (1u32 << cell)
}

/// Writes the list of different cells that has a rank among all lists of its length, in
/// lexicographic order. It is made from its end: each cell that is put before those that are
/// written moves them up past itself.
pub fn list_cells(cells: usize, rank: usize, list: &mut [u8])
    requires few { cells ≤ 25 }
    requires fits { length list.old ≤ cells }
    requires below { rank < ways cells (length list.old) }
    ensures { list.new ≡ list_at cells (length list.old) rank }
{
    let mut rest = rank;
    let mut place = list.len();
    'places: while place > 0 {
        let free = cells - (place - 1);
        let at = (rest % free) as u8;
        rest = rest / free;
        spread_cells(&mut list[place..], at);
        list[place - 1] = at;
        place -= 1;
    }
}

// Moves the cells from one on up by one.
fn spread_cells(later: &mut [u8], at: u8)
    requires { All (λ cell. cell < 255) later.old }
    ensures { later.new ≡ map (spread at) later.old }
{
    for cell in later.iter_mut() {
        *cell = spread_cell(at, *cell);
    }
}

// A cell among those that are left after another is taken out.
fn spread_cell(at: u8, cell: u8) -> u8
    requires { cell < 255 }
    ensures { result ≡ spread at cell }
{
    if at <= cell { cell + 1 } else { cell }
}
