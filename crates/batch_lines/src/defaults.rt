//! The groups where none are named.

ghost use Rattle.std.specs.Prelude.{◌≡◌, ◌+◌, ◌<◌, ◌≤◌, ◌⊎◌, IfOk, map};
ghost use Rattle.std.specs.List.{range_with_len};
ghost use Rattle.board.specs.Shapes.{cell_count};
ghost use Rattle.batch_lines.specs.Defaults.{default_size, default_groups};

use arrayvec::ArrayVec;
use board::Shape;
use memory::{OutOfMemory, push};
use pattern_index::{Group, Partition};
use std::alloc::Global;

/// The groups where none are named: the tiles in rising order, cut into groups. A group has 2 tiles
/// for up to 6 cells, 4 for up to 10, 5 for up to 16, else 4. The last may have fewer.
pub fn default_groups(alloc: Global, shape: Shape) -> Result<Partition, OutOfMemory>
    ensures grid { IfOk result (λ p. p.grid ≡ shape) }
    ensures groups { IfOk result (λ p. map (λ g. g.tiles) p.groups ≡ default_groups shape) }
{
    let cells = shape.cells();
    let size = default_size(cells);
    let mut groups = Vec::new(alloc);
    'groups: for place in 0..(cells - 1).div_ceil(size) {
        let first = 1 + place * size;
        push(
            &mut groups,
            rising_group(shape, first, size.min(cells - first)),
        )?;
    }
    Ok(Partition::new(shape, groups).unwrap())
}

// How many tiles a group has where none are named.
fn default_size(cells: usize) -> usize
    ensures value { result ≡ default_size cells }
    ensures cases { (result ≡ 2) ⊎ (result ≡ 4) ⊎ (result ≡ 5) }
{
    if cells <= 6 {
        return 2;
    }
    if cells <= 10 {
        return 4;
    }
    if cells <= 16 {
        return 5;
    }
    4
}

// The group of `count` tiles in rising order, from `first` on.
fn rising_group(shape: Shape, first: usize, count: usize) -> Group
    requires tiles { 0 < first }
    requires some { 0 < count }
    requires room { first + count ≤ cell_count shape }
    requires few { count ≤ default_size (cell_count shape) }
    ensures { result ≡ record { grid = shape; tiles = range_with_len first count } }
{
    let cells = shape.cells();
    let mut tiles = ArrayVec::<u8, 5>::new();
    'tiles: for place in 0..count {
        tiles.push((first + place) as u8);
    }
    Group::new(shape, tiles.as_slice()).unwrap()
}
