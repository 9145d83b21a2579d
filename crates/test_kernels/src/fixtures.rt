//! Shapes, boards, groups and lists that tests use.

ghost use Rattle.std.specs.Prelude.{◌≡◌, All};

use board::{Board, Shape};
use pattern_index::{Group, Partition};
use std::process::Abort;

/// A shape of these rows and columns.
pub fn shape_of(rt: &impl Abort, rows: u8, cols: u8) -> Shape {
    Shape::new(rows, cols).expect(rt, "a shape")
}

/// The board of these tiles.
pub fn board_of(rt: &impl Abort, shape: Shape, tiles: &[u8]) -> Board
    ensures { result.grid ≡ shape }
{
    Board::from_tiles(shape, tiles).expect(rt, "a board")
}

/// The group of these tiles.
pub fn group_of(rt: &impl Abort, shape: Shape, tiles: &[u8]) -> Group
    ensures { result.grid ≡ shape }
{
    Group::new(shape, tiles).expect(rt, "a group")
}

/// The groups of these tiles.
pub fn groups_of(rt: &(impl Abort + AllocGlobal), shape: Shape, lists: &[&[u8]]) -> Vec<Group>
    ensures { All (λ g. g.grid ≡ shape) result.items }
{
    let mut groups = Vec::new(rt.alloc());
    'groups: for tiles in lists {
        groups.push(group_of(rt, shape, tiles)).expect(rt, "memory");
    }
    groups
}

/// A list of these values.
pub fn list_of<T: Copy>(rt: &(impl Abort + AllocGlobal), values: &[T]) -> Vec<T> {
    Vec::from_slice(rt.alloc(), values).expect(rt, "memory")
}
