//! The two classes of boards.

ghost use Rattle.std.specs.Prelude.{◌≡◌, ◌<◌, ◌≤◌, ◌↔◌, ◌*◌, IsTrue, length, count_by, nat_lt};
ghost use Rattle.board.specs.Shapes.{IsShape, cell_count};
ghost use Rattle.board.specs.Classes.{SameClass, inversions, taxicab};

use crate::boards::Board;
use crate::shapes::Shape;

/// Whether two boards of one shape are in one class. No plan leads from one class to the other.
pub fn same_class(a: &Board, b: &Board) -> bool
    requires { a.now.grid ≡ b.now.grid }
    ensures { IsTrue result ↔ SameClass a.now b.now }
{
    let inversions = a.inversions() + b.inversions();
    let distance = taxicab_distance(a.shape(), a.blank(), b.blank());
    inversions % 2 == distance % 2
}

// The number of pairs of places where the earlier place holds the greater number.
pub(crate) fn count_inversions(tiles: &[u8]) -> usize
    requires { length tiles.now ≤ 25 }
    ensures value { result ≡ inversions tiles.now }
    ensures high { result ≤ 25 * 25 }
{
    let mut count = 0;
    for place in 0..tiles.len() {
        count += count_below(&tiles[place + 1..], tiles[place]);
    }
    count
}

// How many of the numbers are below a tile.
fn count_below(numbers: &[u8], tile: u8) -> usize
    requires { length numbers.now ≤ 25 }
    ensures value { result ≡ count_by (λ number. nat_lt number tile) numbers.now }
    ensures high { result ≤ 25 }
{
    let mut count = 0;
    for number in numbers {
        if *number < tile {
            count += 1;
        }
    }
    count
}

// How far apart the rows of two cells are, and their columns.
fn taxicab_distance(shape: Shape, x: usize, y: usize) -> usize
    requires sides { IsShape shape }
    requires x_in { x < cell_count shape }
    requires y_in { y < cell_count shape }
    ensures { result ≡ taxicab shape x y }
{
    let cols = shape.cols() as usize;
    (x / cols).abs_diff(y / cols) + (x % cols).abs_diff(y % cols)
}
