//! The least cost of each board of a small shape, by a breadth-first search: a second opinion for
//! tests. It has nothing in common with the searches that they try.

ghost use Rattle.std.specs.Prelude.{◌≡◌};

use board::{Board, GREATEST_EXPANDED_COST, Move, Shape, Weights};
use memory::{OutOfMemory, insert, push};
use std::alloc::Global;
use std::collections::BTreeMap;

// Costs of boards by their keys.
type Costs = BTreeMap<u128, u32>;

/// Each board of the goal's shape, in the order of their lists of tiles, with the least cost of a
/// plan from it to the goal, or None where no plan leads there.
///
/// The time grows as the number of cells to its own power, so this is for 2 by 2 and 2 by 3.
pub fn least_costs(
    alloc: Global,
    goal: &Board,
    weights: &Weights,
) -> Result<Vec<(Board, Option<u32>)>, OutOfMemory>
    requires { weights.now.grid ≡ goal.now.grid }
{
    let shape = goal.shape();
    let costs = costs_from(alloc, goal, weights)?;
    let mut boards = Vec::new(alloc);
    for number in 0..numbers(shape) {
        if let Some(board) = board_of(shape, number) {
            push(&mut boards, (board, costs.get(&board.key()).copied()))?;
        }
    }
    Ok(boards)
}

// The cost of each board that can be reached from a goal. A move is taken back at its own cost, so
// these are the costs to the goal too. In each round the boards whose costs fell in the round
// before are expanded, until no cost falls.
fn costs_from(alloc: Global, goal: &Board, weights: &Weights) -> Result<Costs, OutOfMemory>
    requires { weights.now.grid ≡ goal.now.grid }
{
    let mut costs = Costs::new(alloc);
    insert(&mut costs, goal.key(), 0)?;
    let mut fallen = Vec::new(alloc);
    push(&mut fallen, goal.key())?;
    // No plan has more moves than it costs.
    for _ in 0..GREATEST_EXPANDED_COST {
        if fallen.is_empty() {
            break;
        }
        fallen = expand_all(alloc, &mut costs, fallen.as_slice(), weights)?;
    }
    Ok(costs)
}

// Expands the boards with these keys, and tells the keys of those whose costs fell.
fn expand_all(
    alloc: Global,
    costs: &mut Costs,
    keys: &[u128],
    weights: &Weights,
) -> Result<Vec<u128>, OutOfMemory> {
    let mut fallen = Vec::new(alloc);
    for key in keys {
        let cost = costs.get(key).copied().unwrap_or(0);
        let Some(board) = Board::from_key(weights.shape(), *key) else {
            continue;
        };
        for direction in Move::ALL {
            if let Some((next, more)) = board.step(direction, weights) {
                if relax(costs, next.key(), cost.saturating_add(more))? {
                    push(&mut fallen, next.key())?;
                }
            }
        }
    }
    Ok(fallen)
}

// Takes the cost of a board where it is lower than the one known, and tells whether it is.
fn relax(costs: &mut Costs, key: u128, cost: u32) -> Result<bool, OutOfMemory> {
    if let Some(before) = costs.get(&key) {
        if *before <= cost {
            return Ok(false);
        }
    }
    insert(costs, key, cost)?;
    Ok(true)
}

// How many numbers have a digit for each cell, to the base of their count.
fn numbers(shape: Shape) -> u64 {
    let cells = shape.cells() as u64;
    let mut numbers = 1u64;
    for _ in 0..shape.cells() {
        numbers = numbers.saturating_mul(cells);
    }
    numbers
}

// The board whose tiles are the digits of a number, or None where a digit is there twice.
fn board_of(shape: Shape, number: u64) -> Option<Board> {
    let cells = shape.cells();
    let mut tiles = [0; 25];
    let mut left = number;
    for place in (0..cells).rev() {
        tiles[place] = (left % cells as u64) as u8;
        left /= cells as u64;
    }
    Board::from_tiles(shape, &tiles[..cells]).ok()
}
