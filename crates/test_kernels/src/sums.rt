//! Sums of boards, beside the costs that a breadth-first search finds.

ghost use Rattle.std.specs.Prelude.{◌≡◌};

use crate::fixtures::{board_of, groups_of, shape_of};
use board::{Board, Move, Shape, Weights};
use database_build::{NO_VALUE, build};
use lower_bound::{Bound, is_potential};
use pattern_index::{Partition, cells_of};
use search_keys::KeyedBoard;
use std::process::Abort;
use successor_sums::{Successor, UnpackedBoard};
use test_support::least_costs;

// The groups of these tiles.
fn partition_of(rt: &(impl Abort + AllocGlobal), shape: Shape, tiles: &[&[u8]]) -> Partition
    ensures { result.grid ≡ shape }
{
    Partition::new(shape, groups_of(rt, shape, tiles)).expect(rt, "a partition")
}

// The bound of the groups of these tiles, by built tables.
pub(crate) fn bound_of(
    rt: &(impl Abort + AllocGlobal),
    goal: &Board,
    weights: &Weights,
    tiles: &[&[u8]],
) -> Bound
    requires { weights.now.grid ≡ goal.now.grid }
    ensures { result.split.grid ≡ goal.now.grid }
{
    let partition = partition_of(rt, goal.shape(), tiles);
    // The contract of this call says that the groups are of the goal's shape.
    let _ = partition.shape();
    let mut tables = Vec::new(rt.alloc());
    for group in partition.groups() {
        let table = build(rt.alloc(), group, goal, weights).expect(rt, "memory");
        tables.push(table).expect(rt, "memory");
    }
    Bound::new(partition, tables).expect(rt, "a table for each group")
}

// A board of 3 by 3 that is as far from the goal as one can be.
pub(crate) const HARDEST: [u8; 9] = [8, 0, 6, 5, 4, 7, 2, 3, 1];

// A group for each of the tiles 1 to 8.
pub(crate) const SINGLES: [&[u8]; 8] = [&[1], &[2], &[3], &[4], &[5], &[6], &[7], &[8]];

// The sums of a board and of the goal by a table of each tile.
fn sums_by_singles(
    rt: &(impl Abort + AllocGlobal),
    goal: &Board,
    start: &Board,
    weights: &Weights,
) -> (u32, u32)
    requires start { start.now.grid ≡ goal.now.grid }
    requires weights { weights.now.grid ≡ goal.now.grid }
{
    let bound = bound_of(rt, goal, weights, &SINGLES);
    (bound.of(start), bound.of(goal))
}

// A group for each tile: the sums are the taxicab distances, plain and times the tiles' numbers.
#[test]
fn the_hardest_board_of_three_by_three(rt: HostRuntime) {
    let shape = shape_of(&rt, 3, 3);
    let goal = Board::goal(shape);
    let start = board_of(&rt, shape, &HARDEST);
    let sums = sums_by_singles(&rt, &goal, &start, &Weights::unit(shape));
    assert!(rt; sums == (21, 0));
    let sums = sums_by_singles(&rt, &goal, &start, &Weights::face(shape));
    assert!(rt; sums == (97, 0));
}

// A successor of the hardest board: the tile that moves, the tiles then, and their sum.
type WorkedSuccessor = (u32, [u8; 9], u32);

// Whether a successor is as it was worked.
fn is_worked(rt: &impl Abort, successor: &Successor, worked: &WorkedSuccessor) -> bool {
    let (tile, tiles, sum) = worked;
    let board = board_of(rt, shape_of(rt, 3, 3), tiles);
    successor.key == board.key()
        && successor.cell as usize == board.blank()
        && successor.tile == *tile
        && successor.cost == 1
        && successor.sum == *sum
}

// The sum of a board at unit cost, and its successors, by a table of each tile.
fn sum_and_successors(
    rt: &(impl Abort + AllocGlobal),
    start: &Board,
    unpacked: &UnpackedBoard,
) -> (u32, [Option<Successor>; 4])
    requires { unpacked.now ≡ start.now }
{
    let shape = start.shape();
    let weights = Weights::unit(shape);
    let bound = bound_of(rt, &Board::goal(shape), &weights, &SINGLES);
    (
        bound.sum_at(&cells_of(start)),
        unpacked.successors(&weights, &bound),
    )
}

// The blank goes to the left, to the right and down. A tile comes one cell nearer to its own in the
// first two. Tile 4 leaves its own in the last.
static SUCCESSORS: [WorkedSuccessor; 3] = [
    (8, [0, 8, 6, 5, 4, 7, 2, 3, 1], 20),
    (6, [8, 6, 0, 5, 4, 7, 2, 3, 1], 20),
    (4, [8, 4, 6, 5, 0, 7, 2, 3, 1], 22),
];

// The blank can't go up.
#[test]
fn successors_of_the_hardest_board(rt: HostRuntime) {
    let start = board_of(&rt, shape_of(&rt, 3, 3), &HARDEST);
    let unpacked = UnpackedBoard::new(&start);
    assert!(rt; unpacked.blank() == 1);
    let (sum, [up, left, right, down]) = sum_and_successors(&rt, &start, &unpacked);
    assert!(rt; sum == 21);
    assert!(rt; up.is_none());
    for (found, worked) in [left, right, down].iter().zip(&SUCCESSORS) {
        let successor = found.expect(&rt, "the blank stays on the board");
        assert!(rt; is_worked(&rt, &successor, worked));
    }
}

#[test]
fn groups_and_their_tables(rt: HostRuntime) {
    let goal = Board::goal(shape_of(&rt, 2, 3));
    let weights = Weights::face(goal.shape());
    let bound = bound_of(&rt, &goal, &weights, &[&[2, 1], &[5]]);
    let groups = bound.partition().groups();
    assert!(rt; groups.len() == 2);
    for i in 0..groups.len() {
        let table = bound
            .table(i)
            .expect(&rt, "there is a table for each group");
        assert!(rt; is_potential(table, &groups[i], &goal, &weights));
    }
}

// Groups of the tiles of 2 by 3.
const PARTITIONS: [&[&[u8]]; 4] = [
    &[&[1], &[2], &[3], &[4], &[5]],
    &[&[1, 2, 3], &[4, 5]],
    &[&[1, 3], &[2, 4, 5]],
    &[&[1, 2, 3, 4, 5]],
];

// Whether the sum of a board is right for its least cost. No sum is above the cost. The sum of a
// group of all tiles is the cost itself. Only the goal's sum is 0.
fn is_right(bound: &Bound, goal: &Board, start: &Board, cost: u32, is_whole: bool) -> bool
    requires { start.now.grid ≡ bound.now.split.grid }
{
    let sum = bound.of(start);
    if bound.of_keyed(&KeyedBoard::new(start)) != sum {
        return false;
    }
    if sum > cost || (sum < cost && is_whole) {
        return false;
    }
    (sum == 0) == (*start == *goal)
}

// Compares the sum of each board of 2 by 3 with the least cost, and counts the boards that have a
// plan.
fn compare_with_search(
    rt: &(impl Abort + AllocGlobal),
    goal: &Board,
    weights: &Weights,
    tiles: &[&[u8]],
) -> u32
    requires { weights.now.grid ≡ goal.now.grid }
{
    let bound = bound_of(rt, goal, weights, tiles);
    let costs = least_costs(rt.alloc(), goal, weights).expect(rt, "memory");
    let mut solved = 0u32;
    for (start, least) in costs.as_slice() {
        assert!(rt; start.shape() == goal.shape());
        let cost = least.unwrap_or(u32::from(NO_VALUE));
        assert!(rt; is_right(&bound, goal, start, cost, tiles.len() == 1));
        if least.is_some() {
            solved = solved.saturating_add(1);
        }
    }
    solved
}

#[test]
fn each_board_of_two_by_three(rt: HostRuntime) {
    let shape = shape_of(&rt, 2, 3);
    let goal = Board::goal(shape);
    for weights in [Weights::unit(shape), Weights::face(shape)] {
        for tiles in PARTITIONS {
            assert!(rt; compare_with_search(&rt, &goal, &weights, tiles) == 360);
        }
    }
}

// Whether each board of a walk from the goal has the same sum by its search key.
fn has_keyed_sums(bound: &Bound, goal: &Board) -> bool {
    let weights = Weights::unit(goal.shape());
    let mut board = *goal;
    let mut state: u64 = 1;
    'steps: for _ in 0..200 {
        state = state
            .wrapping_mul(6_364_136_223_846_793_005)
            .wrapping_add(1_442_695_040_888_963_407);
        let direction = Move::ALL[(state >> 62) as usize];
        if board.shape() != bound.partition().shape() || weights.shape() != board.shape() {
            return false;
        }
        if let Some((next, _)) = board.step(direction, &weights) {
            board = next;
        }
        if board.shape() != bound.partition().shape() {
            return false;
        }
        if bound.of_keyed(&KeyedBoard::new(&board)) != bound.of(&board) {
            return false;
        }
    }
    true
}

// Shapes with groups of their tiles. The table of the first is kept by rank.
static KEYED: [(u8, u8, &[&[u8]]); 4] = [
    (3, 3, &[&[1, 2, 3, 4, 5, 6, 7, 8]]),
    (3, 3, &[&[1, 2, 3, 4], &[5, 6, 7, 8]]),
    (3, 4, &[&[1, 3, 5], &[2, 4, 7]]),
    (4, 5, &[&[1, 2], &[18, 19]]),
];

// Whether the boards of a walk have their sums by built tables, and by these tables folded.
fn have_keyed_sums(rt: &(impl Abort + AllocGlobal), goal: &Board, tiles: &[&[u8]]) -> (bool, bool) {
    let bound = bound_of(rt, goal, &Weights::face(goal.shape()), tiles);
    let by_tables = has_keyed_sums(&bound, goal);
    let folded = bound.folded(rt.alloc()).expect(rt, "memory");
    (by_tables, has_keyed_sums(&folded, goal))
}

#[test]
fn sums_by_search_keys(rt: HostRuntime) {
    for (rows, cols, tiles) in &KEYED {
        let goal = Board::goal(shape_of(&rt, *rows, *cols));
        assert!(rt; have_keyed_sums(&rt, &goal, tiles) == (true, true));
    }
}
