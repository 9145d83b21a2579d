//! Folded tables that were worked by hand.

ghost use Rattle.std.specs.Prelude.{◌≡◌, ◌<◌};

use crate::fixtures::{board_of, group_of, list_of, shape_of};
use board::{Board, Shape, Weights};
use database_build::{Folded, NO_VALUE, Table, build, fold};
use pattern_index::Group;
use std::process::Abort;

// Boards of 2 by 2 with tile 1 on cells 0, 1, 2 and 3.
const TILE_ONE_ON: [[u8; 4]; 4] = [[1, 0, 2, 3], [0, 1, 2, 3], [0, 2, 1, 3], [0, 2, 3, 1]];

// Values of tile 1 on 2 by 2 by rank, and the least ones by the tile's cell. The blank is on cell 0
// in the first three, with the tile on 1, 2, 3; on cell 1 in the next three, with the tile on 0, 2,
// 3; and so on.
const FOLDS: [([u16; 12], [u16; 4]); 4] = [
    // The built ones at unit cost.
    ([0, 2, 1, 1, 2, 1, 1, 0, 1, 1, 0, 2], [1, 0, 2, 1]),
    // The blank is on cells 2, 3, 0 and 2 in the least ones.
    ([9, 2, 7, 6, 5, 4, 3, 8, 1, 12, 0, 10], [3, 0, 2, 1]),
    // It is on cells 3, 0, 1 and 1.
    ([4, 8, 9, 7, 6, 5, 8, 5, 6, 3, 9, 7], [3, 4, 6, 5]),
    ([NO_VALUE; 12], [NO_VALUE; 4]),
];

// The folded table that is built of some tiles.
fn built_fold(
    rt: &(impl Abort + AllocGlobal),
    goal: &Board,
    weights: &Weights,
    tiles: &[u8],
) -> Folded
    requires { weights.now.grid ≡ goal.now.grid }
{
    let group = group_of(rt, goal.shape(), tiles);
    let table = build(rt.alloc(), &group, goal, weights).expect(rt, "memory");
    fold(rt.alloc(), table).expect(rt, "memory")
}

// Whether a folded table has this value of a board.
fn has_value(folded: &Folded, board: &Board, value: u16) -> bool {
    if board.shape() != folded.group().shape() {
        return false;
    }
    let view = folded.group().view(board);
    folded.value(&view) == value
}

// The folded table of stored values.
fn stored_fold(rt: &(impl Abort + AllocGlobal), group: &Group, values: &[u16]) -> Folded {
    let table = Table::from_values(group, list_of(rt, values)).expect(rt, "a value for each view");
    fold(rt.alloc(), table).expect(rt, "memory")
}

#[test]
fn folds_of_stored_values(rt: HostRuntime) {
    let shape = shape_of(&rt, 2, 2);
    let group = group_of(&rt, shape, &[1]);
    for (row, (values, least)) in FOLDS.iter().enumerate() {
        let folded = stored_fold(&rt, &group, values);
        assert!(rt; folded.size() == 4 && *folded.group() == group, "row {row}");
        for (tiles, value) in TILE_ONE_ON.iter().zip(least) {
            let board = board_of(&rt, shape, tiles);
            assert!(rt; has_value(&folded, &board, *value), "row {row}, {tiles:?}");
        }
    }
}

// No view plan leads from the board's view to the goal's, but one does with the blank elsewhere.
#[test]
fn no_value_is_folded_away(rt: HostRuntime) {
    let shape = shape_of(&rt, 2, 2);
    let goal = board_of(&rt, shape, &[0, 1, 2, 3]);
    let board = board_of(&rt, shape, &[3, 1, 2, 0]);
    let group = group_of(&rt, shape, &[1, 2]);
    let table = build(rt.alloc(), &group, &goal, &Weights::unit(shape)).expect(&rt, "memory");
    assert!(rt; table.value(&group.view(&board)) == NO_VALUE);
    let folded = fold(rt.alloc(), table).expect(&rt, "memory");
    assert!(rt; has_value(&folded, &board, 0) && folded.size() == 12);
}

#[test]
fn size_of_four_tiles(rt: HostRuntime) {
    let shape = shape_of(&rt, 3, 3);
    let goal = Board::goal(shape);
    let folded = built_fold(&rt, &goal, &Weights::unit(shape), &[1, 2, 3, 4]);
    assert!(rt; folded.size() == 3_024 && has_value(&folded, &goal, 0));
}

// How many steps a tile of 3 by 3 goes from one cell to another.
fn steps_between(from: usize, to: usize) -> Option<u32> {
    let rows = (from / 3).abs_diff(to / 3);
    let cols = (from % 3).abs_diff(to % 3);
    u32::try_from(rows.checked_add(cols)?).ok()
}

// What a tile of 3 by 3 pays to go from one cell to its own.
fn cost_from(cell: usize, tile: u8, weight: u32) -> Option<u16> {
    let cost = steps_between(cell, tile as usize)?.checked_mul(weight)?;
    u16::try_from(cost).ok()
}

// Compares the values of a tile alone, by its cell, with what it pays.
fn expect_straight(rt: &impl Abort, folded: &Folded, tile: u8, weight: u32)
    requires { tile < 9 }
{
    let shape = shape_of(rt, 3, 3);
    for cell in 0..9 {
        let mut tiles = [0, 1, 2, 3, 4, 5, 6, 7, 8];
        tiles.swap(tile as usize, cell);
        let board = board_of(rt, shape, &tiles);
        let cost = cost_from(cell, tile, weight).expect(rt, "a low cost");
        assert!(rt;
            has_value(folded, &board, cost),
            "tile {tile} on cell {cell}"
        );
    }
}

// A tile alone goes to its cell by the shortest way, and each step costs its weight.
#[test]
fn one_tile_goes_straight(rt: HostRuntime) {
    let shape = Shape::new(3, 3).expect(&rt, "a shape");
    let goal = Board::goal(shape);
    for weights in [Weights::unit(shape), Weights::face(shape)] {
        for tile in 1..9 {
            let folded = built_fold(&rt, &goal, &weights, &[tile]);
            expect_straight(&rt, &folded, tile, weights.of(tile));
        }
    }
}
