//! Tables that were worked by hand.

ghost use Rattle.std.specs.Prelude.{◌≡◌};

use crate::fixtures::{board_of, group_of, list_of, shape_of};
use board::{Board, Weights};
use database_build::{NO_VALUE, Table, build, is_potential};
use std::process::Abort;

// The values of tile 1 on 2 by 2 at unit cost, by rank: the blank on cell 0 and the tile on 1, 2,
// 3; the blank on 1 and the tile on 0, 2, 3; and so on.
const TILE_ONE: [u16; 12] = [0, 2, 1, 1, 2, 1, 1, 0, 1, 1, 0, 2];

// Values of tile 1 on 2 by 2, and whether they are a potential.
const POTENTIALS: [([u16; 12], bool); 5] = [
    (TILE_ONE, true),
    ([0; 12], true),
    // The goal's view, of rank 0, has no 0.
    ([1, 2, 1, 1, 2, 1, 1, 0, 1, 1, 0, 2], false),
    // From rank 1 to rank 4 only the blank moves, and the value falls from 3 to 2.
    ([0, 3, 1, 1, 2, 1, 1, 0, 1, 1, 0, 2], false),
    // On the way back it falls from 2 to 1.
    ([0, 1, 1, 1, 2, 1, 1, 0, 1, 1, 0, 2], false),
];

// A value of a built table that was worked by hand: that of some tiles on a board, for a goal.
struct WorkedValue {
    side: u8,
    goal: &'static [u8],
    board: &'static [u8],
    tiles: &'static [u8],
    unit: u16,
    face: u16,
}

const VALUES: [WorkedValue; 4] = [
    // Three moves of tile 1.
    WorkedValue {
        side: 3,
        goal: &[0, 1, 2, 3, 4, 5, 6, 7, 8],
        board: &[0, 2, 3, 4, 5, 6, 7, 8, 1],
        tiles: &[1],
        unit: 3,
        face: 3,
    },
    // Four moves of tile 2, and none of tile 1 is counted.
    WorkedValue {
        side: 3,
        goal: &[0, 1, 2, 3, 4, 5, 6, 7, 8],
        board: &[0, 1, 3, 4, 5, 6, 2, 7, 8],
        tiles: &[2],
        unit: 4,
        face: 8,
    },
    // No view plan leads to the goal's view.
    WorkedValue {
        side: 2,
        goal: &[0, 1, 2, 3],
        board: &[3, 1, 2, 0],
        tiles: &[1, 2],
        unit: NO_VALUE,
        face: NO_VALUE,
    },
    // Another goal, one move of tile 3 away.
    WorkedValue {
        side: 2,
        goal: &[1, 2, 3, 0],
        board: &[1, 2, 0, 3],
        tiles: &[3],
        unit: 1,
        face: 3,
    },
];

// The value of a board in the table that is built of some tiles.
fn value_of(
    rt: &(impl Abort + AllocGlobal),
    goal: &Board,
    board: &Board,
    tiles: &[u8],
    weights: &Weights,
) -> u16
    requires goal { goal.now.grid ≡ board.now.grid }
    requires weights { weights.now.grid ≡ board.now.grid }
{
    let group = group_of(rt, board.shape(), tiles);
    let table = build(rt.alloc(), &group, goal, weights).expect(rt, "memory");
    table.value(&group.view(board))
}

// Whether the built tables have both values of a row.
fn has_values(rt: &(impl Abort + AllocGlobal), row: &WorkedValue) -> bool {
    let shape = shape_of(rt, row.side, row.side);
    let goal = board_of(rt, shape, row.goal);
    let board = board_of(rt, shape, row.board);
    let unit = value_of(rt, &goal, &board, row.tiles, &Weights::unit(shape));
    let face = value_of(rt, &goal, &board, row.tiles, &Weights::face(shape));
    unit == row.unit && face == row.face
}

#[test]
fn worked_values(rt: HostRuntime) {
    for (row, value) in VALUES.iter().enumerate() {
        assert!(rt; has_values(&rt, value), "row {row}");
    }
}

// Whether a table has these values, by rank and by slot.
fn has_all_values(table: &Table, values: &[u16]) -> bool {
    let size = table.group().size();
    if values.len() != size {
        return false;
    }
    for rank in 0..size {
        let view = table.group().unrank(rank);
        let slot = table.group().slot(&view);
        if table.entry(rank) != values[rank] || table.slot_value(slot) != values[rank] {
            return false;
        }
    }
    true
}

#[test]
fn values_of_one_tile(rt: HostRuntime) {
    let shape = shape_of(&rt, 2, 2);
    let goal = Board::goal(shape);
    let unit = Weights::unit(shape);
    let group = group_of(&rt, shape, &[1]);
    let built = build(rt.alloc(), &group, &goal, &unit).expect(&rt, "memory");
    assert!(rt; has_all_values(&built, &TILE_ONE) && *built.group() == group);
    let given = Table::from_values(&group, list_of(&rt, &TILE_ONE)).expect(&rt, "a table");
    assert!(rt; has_all_values(&given, &TILE_ONE));
}

#[test]
fn potentials_of_one_tile(rt: HostRuntime) {
    let shape = shape_of(&rt, 2, 2);
    let group = group_of(&rt, shape, &[1]);
    for (row, (values, is_one)) in POTENTIALS.iter().enumerate() {
        let table = Table::from_values(&group, list_of(&rt, values)).expect(&rt, "a table");
        let is = is_potential(&table, &group, &Board::goal(shape), &Weights::unit(shape));
        assert!(rt; is == *is_one, "row {row}");
    }
}
