//! Plans, keys, classes and faults in tables, and each other call once.

use crate::fixtures::{board_of, shape_of};
use board::Move::{D, L, R, U};
use board::{Board, Move, Shape, TilesFault, Weights, follow, same_class};
use std::process::Abort;

// A plan between two lists of tiles, with its unit cost and its face cost.
struct WorkedPlan {
    sides: (u8, u8),
    from: &'static [u8],
    plan: &'static [Move],
    to: &'static [u8],
    costs: (u128, u128),
}

const PLANS: [WorkedPlan; 6] = [
    WorkedPlan {
        sides: (3, 3),
        from: &[1, 2, 0, 3, 4, 5, 6, 7, 8],
        plan: &[L, L],
        to: &[0, 1, 2, 3, 4, 5, 6, 7, 8],
        costs: (2, 3),
    },
    WorkedPlan {
        sides: (2, 2),
        from: &[3, 2, 1, 0],
        plan: &[U, L, D, R, U, L],
        to: &[0, 1, 2, 3],
        costs: (6, 12),
    },
    WorkedPlan {
        sides: (2, 2),
        from: &[3, 2, 1, 0],
        plan: &[L, U, R, D, L, U],
        to: &[0, 1, 2, 3],
        costs: (6, 12),
    },
    WorkedPlan {
        sides: (2, 2),
        from: &[2, 1, 0, 3],
        plan: &[U],
        to: &[0, 1, 2, 3],
        costs: (1, 2),
    },
    WorkedPlan {
        sides: (2, 2),
        from: &[1, 2, 0, 3],
        plan: &[R],
        to: &[1, 2, 3, 0],
        costs: (1, 3),
    },
    WorkedPlan {
        sides: (5, 5),
        from: &[
            1, 2, 3, 4, 9, 5, 6, 7, 8, 0, 10, 11, 12, 13, 14, 15, 16, 17, 18, 19, 20, 21, 22, 23,
            24,
        ],
        plan: &[U, L, L, L, L],
        to: &[
            0, 1, 2, 3, 4, 5, 6, 7, 8, 9, 10, 11, 12, 13, 14, 15, 16, 17, 18, 19, 20, 21, 22, 23,
            24,
        ],
        costs: (5, 19),
    },
];

// Whether a plan leads where it should, at both costs.
fn leads(rt: &impl Abort, row: &WorkedPlan) -> bool {
    let shape = shape_of(rt, row.sides.0, row.sides.1);
    let start = board_of(rt, shape, row.from);
    let end = board_of(rt, shape, row.to);
    let unit = follow(&start, row.plan, &Weights::unit(shape));
    let face = follow(&start, row.plan, &Weights::face(shape));
    unit == Ok((end, row.costs.0)) && face == Ok((end, row.costs.1))
}

#[test]
fn plans_lead(rt: HostRuntime) {
    for (row, plan) in PLANS.iter().enumerate() {
        assert!(rt; leads(&rt, plan), "row {row}");
    }
}

// What moves the blank would make of 1 0 over 2 3 at face cost, by direction.
#[test]
fn four_successors(rt: HostRuntime) {
    let shape = shape_of(&rt, 2, 2);
    let board = board_of(&rt, shape, &[1, 0, 2, 3]);
    let left = board_of(&rt, shape, &[0, 1, 2, 3]);
    let down = board_of(&rt, shape, &[1, 3, 2, 0]);
    let weights = Weights::face(shape);
    for (direction, moved) in [
        (U, None),
        (L, Some((left, 1))),
        (R, None),
        (D, Some((down, 3))),
    ] {
        assert!(rt; board.step(direction, &weights) == moved);
    }
}

// Boards of 2 by 2 with their keys.
#[test]
fn keys(rt: HostRuntime) {
    let shape = shape_of(&rt, 2, 2);
    for (tiles, key) in [([0, 1, 2, 3], 1091), ([1, 0, 2, 3], 32835)] {
        let board = board_of(&rt, shape, &tiles);
        assert!(rt; board.key() == key && Board::from_key(shape, key) == Some(board));
    }
}

// Boards, and whether they are in the class of Korf's goal. The last is the fifteen puzzle with two
// tiles exchanged, which no plan solves.
const CLASSES: [(u8, &[u8], bool); 3] = [
    (2, &[1, 0, 2, 3], true),
    (2, &[0, 2, 1, 3], false),
    (
        4,
        &[0, 1, 2, 3, 4, 5, 6, 7, 8, 9, 10, 11, 12, 13, 15, 14],
        false,
    ),
];

#[test]
fn classes(rt: HostRuntime) {
    for (side, tiles, is_same) in &CLASSES {
        let shape = shape_of(&rt, *side, *side);
        let board = board_of(&rt, shape, tiles);
        assert!(rt; same_class(&board, &Board::goal(shape)) == *is_same);
    }
}

// Numbers that are no board of 2 by 2, and the first fault of each: their count before any place,
// then the first offending place, counted from 0.
const FAULTS: [(&[u8], TilesFault); 4] = [
    (&[9, 9, 9], TilesFault::WrongCount),
    (&[0, 1, 2, 4], TilesFault::TileOutOfRange(3)),
    (&[0, 1, 1, 4], TilesFault::TileRepeated(2)),
    (&[4, 4, 0, 0], TilesFault::TileOutOfRange(0)),
];

#[test]
fn first_faults(rt: HostRuntime) {
    let shape = shape_of(&rt, 2, 2);
    for (numbers, fault) in &FAULTS {
        assert!(rt; Board::from_tiles(shape, numbers) == Err(*fault));
    }
}

// The calls that the tables above leave out.
#[test]
fn each_call_of_shapes_and_moves(rt: HostRuntime) {
    let shape = shape_of(&rt, 2, 3);
    assert!(rt; shape.rows() == 2);
    assert!(rt; shape.cols() == 3);
    assert!(rt; shape.cells() == 6);
    assert!(rt; shape.neighbour(1, D) == Some(4));
    assert!(rt; shape.neighbour(2, R) == None);
    assert!(rt; shape != shape_of(&rt, 3, 2));
    assert!(rt; U.undo() == D);
    assert!(rt; L.letter() == b'L');
    assert!(rt; Move::from_letter(b'R') == Some(R));
    assert!(rt; Move::from_letter(b'r') == None);
}

// The same for a board. The second move of the plan, at place 1, leaves the board.
#[test]
fn each_call_once(rt: HostRuntime) {
    let shape = shape_of(&rt, 2, 3);
    let board = board_of(&rt, shape, &[1, 2, 3, 4, 0, 5]);
    assert!(rt; board.tiles() == [1, 2, 3, 4, 0, 5].as_slice());
    assert!(rt; Board::goal(shape).tile(5) == 5);
    assert!(rt; board.tile(3) == 4);
    assert!(rt; board.blank() == 4);
    assert!(rt; board.shape() == shape);
    assert!(rt; follow(&board, &[L, L, U], &Weights::unit(shape)) == Err(1));
}

#[test]
fn each_call_of_weights(rt: HostRuntime) {
    let shape = Shape::new(2, 3).expect(&rt, "a shape");
    let unit = Weights::unit(shape);
    let face = Weights::face(shape);
    assert!(rt; unit.of(5) == 1);
    assert!(rt; face.of(5) == 5);
    assert!(rt; Weights::list(shape, &[1, 1, 1, 1, 1]) == Ok(unit));
    assert!(rt; Weights::list(shape, &[1, 2, 3, 4, 5]) == Ok(face));
    assert!(rt; face.listed() == [1, 2, 3, 4, 5].as_slice());
    assert!(rt; face.shape() == shape);
    assert!(rt; unit != face);
}
