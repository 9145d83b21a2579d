//! Sizes and ranks of groups, moves of views, and partitions.

use crate::fixtures::{board_of, group_of, shape_of};
use board::Move::{L, U};
use board::{Shape, Weights};
use pattern_index::{Group, MAX_SIZE, Partition};
use std::process::Abort;

// All tiles of a board of 5 by 5.
const TILES: [u8; 24] = [
    1, 2, 3, 4, 5, 6, 7, 8, 9, 10, 11, 12, 13, 14, 15, 16, 17, 18, 19, 20, 21, 22, 23, 24,
];

// The group of the first tiles of a shape.
fn first_tiles(rt: &impl Abort, rows: u8, cols: u8, count: usize) -> Group {
    let tiles = TILES.get(..count).expect(rt, "this many tiles");
    group_of(rt, shape_of(rt, rows, cols), tiles)
}

#[test]
fn sizes(rt: HostRuntime) {
    for (rows, cols, count, size) in [
        (3, 3, 4, 15_120),
        (2, 5, 4, 30_240),
        (4, 4, 5, 5_765_760),
        (4, 4, 6, 57_657_600),
        (4, 5, 4, 1_860_480),
        (5, 5, 4, 6_375_600),
        (2, 5, 9, 3_628_800),
    ] {
        assert!(rt; first_tiles(&rt, rows, cols, count).size() == size);
    }
    assert!(rt; MAX_SIZE == 67_108_864);
}

// A board, the rank of what a group sees of it, and the size of the group.
struct WorkedRank {
    side: u8,
    board: &'static [u8],
    tiles: &'static [u8],
    rank: usize,
    size: usize,
}

const RANKS: [WorkedRank; 5] = [
    // The blank and tile 1 on the cells 0 and 1.
    WorkedRank {
        side: 2,
        board: &[0, 1, 2, 3],
        tiles: &[1],
        rank: 0,
        size: 12,
    },
    WorkedRank {
        side: 2,
        board: &[2, 3, 1, 0],
        tiles: &[1],
        rank: 11,
        size: 12,
    },
    WorkedRank {
        side: 2,
        board: &[1, 0, 3, 2],
        tiles: &[1, 2],
        rank: 7,
        size: 24,
    },
    WorkedRank {
        side: 3,
        board: &[0, 2, 3, 4, 5, 6, 7, 8, 1],
        tiles: &[1],
        rank: 7,
        size: 72,
    },
    WorkedRank {
        side: 3,
        board: &[2, 3, 4, 5, 6, 7, 8, 1, 0],
        tiles: &[1],
        rank: 71,
        size: 72,
    },
];

// Whether the view of a board has its rank, and the rank that view.
fn has_rank(rt: &impl Abort, row: &WorkedRank) -> bool {
    let shape = shape_of(rt, row.side, row.side);
    let board = board_of(rt, shape, row.board);
    let group = group_of(rt, shape, row.tiles);
    if group.size() != row.size || row.rank >= row.size {
        return false;
    }
    let view = group.view(&board);
    group.rank(&view) == row.rank && group.unrank(row.rank) == view
}

#[test]
fn stated_ranks(rt: HostRuntime) {
    for (row, rank) in RANKS.iter().enumerate() {
        assert!(rt; has_rank(&rt, rank), "row {row}");
    }
}

// The blank goes from cell 2 of a board of 3 by 3 to cell 1, from which tile 2 comes. The move
// counts in a group of that tile alone, and a move up leaves the board.
#[test]
fn view_moves(rt: HostRuntime) {
    let shape = shape_of(&rt, 3, 3);
    let weights = Weights::face(shape);
    let board = board_of(&rt, shape, &[1, 2, 0, 3, 4, 5, 6, 7, 8]);
    let moved = board_of(&rt, shape, &[1, 0, 2, 3, 4, 5, 6, 7, 8]);
    for (tile, direction, cost) in [(2, L, Some(2)), (8, L, Some(0)), (2, U, None)] {
        let group = group_of(&rt, shape, &[tile]);
        let after = cost.map(|cost| (group.view(&moved), cost));
        assert!(rt; group.step(&group.view(&board), direction, &weights) == after);
    }
}

// Whether a partition has this shape and these groups.
fn has_groups(partition: &Partition, shape: Shape, groups: &[Group]) -> bool {
    partition.shape() == shape && partition.groups() == groups
}

#[test]
fn partitions(rt: HostRuntime) {
    let shape = shape_of(&rt, 3, 3);
    let group = group_of(&rt, shape, &[8, 3, 5]);
    assert!(rt; group.shape() == shape && group.tiles() == [3, 5, 8].as_slice());
    let groups = [group, group_of(&rt, shape, &[1, 2])];
    let listed = Vec::from_slice(rt.alloc(), &groups).expect(&rt, "memory");
    let partition = Partition::new(shape, listed).expect(&rt, "a partition");
    assert!(rt; has_groups(&partition, shape, &groups));
    let copy = partition.copy(rt.alloc()).expect(&rt, "memory");
    assert!(rt; has_groups(&copy, shape, &groups));
}
