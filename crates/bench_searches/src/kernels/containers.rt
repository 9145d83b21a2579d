//! A whole search (A*, Hart, Nilsson, Raphael 1968) on 4 by 4 by the distances of the tiles, over
//! the open list and the known boards, which stops at a number of known boards. `bench/containers`
//! times it beside the same search in plain Rust.

use board::Move;
use closed_table::{Closed, Relaxed};
use open_buckets::Open;
use std::alloc::Global;

/// Where a search has stopped: after how many expansions, at how many known boards, and at which
/// cost plus sum.
#[derive(Clone, Copy)]
pub(crate) struct Stop {
    pub(crate) expanded: u64,
    pub(crate) known: usize,
    pub(crate) f: u32,
}

// What a search has: the known boards, those that wait by their places, and the distances.
#[derive(Drop)]
struct Lists {
    closed: Closed,
    open: Open<u32>,
    distances: [u32; 256],
}

// How far two numbers below 4 are apart.
fn gap(x: usize, y: usize) -> u32 {
    let near = (x & 3) as u32;
    let far = (y & 3) as u32;
    near.abs_diff(far)
}

// How far each tile is from its cell, at 16 times the tile plus the cell.
fn distances() -> [u32; 256] {
    let mut distances = [0; 256];
    for place in 16..256usize {
        let tile = place / 16;
        let cell = place & 15;
        distances[place] = gap(tile, cell).wrapping_add(gap(tile / 4, cell / 4));
    }
    distances
}

// Where the move of this number takes the blank, the move, and whether the board has that cell.
fn target(number: u32, blank: usize) -> (usize, Move, bool) {
    match number {
        0 => (blank.wrapping_sub(4), Move::U, blank >= 4),
        1 => (blank.wrapping_sub(1), Move::L, blank & 3 != 0),
        2 => (blank.wrapping_add(1), Move::R, blank & 3 != 3),
        _ => (blank.wrapping_add(4), Move::D, blank < 12),
    }
}

// The board after many moves from the goal: its key, and the distances of its tiles.
fn scrambled(distances: &[u32; 256]) -> (u128, u32) {
    let mut tiles = [0u8, 1, 2, 3, 4, 5, 6, 7, 8, 9, 10, 11, 12, 13, 14, 15];
    let mut blank = 0usize;
    let mut state = 88_172_645_463_325_252u64;
    for _ in 0..2000u32 {
        state ^= state.wrapping_shl(13);
        state ^= state >> 7;
        state ^= state.wrapping_shl(17);
        let (to, _, is_move) = target((state & 3) as u32, blank);
        if is_move {
            tiles[blank & 15] = tiles[to & 15];
            tiles[to & 15] = 0;
            blank = to & 15;
        }
    }
    let mut key = 0u128;
    let mut sum = 0u32;
    for cell in 0..16usize {
        let tile = tiles[cell & 15];
        key = key.wrapping_mul(32) ^ tile as u128;
        sum = sum.wrapping_add(distances[((tile & 15) as usize * 16 + cell) & 255]);
    }
    (key, sum)
}

// A board is met; None where there is no memory for it.
fn meet(alloc: Global, lists: &mut Lists, key: u128, g: u32, f: u32, via: Move) -> Option<()> {
    let (answer, place) = relax(alloc, &mut lists.closed, key, g, via)?;
    match answer {
        Relaxed::Kept => Some(()),
        _ => put(alloc, &mut lists.open, place, g, f),
    }
}

// What the known boards answer to a board, and its place; None where there is no memory for it.
fn relax(
    alloc: Global,
    closed: &mut Closed,
    key: u128,
    g: u32,
    via: Move,
) -> Option<(Relaxed, u32)> {
    let Ok(()) = closed.reserve(alloc, 1) else {
        return None;
    };
    Some(closed.relax(key, g, via))
}

// The board at a place waits; None where there is no memory for it.
fn put(alloc: Global, open: &mut Open<u32>, place: u32, g: u32, f: u32) -> Option<()> {
    let f = f & 255;
    let Ok(()) = open.reserve(alloc, f, 1) else {
        return None;
    };
    open.put(f, place, g);
    Some(())
}

// The key after a tile went from a cell to another.
fn moved(key: u128, tile: usize, from: usize, to: usize) -> u128 {
    let low = (tile & 31) as u128;
    let a = (15 - (from & 15)) as u32 * 5;
    let b = (15 - (to & 15)) as u32 * 5;
    key ^ (low << a) ^ (low << b)
}

// The successors of a board: how many there are, and of each the key, the cost plus sum, and the
// move.
#[derive(Drop)]
struct Successors {
    count: usize,
    keys: [u128; 4],
    sums: [u32; 4],
    moves: [Move; 4],
}

// Expands a board: its successors are made, read ahead, and met.
fn expand(alloc: Global, lists: &mut Lists, key: u128, g: u32, f: u32) -> Option<()> {
    let mut successors = Successors {
        count: 0,
        keys: [0; 4],
        sums: [0; 4],
        moves: [Move::U; 4],
    };
    make_successors(&lists.distances, key, f, &mut successors);
    meet_all(alloc, lists, &successors, g.wrapping_add(1))
}

// Makes the successors of a board.
fn make_successors(distances: &[u32; 256], key: u128, f: u32, successors: &mut Successors) {
    let mut tiles = [0u8; 16];
    let blank = decode(key, &mut tiles);
    for number in 0..4u32 {
        let (to, via, is_move) = target(number, blank);
        if is_move {
            let tile = (tiles[to & 15] & 15) as usize;
            let before = distances[(tile * 16 + (to & 15)) & 255];
            let after = distances[(tile * 16 + (blank & 15)) & 255];
            let place = successors.count & 3;
            successors.keys[place] = moved(key, tile, to, blank);
            successors.sums[place] = f.wrapping_add(1).wrapping_add(after).wrapping_sub(before);
            successors.moves[place] = via;
            successors.count = successors.count.wrapping_add(1);
        }
    }
}

// Writes the tiles of a board by their cells, and answers the blank's cell.
fn decode(key: u128, tiles: &mut [u8; 16]) -> usize {
    let mut blank = 0usize;
    let mut rest = key;
    for back in 0..16u32 {
        let cell = (15 - back) as usize;
        let tile = (rest & 31) as u8;
        tiles[cell & 15] = tile;
        if tile == 0 {
            blank = cell;
        }
        rest >>= 5;
    }
    blank
}

// The successors are read ahead, and met at a cost.
fn meet_all(alloc: Global, lists: &mut Lists, successors: &Successors, g: u32) -> Option<()> {
    let count = successors.count;
    if count > 4 {
        return None;
    }
    for n in 0..count {
        lists.closed.read_ahead(successors.keys[n & 3]);
    }
    for n in 0..count {
        let key = successors.keys[n & 3];
        let f = successors.sums[n & 3];
        meet(alloc, lists, key, g, f, successors.moves[n & 3])?;
    }
    Some(())
}

// The key of a board that is to be expanded: one that waits at the cost at which it is known.
fn key_to_expand(closed: &mut Closed, place: u32, g: u32) -> Option<u128> {
    if place as usize >= closed.len() {
        return None;
    }
    let (key, known) = closed.at(place as usize);
    if known.cost != g || known.expanded {
        return None;
    }
    closed.mark_expanded_at(place as usize);
    Some(key)
}

/// Searches until this many boards are known; None where there is no memory for it.
pub(crate) fn search(alloc: Global, count: usize) -> Option<Stop> {
    let distances = distances();
    let (start, sum) = scrambled(&distances);
    let mut lists = Lists {
        closed: Closed::new(alloc),
        open: Open::new(alloc),
        distances,
    };
    search_from(alloc, &mut lists, start, sum, count)
}

// Searches from a board with this sum until this many boards are known; None where there is no
// memory for it.
fn search_from(
    alloc: Global,
    lists: &mut Lists,
    start: u128,
    sum: u32,
    count: usize,
) -> Option<Stop> {
    meet(alloc, lists, start, 0, sum, Move::U)?;
    let mut expanded = 0u64;
    let mut f = sum & 255;
    for _ in 0..u64::MAX {
        if lists.closed.len() >= count || f >= 200 {
            break;
        }
        let Some((place, g)) = lists.open.take_lowest(f.wrapping_add(1)) else {
            f = f.wrapping_add(1);
            continue;
        };
        if let Some(key) = key_to_expand(&mut lists.closed, place, g) {
            expanded = expanded.wrapping_add(1);
            expand(alloc, lists, key, g, f)?;
        }
    }
    Some(Stop {
        expanded,
        known: lists.closed.len(),
        f,
    })
}
