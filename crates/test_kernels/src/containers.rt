//! Answers of the open list and of the known boards, compared with rows of a table and with an
//! ordered map.

use board::Move;
use closed_table::{Closed, Relaxed};
use open_buckets::{GREATEST_F, Open};
use std::alloc::Global;
use std::collections::BTreeMap;
use std::process::Abort;

// The inverse of the odd number by which keys are hashed: its multiples by small numbers have the
// hash 0, so they all hang in one chain.
const COLLIDING: u128 = 0x2896_9101_C228_2353_2F07_EB1A_988D_4A1D;

// The factor that repeats a draw in each 32 bits of a key.
const SPREAD: u128 = 0x1_0000_0001_0000_0001_0000_0001;

// An answer as a letter.
fn letter(answer: Relaxed) -> char {
    match answer {
        Relaxed::New => 'N',
        Relaxed::Lower => 'L',
        Relaxed::Kept => 'K',
    }
}

// Meets a board. None where memory is refused.
fn meet(alloc: Global, table: &mut Closed, key: u128, cost: u32, via: Move) -> Option<(char, u32)> {
    let Ok(()) = table.reserve(alloc, 1) else {
        return None;
    };
    let met = table.relax(key, cost, via);
    Some((letter(met.0), met.1))
}

// Closes a board, and answers its cost. None where it is unknown.
fn close(table: &mut Closed, key: u128) -> Option<u32> {
    let Some(known) = table.get(key) else {
        return None;
    };
    table.mark_expanded(key);
    Some(known.cost)
}

// The key at a place and its cost.
fn at(table: &Closed, place: usize) -> Option<(u128, u32)> {
    if place >= table.len() {
        return None;
    }
    let found = table.at(place);
    Some((found.0, found.1.cost))
}

#[test]
fn a_board_that_is_met_again(rt: HostRuntime) {
    let mut table = Closed::new(rt.alloc());
    // The cost, the last move and the answer. The board is closed after each.
    for (cost, via, answer) in [
        (5, Move::U, 'N'),
        (5, Move::L, 'K'),
        (4, Move::L, 'L'),
        (6, Move::U, 'K'),
    ] {
        assert!(rt; meet(rt.alloc(), &mut table, 7, cost, via) == Some((answer, 0)));
        let known = table.get(7).expect(&rt, "known");
        assert!(rt; known.expanded == (answer == 'K'));
        assert!(rt; close(&mut table, 7) == Some(cost.min(known.cost)));
    }
    let known = table.get(7).expect(&rt, "known");
    assert!(rt; known.cost == 4 && known.via == Move::L);
}

// Closes the board at a place. None where there is no such place.
fn close_at(table: &mut Closed, place: usize) -> Option<()> {
    if place >= table.len() {
        return None;
    }
    table.mark_expanded_at(place);
    Some(())
}

// Whether the board with a key is closed; None where it is unknown.
fn is_closed(table: &Closed, key: u128) -> Option<bool> {
    Some(table.get(key)?.expanded)
}

// Which of the boards with the keys 7, 9 and 8 are closed.
fn are_closed(table: &Closed) -> Option<[bool; 3]> {
    Some([
        is_closed(table, 7)?,
        is_closed(table, 9)?,
        is_closed(table, 8)?,
    ])
}

#[test]
fn boards_that_are_closed_at_their_places(rt: HostRuntime) {
    let mut table = Closed::new(rt.alloc());
    for (key, place) in [(7, 0), (9, 1), (8, 2)] {
        assert!(rt; meet(rt.alloc(), &mut table, key, 5, Move::U) == Some(('N', place)));
    }
    // The place, whether there is one, and which boards are closed after it.
    for (place, is_there, closed) in [
        (1, true, [false, true, false]),
        (3, false, [false, true, false]),
        (0, true, [true, true, false]),
        (0, true, [true, true, false]),
    ] {
        assert!(rt; close_at(&mut table, place).is_some() == is_there);
        assert!(rt; are_closed(&table) == Some(closed));
        assert!(rt; at(&table, 1) == Some((9, 5)));
    }
    // A board that is met at a lower cost is open again, at its place.
    assert!(rt; meet(rt.alloc(), &mut table, 9, 4, Move::D) == Some(('L', 1)));
    assert!(rt; is_closed(&table, 9) == Some(false));
}

// The next of a row of pseudo-random numbers (Marsaglia 2003).
fn draw(state: u64) -> u64 {
    let mut next = state;
    next ^= next.wrapping_shl(13);
    next ^= next >> 7;
    next ^ next.wrapping_shl(17)
}

// What the map answers. It takes the cost of a new key, and a lower cost of a known one.
fn meet_in_map(rt: &impl Abort, costs: &mut BTreeMap<u128, u32>, key: u128, cost: u32) -> char {
    let before = costs.get(&key).copied();
    if let Some(old) = before {
        if old <= cost {
            return 'K';
        }
    }
    let added: Result<_, _> = costs.insert(key, cost);
    added.expect(rt, "memory");
    if before.is_none() { 'N' } else { 'L' }
}

// Meets a board in the table and in the map, which have to answer alike. A new key comes behind the
// others.
fn meet_in_both(
    rt: &(impl Abort + AllocGlobal),
    table: &mut Closed,
    costs: &mut BTreeMap<u128, u32>,
    order: &mut Vec<u128>,
    key: u128,
    cost: u32,
) {
    let answer = meet_in_map(rt, costs, key, cost);
    if answer == 'N' {
        order.push(key).expect(rt, "memory");
    }
    let (met, place) = meet(rt.alloc(), table, key, cost, Move::R).expect(rt, "memory");
    assert!(rt; met == answer);
    assert!(rt; order.get(place as usize).copied() == Some(key));
}

// Compares the table with the map. The table keeps keys in the order in which they came.
fn compare_with_map(rt: &impl Abort, table: &Closed, costs: &BTreeMap<u128, u32>, order: &[u128]) {
    for (place, key) in order.iter().enumerate() {
        let cost = costs.get(key).copied().expect(rt, "a key of the map");
        assert!(rt; at(table, place) == Some((*key, cost)));
        assert!(rt; table.get(*key).expect(rt, "known").cost == cost);
    }
    assert!(rt; table.len() == order.len());
}

// Compares the table with the map after this many draws below a limit, times a factor. Answers how
// many keys came.
fn beside_a_map(rt: &(impl Abort + AllocGlobal), draws: u32, limit: u64, factor: u128) -> usize {
    let mut table = Closed::new(rt.alloc());
    let mut costs = BTreeMap::new(rt.alloc());
    let mut order = Vec::new(rt.alloc());
    let mut state = 88_172_645_463_325_252;
    for _ in 0..draws {
        state = draw(state);
        let key = ((state % limit.max(1)) as u128).wrapping_mul(factor);
        let cost = (state >> 40) as u32 % 1000;
        meet_in_both(rt, &mut table, &mut costs, &mut order, key, cost);
    }
    compare_with_map(rt, &table, &costs, order.as_slice());
    order.len()
}

#[test]
fn keys_beside_an_ordered_map(rt: HostRuntime) {
    // Draws, their limit and their factor, and how many keys came of them.
    for (draws, limit, factor, count) in [
        (400_000, 300_000, SPREAD, 220_817),
        (2_000, 300, COLLIDING, 298),
    ] {
        assert_eq!(rt; beside_a_map(&rt, draws, limit, factor), count);
    }
}

// Adds an entry, and answers the lowest f. None where `f` is too great, or memory is refused.
fn wait(alloc: Global, open: &mut Open<u128>, f: u32, key: u128, g: u32) -> Option<u32> {
    if f > GREATEST_F {
        return None;
    }
    let Ok(()) = open.reserve(alloc, f, 1) else {
        return None;
    };
    open.put(f, key, g);
    open.lowest()
}

// The entry that is taken next below a limit, found by looking alone.
fn next_below(open: &Open<u128>, below: u32) -> Option<(u128, u32)> {
    let f = open.lowest()?;
    if f >= below {
        return None;
    }
    open.last_at(f)
}

#[test]
fn the_lowest_is_taken(rt: HostRuntime) {
    let mut open = Open::new(rt.alloc());
    // The f, the key and the g of each entry, and the lowest f after it.
    for (f, key, g, lowest) in [
        (7, 1, 3, 7),
        (5, 2, 2, 5),
        (5, 2, 2, 5),
        (5, 4, 1, 5),
        (GREATEST_F, 3, 0, 5),
    ] {
        assert!(rt; wait(rt.alloc(), &mut open, f, key, g) == Some(lowest));
    }
    // The f, how many entries wait there, and the first and the last of them, which are exchanged.
    for (f, count, first, last) in [
        (5, 3, Some((2, 2)), Some((4, 1))),
        (6, 0, None, None),
        (GREATEST_F, 1, Some((3, 0)), Some((3, 0))),
    ] {
        assert_eq!(rt; open.count_at(f), count);
        assert!(rt;
            open.entry_at(f, 0) == first && open.last_at(f) == last,
            "at {f}"
        );
        open.bring_last(f, 0);
        assert!(rt;
            open.entry_at(f, 0) == last && open.last_at(f) == first,
            "at {f}"
        );
    }
    // The limit, the entry that is taken, and the lowest f after it.
    for (below, entry, lowest) in [
        (5, None, Some(5)),
        (6, Some((2, 2)), Some(5)),
        (6, Some((2, 2)), Some(5)),
        (6, Some((4, 1)), Some(7)),
        (6, None, Some(7)),
        (8, Some((1, 3)), Some(GREATEST_F)),
        (GREATEST_F, None, Some(GREATEST_F)),
        (u32::MAX, Some((3, 0)), None),
        (u32::MAX, None, None),
    ] {
        assert!(rt; next_below(&open, below) == entry, "below {below}");
        assert!(rt; open.take_lowest(below) == entry, "below {below}");
        assert!(rt; open.lowest() == lowest, "below {below}");
    }
}
