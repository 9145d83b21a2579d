//! What the moves from randomly drawn boards offer.

ghost use Rattle.std.specs.Prelude.{ℕ, ◌≡◌, ◌≤◌, length, All, IfSome};
ghost use Rattle.board.specs.declared.costs.TheConstants.{GREATEST_EXPANDED_COST};
ghost use Rattle.lower_bound.specs.Bounds.{sum_of};
ghost use Rattle.lower_bound.specs.Tables.{parts_of};

use crate::kernels::steps::next_state;
use board::{Board, GREATEST_EXPANDED_COST, Weights};
use lower_bound::Bound;
use owners::{ByBlank, Offer, Origin, Terms, no_offers, offers_of};
use pattern_index::Partition;
use search_keys::KeyedBoard;
use std::alloc::Global;
use std::thread::Threads;
use table_sets::build_bound;

// The numbers on the boards of some shape.
const NUMBERS: [u8; 25] = [
    0, 1, 2, 3, 4, 5, 6, 7, 8, 9, 10, 11, 12, 13, 14, 15, 16, 17, 18, 19, 20, 21, 22, 23, 24,
];

// How many numbers a word of 64 bits has.
const WORD: u128 = 18_446_744_073_709_551_616;

/// Draws this many boards of the groups' shape, and finds `rounds` times what their moves offer to
/// the one worker of a search at face cost that is guided by the groups' tables. Answers a number
/// into which all offers are mixed, or None where memory is refused or a sum is too large.
pub fn check_offers(
    rt: &(impl Threads + AllocGlobal + Sync),
    groups: &Partition,
    boards: u32,
    rounds: u32,
) -> Option<u64> {
    let shape = groups.shape();
    let goal = Board::goal(shape);
    let weights = Weights::face(shape);
    let Ok(copied) = groups.copy(rt.alloc()) else {
        return None;
    };
    let Ok(bound) = build_bound(rt, rt.alloc(), copied, &goal, &weights) else {
        return None;
    };
    let drawn = drawn_boards(rt.alloc(), &bound, boards)?;
    let terms = Terms {
        weights: &weights,
        bound: &bound,
        owners: &ByBlank,
        workers: 1,
    };
    Some(offer_all(&terms, &drawn, rounds))
}

// This many boards, in any order of their tiles, each with its sum; None where memory is refused,
// or a sum is above `GREATEST_EXPANDED_COST`.
fn drawn_boards(alloc: Global, bound: &Bound, boards: u32) -> Option<Vec<(KeyedBoard, u32)>>
    ensures { IfSome result (λ drawn. All (λ d. (d.0.grid ≡ bound.now.split.grid)
        × (d.1 ≡ sum_of (parts_of bound.now) d.0) × (d.1 ≤ GREATEST_EXPANDED_COST)) drawn.items) }
{
    let shape = bound.partition().shape();
    let mut drawn = Vec::new(alloc);
    let mut state = 4;
    'boards: for _ in 0..boards {
        let numbers = shuffled(shape.cells(), state);
        let Ok(board) = Board::from_tiles(shape, &numbers.0[..shape.cells()]) else {
            return None;
        };
        let sum = bound.of(&board);
        if sum > GREATEST_EXPANDED_COST {
            return None;
        }
        if drawn.push((KeyedBoard::new(&board), sum)).is_err() {
            return None;
        }
        state = numbers.1;
    }
    Some(drawn)
}

/// The first numbers in an order that a state makes, and the state after it (Fisher, Yates).
pub fn shuffled(count: usize, start: u64) -> ([u8; 25], u64)
    requires { count ≤ 25 }
    ensures { length result.0 ≡ 25 }
{
    let mut numbers = NUMBERS;
    let mut state = start;
    'places: for last in (1..count).rev() {
        state = next_state(state);
        let other = (state >> 33) as usize % (last + 1);
        let number = numbers[last];
        numbers[last] = numbers[other];
        numbers[other] = number;
    }
    (numbers, state)
}

// Finds `rounds` times what the moves from these boards offer, and mixes it into one number.
fn offer_all(terms: &Terms<'_, ByBlank>, drawn: &[(KeyedBoard, u32)], rounds: u32) -> u64
    requires { All (λ d. (d.0.grid ≡ terms.now.tables.split.grid)
        × (d.1 ≡ sum_of (parts_of terms.now.tables) d.0) × (d.1 ≤ GREATEST_EXPANDED_COST)) drawn.now }
{
    let mut check: u64 = 0;
    'rounds: for _ in 0..rounds {
        'boards: for (board, sum) in drawn {
            let origin = Origin {
                board,
                cost: 0,
                sum: *sum,
            };
            let mut offers = no_offers();
            offers_of(&origin, terms, None, &mut offers);
            'offers: for place in 0..offers.len() {
                let (_, offer) = offers.entry(place);
                check = check.wrapping_mul(31).wrapping_add(folded(&offer));
            }
        }
    }
    check
}

// An offer as one number.
fn folded(offer: &Offer) -> u64 {
    let key = (offer.key % WORD) as u64 ^ (offer.key / WORD) as u64;
    key ^ (offer.cost as u64) << 32 ^ offer.f as u64
}
