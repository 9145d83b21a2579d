//! The book's calls by two workers, counted in whole numbers and by parts of ledgers; the owners of
//! some boards.

ghost use Rattle.std.specs.Prelude.{◌≡◌, ◌+◌, ◌^◌};

use crate::calls::{Call, Row, make};
use crate::fixtures::{board_of, shape_of};
use arrayvec::ArrayVec;
use board::Board;
use incumbent::Best;
use message_ledger::{Allowance, Capped, Counting, Credit, Grants, Packet, Plain, Purse, Shares};
use outcomes::Want;
use owners::{Abstract, ByBlank, Spread, Zobrist};
use quiescence::Book;
use search_keys::KeyedBoard;
use std::marker::Brand;
use std::process::Abort;
use std::sync::ledger::{Blank, Ledger};
use world_model::{HaltCause, Item, Stop};

const LIMIT: u64 = 300;

const WORKERS: usize = 2;

// A run that ends quietly, and calls after its end.
static QUIET: [Row; 20] = [
    (1, Call::Draw, "Q2", 1, 0),
    (0, Call::Draw, "ok", 65, 65),
    (0, Call::Send, "ok", 65, 64),
    (1, Call::Send, "ok", 65, 0),
    (1, Call::Send, "refused", 65, 0),
    (0, Call::Send, "ok", 65, 64),
    (0, Call::Grant, "256", 65, 64),
    (1, Call::HaltByLimit, "Q7", 65, 1),
    (1, Call::Grant, "44", 65, 1),
    (0, Call::Grant, "Q5", 65, 64),
    (0, Call::Announce(20), "ok", 65, 64),
    (1, Call::Announce(20), "Q4", 65, 1),
    (1, Call::Announce(19), "ok", 65, 1),
    (0, Call::Rest(Some(18)), "Q6", 65, 64),
    (0, Call::Rest(Some(19)), "waits", 1, 0),
    (0, Call::Rest(None), "Q2", 1, 0),
    (1, Call::Rest(None), "quiet", 0, 0),
    (0, Call::Draw, "Q1", 0, 0),
    (0, Call::Rest(None), "Q1", 0, 0),
    (1, Call::HaltByStart, "Q1", 0, 0),
];

// A run that is halted once all is granted.
static HALTED: [Row; 6] = [
    (0, Call::Grant, "256", 1, 1),
    (0, Call::Grant, "44", 1, 1),
    (1, Call::HaltByLimit, "ok", 1, 0),
    (0, Call::Grant, "Q1", 1, 1),
    (0, Call::Announce(2), "Q1", 1, 1),
    (0, Call::HaltByLimit, "Q1", 1, 1),
];

// Whether the call of a row is answered as it says.
fn is_answered<C: Counting>(
    book: &mut Book<C>,
    first: &mut Purse<C>,
    second: &mut Purse<C>,
    allowance: &mut Allowance<C>,
    row: &Row,
) -> bool
    requires first { C.counts book.old.credit first.old }
    requires second { C.counts book.old.credit second.old }
    requires granted { C.counts book.old.granted allowance.old.granted }
{
    let (worker, call, want, credit, amount) = *row;
    if worker == 0 {
        let got = make(book, 0, first, second, allowance, call);
        got == want && book.credit() == credit && first.amount() == amount
    } else {
        let got = make(book, 1, second, first, allowance, call);
        got == want && book.credit() == credit && second.amount() == amount
    }
}

// The place of the first row that is answered otherwise, counted in whole numbers.
fn plain_difference(rows: &[Row]) -> Option<usize> {
    let (mut credit, mut first) = Credit::plain();
    let mut second = credit.empty_purse();
    let mut book = Book::new(credit, Grants::plain(), LIMIT, WORKERS);
    for (place, row) in rows.iter().enumerate() {
        if first.amount() > book.credit() || second.amount() > book.credit() {
            return Some(place);
        }
        let mut allowance = Allowance::plain();
        if !is_answered(&mut book, &mut first, &mut second, &mut allowance, row) {
            return Some(place);
        }
    }
    None
}

// The place of the first row that is answered otherwise, where parts of ledgers count.
fn first_wrong<L: Ledger + Send + Sync, M: Capped + Send + Sync>(
    book: &mut Book<Shares<L, M>>,
    first: &mut Purse<Shares<L, M>>,
    second: &mut Purse<Shares<L, M>>,
    allowance: &mut Allowance<Shares<L, M>>,
    rows: &[Row],
) -> Option<usize> {
    for (place, row) in rows.iter().enumerate() {
        if !is_answered(book, first, second, allowance, row) {
            return Some(place);
        }
    }
    None
}

// The same from the start of a run.
fn shared_difference<L: Ledger + Send + Sync, M: Capped + Send + Sync>(
    credit: Blank,
    grants: Blank,
    rows: &[Row],
) -> Option<usize>
    requires credit_name { credit.name ≡ L.name }
    requires credit_parts { credit.parts ≡ L.parts }
    requires credit_all { credit.parts + 1 ≡ 2 ^ 64 }
    requires grants_name { grants.name ≡ M.name }
    requires grants_parts { grants.parts ≡ M.parts }
    requires workers { M.parts ≡ WORKERS }
    requires limit { M.limit ≡ LIMIT }
{
    let (mut credit, mut first) = Credit::<Shares<L, M>>::shared(credit);
    let mut second = credit.empty_purse();
    let (grants, mut tickets) = Grants::<Shares<L, M>>::shared(grants);
    let mut allowance = tickets.take::<L>();
    let mut book = Book::new(credit, grants, LIMIT, WORKERS);
    first_wrong(&mut book, &mut first, &mut second, &mut allowance, rows)
}

// The credit, a purse of it, what is granted and what is spent, after a call of each kind.
fn amounts() -> (u64, u64, u64, u64) {
    let (mut credit, mut purse) = Credit::plain();
    credit.draw(&mut purse, 4);
    let part = purse.split_one();
    purse.join(part);
    credit.audit(&mut purse);
    let mut items = ArrayVec::new();
    items.push(Item::default());
    let mut packet = Packet::seal(items, &mut purse);
    credit.audit_packet(&mut packet);
    packet.open(&mut purse);
    let mut other = purse.split_one();
    credit.give_back(&mut other);
    let mut grants = Grants::plain();
    let mut allowance = Allowance::plain();
    allowance.grant(&mut grants, 7);
    allowance.spend();
    (
        credit.sum(),
        purse.amount(),
        grants.total(),
        allowance.spent(),
    )
}

// Whether each announced cost is lower, the best cost, and its limit.
fn best_costs(costs: [u32; 3]) -> ([bool; 3], Option<u32>, u32) {
    let mut best = Best::new();
    let lower = costs.map(|cost| best.announce(cost).is_ok());
    (lower, best.cost(), best.limit())
}

// What stops a run for which a list of steps says that memory ran out, and its best cost.
fn stop_by_list() -> (Option<Stop>, Option<u32>) {
    let credit = Credit::plain().0;
    let mut book = Book::new(credit, Grants::<Plain>::plain(), LIMIT, WORKERS);
    if book.announce(5).is_err() || book.halt(HaltCause::Memory(Want::Stated)).is_err() {
        return (None, None);
    }
    (book.stop(), book.best().cost())
}

#[test]
fn calls_of_two_workers(rt: HostRuntime) {
    for rows in [&QUIET[..], &HALTED[..]] {
        assert!(rt; plain_difference(rows).is_none());
        let credit = Blank::new(u64::MAX);
        let grants = Blank::new(2);
        assert!(rt; shared_difference::<Brand, Brand>(credit, grants, rows).is_none());
    }
}

#[test]
fn amounts_and_best_costs(rt: HostRuntime) {
    assert_eq!(rt; amounts(), (4, 4, 7, 1));
    for (costs, lower, best, limit) in [
        ([9, 9, 8], [true, false, true], Some(8), 8),
        (
            [2_000_000, 3_000_000, 2_000_000],
            [true, false, false],
            Some(2_000_000),
            1_048_321,
        ),
    ] {
        assert!(rt; best_costs(costs) == (lower, best, limit));
    }
    assert!(rt; stop_by_list() == (Some(Stop::Memory(Want::Stated)), Some(5)));
}

// The sides and the numbers of a board, and its owners among 2, 3, 7 and 16 workers: by its hash,
// by its blank, and by the hash of every fourth tile. The hashes were computed by another program,
// from the words of SplitMix64.
type OwnerRow = (u8, u8, &'static [u8], [usize; 4], [usize; 4], [usize; 4]);

static OWNERS: [OwnerRow; 4] = [
    (
        2,
        2,
        &[3, 2, 1, 0],
        [0, 2, 1, 6],
        [1, 0, 3, 3],
        [1, 1, 2, 15],
    ),
    (
        2,
        3,
        &[2, 3, 5, 0, 1, 4],
        [1, 2, 1, 9],
        [1, 0, 3, 3],
        [1, 2, 6, 11],
    ),
    (
        4,
        4,
        &[14, 13, 15, 7, 11, 12, 9, 5, 6, 0, 2, 1, 4, 8, 10, 3],
        [0, 0, 6, 10],
        [1, 0, 2, 9],
        [1, 1, 6, 5],
    ),
    (
        5,
        5,
        &[
            14, 5, 9, 2, 18, 8, 23, 19, 12, 17, 15, 0, 10, 20, 4, 6, 11, 21, 1, 7, 24, 3, 16, 22,
            13,
        ],
        [0, 2, 2, 10],
        [1, 2, 4, 11],
        [0, 1, 2, 0],
    ),
];

// The owners of a board among 2, 3, 7 and 16 workers.
fn owners_of<S: Spread>(spread: &S, board: &Board) -> [usize; 4] {
    [
        spread.owner(board, 2),
        spread.owner(board, 3),
        spread.owner(board, 7),
        spread.owner(board, 16),
    ]
}

// The same by the board's search key.
fn owners_by_key<S: Spread>(spread: &S, board: &Board) -> [usize; 4] {
    let keyed = KeyedBoard::new(board);
    [
        spread.owner_by_key(&keyed, 2),
        spread.owner_by_key(&keyed, 3),
        spread.owner_by_key(&keyed, 7),
        spread.owner_by_key(&keyed, 16),
    ]
}

// Compares the owners of a board, by the board itself and by its search key, with these.
fn expect_owners<S: Spread>(rt: &impl Abort, spread: &S, board: &Board, owners: &[usize; 4]) {
    assert_eq!(rt; owners_of(spread, board), *owners);
    assert_eq!(rt; owners_by_key(spread, board), *owners);
}

#[test]
fn owners_of_boards(rt: HostRuntime) {
    for (rows, cols, tiles, by_hash, by_blank, by_tiles) in &OWNERS {
        let shape = shape_of(&rt, *rows, *cols);
        let board = board_of(&rt, shape, tiles);
        let zobrist = Zobrist::new(shape);
        expect_owners(&rt, &zobrist, &board, by_hash);
        expect_owners(&rt, &ByBlank, &board, by_blank);
        expect_owners(&rt, &Abstract::new(shape), &board, by_tiles);
        // Owners by hash need the hash of the board before. Owners by the blank need none.
        let keyed = KeyedBoard::new(&board);
        assert!(rt; zobrist.hash(&keyed).is_some());
        assert!(rt; Abstract::new(shape).hash(&keyed).is_some());
        assert!(rt; ByBlank.hash(&keyed).is_none());
    }
}
