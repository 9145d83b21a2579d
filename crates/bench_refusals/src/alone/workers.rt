//! Steps of a worker that take memory. Where one is refused, nothing may have changed; made once
//! more it has to do the same as where nothing is refused.

ghost use Rattle.std.specs.Prelude.{◌≡◌, IfSome};
ghost use Rattle.test_worlds.specs.Jobs.{IsJobFit, IsGuidedToGoal};

use super::Answer;
use arrayvec::ArrayVec;
use board::{Board, Move, Shape, Weights};
use memory::PAGE_LENGTH;
use message_ledger::{Allowance, Credit, Grants, Packet, Plain, Purse};
use owners::ByBlank;
use quiescence::Book;
use search_keys::KeyedBoard;
use search_lists::SearchLists;
use std::alloc::Global;
use test_worlds::{Job, bound_of, expand, hire, meet, settle};
use worker_core::{LaneOut, Queue, Worker};
use world_model::{Item, Refusal};

// The worker that is tried, of two, to which boards are given by the blank's cell.
const ME: usize = 1;

// A board of 4 by 4. At face cost its moves U, L, R and D cost 5, 4, 6 and 9. The boards behind U
// and D are those of the worker that is tried.
const START: [u8; 16] = [1, 5, 2, 3, 4, 0, 6, 7, 8, 9, 10, 11, 12, 13, 14, 15];

const BEHIND_UP: [u8; 16] = [1, 0, 2, 3, 4, 5, 6, 7, 8, 9, 10, 11, 12, 13, 14, 15];

const BEHIND_DOWN: [u8; 16] = [1, 5, 2, 3, 4, 9, 6, 7, 8, 0, 10, 11, 12, 13, 14, 15];

// What a worker has. Each list is given as a number made of all that is in it.
#[derive(Clone, Copy, PartialEq, Eq)]
struct Standing {
    count: usize,
    known: u128,
    held: u128,
    unsent: [u128; 2],
    purse: u64,
    allowance: u32,
    expansions: u64,
    best: Option<u32>,
}

fn standing_of(worker: &Worker<Plain>) -> Standing {
    let mut unsent = [0; 2];
    'workers: for to in 0..worker.workers().min(2) {
        unsent[to] = sum_of_items(worker.unsent(to));
    }
    Standing {
        count: worker.lists().len(),
        known: sum_of_boards(worker.lists()),
        held: sum_of_items(worker.held()),
        unsent,
        purse: worker.purse(),
        allowance: worker.allowance(),
        expansions: worker.expansions(),
        best: worker.best().cost(),
    }
}

// A number for a sum so far, a board and what is said of it.
fn sum_with(sum: u128, key: u128, cost: u32, via: Move) -> u128 {
    sum.wrapping_mul(0x1_0000_0000_0000_01B3)
        .wrapping_add(key)
        .wrapping_mul(0x1_0000_0000_0000_01B3)
        .wrapping_add(u128::from(cost) * 256 + u128::from(via.letter()))
}

fn sum_of_boards(lists: &SearchLists) -> u128 {
    let mut sum = 0;
    'boards: for place in 0..lists.len() {
        let (key, known) = lists.at(place);
        sum = sum_with(sum, key, known.cost, known.via);
        if known.expanded {
            sum = sum.wrapping_add(128);
        }
    }
    sum
}

fn sum_of_items(items: &[Item]) -> u128 {
    let mut sum = 0;
    'items: for item in items {
        sum = sum_with(sum, item.key(), item.cost, item.via);
    }
    sum
}

// The search from START at face cost, led by no table. It takes no memory.
fn job(alloc: Global) -> Option<Job>
    ensures { IfSome result (λ job. IsJobFit job) }
{
    let shape = Shape::new(4, 4).unwrap();
    let goal = Board::goal(shape);
    let weights = Weights::face(shape);
    let bound = bound_of(alloc, &goal, &weights, &[])?;
    Some(Job {
        goal,
        weights,
        bound,
    })
}

// An item of a board with the goal's sides.
fn item(job: &Job, tiles: &[u8], cost: u32) -> Option<Item> {
    let Ok(board) = Board::from_tiles(job.goal.shape(), tiles) else {
        return None;
    };
    Some(Item {
        board: KeyedBoard::new(&board),
        cost,
        via: Move::U,
    })
}

// Whether a worker knows a board by this cost and this move, and expanded or not as given.
fn knows(worker: &Worker<Plain>, job: &Job, row: (&[u8], u32, Move, bool)) -> bool {
    let (tiles, cost, via, expanded) = row;
    let Ok(board) = Board::from_tiles(job.goal.shape(), tiles) else {
        return false;
    };
    match worker.lists().get(KeyedBoard::new(&board).key()) {
        Some(known) => known.cost == cost && known.via == via && known.expanded == expanded,
        None => false,
    }
}

// Meets a board, once more where memory is refused.
fn meet_it(alloc: Global, job: &Job, worker: &mut Worker<Plain>, item: &Item) -> Answer
    requires job { IsJobFit job.now }
    requires led { IsGuidedToGoal job.now worker.old.lists }
    ensures led { IsGuidedToGoal job.now worker.new.lists }
{
    let before = standing_of(worker);
    match meet(alloc, job, worker, item) {
        Some(Ok(())) => return Answer::Whole,
        Some(Err(_)) => {}
        None => return Answer::Wrong("not met"),
    }
    if standing_of(worker) != before {
        return Answer::Wrong("a refused meeting changed something");
    }
    match meet(alloc, job, worker, item) {
        Some(Ok(())) => Answer::Refused,
        _ => Answer::Wrong("not met at last"),
    }
}

// Settles an item, once more where memory is refused.
fn settle_it(alloc: Global, job: &Job, worker: &mut Worker<Plain>) -> Answer
    requires job { IsJobFit job.now }
    requires led { IsGuidedToGoal job.now worker.old.lists }
    ensures led { IsGuidedToGoal job.now worker.new.lists }
{
    let before = standing_of(worker);
    match settle(alloc, job, &ByBlank, ME, worker) {
        Some(Ok(())) => return Answer::Whole,
        Some(Err(Refusal::Memory(_))) => {}
        _ => return Answer::Wrong("not settled"),
    }
    if standing_of(worker) != before {
        return Answer::Wrong("a refused settling changed something");
    }
    match settle(alloc, job, &ByBlank, ME, worker) {
        Some(Ok(())) => Answer::Refused,
        _ => Answer::Wrong("not settled at last"),
    }
}

// Expands a board, once more where memory is refused.
fn expand_it(alloc: Global, job: &Job, worker: &mut Worker<Plain>) -> Answer
    requires job { IsJobFit job.now }
    requires led { IsGuidedToGoal job.now worker.old.lists }
    ensures led { IsGuidedToGoal job.now worker.new.lists }
{
    let before = standing_of(worker);
    match expand(alloc, job, &ByBlank, ME, worker) {
        Some(Ok(())) => return Answer::Whole,
        Some(Err(Refusal::Memory(_))) => {}
        _ => return Answer::Wrong("not expanded"),
    }
    if standing_of(worker) != before {
        return Answer::Wrong("a refused expansion changed something");
    }
    match expand(alloc, job, &ByBlank, ME, worker) {
        Some(Ok(())) => Answer::Refused,
        _ => Answer::Wrong("not expanded at last"),
    }
}

// What two calls in a row answer together.
fn both(first: Answer, second: Answer) -> Answer {
    match (first, second) {
        (Answer::Wrong(why), _) => Answer::Wrong(why),
        (_, Answer::Wrong(why)) => Answer::Wrong(why),
        (Answer::Whole, Answer::Whole) => Answer::Whole,
        _ => Answer::Refused,
    }
}

// The answer where it is so at last, or else that it is wrong for this reason.
fn if_so(answer: Answer, is_so: bool, why: &'static str) -> Answer {
    if is_so { answer } else { Answer::Wrong(why) }
}

// What a worker that knows no board does.
#[derive(Clone, Copy)]
enum Trial {
    Meet,
    Settle,
    Expand,
    ExpandMore,
}

/// Makes the call of this name, or answers None where it is none of these.
pub fn call(alloc: Global, name: &str) -> Option<Answer> {
    match name {
        "meet" => Some(make(alloc, Trial::Meet)),
        "settle" => Some(make(alloc, Trial::Settle)),
        "expand" => Some(make(alloc, Trial::Expand)),
        "expand-more" => Some(make(alloc, Trial::ExpandMore)),
        _ => None,
    }
}

// Makes a trial.
fn make(alloc: Global, trial: Trial) -> Answer {
    match job(alloc) {
        Some(job) => make_for(alloc, &job, trial),
        None => Answer::Wrong("no job"),
    }
}

// Makes a trial by a worker that is hired for it.
fn make_for(alloc: Global, job: &Job, trial: Trial) -> Answer
    requires { IsJobFit job.now }
{
    let (credit, purse) = Credit::plain();
    match hire(alloc, job, purse, Allowance::plain()) {
        Some(mut worker) => make_by(alloc, job, &mut worker, credit, trial),
        None => Answer::Refused,
    }
}

// Makes a trial by this worker, which has all of the credit.
fn make_by(
    alloc: Global,
    job: &Job,
    worker: &mut Worker<Plain>,
    credit: Credit<Plain>,
    trial: Trial,
) -> Answer
    requires job { IsJobFit job.now }
    requires led { IsGuidedToGoal job.now worker.old.lists }
    requires credit { credit ≡ 1 }
{
    match trial {
        Trial::Meet => meet_board(alloc, job, worker),
        Trial::Settle => settle_items(alloc, job, worker, credit),
        Trial::Expand => expand_board(alloc, job, worker, credit),
        Trial::ExpandMore => expand_in_full_table(alloc, job, worker, credit),
    }
}

// Meets a board, at a cost for which the list of buckets grows.
fn meet_board(alloc: Global, job: &Job, worker: &mut Worker<Plain>) -> Answer
    requires job { IsJobFit job.now }
    requires led { IsGuidedToGoal job.now worker.old.lists }
{
    let answer = meet_start(alloc, job, worker, 20);
    let is_known = knows(worker, job, (&START, 20, Move::U, false));
    if_so(answer, is_known && worker.lists().len() == 1, "not known")
}

// Meets the start at a cost.
fn meet_start(alloc: Global, job: &Job, worker: &mut Worker<Plain>, cost: u32) -> Answer
    requires job { IsJobFit job.now }
    requires led { IsGuidedToGoal job.now worker.old.lists }
    ensures led { IsGuidedToGoal job.now worker.new.lists }
{
    match item(job, &START, cost) {
        Some(start) => meet_it(alloc, job, worker, &start),
        None => Answer::Wrong("no board"),
    }
}

// Two items that come in by a lane; None where there is no memory for the lane.
fn hold_two(
    alloc: Global,
    job: &Job,
    worker: &mut Worker<Plain>,
    purse: &mut Purse<Plain>,
) -> Option<()>
    ensures { worker.new.lists ≡ worker.old.lists }
{
    let first = item(job, &BEHIND_UP, 30)?;
    let second = item(job, &START, 20)?;
    let mut lane = lane_with(alloc, first, second, purse)?;
    worker.deliver(&mut lane).ok()
}

// A lane with a packet of these two items, or None where it finds no memory.
fn lane_with(
    alloc: Global,
    first: Item,
    second: Item,
    purse: &mut Purse<Plain>,
) -> Option<Queue<Plain>> {
    if purse.amount() == 0 {
        return None;
    }
    let mut lane = Queue::new(alloc).ok()?;
    let mut items = ArrayVec::new();
    items.push(first);
    items.push(second);
    match lane.push(Packet::seal(items, purse)) {
        Ok(()) => Some(lane),
        Err(_) => None,
    }
}

// Settles two items, one after the other. The share of their packet is drawn from the credit.
fn settle_items(
    alloc: Global,
    job: &Job,
    worker: &mut Worker<Plain>,
    mut credit: Credit<Plain>,
) -> Answer
    requires job { IsJobFit job.now }
    requires led { IsGuidedToGoal job.now worker.old.lists }
    requires credit { credit ≡ 1 }
{
    let mut other = credit.empty_purse();
    credit.draw(&mut other, 1);
    settle_two(alloc, job, worker, &mut other)
}

// Settles two items whose packet has its share from this purse.
fn settle_two(
    alloc: Global,
    job: &Job,
    worker: &mut Worker<Plain>,
    purse: &mut Purse<Plain>,
) -> Answer
    requires job { IsJobFit job.now }
    requires led { IsGuidedToGoal job.now worker.old.lists }
{
    let Some(()) = hold_two(alloc, job, worker, purse) else {
        return Answer::Refused;
    };
    let first = settle_it(alloc, job, worker);
    let second = settle_it(alloc, job, worker);
    if_so(
        both(first, second),
        is_settled(worker, job),
        "not settled so",
    )
}

// Whether a worker knows the two boards, and no others.
fn is_settled(worker: &Worker<Plain>, job: &Job) -> bool {
    knows(worker, job, (&START, 20, Move::U, false))
        && knows(worker, job, (&BEHIND_UP, 30, Move::U, false))
        && worker.lists().len() == 2
        && worker.held().is_empty()
}

// Expands a board, for whose moves the list of buckets grows, and two buckets.
fn expand_board(
    alloc: Global,
    job: &Job,
    worker: &mut Worker<Plain>,
    credit: Credit<Plain>,
) -> Answer
    requires job { IsJobFit job.now }
    requires led { IsGuidedToGoal job.now worker.old.lists }
{
    let met = meet_start(alloc, job, worker, 0);
    let expanded = expand_granted(alloc, job, worker, credit);
    if_so(
        both(met, expanded),
        is_expanded(worker, job, 3),
        "not expanded so",
    )
}

// Expands a board where the table of known boards has three places left, so that it grows too.
fn expand_in_full_table(
    alloc: Global,
    job: &Job,
    worker: &mut Worker<Plain>,
    credit: Credit<Plain>,
) -> Answer
    requires job { IsJobFit job.now }
    requires led { IsGuidedToGoal job.now worker.old.lists }
{
    let met = fill_table(alloc, job, worker);
    let expanded = expand_granted(alloc, job, worker, credit);
    let is_so = is_expanded(worker, job, PAGE_LENGTH - 1);
    if_so(both(met, expanded), is_so, "not expanded so")
}

// Expands a board of a worker to which nothing was granted yet.
fn expand_granted(
    alloc: Global,
    job: &Job,
    worker: &mut Worker<Plain>,
    credit: Credit<Plain>,
) -> Answer
    requires job { IsJobFit job.now }
    requires led { IsGuidedToGoal job.now worker.old.lists }
{
    if grant(job, worker, credit) {
        expand_it(alloc, job, worker)
    } else {
        Answer::Wrong("not granted")
    }
}

// Grants expansions to a worker to which nothing was granted yet, and answers whether it was so.
fn grant(job: &Job, worker: &mut Worker<Plain>, credit: Credit<Plain>) -> bool
    requires led { IsGuidedToGoal job.now worker.old.lists }
    ensures led { IsGuidedToGoal job.now worker.new.lists }
{
    let mut book = Book::new(credit, Grants::plain(), 7, 2);
    worker.allowance() == 0 && worker.expansions() == 0 && worker.grant(&mut book).is_ok()
}

// Meets the start at no cost, and others at a greater one, until three places are left in the first
// page of the table. A board that is refused memory is met once more.
fn fill_table(alloc: Global, job: &Job, worker: &mut Worker<Plain>) -> Answer
    requires job { IsJobFit job.now }
    requires led { IsGuidedToGoal job.now worker.old.lists }
    ensures led { IsGuidedToGoal job.now worker.new.lists }
{
    let mut answer = Answer::Whole;
    'boards: for number in 0..PAGE_LENGTH - 3 {
        let cost = if number == 0 { 0 } else { 20 };
        let Some(board) = item(job, &numbered_tiles(number), cost) else {
            return Answer::Wrong("no board");
        };
        if matches!(meet(alloc, job, worker, &board), Some(Ok(()))) {
            continue;
        }
        let Some(Ok(())) = meet(alloc, job, worker, &board) else {
            return Answer::Wrong("not met at last");
        };
        answer = Answer::Refused;
    }
    answer
}

// START with its last eight tiles in an order of their own for each number below 8!; START itself
// for 0.
fn numbered_tiles(number: usize) -> [u8; 16] {
    let mut tiles = START;
    let mut left = number;
    'places: for place in 8..15 {
        let choices = 16 - place;
        let other = place + left % choices;
        let tile = tiles[place];
        tiles[place] = tiles[other];
        tiles[other] = tile;
        left /= choices;
    }
    tiles
}

// Whether a worker that knew the start at no cost has expanded it, and knows this many boards now.
fn is_expanded(worker: &Worker<Plain>, job: &Job, known: usize) -> bool {
    knows(worker, job, (&START, 0, Move::U, true))
        && knows(worker, job, (&BEHIND_UP, 5, Move::U, false))
        && knows(worker, job, (&BEHIND_DOWN, 9, Move::D, false))
        && worker.lists().len() == known
        && worker.allowance() == 6
        && worker.expansions() == 1
        && sends_two(worker)
}

// Whether the boards behind L and R wait to be sent.
fn sends_two(worker: &Worker<Plain>) -> bool {
    if worker.workers() != 2 {
        return false;
    }
    let items = worker.unsent(0);
    items.len() == 2
        && items[0].g() == 4
        && items[0].via() == Move::L
        && items[1].g() == 6
        && items[1].via() == Move::R
        && worker.unsent(1).is_empty()
}
