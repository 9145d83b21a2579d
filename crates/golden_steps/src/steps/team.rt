//! A worker and what its steps borrow.

ghost use Rattle.std.specs.Prelude.{◌≡◌};

use crate::steps::scenes::Scene;
use crate::steps::trial::Trial;
use message_ledger::{Allowance, Credit, Grants, Purse, Tokens};
use quiescence::Book;
use std::alloc::Global;
use std::mem::swap;
use worker_core::Queue;

/// How many workers there are. One of them is seen.
pub const WORKERS: usize = 2;

/// One worker, the book, its lane to the other worker and the lane from that one, and the other's
/// purse.
#[derive(Drop)]
pub struct Team<C: Tokens> {
    pub trial: Trial<C>,
    pub book: Book<C>,
    pub lane_out: Queue<C>,
    pub lane_in: Queue<C>,
    pub other: Purse<C>,
}

/// The team with which a scene begins; None where there is no memory.
pub fn gather<C: Tokens>(
    alloc: Global,
    scene: &Scene,
    credit: Credit<C>,
    purse: Purse<C>,
    grants: Grants<C>,
    allowance: Allowance<C>,
) -> Option<Team<C>>
    requires limit { C.allows_limit scene.now.limit }
    requires workers { C.allows_workers WORKERS }
    requires none { grants ≡ 0 }
{
    let mut credit = credit;
    let (purse, other) = share_out(&mut credit, purse, scene.purse, scene.other);
    let book = Book::new(credit, grants, scene.limit, WORKERS);
    let trial = Trial::new(alloc, scene, purse, allowance);
    let (trial, (lane_out, lane_in)) = trial.zip(lanes(alloc))?;
    Some(Team {
        trial,
        book,
        lane_out,
        lane_in,
        other,
    })
}

// Two empty lanes.
fn lanes<C: Tokens>(alloc: Global) -> Option<(Queue<C>, Queue<C>)> {
    let lane_out = Queue::new(alloc).ok()?;
    let lane_in = Queue::new(alloc).ok()?;
    Some((lane_out, lane_in))
}

// Two purses of a credit, with these amounts, or with what there can be of them.
fn share_out<C: Tokens>(
    credit: &mut Credit<C>,
    purse: Purse<C>,
    amount: u64,
    other: u64,
) -> (Purse<C>, Purse<C>) {
    let mut first = purse;
    let mut second = credit.empty_purse();
    if amount == 0 {
        swap(&mut first, &mut second);
    }
    fill_up(credit, &mut first, amount);
    fill_up(credit, &mut second, other);
    (first, second)
}

// Adds what a purse lacks of an amount, or what there can be of that.
fn fill_up<C: Tokens>(credit: &mut Credit<C>, purse: &mut Purse<C>, amount: u64) {
    let lacking = amount.saturating_sub(purse.amount());
    let more = lacking.min(u64::MAX - credit.sum());
    if more > 0 {
        credit.draw(purse, more);
    }
}
