//! Counting by whole numbers.

use crate::counting::Counting;

/// Whole numbers, for worlds. That a share is one of those that a sum counts is for the caller to
/// know: then its amount is at most the sum.
#[derive(Clone, Copy, Debug)]
pub struct Plain;

impl Counting for Plain {
    ghost use Rattle.std.specs.Prelude.{◌≤◌, ⊤};

    type Part = u64;

    type Sum = u64;

    type Ticket = u64;

    type Total = u64;

    ghost amount = { λ part. part };

    ghost sum = { λ sum. sum };

    ghost granted = { λ ticket. ticket };

    ghost total = { λ total. total };

    ghost counts = { λ sum amount. amount ≤ sum };

    ghost allows_limit = { λ _. ⊤ };

    ghost allows_workers = { λ _. ⊤ };

    ghost allows_want = { λ _. ⊤ };

    fn amount_of(part: &u64) -> u64 {
        *part
    }

    fn sum_of(sum: &u64) -> u64 {
        *sum
    }

    fn empty(_sum: &mut u64) -> u64 {
        0
    }

    fn split_one(part: &mut u64) -> u64 {
        *part -= 1;
        1
    }

    fn join(part: &mut u64, other: u64) {
        *part += other;
    }

    fn draw(sum: &mut u64, part: &mut u64, more: u64) {
        *part += more;
        *sum += more;
    }

    fn give_back(sum: &mut u64, part: &mut u64) {
        *sum -= *part;
        *part = 0;
    }

    fn audit(_sum: &mut u64, _part: &mut u64) {}

    fn total_of(total: &u64) -> u64 {
        *total
    }

    fn grant(total: &mut u64, ticket: &mut u64, more: u64) {
        *ticket += more;
        *total += more;
    }
}
