//! Counting by parts of ledgers, for threads.

ghost use Rattle.std.specs.Prelude.{ℕ, ◌≡◌, ◌+◌, ◌^◌, ◌<◌, ◌≤◌};

use crate::counting::{Counting, Tokens};
use std::marker::{Brand, Model, PhantomData};
use std::sync::ledger::{Blank, Book, Ledger, Share};

/// A part of a credit. It has one part of the ledger for each 1 of its amount, which is what
/// contracts see.
#[derive(Drop)]
pub struct LedgerPart<L: Ledger> {
    amount: u64,
    share: Share<L>,
}

impl<L: Ledger> Model for LedgerPart<L> {
    ghost use Rattle.std.specs.Prelude.{ℕ, ◌≡◌};

    ghost Value = { ℕ };

    ghost view = { λ p. p.amount };

    ghost invariant = { λ p. (p.share.amount ≡ p.amount) × (p.share.parts ≡ p.amount) };
}

/// A credit: the book of a ledger, and the parts of it that no share has. Contracts see the sum.
#[derive(Drop)]
pub struct LedgerSum<L: Ledger> {
    amount: u64,
    book: Book<L>,
    rest: Share<L>,
}

impl<L: Ledger> Model for LedgerSum<L> {
    ghost use Rattle.std.specs.Prelude.{ℕ, ◌≡◌, ◌+◌, ◌^◌};

    ghost Value = { ℕ };

    ghost view = { λ s. s.amount };

    ghost invariant = { λ s. (s.book.total ≡ s.amount) × (s.rest.amount ≡ 0)
        × (s.rest.parts + s.amount + 1 ≡ 2 ^ 64) };
}

/// What was granted to one worker: one part of a ledger. Contracts see the amount.
#[derive(Drop)]
pub struct LedgerTicket<M: Ledger> {
    share: Share<M>,
}

impl<M: Ledger> Model for LedgerTicket<M> {
    ghost use Rattle.std.specs.Prelude.{ℕ, ◌≡◌};

    ghost Value = { ℕ };

    ghost view = { λ t. t.share.amount };

    ghost invariant = { λ t. t.share.parts ≡ 1 };
}

/// What was granted to all workers: the book of a ledger. Contracts see the amount.
#[derive(Drop)]
pub struct LedgerTotal<M: Ledger> {
    amount: u64,
    book: Book<M>,
}

impl<M: Ledger> Model for LedgerTotal<M> {
    ghost use Rattle.std.specs.Prelude.{ℕ, ◌≡◌};

    ghost Value = { ℕ };

    ghost view = { λ t. t.amount };

    ghost invariant = { λ t. t.book.total ≡ t.amount };
}

/// A ledger of what is granted of a limit. The ledger knows the limit, so that it is known of a
/// book behind a lock.
pub trait Capped: Ledger {
    /// The limit.
    ghost limit: { ℕ };
}

impl Capped for Brand {
    ghost limit = { 0 };
}

/// Parts of two ledgers: one of a credit, and one of what is granted.
pub struct Shares<L: Ledger, M: Ledger>(PhantomData<(L, M)>);

impl<L: Ledger, M: Capped> Counting for Shares<L, M> {
    ghost use Rattle.std.specs.Prelude.{◌≡◌, ◌≢◌, ⊤};
    ghost use Rattle.outcomes.specs.declared.outcome.Want.TheVariants.{Stated};

    type Part = LedgerPart<L>;

    type Sum = LedgerSum<L>;

    type Ticket = LedgerTicket<M>;

    type Total = LedgerTotal<M>;

    ghost amount = { λ part. part };

    ghost sum = { λ sum. sum };

    ghost granted = { λ ticket. ticket };

    ghost total = { λ total. total };

    ghost counts = { λ _ _. ⊤ };

    ghost allows_limit = { λ limit. limit ≡ M.limit };

    // Each has a ticket.
    ghost allows_workers = { λ workers. workers ≡ M.parts };

    // No list of steps runs in threads.
    ghost allows_want = { λ want. want ≢ Stated };

    fn amount_of(part: &LedgerPart<L>) -> u64 {
        part.amount
    }

    fn sum_of(sum: &LedgerSum<L>) -> u64 {
        sum.amount
    }

    fn empty(sum: &mut LedgerSum<L>) -> LedgerPart<L> {
        LedgerPart {
            amount: 0,
            share: sum.rest.empty(),
        }
    }

    fn split_one(part: &mut LedgerPart<L>) -> LedgerPart<L> {
        let LedgerPart { amount, share } = part;
        *amount -= 1;
        LedgerPart {
            amount: 1,
            share: share.split_off(1, 1),
        }
    }

    fn join(part: &mut LedgerPart<L>, other: LedgerPart<L>) {
        let LedgerPart { amount, share } = other;
        part.share.merge(share);
        part.amount += amount;
    }

    fn draw(sum: &mut LedgerSum<L>, part: &mut LedgerPart<L>, more: u64) {
        sum.book.audit(&mut part.share);
        sum.rest.give(&mut part.share, more, 0);
        sum.book.add(&mut part.share, more);
        part.amount += more;
        sum.amount += more;
    }

    fn give_back(sum: &mut LedgerSum<L>, part: &mut LedgerPart<L>) {
        sum.book.audit(&mut part.share);
        let amount = part.amount;
        sum.book.sub(&mut part.share, amount);
        part.share.give(&mut sum.rest, amount, 0);
        part.amount = 0;
        sum.amount -= amount;
    }

    fn audit(sum: &mut LedgerSum<L>, part: &mut LedgerPart<L>) {
        sum.book.audit(&mut part.share);
    }

    fn total_of(total: &LedgerTotal<M>) -> u64 {
        total.amount
    }

    fn grant(total: &mut LedgerTotal<M>, ticket: &mut LedgerTicket<M>, more: u64) {
        total.book.audit(&mut ticket.share);
        total.book.add(&mut ticket.share, more);
        total.amount += more;
    }
}

impl<L: Ledger, M: Capped> Tokens for Shares<L, M> {
    ghost use Rattle.std.specs.Prelude.{refl};

    ghost limit = { M.limit };

    ghost workers = { M.parts };

    ghost counted = { λ _ _. tt };

    ghost its_limit = { refl };

    ghost one_limit = { λ _ is. is };

    ghost its_count = { refl };

    ghost one_count = { λ _ is. is };

    ghost each_refusal = { λ _ is_not. is_not };

    ghost no_list = { λ is_not. is_not refl };
}

impl<L: Ledger, M: Ledger> Shares<L, M> {
    // The credit of a new ledger, and the part that has all of it, 1.
    pub(crate) fn open_credit(blank: Blank) -> (LedgerSum<L>, LedgerPart<L>)
        requires name { blank.name ≡ L.name }
        requires parts { blank.parts ≡ L.parts }
        requires all { blank.parts + 1 ≡ 2 ^ 64 }
        ensures sum { result.0 ≡ 1 }
        ensures part { result.1 ≡ 1 }
    {
        let (mut book, mut rest) = blank.open::<L>();
        let mut share = rest.split_off(1, 0);
        book.add(&mut share, 1);
        (
            LedgerSum {
                amount: 1,
                book,
                rest,
            },
            LedgerPart { amount: 1, share },
        )
    }

    // The total of a new ledger, nothing yet, and the share that has all parts of the ledger.
    pub(crate) fn open_total(blank: Blank) -> (LedgerTotal<M>, Share<M>)
        requires name { blank.name ≡ M.name }
        requires parts { blank.parts ≡ M.parts }
        ensures total { result.0 ≡ 0 }
        ensures parts { result.1.parts ≡ blank.parts }
        ensures amount { result.1.amount ≡ 0 }
    {
        let (book, share) = blank.open::<M>();
        (LedgerTotal { amount: 0, book }, share)
    }
}

// One part of a share that has no amount.
pub(crate) fn split_ticket<M: Ledger>(share: &mut Share<M>) -> LedgerTicket<M>
    requires some { 0 < share.old.parts }
    requires none { share.old.amount ≡ 0 }
    ensures left { share.new.parts + 1 ≡ share.old.parts }
    ensures amount { share.new.amount ≡ 0 }
    ensures granted { result ≡ 0 }
{
    LedgerTicket {
        share: share.split_off(1, 0),
    }
}

// Puts a ticket to the parts of a share.
pub(crate) fn merge_ticket<M: Ledger>(share: &mut Share<M>, ticket: LedgerTicket<M>)
    ensures parts { share.new.parts ≡ share.old.parts + 1 }
    ensures amount { share.new.amount ≡ share.old.amount + ticket }
{
    let LedgerTicket { share: other } = ticket;
    share.merge(other);
}

// Changes nothing. A share has at most the total, and a share of all parts has all of it.
pub(crate) fn audit_total<M: Ledger>(total: &mut LedgerTotal<M>, share: &mut Share<M>)
    ensures total { total.new ≡ total.old }
    ensures parts { share.new.parts ≡ share.old.parts }
    ensures amount { share.new.amount ≡ share.old.amount }
    ensures bound { share.old.amount ≤ total.old }
    ensures whole { share.old.parts ≡ M.parts → share.old.amount ≡ total.old }
{
    total.book.audit(share);
}
