//! What workers ask of a book and of one another, as rows of a table.

ghost use Rattle.std.specs.Prelude.{◌≡◌};

use arrayvec::ArrayVec;
use board::Move;
use message_ledger::{Allowance, Counting, Packet, Purse};
use quiescence::{Book, Rested, book_code};
use world_model::{BookFault, HaltCause, Item};

/// A call by one of two workers.
#[derive(Clone, Copy, Debug)]
pub enum Call {
    /// Credit is drawn.
    Draw,
    /// A packet goes to the other worker, and is taken in there.
    Send,
    /// A cost is announced.
    Announce(u32),
    /// Expansions are granted.
    Grant,
    /// A purse is given back, with this floor.
    Rest(Option<u32>),
    /// The run is halted for the limit.
    HaltByLimit,
    /// The run is halted, since a thread could not be started.
    HaltByStart,
}

/// A call by worker 0 or 1, its answer, and the credit and the caller's purse after it.
pub type Row = (usize, Call, &'static str, u64, u64);

// An item goes from one purse's worker to the other's.
fn send<C: Counting>(from: &mut Purse<C>, to: &mut Purse<C>) -> &'static str {
    let mut items = ArrayVec::new();
    // The goal of 2 by 2.
    let mut item = Item::default();
    item.cost = 9;
    item.via = Move::L;
    items.push(item);
    if from.amount() == 0 || to.amount() == u64::MAX {
        return "refused";
    }
    let packet = Packet::seal(items, from);
    if packet.items().len() != 1 {
        return "other items";
    }
    let item = packet.open(to)[0];
    if item.key() == 1091 && item.g() == 9 && item.via() == Move::L {
        "ok"
    } else {
        "another item"
    }
}

fn word(answer: Result<(), BookFault>) -> &'static str {
    match answer {
        Ok(()) => "ok",
        Err(fault) => book_code(fault),
    }
}

// Spends what is left.
fn spend_all<C: Counting>(allowance: &mut Allowance<C>)
    ensures granted { allowance.new.granted ≡ allowance.old.granted }
    ensures left { allowance.new.left ≡ 0 }
{
    'spend: while allowance.left() > 0 {
        allowance.spend();
    }
}

/// Makes a call. The answer is written as in a row.
pub fn make<C: Counting>(
    book: &mut Book<C>,
    worker: usize,
    purse: &mut Purse<C>,
    other: &mut Purse<C>,
    allowance: &mut Allowance<C>,
    call: Call,
) -> &'static str
    requires purse { C.counts book.old.credit purse.old }
    requires granted { C.counts book.old.granted allowance.old.granted }
{
    match call {
        Call::Draw => word(book.draw(purse)),
        Call::Send => send(purse, other),
        Call::Announce(cost) => word(book.announce(cost)),
        Call::Grant => {
            spend_all(allowance);
            match book.grant(allowance) {
                Ok(256) => "256",
                Ok(44) => "44",
                Ok(_) => "other",
                Err(fault) => book_code(fault),
            }
        }
        Call::Rest(floor) => {
            if worker >= book.workers() {
                return "no worker";
            }
            match book.rest(worker, purse, floor) {
                Ok(Rested::Waits) => "waits",
                Ok(Rested::Quiet) => "quiet",
                Err(fault) => book_code(fault),
            }
        }
        Call::HaltByLimit => word(book.halt(HaltCause::Limit)),
        Call::HaltByStart => word(book.halt(HaltCause::Start)),
    }
}
