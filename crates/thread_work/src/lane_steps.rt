//! What workers do with packets.

ghost use Rattle.std.specs.Prelude.{◌≡◌, ◌<◌, length};
ghost use Rattle.thread_parts.specs.Parts.{IsSoundPart, KeepsPart};

use crate::site::Site;
use hda_run::{Gate, Kind};
use message_ledger::Tokens;
use owners::Spread;
use std::sync::Wait;
use thread_parts::Part;
use world_model::{PACKET_LIMIT, Refusal};

// A packet has room for what any board puts there while it has fewer items than this: a board has
// at most four successors.
const NEARLY_FULL: usize = PACKET_LIMIT - 3;

impl<'a, R: Wait, G: Gate, C: Tokens> Site<'a, R, G, C> {
    /// Takes in at most one packet from each worker, and settles it to the end. Answers whether
    /// there was one.
    pub(crate) fn receive<S: Spread>(&self, part: &mut Part<'_, S, C>) -> bool
        requires { IsSoundPart S.owner_of C.workers part.old }
        ensures { KeepsPart S.owner_of C.workers part.old part.new }
    {
        let mut some = false;
        let workers = worker_count(part);
        'workers: for from in 0..workers {
            if part.deliver(from).is_ok() {
                self.gate.pass(part.me, Kind::Deliver);
                self.settle_all(part);
                self.tell_news(part);
                some = true;
            }
        }
        some
    }

    // Settles all that is held. Where memory is refused the run is halted.
    fn settle_all<S: Spread>(&self, part: &mut Part<'_, S, C>)
        requires { IsSoundPart S.owner_of C.workers part.old }
        ensures { KeepsPart S.owner_of C.workers part.old part.new }
    {
        'items: for _ in 0..PACKET_LIMIT {
            let known = part.worker.lists().len();
            match part.settle(self.alloc) {
                Ok(()) => {
                    self.gate.pass(part.me, Kind::Settle);
                    self.show_growth(part, known);
                }
                Err(Refusal::Memory(refused)) => return self.halt_for_memory(part, refused),
                Err(_) => return,
            }
        }
    }

    /// Sends all that is unsent. Answers whether a packet went out.
    pub(crate) fn send_all<S: Spread>(&self, part: &mut Part<'_, S, C>) -> bool
        requires { IsSoundPart S.owner_of C.workers part.old }
        ensures { KeepsPart S.owner_of C.workers part.old part.new }
    {
        self.send_from(part, 1)
    }

    /// Sends the packets in which a board may lack room. Answers whether one went out.
    pub(crate) fn send_full<S: Spread>(&self, part: &mut Part<'_, S, C>) -> bool
        requires { IsSoundPart S.owner_of C.workers part.old }
        ensures { KeepsPart S.owner_of C.workers part.old part.new }
    {
        self.send_from(part, NEARLY_FULL)
    }

    // Sends the packets that have at least `fewest` items. Answers whether one went out.
    fn send_from<S: Spread>(&self, part: &mut Part<'_, S, C>, fewest: usize) -> bool
        requires { IsSoundPart S.owner_of C.workers part.old }
        ensures { KeepsPart S.owner_of C.workers part.old part.new }
    {
        let mut some = false;
        let workers = worker_count(part);
        'workers: for to in 0..workers {
            if unsent_count(part, to) < fewest {
                continue;
            }
            if self.send(part, to) {
                some = true;
            }
        }
        some
    }

    // Sends what is unsent for a worker, and draws credit where the purse is too small for it.
    // Answers whether it went out.
    fn send<S: Spread>(&self, part: &mut Part<'_, S, C>, to: usize) -> bool
        requires holds { IsSoundPart S.owner_of C.workers part.old }
        requires there { to < C.workers }
        ensures { KeepsPart S.owner_of C.workers part.old part.new }
    {
        match self.hand_over(part, to) {
            Ok(()) => true,
            Err(Refusal::PurseTooSmall) => self.draw(part) && self.hand_over(part, to).is_ok(),
            Err(_) => false,
        }
    }

    // Sends what is unsent for a worker, lowers its level, and wakes it.
    fn hand_over<S: Spread>(&self, part: &mut Part<'_, S, C>, to: usize) -> Result<(), Refusal>
        requires holds { IsSoundPart S.owner_of C.workers part.old }
        requires there { to < C.workers }
        ensures { KeepsPart S.owner_of C.workers part.old part.new }
    {
        if let Err(refusal) = part.send(to) {
            return Err(refusal);
        }
        self.signs.lower_level(to, part.me);
        self.signs.wake(to);
        self.gate.pass(part.me, Kind::Send);
        Ok(())
    }
}

/// Whether a worker has something unsent.
pub(crate) fn has_unsent<S: Spread, C: Tokens>(part: &Part<'_, S, C>) -> bool
    requires { IsSoundPart S.owner_of C.workers part.now }
{
    let workers = worker_count(part);
    'workers: for to in 0..workers {
        if unsent_count(part, to) > 0 {
            return true;
        }
    }
    false
}

// How many items are unsent for a worker.
fn unsent_count<S: Spread, C: Tokens>(part: &Part<'_, S, C>, to: usize) -> usize
    requires holds { IsSoundPart S.owner_of C.workers part.now }
    requires there { to < C.workers }
{
    part.worker.unsent(to).len()
}

// How many workers there are.
fn worker_count<S: Spread, C: Tokens>(part: &Part<'_, S, C>) -> usize
    requires { IsSoundPart S.owner_of C.workers part.now }
    ensures { result ≡ C.workers }
{
    part.worker.workers()
}
