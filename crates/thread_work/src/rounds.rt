//! What a worker does until the run has stopped.

ghost use Rattle.std.specs.Prelude.{◌≡◌};
ghost use Rattle.thread_parts.specs.Parts.{IsSoundPart, IsFaceKept, KeepsPart};

use crate::signs::{NO_LEVEL, f_of, level_at};
use crate::site::Site;
use hda_run::{Gate, Job, Kind};
use lower_bound::TableList;
use message_ledger::Tokens;
use owners::Spread;
use std::sync::Wait;
use thread_parts::{Part, Sealed};
use world_model::Refusal;

// The most expansions between two looks at the rings, and at whether the goal is known. In that
// time another worker hardly fills more than one packet, and one is taken in from each.
const EXPANSIONS_IN_A_ROUND: u32 = 16;

// After this many rounds in a row without a packet a worker expands boards though others have some
// of an f that is lower by more than its lead.
const PATIENT_TURNS: u32 = 32;

// What is added to the lead where tables are folded.
const FOLDED_LEAD: u64 = 4;

// After this many rounds in a row at one f, and after MANY_ROUNDS, a worker sorts its boards again
// before it expands.
const FEW_ROUNDS: u32 = 4;

const MANY_ROUNDS: u32 = 64;

// By how many rounds at the least f that is shown a worker may be ahead of the slowest one there.
const ROUNDS_AHEAD: u64 = 64;

// After this many rounds in a row without a packet a worker that is ahead goes on all the same, since
// after one more it would sleep.
const TURNS_AWAKE: u32 = 16;

// Up to this many rounds at one f may stay unshown.
const ROUNDS_UNSHOWN: u64 = 15;

// How a worker keeps pace with the others. Where another one has boards of lower f, the f of what
// it expands may be the best plan's cost or more, and then it is in vain. Where another one is many
// rounds behind at the same f, the faster one comes to boards of lower g before it, and what it
// sends then keeps the slower one from its boards of greater g.
#[derive(Clone, Copy)]
struct Pace {
    // By how much the f of its boards may be above the least one that is shown.
    lead: u64,
    // The least f of its boards, or `NO_LEVEL` where it has none, and in how many rounds in a row
    // it set out to expand boards of this f.
    f: u64,
    rounds: u32,
    // The greatest f that it had, and in how many rounds it set out to expand boards of that f.
    top_f: u64,
    rounds_at_top: u32,
}

impl Pace {
    // Before the first round of a job.
    fn new(job: &Job<'_>) -> Self {
        Pace {
            lead: lead_in(job),
            f: NO_LEVEL,
            rounds: 0,
            top_f: 0,
            rounds_at_top: 0,
        }
    }

    // Begins a round at an f.
    fn enter(&mut self, f: u64) {
        if f == self.f {
            return;
        }
        self.f = f;
        self.rounds = 0;
        if f > self.top_f && f != NO_LEVEL {
            self.top_f = f;
            self.rounds_at_top = 0;
        }
    }

    // Counts a round in which boards are expanded, and answers whether they are to be put in order
    // again first. They were in order when the first of this f was expanded, but then others still
    // had boards of lower f, whose successors came since.
    fn wants_order(&mut self) -> bool {
        if self.f == NO_LEVEL {
            return false;
        }
        if self.f == self.top_f {
            self.rounds_at_top = self.rounds_at_top.saturating_add(1);
        }
        self.rounds = self.rounds.saturating_add(1);
        self.rounds == FEW_ROUNDS || self.rounds == MANY_ROUNDS
    }

    // Its level. Below the greatest f that it had, it waits for no worker at its f.
    fn level(&self) -> u64 {
        if self.f == self.top_f {
            return level_at(self.f, self.rounds_at_top);
        }
        level_at(self.f, 0)
    }

    // The level to show the others. Below the greatest f that it had, none at its f waits for it.
    fn to_show(&self) -> u64 {
        if self.f < self.top_f {
            return level_at(self.f, u32::MAX);
        }
        self.level()
    }
}

// The lead of a worker in a job. At unit cost it has none, since each f has many boards. Where
// moves cost more an f has few. By folded tables a successor may have a lower f than its board.
fn lead_in(job: &Job<'_>) -> u64 {
    let weights = job.weights();
    let mut dearest = 1;
    'tiles: for tile in 1..weights.shape().cells() {
        dearest = dearest.max(weights.of(tile as u8));
    }
    let lead = u64::from(dearest).saturating_sub(1).saturating_mul(2);
    match job.bound().tables() {
        TableList::Whole(_) => lead,
        TableList::Folded(_) => lead.saturating_add(FOLDED_LEAD),
    }
}

/// Works with a part until the book has stopped, and gives it back with the `SealedModel` that it had. No
/// contract says that it works, or that the book has stopped: both are read after the joins, from
/// the parts and the book.
pub fn work<'a, S: Spread, C: Tokens, R: Wait, G: Gate>(
    site: &Site<'_, R, G, C>,
    sealed: Sealed<'a, S, C>,
) -> Sealed<'a, S, C>
    ensures { result ≡ sealed.entry }
{
    let mut part = sealed.open();
    site.gate.meet(part.worker.lists().len());
    let mut pace = Pace::new(part.job);
    let mut turns = 0u32;
    'rounds: for _ in site.rt.forever() {
        if site.is_over() {
            return Sealed::new(part);
        }
        if site.round(&mut part, &mut pace, turns) {
            turns = 0;
            continue;
        }
        site.signs.wait(site.rt, part.me, turns);
        turns = turns.saturating_add(1);
    }
    unreachable!()
}

impl<'a, R: Wait, G: Gate, C: Tokens> Site<'a, R, G, C> {
    // Whether the book has stopped. The lock is taken only where it is marked that it has.
    fn is_over(&self) -> bool {
        if !self.signs.say_stopped() {
            return false;
        }
        self.book.lock(self.rt).stop().is_some()
    }

    // One round: receive, expand, and rest where there was nothing to do. Answers whether something
    // was done; the last `turns` rounds did nothing. A worker that rests looks at its rings, shows
    // its level, and takes no lock. One that is ahead of others waits, and sends what is unsent.
    fn round<S: Spread>(&self, part: &mut Part<'_, S, C>, pace: &mut Pace, turns: u32) -> bool
        requires { IsSoundPart S.owner_of C.workers part.old }
        ensures holds { IsSoundPart S.owner_of C.workers part.new }
        ensures kept { IsFaceKept part.old part.new }
    {
        let received = self.take_in(part, pace);
        if part.worker.purse() == 0 {
            return received;
        }
        self.tell_news(part);
        if turns < TURNS_AWAKE && self.is_rounds_ahead(pace) {
            return self.send_all(part) || received;
        }
        if turns < PATIENT_TURNS && self.is_ahead(pace) {
            pace.rounds = 0;
            return self.send_all(part) || received;
        }
        if self.expand_in_order(part, pace) {
            return true;
        }
        if received {
            return true;
        }
        self.rest(part)
    }

    // Receives, and shows the others this worker's level then. Answers whether there was a packet.
    fn take_in<S: Spread>(&self, part: &mut Part<'_, S, C>, pace: &mut Pace) -> bool
        requires { IsSoundPart S.owner_of C.workers part.old }
        ensures holds { IsSoundPart S.owner_of C.workers part.new }
        ensures kept { IsFaceKept part.old part.new }
    {
        let received = self.receive(part);
        pace.enter(least_f_of(part));
        self.show_level(part, pace);
        received
    }

    // Shows the others this worker's level. A rise of f by no more than the lead may stay unshown,
    // but then no worker at the f that is shown waits for this one. Some rounds at an f may stay
    // unshown too. Before a greater rise of f is shown, what is unsent goes out where rings have
    // room: the boards there may be of lower f.
    fn show_level<S: Spread>(&self, part: &mut Part<'_, S, C>, pace: &Pace)
        requires { IsSoundPart S.owner_of C.workers part.old }
        ensures { KeepsPart S.owner_of C.workers part.old part.new }
    {
        let shown = self.signs.level(part.me);
        let level = pace.to_show();
        if level < shown {
            self.signs.set_level(part.me, level);
            return;
        }
        if f_of(level) > f_of(shown).saturating_add(pace.lead) {
            let _ = self.send_all(part);
            self.signs.set_level(part.me, level);
            return;
        }
        let level = level.min(level_at(f_of(shown), u32::MAX));
        if level > shown.saturating_add(ROUNDS_UNSHOWN) {
            self.signs.set_level(part.me, level);
        }
    }

    // Whether the f of a worker's boards is above the least one that is shown by more than its
    // lead. A worker without boards is never ahead.
    fn is_ahead(&self, pace: &Pace) -> bool {
        pace.f != NO_LEVEL && pace.f > f_of(self.signs.lowest_level()).saturating_add(pace.lead)
    }

    // Whether a worker is many rounds ahead of the slowest one at the least f that is shown. With a
    // lead it never is: which f a worker has is hardly shown then.
    fn is_rounds_ahead(&self, pace: &Pace) -> bool {
        if pace.lead > 0 {
            return false;
        }
        let lowest = self.signs.lowest_level();
        pace.f == f_of(lowest) && pace.level() > lowest.saturating_add(ROUNDS_AHEAD)
    }

    // Lets boards be put in order again, if they are to be now, and expands some. Answers whether
    // something was done.
    fn expand_in_order<S: Spread>(&self, part: &mut Part<'_, S, C>, pace: &mut Pace) -> bool
        requires { IsSoundPart S.owner_of C.workers part.old }
        ensures { KeepsPart S.owner_of C.workers part.old part.new }
    {
        if !pace.wants_order() {
            return self.expand_some(part);
        }
        part.worker.order_anew();
        self.expand_some(part)
    }

    // Expands boards, as many as a round has at most. Answers whether something was done.
    fn expand_some<S: Spread>(&self, part: &mut Part<'_, S, C>) -> bool
        requires { IsSoundPart S.owner_of C.workers part.old }
        ensures { KeepsPart S.owner_of C.workers part.old part.new }
    {
        let mut some = false;
        'boards: for _ in 0..EXPANSIONS_IN_A_ROUND {
            let known = part.worker.lists().len();
            if let Err(refusal) = part.expand(self.alloc) {
                return self.help(part, refusal) || some;
            }
            self.gate.pass(part.me, Kind::Expand);
            self.show_growth(part, known);
            // An expansion that finds a packet without room has worked in vain.
            self.send_full(part);
            some = true;
        }
        some
    }

    // Shows the gate how many boards a step made known, before which the worker knew this many.
    pub(crate) fn show_growth<S: Spread>(&self, part: &Part<'_, S, C>, known: usize) {
        self.gate
            .meet(part.worker.lists().len().saturating_sub(known));
    }

    // Does what has to be done before the next board can be expanded. Answers whether something was
    // done.
    fn help<S: Spread>(&self, part: &mut Part<'_, S, C>, refusal: Refusal) -> bool
        requires { IsSoundPart S.owner_of C.workers part.old }
        ensures { KeepsPart S.owner_of C.workers part.old part.new }
    {
        match refusal {
            Refusal::NothingBelowLimit => self.send_all(part),
            Refusal::NoAllowance => self.get_allowance(part),
            Refusal::NoRoom => self.send_full(part),
            Refusal::Memory(refused) => {
                self.halt_for_memory(part, refused);
                true
            }
            _ => false,
        }
    }

    // Gets allowance. Where the book knows a better cost than this worker, and nothing is below it,
    // what is unsent goes out, as where nothing is below the worker's own limit. Answers whether
    // something was done.
    fn get_allowance<S: Spread>(&self, part: &mut Part<'_, S, C>) -> bool
        requires { IsSoundPart S.owner_of C.workers part.old }
        ensures { KeepsPart S.owner_of C.workers part.old part.new }
    {
        match self.ask(part) {
            Err(Refusal::NothingBelowLimit) => self.send_all(part),
            Err(Refusal::NoAllowance) => true,
            Err(_) => false,
            Ok(()) => true,
        }
    }
}

// The least f of what waits at a worker below its limit, also of what is out of date.
fn least_f_of<S: Spread, C: Tokens>(part: &Part<'_, S, C>) -> u64 {
    let Some(least) = part.worker.lists().least() else {
        return NO_LEVEL;
    };
    if least >= part.worker.limit() {
        return NO_LEVEL;
    }
    u64::from(least)
}
