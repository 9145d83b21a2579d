//! The steps that workers take on the book.

ghost use Rattle.std.specs.Prelude.{◌≡◌, ◌≢◌};
ghost use Rattle.outcomes.specs.declared.outcome.Want.{Want};
ghost use Rattle.thread_parts.specs.Parts.{IsSoundPart, KeepsPart};
ghost use Rattle.world_model.specs.declared.steps.HaltCause.{HaltCause};

use crate::lane_steps::has_unsent;
use crate::site::Site;
use hda_run::{Gate, Kind};
use memory::OutOfMemory;
use message_ledger::Tokens;
use outcomes::Want;
use owners::Spread;
use quiescence::Rested;
use std::sync::Wait;
use thread_parts::Part;
use world_model::{HaltCause, Refusal};

impl<'a, R: Wait, G: Gate, C: Tokens> Site<'a, R, G, C> {
    /// Draws credit, where the purse was too small for a packet. Answers whether there is more.
    pub(crate) fn draw<S: Spread>(&self, part: &mut Part<'_, S, C>) -> bool
        requires { IsSoundPart S.owner_of C.workers part.old }
        ensures { KeepsPart S.owner_of C.workers part.old part.new }
    {
        let drawn = part.draw(&mut self.book.lock(self.rt));
        if drawn.is_err() {
            return false;
        }
        self.gate.pass(part.me, Kind::Draw);
        true
    }

    /// Asks for allowance, where none was left. Where none is granted because the whole limit was,
    /// the run is halted. Answers what the refusal was.
    pub(crate) fn ask<S: Spread>(&self, part: &mut Part<'_, S, C>) -> Result<(), Refusal>
        requires { IsSoundPart S.owner_of C.workers part.old }
        ensures { KeepsPart S.owner_of C.workers part.old part.new }
    {
        let granted = part.grant(&mut self.book.lock(self.rt));
        let Err(refusal) = granted else {
            self.gate.pass(part.me, Kind::Grant);
            return Ok(());
        };
        if refusal == Refusal::NoAllowance {
            self.halt(part, HaltCause::Limit);
            return Err(refusal);
        }
        Err(refusal)
    }

    /// Announces the goal's cost, where this worker knows it below the best cost that it knows of.
    pub(crate) fn tell_news<S: Spread>(&self, part: &mut Part<'_, S, C>)
        requires { IsSoundPart S.owner_of C.workers part.old }
        ensures { KeepsPart S.owner_of C.workers part.old part.new }
    {
        let goal = part.job.keyed_goal();
        if !part.worker.knows_better(goal, part.worker.best()) {
            return;
        }
        let announced = part.announce(&mut self.book.lock(self.rt));
        if announced.is_err() {
            return;
        }
        self.gate.pass(part.me, Kind::Announce);
    }

    /// Rests, where nothing is unsent. Answers whether it came to rest.
    pub(crate) fn rest<S: Spread>(&self, part: &mut Part<'_, S, C>) -> bool
        requires { IsSoundPart S.owner_of C.workers part.old }
        ensures { KeepsPart S.owner_of C.workers part.old part.new }
    {
        // The book would refuse it, and the lock is left to those that have something to do.
        if has_unsent(part) {
            return false;
        }
        let rested = part.rest(&mut self.book.lock(self.rt));
        let Ok(answer) = rested else {
            return false;
        };
        if answer == Rested::Quiet {
            self.signs.mark_stopped();
        }
        self.gate.pass(part.me, Kind::Rest);
        true
    }

    /// Halts the run because memory was refused.
    pub(crate) fn halt_for_memory<S: Spread>(&self, part: &mut Part<'_, S, C>, refused: OutOfMemory)
        requires { IsSoundPart S.owner_of C.workers part.old }
        ensures { KeepsPart S.owner_of C.workers part.old part.new }
    {
        self.halt(part, HaltCause::Memory(Want::Refused(refused)));
    }

    // Halts the run, and marks it. A worker that runs has its thread: it never halts for one that
    // could not be started.
    fn halt<S: Spread>(&self, part: &mut Part<'_, S, C>, cause: HaltCause)
        requires holds { IsSoundPart S.owner_of C.workers part.old }
        requires want { (want : Want) → cause ≡ HaltCause.Memory want → C.allows_want want }
        requires own { cause ≢ HaltCause.Start }
        ensures { KeepsPart S.owner_of C.workers part.old part.new }
    {
        let halted = part.halt(cause, &mut self.book.lock(self.rt));
        if halted.is_err() {
            return;
        }
        self.signs.mark_stopped();
        self.gate.pass(part.me, Kind::Halt);
    }
}
