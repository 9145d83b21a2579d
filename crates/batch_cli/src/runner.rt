//! How commands run.

ghost use Rattle.std.specs.Prelude.{◌≡◌, ◌⊎◌, ◌↔◌, Err, IsTrue, map, string_bytes};
ghost use Rattle.byte_streams.specs.Streams.{change};
ghost use Rattle.byte_streams.specs.declared.sink.WriteFailed.{WriteFailed};
ghost use Rattle.batch_runs.specs.Batches.{HasFailed};
ghost use Rattle.board_lists.specs.Lists.{MayBeListed};
ghost use Rattle.batch_cli.specs.Endings.{HasNotBegun};
ghost use Rattle.batch_cli.specs.Programs.{SolvesLines, CertifiesOne, Judges, Draws, Rewrites};
ghost use Rattle.batch_cli.specs.Programs.{TakesSteps, ListsClass, ShowsText, FlushesBehind};
ghost use Rattle.batch_cli.specs.Programs.{EndsBy, CanRun, Runs};
ghost use Rattle.batch_cli.specs.Programs.{after_flush, prints_progress, prints_stats};
ghost use Rattle.batch_cli.specs.Programs.{HandsLines, HandsRun, HandsBy};

use crate::commands::{Command, command_for};
use crate::endings::Ending;
use crate::faults::BatchFault;
use crate::progress::WhereAsked;
use batch_runs::Setup;
use board_lists::list_boards;
use byte_streams::{Sink, Source};
use certificate_runs::{run_check, run_show, run_upgrade};
use command_line::{Listing, read_words};
use drawings::Style;
use replay_runs::run_replay;
use setup_runs::{Watch, run_cert, run_watched};
use std::alloc::Global;
use std::sync::Wait;
use std::thread::Threads;

/// What commands run with: threads, memory, and the watch of searches.
#[derive(Clone, Copy)]
pub(crate) struct Runner<'a, R, W> {
    pub rt: &'a R,
    pub alloc: Global,
    pub watch: &'a W,
}

impl<'a, R: Threads + Wait + Sync, W: Watch + Sync> Runner<'a, R, W> {
    /// Does what the arguments ask for, and returns how the program ends. A flush follows each
    /// command; without one, nothing is read or written.
    pub(crate) fn end_program<S: Source, K: Sink>(
        &self,
        words: &[String],
        source: &mut S,
        sink: &mut K,
    ) -> Ending
        ensures ended { EndsBy (map string_bytes words.now) (change S.state source.old source.new)
            (change K.state sink.old sink.new) result }
        ensures begun { ((K.is_flushed sink.new ⊎ HasFailed (K.state sink.new))
            × (¬ HasNotBegun result))
            ⊎ (HasNotBegun result × ((source.new ≡ source.old) × (sink.new ≡ sink.old))) }
        ensures figures { HandsBy (λ id stats. W.has_taken self.now.watch.now id stats)
            (map string_bytes words.now) (change S.state source.old source.new)
            (change K.state sink.old sink.new)
            ((source.new ≡ source.old) × (sink.new ≡ sink.old)) }
    {
        let request = match read_words(self.alloc, words) {
            Ok(request) => request,
            Err(refusal) => return Ending::Refused(refusal),
        };
        let command = match command_for(self.rt, self.alloc, request) {
            Ok(command) => command,
            Err(refused) => return Ending::NoMemory(refused),
        };
        let ending = self.run(&command, source, sink);
        flush_behind(sink, ending)
    }

    // Runs a command; no flush follows.
    fn run<S: Source, K: Sink>(&self, command: &Command, source: &mut S, sink: &mut K) -> Ending
        requires { CanRun command.now }
        ensures runs { Runs command.now (change S.state source.old source.new)
            (change K.state sink.old sink.new) result }
        ensures figures { HandsRun (λ id stats. W.has_taken self.now.watch.now id stats)
            command.now (change S.state source.old source.new)
            (change K.state sink.old sink.new) }
    {
        match command {
            Command::Solve { setup, .. } => {
                self.solve(setup, &self.asked(setup, command), source, sink)
            }
            Command::Certify { setup, .. } => {
                self.certify(setup, &self.asked(setup, command), source, sink)
            }
            Command::Check => self.check(source, sink),
            Command::Draw(style) => self.draw(*style, source, sink),
            Command::Upgrade => self.upgrade(source, sink),
            Command::Replay(setup) => self.replay(setup, source, sink),
            Command::List(listing) => list(sink, *listing),
            Command::Show(text) => show(sink, text.as_str()),
        }
    }

    // The watch of a setup's runs, where a command prints progress or figures.
    fn asked(&self, setup: &Setup, command: &Command) -> WhereAsked<'a, W>
        ensures watch { result.watch ≡ self.now.watch }
        ensures alone { IsTrue result.is_alone ↔ (setup.now.workers ≡ 1) }
        ensures progress { result.progress ≡ prints_progress command.now }
        ensures stats { result.stats ≡ prints_stats command.now }
    {
        let (progress, stats) = match command {
            Command::Solve {
                progress,
                stats,
                ..
            } => (*progress, *stats),
            Command::Certify { progress, .. } => (*progress, false),
            _ => (false, false),
        };
        WhereAsked {
            watch: self.watch,
            is_alone: setup.worker_count() == 1,
            progress,
            stats,
        }
    }

    fn solve<S: Source, K: Sink>(
        &self,
        setup: &Setup,
        watch: &WhereAsked<'_, W>,
        source: &mut S,
        sink: &mut K,
    ) -> Ending
        ensures solved { SolvesLines (change S.state source.old source.new) setup.now
            (change K.state sink.old sink.new) result }
        ensures figures { HandsLines (λ id stats. W.has_taken watch.now.watch.now id stats)
            setup.now watch.now.stats (change S.state source.old source.new)
            (change K.state sink.old sink.new) }
    {
        match run_watched(self.rt, self.alloc, source, sink, setup, watch) {
            Ok(counts) => Ending::Ran(counts),
            Err(fault) => Ending::Faulted(BatchFault::from(fault)),
        }
    }

    fn certify<S: Source, K: Sink>(
        &self,
        setup: &Setup,
        watch: &WhereAsked<'_, W>,
        source: &mut S,
        sink: &mut K,
    ) -> Ending
        ensures { CertifiesOne (change S.state source.old source.new) setup.now
            (change K.state sink.old sink.new) result }
    {
        match run_cert(self.rt, self.alloc, source, sink, setup, watch) {
            Ok(status) => Ending::Answered(status),
            Err(fault) => Ending::Faulted(BatchFault::from(fault)),
        }
    }

    fn check<S: Source, K: Sink>(&self, source: &mut S, sink: &mut K) -> Ending
        ensures { Judges (change S.state source.old source.new) (change K.state sink.old sink.new)
            result }
    {
        match run_check(self.rt, self.alloc, source, sink) {
            Ok(status) => Ending::Answered(status),
            Err(fault) => Ending::Faulted(BatchFault::from(fault)),
        }
    }

    fn draw<S: Source, K: Sink>(&self, style: Style, source: &mut S, sink: &mut K) -> Ending
        ensures { Draws (change S.state source.old source.new) style
            (change K.state sink.old sink.new) result }
    {
        match run_show(self.alloc, style, source, sink) {
            Ok(status) => Ending::Answered(status),
            Err(fault) => Ending::Faulted(BatchFault::from(fault)),
        }
    }

    fn upgrade<S: Source, K: Sink>(&self, source: &mut S, sink: &mut K) -> Ending
        ensures { Rewrites (change S.state source.old source.new) (change K.state sink.old sink.new)
            result }
    {
        match run_upgrade(self.alloc, source, sink) {
            Ok(status) => Ending::Answered(status),
            Err(fault) => Ending::Faulted(BatchFault::from(fault)),
        }
    }

    fn replay<S: Source, K: Sink>(&self, setup: &Setup, source: &mut S, sink: &mut K) -> Ending
        ensures { TakesSteps (change S.state source.old source.new) setup.now
            (change K.state sink.old sink.new) result }
    {
        match run_replay(self.rt, self.alloc, source, sink, setup) {
            Ok(status) => Ending::Answered(status),
            Err(fault) => Ending::Faulted(BatchFault::from(fault)),
        }
    }
}

// Lists boards.
fn list<K: Sink>(sink: &mut K, listing: Listing) -> Ending
    requires { MayBeListed listing.goal.grid listing.choice }
    ensures { ListsClass listing (change K.state sink.old sink.new) result }
{
    match list_boards(sink, &listing.goal, listing.choice) {
        Ok(()) => Ending::Shown,
        Err(_) => Ending::Faulted(BatchFault::Write),
    }
}

// Writes a text.
fn show<K: Sink>(sink: &mut K, text: &str) -> Ending
    ensures { ShowsText text.now (change K.state sink.old sink.new) result }
{
    match sink.put(text.as_bytes()) {
        Ok(()) => Ending::Shown,
        Err(_) => Ending::Faulted(BatchFault::Write),
    }
}

// Flushes the sink behind a run, and returns how the program ends: the first fault decides.
fn flush_behind<K: Sink>(sink: &mut K, ending: Ending) -> Ending
    ensures ended { FlushesBehind ending (change K.state sink.old sink.new) result }
    ensures flushed { K.is_flushed sink.new ⊎ HasFailed (K.state sink.new) }
{
    match sink.flush() {
        Ok(()) => ending,
        Err(_) => unflushed(ending),
    }
}

// How the program ends where what a run has written cannot be passed on.
fn unflushed(ending: Ending) -> Ending
    ensures { (failed : WriteFailed) → result ≡ after_flush ending (Err failed) }
{
    match ending {
        Ending::Faulted(fault) => Ending::Faulted(fault),
        _ => Ending::Faulted(BatchFault::Write),
    }
}
