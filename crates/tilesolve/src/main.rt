//! The program `tilesolve`. It reports a plan of least cost for each board (`solve`), or writes the
//! certificate of the first board's plan (`solve --cert`). It checks, draws and upgrades
//! certificates (`check`, `show`, `upgrade`), lists boards (`boards`), and takes the steps of a
//! search one by one (`replay`).
//!
//! It reads boards, certificates and steps from standard input, and answers on standard output.
//!
//! - `main` hands arguments and buffered standard streams to `run_with_progress`, with a watch that
//!   counts expansions for `--progress`, and reads the clock and prints figures for `--stats`.
//! - `./tilesolve` at the root runs the program that `./prove` or `.ci/run` made of these sources,
//!   or builds one without repeating the proofs (`tools/quick_build.py`).
#![tactic(auto)]

use batch_cli::{Ending, Gate, Kind, Spread, Stats, Watch, World, run_with_progress, stats_text};
use byte_streams::{BufferedSource, ByteSink};
use std::alloc::Global;
use std::env;
use std::io::{BufWriter, ErrorKind};
use std::process::ExitCode;
use std::rt::{Clock, Env};
use std::sync::atomic::{AtomicBool, AtomicU64, Ordering};
use std::time::Instant;

// How many boards are expanded from one look at the clock to the next.
const STRIDE: u64 = 10_000;

// How many bytes of its stack the main thread takes when it begins. Where no thread can be started
// it does the work of all workers, deep in its stack. The system gives a started thread its whole
// stack at once, but enlarges that of the main thread only as long as there is memory.
const STACK: usize = 524_288;

// How many microseconds a second has.
const SECOND: u64 = 1_000_000;

// Prints on standard error how many boards are expanded and known so far, of all lines and by all
// workers, and the figures of each line.
#[derive(Drop)]
struct Progress<'a, R> {
    rt: &'a R,
    expanded: AtomicU64,
    known: AtomicU64,
    // When the program began, if the clock says so.
    begun: Option<Instant>,
    // The second for which a line of progress was printed last, or is due.
    second: AtomicU64,
    is_due: AtomicBool,
    // Keeps the compiler from removing `take_stack`.
    read: u8,
}

impl<R: Eprint + AllocGlobal + Clock> Progress<'_, R> {
    // Nothing is expanded yet.
    fn new(rt: &R, read: u8) -> Progress<'_, R> {
        Progress {
            rt,
            expanded: AtomicU64::new(0),
            known: AtomicU64::new(0),
            begun: Instant::now(rt).ok(),
            second: AtomicU64::new(0),
            is_due: AtomicBool::new(false),
            read,
        }
    }

    // Makes a line of progress due, in each second once.
    fn look_at_clock(&self) {
        let second = self.microseconds() / SECOND;
        if self.second.swap(second, Ordering::Relaxed) < second {
            self.is_due.store(true, Ordering::Relaxed);
        }
    }

    // Prints a line of progress, where one is due. Where it can't be written the run goes on.
    fn print_when_due(&self, bound: Option<u32>) {
        if !self.is_due.swap(false, Ordering::Relaxed) {
            return;
        }
        let expanded = self.expanded.load(Ordering::Relaxed);
        let known = self.known.load(Ordering::Relaxed);
        let _ = match bound {
            Some(bound) => eprintln!(self.rt;
                "tilesolve: {expanded} boards expanded, {known} known; no plan costs less than {bound}"
            ),
            None => eprintln!(self.rt; "tilesolve: {expanded} boards expanded, {known} known"),
        };
    }
}

impl<R: Eprint + AllocGlobal + Clock> Gate for Progress<'_, R> {
    fn pass(&self, _worker: usize, kind: Kind) {
        if kind != Kind::Expand {
            return;
        }
        let expanded = self
            .expanded
            .fetch_add(1, Ordering::Relaxed)
            .wrapping_add(1);
        if expanded % STRIDE == 0 {
            self.look_at_clock();
        }
    }

    fn meet(&self, boards: usize) {
        self.known.fetch_add(boards as u64, Ordering::Relaxed);
    }

    fn wants_bound(&self) -> bool {
        self.is_due.load(Ordering::Relaxed)
    }

    fn show_bound<S: Spread>(&self, _world: &World<'_, S>, bound: Option<u32>) {
        self.print_when_due(bound);
    }
}

impl<R: Eprint + AllocGlobal + Clock> Watch for Progress<'_, R> {
    fn microseconds(&self) -> u64 {
        let Some(begun) = self.begun else {
            return 0;
        };
        match begun.elapsed(self.rt) {
            Ok(passed) => u64::try_from(passed.as_micros()).unwrap_or(u64::MAX),
            Err(_) => 0,
        }
    }

    // Where the line can't be made or written the run goes on.
    fn observe(&self, id: &str, stats: &Stats) {
        if let Ok(text) = stats_text(self.rt.alloc(), id, stats) {
            let _ = eprintln!(self.rt; "{text}");
        }
    }

    fn show_no_bound(&self) {
        self.print_when_due(None);
    }
}

// The arguments after the program's name, or how the program ends where they are not UTF-8 or find
// no memory.
fn read_words(rt: &(impl Env + AllocGlobal)) -> Result<Vec<String>, Ending> {
    let words = match env::args(rt) {
        Ok(words) => words,
        Err(fault) if fault.kind() == ErrorKind::OutOfMemory => return Err(Ending::NoMemoryToStart),
        Err(_) => return Err(Ending::NoTexts),
    };
    match words.skip(1).collect(rt.alloc()) {
        Ok(words) => Ok(words),
        Err(_) => Err(Ending::NoMemoryToStart),
    }
}

// Takes stack by writing to it. What it answers means nothing.
#[inline(never)]
fn take_stack(place: usize) -> u8 {
    let mut room = [0; STACK];
    room[place % STACK] = 1;
    room[place / 2 % STACK]
}

fn main(rt: HostRuntime) -> ExitCode {
    let alloc = rt.alloc();
    let mut errors = ByteSink::new(rt.stderr());
    let words = match read_words(&rt) {
        Ok(words) => words,
        Err(ending) => return ExitCode::from(ending.tell(&mut errors)),
    };
    let (Ok(source), Ok(writer)) = (
        BufferedSource::new(alloc, rt.stdin()),
        BufWriter::new(alloc, rt.stdout()),
    ) else {
        return ExitCode::from(Ending::NoMemoryToStart.tell(&mut errors));
    };
    let mut source = source;
    let mut sink = ByteSink::new(writer);
    let progress = Progress::new(&rt, take_stack(words.len()));
    ExitCode::from(run_with_progress(
        &rt,
        alloc,
        words.as_slice(),
        &mut source,
        &mut sink,
        &mut errors,
        &progress,
    ))
}
