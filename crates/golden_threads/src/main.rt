//! Prints what workers answer of boards whose least cost is known, in threads and in worlds on one
//! thread. With the name of a part it prints that part alone, else each under its name:
//!
//!     costs        all boards of small shapes
//!     goals        goals that are near
//!     held         a board while one of two workers is held
//!     gated        a board while a limit stops workers, or one of them is slow
//!     drawn        worlds after each beginning of a list of random steps
//!     solved       worlds after one worker's own run, and after given steps
//!
//! The exit status is 1 where a part fails, and 2 for a name of no part.
#![tactic(auto)]

ghost use Rattle.std.specs.Prelude.{◌≡◌, []};

mod costs;
mod drawn;
mod gated;
mod goals;
mod held;
mod solved;

use board::Shape;
use lower_bound::Bound;
use pattern_index::Partition;
use std::alloc::Global;
use std::env::FillError;
use std::io::{self, Eprint, Print};
use std::process::ExitCode;
use std::rt::Env;
use std::sync::Wait;
use std::thread::Threads;

// The parts, in the order in which they are printed.
const PARTS: [&str; 6] = ["costs", "goals", "held", "gated", "drawn", "solved"];

fn main(rt: HostRuntime) -> ExitCode {
    let mut buffer = [0; 16];
    match read_word(&rt, &mut buffer) {
        Some(name) => ExitCode::from(run_part(&rt, name)),
        None => ExitCode::from(run_all(&rt)),
    }
}

// The first argument, or None where there is none. One that is too long, or no text, is read as an
// empty word.
fn read_word<'a>(rt: &impl Env, buffer: &'a mut [u8]) -> Option<&'a str> {
    match rt.arg(1, buffer) {
        Ok(length) => Some(std::str::from_utf8(&buffer[..length]).unwrap_or("")),
        Err(FillError::NotPresent) => None,
        Err(FillError::TooLong) => Some(""),
    }
}

// Prints all parts, and answers the exit status.
fn run_all<R: Threads + Wait + Print + Eprint + AllocGlobal + Sync>(rt: &R) -> u8 {
    let mut status = 0;
    for name in PARTS {
        let _ = println!(rt; "== {name}");
        status = status.max(run_part(rt, name));
    }
    status
}

// Prints a part, and answers the exit status.
fn run_part<R: Threads + Wait + Print + Eprint + AllocGlobal + Sync>(rt: &R, name: &str) -> u8 {
    match print_part(rt, name) {
        Some(printed) => status_of(rt, name, &printed),
        None => {
            let _ = rt.eprintln(
                "usage: golden_threads [costs | goals | held | gated | drawn | solved]",
            );
            2
        }
    }
}

// The exit status of a part, after its fault is printed, if there is one.
fn status_of(rt: &impl Eprint, name: &str, printed: &io::Result<()>) -> u8 {
    match printed {
        Ok(()) => 0,
        Err(error) => {
            let _ = eprintln!(rt; "golden_threads: {name}: {error}");
            1
        }
    }
}

// Prints the part of this name, or answers None where there is none.
fn print_part<R: Threads + Wait + Print + AllocGlobal + Sync>(
    rt: &R,
    name: &str,
) -> Option<io::Result<()>> {
    match name {
        "costs" => Some(costs::print_counts(rt)),
        "goals" => Some(goals::print_counts(rt)),
        "held" => Some(held::print_cost(rt)),
        "gated" => Some(gated::print_runs(rt)),
        "drawn" => Some(drawn::print_drawn(rt)),
        "solved" => Some(solved::print_solved(rt)),
        _ => None,
    }
}

/// The bound of no group, whose sums are 0.
pub fn no_tables(alloc: Global, shape: Shape) -> Bound
    ensures sides { result.split.grid ≡ shape }
    ensures tables { (result.lookups ≡ []) × (result.folds ≡ []) }
{
    let partition = Partition::new(shape, Vec::new(alloc)).unwrap();
    Bound::new(partition, Vec::new(alloc)).unwrap()
}
