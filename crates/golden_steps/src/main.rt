//! Prints what steps of workers of hash-distributed A* answer (Kishimoto, Fukunaga, Botea 2013), in
//! three parts, each under its word:
//!
//!     golden_steps steps        scenes of one worker of two
//!     golden_steps replays      the replays on standard input
//!     golden_steps far_board    threads on a board that is as far from the goal as one of 3 by 3
//!                               can be
//!
//! Without a word it prints all parts. The exit status is 1 where no part has that word.
#![tactic(auto)]

mod far_board;
mod replays;
mod steps;

use std::env;
use std::io::{self, ErrorKind, Print, Read};
use std::rt::Env;
use std::sync::Wait;
use std::thread::Threads;

// The words of the parts, in the order in which they are printed.
const PARTS: [&str; 3] = ["steps", "replays", "far_board"];

fn main(rt: HostRuntime) -> io::Result<()> {
    if let Some(word) = first_word(&rt)? {
        return print_part(&rt, &word, rt.stdin());
    }
    for part in PARTS {
        println!(rt; "== {part}")?;
        print_part(&rt, part, rt.stdin())?;
    }
    Ok(())
}

// The first word that the program was given, if any.
fn first_word(rt: &(impl Env + AllocGlobal)) -> io::Result<Option<String>> {
    Ok(env::args(rt)?.nth(1))
}

// Prints the part with this word.
fn print_part(
    rt: &(impl Print + AllocGlobal + Threads + Wait + Sync),
    word: &str,
    input: impl Read + Drop,
) -> io::Result<()> {
    match word {
        "steps" => steps::print_scenes(rt),
        "replays" => replays::print_replays(rt, input),
        "far_board" => far_board::print_counts(rt),
        _ => Err(ErrorKind::InvalidInput.into()),
    }
}
