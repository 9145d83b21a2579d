//! Prints what searches answer, and what the checker says of their plans, in five parts, each under
//! its word. The first two compare with a breadth-first search; the next two are about a board that
//! is as far from the goal as one of 3 by 3 can be:
//!
//!     golden_searches guided      known lines, and each partition of the tiles of small shapes
//!     golden_searches weighted    drawn weights, and certificates with a byte changed
//!     golden_searches checked     the checker's own tables, folded ones, and those of other problems
//!     golden_searches altered     certificates with one row altered, at each of 500 places
//!     golden_searches halted      a board of 2 by 2, where the run is halted by each cause
//!
//! Without a word it prints all parts. The exit status is 1 where no part has that word.
#![tactic(auto)]

mod altered;
mod checked;
mod guided;
mod halted;
mod problems;
mod weighted;

use std::env;
use std::io::{self, ErrorKind, Print};
use std::rt::Env;
use std::sync::Wait;
use std::thread::Threads;

// The words of the parts, in the order in which they are printed.
const PARTS: [&str; 5] = ["guided", "weighted", "checked", "altered", "halted"];

fn main(rt: HostRuntime) -> io::Result<()> {
    if let Some(word) = first_word(&rt)? {
        return print_part(&rt, &word);
    }
    for part in PARTS {
        println!(rt; "== {part}")?;
        print_part(&rt, part)?;
    }
    Ok(())
}

// The first word that the program was given, if any.
fn first_word(rt: &(impl Env + AllocGlobal)) -> io::Result<Option<String>> {
    Ok(env::args(rt)?.nth(1))
}

// Prints the part with this word.
fn print_part<R: Print + AllocGlobal + Threads + Wait + Sync>(
    rt: &R,
    word: &str,
) -> io::Result<()> {
    match word {
        "guided" => guided::print_guided(rt),
        "weighted" => weighted::print_weighted(rt),
        "checked" => checked::print_checked(rt),
        "altered" => altered::print_altered(rt),
        "halted" => halted::print_halted(rt),
        _ => Err(ErrorKind::InvalidInput.into()),
    }
}
