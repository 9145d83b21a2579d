//! Prints texts that a user of the library or of the program meets, in three parts, each under its
//! word:
//!
//!     golden_texts texts    reports, faults and endings
//!     golden_texts runs     what the program answers to the rows on standard input that have an
//!                           input of their own behind a tab
//!     golden_texts words    what the words of the other rows on standard input ask for
//!
//! Without a word it prints all parts. The exit status is 1 where no part has that word.
#![tactic(auto)]

mod runs;
mod texts;
mod words;

use std::env;
use std::io::{self, ErrorKind, Print};
use std::rt::Env;
use std::sync::Wait;
use std::thread::Threads;

// The words of the parts, in the order in which they are printed.
const PARTS: [&str; 3] = ["texts", "runs", "words"];

fn main(rt: HostRuntime) -> io::Result<()> {
    let table = io::read_to_string(rt.alloc(), rt.stdin())?;
    if let Some(word) = first_word(&rt)? {
        return print_part(&rt, &word, &table);
    }
    for part in PARTS {
        println!(rt; "== {part}")?;
        print_part(&rt, part, &table)?;
    }
    Ok(())
}

// The first word that the program was given, if any.
fn first_word(rt: &(impl Env + AllocGlobal)) -> io::Result<Option<String>> {
    Ok(env::args(rt)?.nth(1))
}

// Prints the part with this word.
fn print_part(
    rt: &(impl Print + AllocGlobal + Threads + Wait + Sync),
    word: &str,
    table: &str,
) -> io::Result<()> {
    match word {
        "texts" => texts::print_texts(rt),
        "runs" => runs::print_runs(rt, table),
        "words" => words::print_rows(rt, table),
        _ => Err(ErrorKind::InvalidInput.into()),
    }
}
