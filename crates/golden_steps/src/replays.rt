//! What replays read and write, in the order of time.
//!
//! The input has paragraphs with an empty line between two. One that begins with `#` is a comment.
//! Each other one is a replay: words that say its setup, and then the lines of its input. In these
//! a `\` and two hexadecimal digits mean a byte, and a `\` at the end takes the line feed away.
//!
//! For each replay its words are printed, and each line of the input behind `< ` when its first
//! byte is read. What the replay writes is printed behind `> ` when it flushes, and what it never
//! flushed behind `? `. The status or the code of the fault comes last.

mod setups;
mod streams;

use batch_cli::{Setup, run_replay};
use byte_streams::{ByteSink, ByteSource};
use setups::setup_of;
use std::io::{self, ErrorKind, Read};
use std::thread::Threads;
use streams::{FlushPrinter, LinePrinter};

/// Runs the replays of an input, and prints each.
pub fn print_replays(
    rt: &(impl Print + AllocGlobal + Threads + Sync),
    input: impl Read + Drop,
) -> io::Result<()> {
    let text = io::read_to_string(rt.alloc(), input)?;
    for paragraph in text.split("\n\n") {
        if !paragraph.starts_with('#') {
            print_replay(rt, paragraph)?;
        }
    }
    Ok(())
}

// Runs the replay that a paragraph says, and prints it.
fn print_replay(
    rt: &(impl Print + AllocGlobal + Threads + Sync),
    paragraph: &str,
) -> io::Result<()> {
    let (words, input) = paragraph.split_once('\n').unwrap_or((paragraph, ""));
    let Some(setup) = setup_of(rt.alloc(), words) else {
        return Err(ErrorKind::InvalidData.into());
    };
    println!(rt; "{words}")?;
    run(rt, &setup, input)
}

// Runs a replay of this input, whose lines are in escapes, and prints what happens.
fn run(
    rt: &(impl Print + AllocGlobal + Threads + Sync),
    setup: &Setup,
    input: &str,
) -> io::Result<()> {
    let alloc = rt.alloc();
    let mut source = ByteSource::new(LinePrinter::new(rt, alloc, input));
    let mut sink = ByteSink::new(FlushPrinter::new(rt, alloc));
    let answer = run_replay(rt, alloc, &mut source, &mut sink, setup);
    sink.into_inner().print_rest()?;
    match answer {
        Ok(status) => println!(rt; "status {status}\n"),
        Err(fault) => println!(rt; "{}\n", fault.code()),
    }
}
