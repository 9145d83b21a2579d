//! Runs the program `tilesolve` once for each row of words with an input, and prints for each row
//! what it answered.
//!
//! A row is a line of the input that begins with no `#` and has a tab: arguments with a space
//! between two, then the tab, then the input in escapes. `\n`, `\r`, `\t` and `\\` are one byte each,
//! and so is `\x` with two hexadecimal digits.
//!
//! What is printed is the row itself, the status, the lines of the output behind `> `, those of
//! standard error behind `! `, and an empty line. The output is in the same escapes, which show
//! each of its bytes.

ghost use Rattle.std.specs.Prelude.{◌<◌, length, IfSome};

use crate::words::words_of;
use batch_cli::run_program;
use byte_streams::{ByteSink, ByteSource};
use std::alloc::Global;
use std::io::{self, ErrorKind};
use std::sync::Wait;
use std::thread::Threads;

/// Prints the rows of an input that have an input of their own, and what the program answers to each.
pub fn print_runs(
    rt: &(impl Print + AllocGlobal + Threads + Wait + Sync),
    table: &str,
) -> io::Result<()> {
    for row in table.lines() {
        if !row.starts_with('#') && row.contains('\t') {
            print_run(rt, row)?;
        }
    }
    Ok(())
}

// Prints a row, and what the program answers to it.
fn print_run(rt: &(impl Print + AllocGlobal + Threads + Wait + Sync), row: &str) -> io::Result<()> {
    let alloc = rt.alloc();
    let Some((words, input)) = row.split_once('\t') else {
        return Err(ErrorKind::InvalidData.into());
    };
    let Some(input) = unescape(alloc, input)? else {
        return Err(ErrorKind::InvalidData.into());
    };
    let words = words_of(alloc, words)?;
    let answer = answer_to(rt, words.as_slice(), input.as_slice())?;
    println!(rt; "{row}\n{answer}")
}

// The status of a run and what it writes.
fn answer_to(
    rt: &(impl AllocGlobal + Threads + Wait + Sync),
    words: &[String],
    input: &[u8],
) -> io::Result<String> {
    let alloc = rt.alloc();
    let mut source = ByteSource::new(input);
    let mut sink = ByteSink::new(Vec::new(alloc));
    let mut errors = ByteSink::new(Vec::new(alloc));
    let status = run_program(rt, alloc, words, &mut source, &mut sink, &mut errors);
    let mut text = format!(in alloc; "status {status}\n")?;
    push_lines(&mut text, "> ", sink.into_inner().as_slice())?;
    push_lines(&mut text, "! ", errors.into_inner().as_slice())?;
    Ok(text)
}

// The bytes of a text in escapes, or `None` where a backslash begins no escape.
fn unescape(alloc: Global, text: &str) -> io::Result<Option<Vec<u8>>> {
    let mut bytes = Vec::new(alloc);
    let mut rest = text.as_bytes();
    for _ in 0..text.len() {
        if rest.is_empty() {
            break;
        }
        let Some((byte, behind)) = first_byte(rest) else {
            return Ok(None);
        };
        bytes.push(byte)?;
        rest = behind;
    }
    Ok(Some(bytes))
}

// The first byte of a text in escapes, and the text after it.
fn first_byte(text: &[u8]) -> Option<(u8, &[u8])>
    ensures { IfSome result (λ first. length first.1.now < length text.now) }
{
    match text {
        [b'\\', b'n', rest @ ..] => Some((b'\n', rest)),
        [b'\\', b'r', rest @ ..] => Some((b'\r', rest)),
        [b'\\', b't', rest @ ..] => Some((b'\t', rest)),
        [b'\\', b'\\', rest @ ..] => Some((b'\\', rest)),
        [b'\\', b'x', high, low, rest @ ..] => {
            let high = char::from(*high).to_digit(16)?;
            let low = char::from(*low).to_digit(16)?;
            Some(((high * 16 + low) as u8, rest))
        }
        [b'\\', ..] | [] => None,
        [byte, rest @ ..] => Some((*byte, rest)),
    }
}

// Adds the lines of bytes to a text, each in escapes, on a line of its own, behind a mark.
fn push_lines(text: &mut String, mark: &str, bytes: &[u8]) -> io::Result<()> {
    for line in bytes.split_inclusive(|byte| *byte == b'\n') {
        text.push_str(mark)?;
        for byte in line {
            push_escaped(text, *byte)?;
        }
        text.push('\n')?;
    }
    Ok(())
}

// Adds a byte to a text: itself where it is printable ASCII, else as an escape.
fn push_escaped(text: &mut String, byte: u8) -> io::Result<()> {
    match byte {
        b'\n' => text.push_str("\\n")?,
        b'\r' => text.push_str("\\r")?,
        b'\t' => text.push_str("\\t")?,
        b'\\' => text.push_str("\\\\")?,
        b' '..=b'~' => text.push(char::from(byte))?,
        _ => write!(text, "\\x{byte:02x}")?,
    }
    Ok(())
}
