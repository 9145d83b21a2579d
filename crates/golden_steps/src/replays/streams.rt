//! A reader and a writer that print what passes through them, and the bytes of a line in escapes.

ghost use Rattle.std.specs.Prelude.{◌<◌, length, IfSome};

use std::alloc::Global;
use std::io::{self, ErrorKind, Read, Write};
use std::str::Lines;
use std::vec::IntoIter;

/// Gives the bytes of lines in escapes, and prints each line when it is begun.
#[derive(Drop)]
pub struct LinePrinter<'a, P> {
    rt: &'a P,
    alloc: Global,
    // The lines that are not begun.
    lines: Lines<'a>,
    // The bytes that are left of the line that is begun.
    line: IntoIter<u8>,
}

impl<'a, P: Print> LinePrinter<'a, P> {
    /// A reader of these lines.
    pub fn new(rt: &'a P, alloc: Global, text: &'a str) -> Self {
        LinePrinter {
            rt,
            alloc,
            lines: text.lines(),
            line: Vec::new(alloc).into_iter(),
        }
    }

    // The next byte, or None at the end.
    fn next_byte(&mut self) -> io::Result<Option<u8>> {
        if let Some(byte) = self.line.next() {
            return Ok(Some(byte));
        }
        let Some(line) = self.lines.next() else {
            return Ok(None);
        };
        println!(self.rt; "< {line}")?;
        let Some(bytes) = line_of(self.alloc, line)? else {
            return Err(ErrorKind::InvalidData.into());
        };
        self.line = bytes.into_iter();
        Ok(self.line.next())
    }
}

impl<P: Print> Read for LinePrinter<'_, P> {
    fn read(&mut self, buffer: &mut [u8]) -> io::Result<usize> {
        let [first, ..] = buffer else {
            return Ok(0);
        };
        let Some(byte) = self.next_byte()? else {
            return Ok(0);
        };
        *first = byte;
        Ok(1)
    }
}

/// Keeps what is written, and prints it when it is flushed.
#[derive(Drop)]
pub struct FlushPrinter<'a, P> {
    rt: &'a P,
    // What was written since the last flush.
    kept: Vec<u8>,
}

impl<'a, P: Print> FlushPrinter<'a, P> {
    /// A writer that has kept nothing.
    pub fn new(rt: &'a P, alloc: Global) -> Self {
        FlushPrinter {
            rt,
            kept: Vec::new(alloc),
        }
    }

    /// Prints behind `? ` what was written and never flushed.
    pub fn print_rest(self) -> io::Result<()> {
        print_lines(self.rt, "? ", self.kept.as_slice())
    }
}

impl<P: Print> Write for FlushPrinter<'_, P> {
    fn write(&mut self, bytes: &[u8]) -> io::Result<usize> {
        self.kept.extend_from_slice(bytes)?;
        Ok(bytes.len())
    }

    fn flush(&mut self) -> io::Result<()> {
        print_lines(self.rt, "> ", self.kept.as_slice())?;
        self.kept.clear();
        Ok(())
    }
}

// Prints each line of a text behind a mark. A `\` marks a last line without line feed.
fn print_lines(rt: &impl Print, mark: &str, bytes: &[u8]) -> io::Result<()> {
    let Ok(text) = str::from_utf8(bytes) else {
        return Err(ErrorKind::InvalidData.into());
    };
    for line in text.split_inclusive('\n') {
        match line.strip_suffix('\n') {
            Some(line) => println!(rt; "{mark}{line}")?,
            None => println!(rt; "{mark}{line}\\")?,
        }
    }
    Ok(())
}

// The bytes of a line in escapes, and a line feed if no lone `\` takes it away. `None` where a `\`
// begins no escape.
fn line_of(alloc: Global, text: &str) -> io::Result<Option<Vec<u8>>> {
    let mut bytes = Vec::new(alloc);
    let mut rest = text.as_bytes();
    for _ in 0..text.len() {
        if rest.is_empty() {
            break;
        }
        if let [b'\\'] = rest {
            return Ok(Some(bytes));
        }
        let Some((byte, behind)) = first_byte(rest) else {
            return Ok(None);
        };
        bytes.push(byte)?;
        rest = behind;
    }
    bytes.push(b'\n')?;
    Ok(Some(bytes))
}

// The first byte of a text in escapes, and the text after it.
fn first_byte(text: &[u8]) -> Option<(u8, &[u8])>
    ensures { IfSome result (λ first. length first.1.now < length text.now) }
{
    match text {
        [b'\\', high, low, rest @ ..] => {
            let high = char::from(*high).to_digit(16)?;
            let low = char::from(*low).to_digit(16)?;
            Some(((high * 16 + low) as u8, rest))
        }
        [b'\\', ..] | [] => None,
        [byte, rest @ ..] => Some((*byte, rest)),
    }
}
