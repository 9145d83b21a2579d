//! Lines of an input: how they are cut from a source, and what is to be done with each.

ghost use Rattle.std.specs.Prelude.{◌≡◌, ◌≤◌, ℕ, List, [], take};
ghost use Rattle.byte_streams.specs.Streams.{change, from_to};
ghost use Rattle.batch_lines.specs.Lines.{without_return};
ghost use Rattle.batch_lines.specs.Starts.{start_after, passes, IsScanned};
ghost use Rattle.batch_lines.specs.Readings.{LineReaderModel, IsJudged, ReadsLine, ScansLine};

use arrayvec::ArrayVec;
use byte_streams::{ReadFailed, Source};
use std::marker::Model;

/// The most bytes of a line that is answered, without a carriage return and a line feed at its
/// end.
pub const LINE_LIMIT: usize = 1024;

/// The most bytes of an input: one less than what can be counted.
pub const INPUT_LIMIT: u64 = 18_446_744_073_709_551_614;

// A line that is answered and a carriage return.
const KEPT: usize = 1025;

/// What is to be done with a line.
#[derive(Clone, Copy, Debug, PartialEq, Eq)]
pub enum LineKind {
    /// Nothing: it is empty, or has only blanks, or a number sign comes first.
    PassedOver,
    /// Its bytes are to be read.
    Within,
    /// It is to be refused: it has more than 1,024 bytes.
    TooLong,
}

/// A line of an input: its number, counted from 1, and what is to be done with it.
#[derive(Clone, Copy, Debug, PartialEq, Eq)]
pub struct Line {
    pub number: u64,
    pub kind: LineKind,
}

/// Cuts an input into lines. It keeps no more than 1,025 bytes, and takes no memory.
#[derive(Drop)]
pub struct LineReader {
    lines: u64,
    taken: u64,
    kept: ArrayVec<u8, KEPT>,
}

impl Model for LineReader {
    ghost Value = { LineReaderModel };

    ghost view = { λ r. record { lines = r.lines; taken = r.taken; kept = r.kept.items } };

    ghost invariant = { λ r. r.lines ≤ r.taken };
}

impl LineReader {
    /// A reader that has taken nothing yet.
    pub fn new() -> Self
        ensures { result ≡ record { lines = 0; taken = 0; kept = [] } }
    {
        LineReader {
            lines: 0,
            taken: 0,
            kept: ArrayVec::new(),
        }
    }

    /// Takes the next line from the source, with its line feed and nothing behind it, or answers
    /// None at the end. It fails where the source fails, or where the input has more than
    /// 18,446,744,073,709,551,614 bytes; the line that was begun is lost then, and each later call
    /// fails too.
    pub fn next_line<S: Source>(&mut self, source: &mut S) -> Result<Option<Line>, ReadFailed>
        ensures { ReadsLine (change S.state source.old source.new) (from_to self.old self.new)
            result }
    {
        let scan = match scan_line(source, &mut self.taken, &mut self.kept) {
            Ok(Some(scan)) => scan,
            Ok(None) => return Ok(None),
            Err(failure) => return Err(failure),
        };
        self.lines += 1;
        let kind = judge(scan, &mut self.kept);
        Ok(Some(Line {
            number: self.lines,
            kind,
        }))
    }

    /// The bytes of the last line, without a carriage return at its end, where that line is within
    /// the limit.
    pub fn bytes(&self) -> &[u8]
        ensures { result.now ≡ self.now.kept }
    {
        self.kept.as_slice()
    }
}

// How the bytes of a line so far begin.
#[derive(Clone, Copy, Debug, PartialEq, Eq)]
enum Start {
    // Blanks alone.
    Blanks,
    // Blanks, and then one carriage return.
    Return,
    // Blanks, and then a number sign.
    Comment,
    // Anything else.
    Words,
}

impl Start {
    // After one more byte.
    fn after(self, byte: u8) -> Start
        ensures { result ≡ start_after self byte }
    {
        match self {
            Start::Blanks if byte == b' ' || byte == b'\t' => Start::Blanks,
            Start::Blanks if byte == b'\r' => Start::Return,
            Start::Blanks if byte == b'#' => Start::Comment,
            Start::Comment => Start::Comment,
            _ => Start::Words,
        }
    }

    // Whether a line that begins so and ends here is passed over.
    fn passes(self) -> bool
        ensures { result ≡ passes self }
    {
        !matches!(self, Start::Words)
    }
}

// What is remembered of a line beside its first bytes.
#[derive(Clone, Copy, Debug, PartialEq, Eq)]
struct Scan {
    start: Start,
    // It has more bytes than are kept.
    more: bool,
}

// Takes the next line from the source, and keeps its first bytes.
fn scan_line<S: Source>(
    source: &mut S,
    taken: &mut u64,
    kept: &mut ArrayVec<u8, KEPT>,
) -> Result<Option<Scan>, ReadFailed>
    ensures { ScansLine (change S.state source.old source.new) (from_to taken.old taken.new)
        kept.new.items result }
{
    kept.clear();
    if *taken > INPUT_LIMIT {
        return Err(ReadFailed);
    }
    let mut start = Start::Blanks;
    let mut more = false;
    'bytes: loop {
        let next = match source.next_byte() {
            Ok(next) => next,
            Err(failure) => return Err(failure),
        };
        let Some(byte) = next else {
            if kept.is_empty() {
                return Ok(None);
            }
            return Ok(Some(Scan { start, more }));
        };
        *taken += 1;
        if *taken > INPUT_LIMIT {
            return Err(ReadFailed);
        }
        if byte == b'\n' {
            return Ok(Some(Scan { start, more }));
        }
        start = start.after(byte);
        if kept.len() < KEPT {
            kept.push(byte);
        } else {
            more = true;
        }
    }
}

// What is to be done with a line. One carriage return at its end is dropped.
fn judge(scan: Scan, kept: &mut ArrayVec<u8, KEPT>) -> LineKind
    ensures { (line : List ℕ) → IsScanned line kept.old.items scan
        → IsJudged line result kept.new.items }
{
    if scan.start.passes() {
        return LineKind::PassedOver;
    }
    if scan.more {
        return LineKind::TooLong;
    }
    kept.truncate(length_without_return(kept.as_slice()));
    if kept.len() > LINE_LIMIT {
        return LineKind::TooLong;
    }
    LineKind::Within
}

// How many bytes there are without one carriage return at their end.
fn length_without_return(bytes: &[u8]) -> usize
    ensures { take result bytes.now ≡ without_return bytes.now }
{
    if bytes.is_empty() {
        return 0;
    }
    let last = bytes.len() - 1;
    if bytes[last] == b'\r' {
        return last;
    }
    bytes.len()
}
