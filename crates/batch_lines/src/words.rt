//! Words of a line: its id, and the board that they spell.

ghost use Rattle.std.specs.Prelude.{◌≡◌, ◌≤◌, ◌↔◌, false, true, IfOk, IfSome, IsErrOf, None};
ghost use Rattle.std.specs.Prelude.{length, map, min, not, take};
ghost use Rattle.std.specs.Char.{is_ascii_digit};
ghost use Rattle.std.specs.List.{list_all, position_or_len};
ghost use Rattle.std.specs.Str.Parse.{digits_value};
ghost use Rattle.batch_lines.specs.Lines.{is_blank};
ghost use Rattle.batch_lines.specs.TileNumbers.{tile_number};
ghost use Rattle.batch_lines.specs.Words.{words_of, id_of, tile_words, IsEntry, IsFirstEntryFault};
ghost use Rattle.batch_lines.specs.Words.{entry_code};
ghost use Rattle.batch_lines.specs.declared.words.EntryFault.{EntryFault};

use arrayvec::ArrayVec;
use board::{Board, Shape, TilesFault};
use thiserror::Error;

/// Why a line is refused.
#[derive(Clone, Copy, Debug, PartialEq, Eq, Error)]
pub enum EntryFault {
    /// E12
    #[error("the line is longer than 1,024 bytes, or it is not UTF-8")]
    NoText,
    /// E2 to E4
    #[error("{0}")]
    NoBoard(TilesFault),
}

impl EntryFault {
    /// The code that the fault is reported by: `E12`, or that of the board's fault.
    pub fn code(self) -> &'static str
        ensures { result.now ≡ entry_code self }
    {
        match self {
            EntryFault::NoText => "E12",
            EntryFault::NoBoard(fault) => fault.code(),
        }
    }
}

/// What a line says: its id, and the board that its other words spell.
#[derive(Clone, Copy, Debug)]
pub struct Entry<'a> {
    pub id: &'a str,
    pub board: Board,
}

/// Reads a line: the id and the board that its words spell, or the first fault.
pub fn read_entry(shape: Shape, line: &[u8]) -> Result<Entry<'_>, EntryFault>
    ensures entry { IfOk result (λ entry. IsEntry shape line.now entry.id.now entry.board) }
    ensures fault { (fault : EntryFault) → IsErrOf result fault
        ↔ IsFirstEntryFault shape line.now fault }
{
    let Ok(text) = std::str::from_utf8(line) else {
        return Err(EntryFault::NoText);
    };
    prove!(shape.cells() < WORDS_READ);
    let (id, rest) = cut_word(text);
    let numbers = tile_numbers(rest);
    match Board::from_tiles(shape, numbers.as_slice()) {
        Ok(board) => Ok(Entry { id, board }),
        Err(fault) => Err(EntryFault::NoBoard(fault)),
    }
}

/// The most words that are read: one more than the cells of any board, so that a surplus is seen.
pub(crate) const WORDS_READ: usize = 26;

// The numbers that the first words of a text say.
fn tile_numbers(text: &str) -> ArrayVec<u8, 26>
    ensures { result.items ≡ map tile_number (take 26 (words_of text.now)) }
{
    let mut numbers = ArrayVec::new();
    let mut rest = text;
    'words: while numbers.len() < WORDS_READ {
        let (word, behind) = cut_word(rest);
        if word.is_empty() {
            return numbers;
        }
        numbers.push(tile_number(word.as_bytes()));
        rest = behind;
    }
    numbers
}

// The number that a word of digits says, and 255 for a greater number and for any other word.
pub(crate) fn tile_number(word: &[u8]) -> u8
    ensures { result ≡ tile_number word.now }
{
    if word.is_empty() {
        return 255;
    }
    let Some(number) = digits_number(word) else {
        return 255;
    };
    number.min(255) as u8
}

// The number that a word of digits says, and 256 for a greater number; an empty word says 0. None
// for any other word.
pub(crate) fn digits_number(word: &[u8]) -> Option<u32>
    ensures number { IfSome result (λ number. (list_all is_ascii_digit word.now ≡ true)
        × (number ≡ min 256 (digits_value 10 word.now))) }
    ensures none { result ≡ None → list_all is_ascii_digit word.now ≡ false }
{
    let mut number: u32 = 0;
    'digits: for byte in word {
        if !byte.is_ascii_digit() {
            return None;
        }
        number = (number * 10 + (*byte - b'0') as u32).min(256);
    }
    Some(number)
}

/// The first word of a text, empty where there is none, and the text behind it. Spaces and tabs
/// separate words.
pub fn cut_word(text: &str) -> (&str, &str)
    ensures word { result.0.now ≡ id_of (words_of text.now) }
    ensures rest { words_of result.1.now ≡ tile_words (words_of text.now) }
{
    let bytes = text.as_bytes();
    let start = count_blanks(bytes);
    let end = start + word_length(&bytes[start..]);
    (&text[start..end], &text[end..])
}

// How many blanks come before the first byte that is none.
fn count_blanks(bytes: &[u8]) -> usize
    ensures value { result ≡ position_or_len (λ byte. not (is_blank byte)) bytes.now }
    ensures within { result ≤ length bytes.now }
{
    bytes
        .iter()
        .position(|byte| !is_blank(*byte))
        .unwrap_or(bytes.len())
}

// How many bytes come before the first blank.
fn word_length(bytes: &[u8]) -> usize
    ensures { result ≡ position_or_len is_blank bytes.now }
{
    bytes
        .iter()
        .position(|byte| is_blank(*byte))
        .unwrap_or(bytes.len())
}

// A space or a tab.
fn is_blank(byte: u8) -> bool
    ensures { result ≡ is_blank byte }
{
    byte == b' ' || byte == b'\t'
}
