//! The fields of a certificate are read from a source, each judged as a whole.

ghost use Rattle.std.specs.Prelude.{◌≡◌, ◌<◌, ◌-◌, ◌∷◌, [], IfSome, OnOk, length};
ghost use Rattle.std.specs.Prelude.{vec_len, vec_capacity};
ghost use Rattle.std.specs.Int.{w32, w64, from_le_bytes};
ghost use Rattle.byte_streams.specs.Streams.{change};
ghost use Rattle.certificate.specs.Certificates.{IsBoardOf};
ghost use Rattle.certificate.specs.Spellings.{number_text, count_text};
ghost use Rattle.certificate.specs.Fields.{SpellsVersion, SpellsByte, SpellsNumberWithin};
ghost use Rattle.certificate.specs.Fields.{SpellsCount};
ghost use Rattle.board.specs.Shapes.{IsShape, cell_count};
ghost use Rattle.certificate.specs.Fields.{SpellsCosts, SpellsBoard, SpellsLetter, SpellsRow};
ghost use Rattle.certificate.specs.Readings.{version, version_in, byte_within, number_within};
ghost use Rattle.certificate.specs.Readings.{count};
ghost use Rattle.certificate.specs.Readings.{costs_of, weights_in, board, letter, row, end};
ghost use Rattle.certificate.specs.Sources.{TakesDue, ReadsField, ReadsAll};

use crate::certificate::{Version, comes_after, kind};
use crate::faults::{FormatFault, ReadFault};
use board::{Board, GREATEST_COST, Move, Shape, Weights};
use byte_streams::Source;
use memory::reserve;

// The next byte, which is due.
fn next_due<S: Source>(source: &mut S) -> Result<u8, ReadFault>
    ensures { TakesDue 1 (λ byte. byte ∷ []) (change S.state source.old source.new) result }
{
    match source.next_byte() {
        Ok(Some(byte)) => Ok(byte),
        Ok(None) => Err(ReadFault::Format(FormatFault::Truncated)),
        Err(_) => Err(ReadFault::Failed),
    }
}

// The bytes of a field, as many as there is room for.
pub(crate) fn fill<S: Source>(source: &mut S, text: &mut [u8]) -> Result<(), ReadFault>
    requires { 0 < length text.old }
    ensures { TakesDue (length text.old) (λ _. text.new)
        (change S.state source.old source.new) result }
{
    'bytes: for place in 0..text.len() {
        text[place] = next_due(source)?;
    }
    Ok(())
}

// The eight bytes that each certificate begins with, which say its version.
pub(crate) fn read_version<S: Source>(source: &mut S) -> Result<Version, ReadFault>
    ensures { ReadsField version SpellsVersion (change S.state source.old source.new) result }
{
    let mut text = [0; 8];
    fill(source, &mut text)?;
    match version_from(&text) {
        Some(version) => Ok(version),
        None => Err(ReadFault::Format(FormatFault::OtherMagic)),
    }
}

// The version that eight bytes say.
fn version_from(text: &[u8; 8]) -> Option<Version>
    ensures { result ≡ version_in text.now }
{
    if *text == *b"TILECRT1" {
        return Some(Version::One);
    }
    if *text == *b"TILECRT2" {
        return Some(Version::Two);
    }
    None
}

// One byte within a range.
pub(crate) fn read_byte<S: Source>(source: &mut S, low: u8, high: u8) -> Result<u8, ReadFault>
    ensures { ReadsField (byte_within low high) (SpellsByte low high)
        (change S.state source.old source.new) result }
{
    let byte = next_due(source)?;
    if byte < low || high < byte {
        return Err(ReadFault::Format(FormatFault::OutOfRange));
    }
    Ok(byte)
}

// A number that is at most this one.
pub(crate) fn read_number<S: Source>(source: &mut S, high: u32) -> Result<u32, ReadFault>
    ensures { ReadsField (number_within high) (SpellsNumberWithin high)
        (change S.state source.old source.new) result }
{
    let mut text = [0; 4];
    fill(source, &mut text)?;
    let number = number_from(text);
    if number > high {
        return Err(ReadFault::Format(FormatFault::OutOfRange));
    }
    Ok(number)
}

// The number of four bytes, the lowest first.
fn number_from(text: [u8; 4]) -> u32
    ensures value { result ≡ from_le_bytes w32 text }
    ensures text { number_text result ≡ text }
{
    u32::from_le_bytes(text)
}

// The number of eight bytes, the lowest first.
fn count_from(text: [u8; 8]) -> u64
    ensures value { result ≡ from_le_bytes w64 text }
    ensures text { count_text result ≡ text }
{
    u64::from_le_bytes(text)
}

// The number of rows, whatever it is.
pub(crate) fn read_count<S: Source>(source: &mut S) -> Result<u64, ReadFault>
    ensures { ReadsField count SpellsCount (change S.state source.old source.new) result }
{
    let mut text = [0; 8];
    fill(source, &mut text)?;
    Ok(count_from(text))
}

// The weights of tiles 1, 2, .. in order, which are neither unit nor face costs.
pub(crate) fn read_weights<S: Source>(source: &mut S, shape: Shape) -> Result<Weights, ReadFault>
    ensures { ReadsField (costs_of shape 2) (SpellsCosts shape 2)
        (change S.state source.old source.new) result }
{
    let mut text = [0; 24];
    let listed = &mut text[..shape.cells() - 1];
    fill(source, listed)?;
    match listed_costs(shape, listed) {
        Some(costs) => Ok(costs),
        None => Err(ReadFault::Format(FormatFault::OutOfRange)),
    }
}

// The costs of these weights, where they are neither unit nor face costs.
fn listed_costs(shape: Shape, listed: &[u8]) -> Option<Weights>
    requires shape { IsShape shape }
    requires count { length listed.now ≡ cell_count shape - 1 }
    ensures costs { IfSome result (λ c. SpellsCosts shape 2 c listed.now) }
    ensures value { result ≡ weights_in shape listed.now }
{
    let Ok(costs) = Weights::list(shape, listed) else {
        return None;
    };
    if kind(&costs) != 2 {
        return None;
    }
    Some(costs)
}

// A board of the shape.
pub(crate) fn read_board<S: Source>(source: &mut S, shape: Shape) -> Result<Board, ReadFault>
    ensures { ReadsField (board shape) (SpellsBoard shape)
        (change S.state source.old source.new) result }
{
    let mut text = [0; 25];
    let tiles = &mut text[..shape.cells()];
    fill(source, tiles)?;
    match Board::from_tiles(shape, tiles) {
        Ok(board) => Ok(board),
        Err(_) => Err(ReadFault::Format(FormatFault::OutOfRange)),
    }
}

// The letter of a move.
pub(crate) fn read_letter<S: Source>(source: &mut S) -> Result<Move, ReadFault>
    ensures { ReadsField letter SpellsLetter (change S.state source.old source.new) result }
{
    let byte = next_due(source)?;
    match Move::from_letter(byte) {
        Some(direction) => Ok(direction),
        None => Err(ReadFault::Format(FormatFault::OutOfRange)),
    }
}

// A row, which comes after the one with this board, if there is one. Its order is judged last. Its
// place in the list is made when its board is there and its cost is due, so that no refusal of
// memory hides a fault.
pub(crate) fn read_row<S: Source>(
    source: &mut S,
    shape: Shape,
    before: Option<Board>,
    rows: &mut Vec<(Board, u32)>,
) -> Result<(Board, u32), ReadFault>
    requires { IfSome before (IsBoardOf shape) }
    ensures row { ReadsField (row shape before) (SpellsRow shape before)
        (change S.state source.old source.new) result }
    ensures rows { rows.new.items ≡ rows.old.items }
    ensures place { OnOk result (vec_len rows.new < vec_capacity rows.new) }
{
    let board = read_board(source, shape)?;
    if let Err(refused) = reserve(rows, 1) {
        return Err(ReadFault::NoMemory(refused));
    }
    let cost = read_number(source, GREATEST_COST)?;
    if !comes_after(before, &board) {
        return Err(ReadFault::Format(FormatFault::NotRising));
    }
    Ok((board, cost))
}

// Nothing is left.
pub(crate) fn read_end<S: Source>(source: &mut S) -> Result<(), ReadFault>
    ensures { ReadsAll end (λ _ text. text ≡ []) (change S.state source.old source.new) result }
{
    match source.next_byte() {
        Ok(None) => Ok(()),
        Ok(Some(_)) => Err(ReadFault::Format(FormatFault::BytesAfterEnd)),
        Err(_) => Err(ReadFault::Failed),
    }
}
