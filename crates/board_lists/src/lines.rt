//! The line of a board.

ghost use Rattle.std.specs.Prelude.{◌≡◌, ◌≤◌, ◌+◌, ◌++◌, decimal, length};
ghost use Rattle.std.specs.List.{flat_map};
ghost use Rattle.byte_streams.specs.Streams.{change};
ghost use Rattle.byte_streams.specs.Sink.{Writes};
ghost use Rattle.board_lists.specs.Lines.{tile_text, line_text};

use arrayvec::ArrayVec;
use board::Board;
use byte_streams::{Sink, WriteFailed};
use itoa::Buffer;

/// Writes the line of the board with this number, all at once.
pub(crate) fn put_line<K: Sink>(sink: &mut K, number: u64, board: &Board) -> Result<(), WriteFailed>
    ensures { Writes (change K.state sink.old sink.new) (line_text number board.now) result }
{
    let line = line_of(number, board);
    sink.put(line.as_slice())
}

// The line of the board with this number: 1 byte, 20 digits, 4 bytes for each of 25 tiles, and the
// line feed have room.
fn line_of(number: u64, board: &Board) -> ArrayVec<u8, 128>
    ensures { result.items ≡ line_text number board.now }
{
    let mut line = ArrayVec::new();
    line.push(b'b');
    push_number(&mut line, number);
    push_tiles(&mut line, board.tiles());
    line.push(b'\n');
    line
}

// Puts the digits of a number at the end of the line.
fn push_number(line: &mut ArrayVec<u8, 128>, number: u64)
    requires { length line.old.items ≤ 100 }
    ensures digits { line.new.items ≡ line.old.items ++ decimal number }
    ensures few { length line.new.items ≤ length line.old.items + 20 }
{
    let mut buffer = Buffer::new();
    let digits = buffer.format(number);
    let _fits = line.try_extend_from_slice(digits.as_bytes());
}

// Puts tiles at the end of the line, a space before each.
fn push_tiles(line: &mut ArrayVec<u8, 128>, tiles: &[u8])
    requires room { length line.old.items ≤ 21 }
    requires few { length tiles.now ≤ 25 }
    ensures tiles { line.new.items ≡ line.old.items ++ flat_map tile_text tiles.now }
    ensures few { length line.new.items ≤ 121 }
{
    'tiles: for tile in tiles {
        push_tile(line, *tile);
    }
}

// Puts a space and a tile at the end of the line.
fn push_tile(line: &mut ArrayVec<u8, 128>, tile: u8)
    requires { length line.old.items ≤ 117 }
    ensures tile { line.new.items ≡ line.old.items ++ tile_text tile }
    ensures few { length line.new.items ≤ length line.old.items + 4 }
{
    line.push(b' ');
    let mut buffer = Buffer::new();
    let digits = buffer.format(tile);
    let _fits = line.try_extend_from_slice(digits.as_bytes());
}
