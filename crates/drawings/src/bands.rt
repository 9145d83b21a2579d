//! Pictures side by side.

ghost use Rattle.std.specs.Prelude.{ℕ, ◌≡◌, ◌++◌, ◌∷◌, [], ◌<◌, OnOk, codes};
ghost use Rattle.std.specs.List.{flat_map, range_with_len};
ghost use Rattle.drawings.specs.Drawings.{at_right, tile_cell_text, caption_text, columns_of};
ghost use Rattle.drawings.specs.Drawings.{tiles_in_row, board_row_text, heading_text};
ghost use Rattle.drawings.specs.Drawings.{picture_line_text};
ghost use Rattle.drawings.specs.Drawings.{band_text, bands_text};

use crate::pictures::{Caption, Picture};
use crate::pushes::{part, push_all, push_at_right, push_spaces};
use board::{Board, Move, Shape};
use itoa::Buffer;
use memory::{OutOfMemory, push};

/// Puts all pictures at the end of the text, `count` side by side.
pub(crate) fn push_bands(
    text: &mut Vec<u8>,
    shape: Shape,
    count: usize,
    pictures: &[Picture],
) -> Result<(), OutOfMemory>
    requires { 0 < count }
    ensures { OnOk result
        (text.new.items ≡ text.old.items ++ bands_text shape count pictures.now) }
{
    'bands: for band in 0..pictures.len().div_ceil(count) {
        push_band(text, shape, part(pictures, band * count, count))?;
    }
    Ok(())
}

// Pictures side by side: their captions, their rows, and an empty line.
fn push_band(text: &mut Vec<u8>, shape: Shape, pictures: &[Picture]) -> Result<(), OutOfMemory>
    ensures { OnOk result (text.new.items ≡ text.old.items ++ band_text shape pictures.now) }
{
    push_headings(text, pictures)?;
    push_rows(text, shape.rows(), pictures)?;
    push(text, b'\n')
}

// The line of captions.
fn push_headings(text: &mut Vec<u8>, pictures: &[Picture]) -> Result<(), OutOfMemory>
    ensures { OnOk result
        (text.new.items ≡ text.old.items ++ picture_line_text heading_text pictures.now) }
{
    'pictures: for picture in pictures {
        push_heading(text, picture)?;
    }
    push(text, b'\n')
}

// The caption at the right of the columns of its board.
fn push_heading(text: &mut Vec<u8>, picture: &Picture) -> Result<(), OutOfMemory>
    ensures { OnOk result (text.new.items ≡ text.old.items ++ heading_text picture.now) }
{
    let columns = width_of(&picture.board);
    match picture.caption {
        Caption::Start => push_at_right(text, columns, b"start"),
        Caption::Step(number, direction) => push_step(text, columns, number, direction),
        Caption::Goal => push_at_right(text, columns, b"goal"),
    }
}

// The number of a move and its letter at the right of `columns` columns.
fn push_step(
    text: &mut Vec<u8>,
    columns: usize,
    number: u32,
    direction: Move,
) -> Result<(), OutOfMemory>
    ensures { OnOk result (text.new.items
        ≡ text.old.items ++ at_right columns (caption_text (Caption.Step number direction))) }
{
    let mut buffer = Buffer::new();
    let digits = buffer.format(number).as_bytes();
    push_spaces(text, columns.saturating_sub(digits.len() + 2))?;
    push_all(text, digits)?;
    push_all(text, &[b' ', direction.letter()])
}

// The lines of the boards' rows.
fn push_rows(text: &mut Vec<u8>, rows: u8, pictures: &[Picture]) -> Result<(), OutOfMemory>
    ensures { OnOk result (text.new.items ≡ text.old.items
        ++ flat_map (λ row. picture_line_text (board_row_text row) pictures.now) (range_with_len 0 rows)) }
{
    'rows: for row in 0..rows {
        push_row_line(text, row, pictures)?;
    }
    Ok(())
}

// The line of one row of the boards.
fn push_row_line(text: &mut Vec<u8>, row: u8, pictures: &[Picture]) -> Result<(), OutOfMemory>
    ensures { OnOk result
        (text.new.items ≡ text.old.items ++ picture_line_text (board_row_text row) pictures.now) }
{
    'pictures: for picture in pictures {
        push_row(text, row, picture)?;
    }
    push(text, b'\n')
}

// A row of a board, with three columns at its left.
fn push_row(text: &mut Vec<u8>, row: u8, picture: &Picture) -> Result<(), OutOfMemory>
    ensures { OnOk result (text.new.items ≡ text.old.items ++ board_row_text row picture.now) }
{
    push_all(text, b"   ")?;
    push_tiles(text, row_tiles(&picture.board, row))
}

// Tiles, each at the right of three columns.
fn push_tiles(text: &mut Vec<u8>, tiles: &[u8]) -> Result<(), OutOfMemory>
    ensures { OnOk result (text.new.items ≡ text.old.items
        ++ flat_map (λ tile. at_right 3 (tile_cell_text tile)) tiles.now) }
{
    'tiles: for tile in tiles {
        push_tile(text, *tile)?;
    }
    Ok(())
}

// A tile, or a dot for the blank, at the right of three columns.
fn push_tile(text: &mut Vec<u8>, tile: u8) -> Result<(), OutOfMemory>
    ensures { OnOk result (text.new.items ≡ text.old.items ++ at_right 3 (tile_cell_text tile)) }
{
    if tile == 0 {
        return push_at_right(text, 3, b".");
    }
    push_at_right(text, 3, Buffer::new().format(tile).as_bytes())
}

// The tiles of one row.
fn row_tiles(board: &Board, row: u8) -> &[u8]
    ensures { result.now ≡ tiles_in_row board.now row }
{
    let cols = board.shape().cols() as usize;
    part(board.tiles(), row as usize * cols, cols)
}

// How many columns a board takes.
fn width_of(board: &Board) -> usize
    ensures { result ≡ columns_of board.now.grid }
{
    3 * (board.shape().cols() as usize + 1)
}
