//! A certificate as an SVG 1.1 file, whose tiles slide as the plan moves them.
//!
//! The start is at the left, the goal at the right, and the claim below them, so that the file can
//! be read where nothing is animated. A tile slides in the first half of its move's seconds.

ghost use Rattle.std.specs.Prelude.{◌≡◌, ◌≤◌, ◌^◌, ◌++◌, ℕ, List, IfOk, OnOk};
ghost use Rattle.drawings.specs.Drawings.{file_text};

use crate::claims::push_claim;
use crate::pictures::{Caption, Picture};
use crate::pushes::{push_all, push_number};
use board::{Board, Move, Shape};
use certificate::Certificate;
use memory::OutOfMemory;
use std::alloc::Global;

// The side of a cell, and the space between a board and what is beside it.
const CELL: u64 = 100;

const SPACE: u64 = 50;

// Where boards begin, below their captions, and the space below them, for the claim.
const TOP: u64 = 70;

const BOTTOM: u64 = 70;

// A cell, by its column and row.
#[derive(Clone, Copy)]
struct Place {
    column: usize,
    row: usize,
}

// A piece of the file.
#[derive(Clone, Copy)]
enum Piece<'a> {
    Text(&'a str),
    Number(u64),
    // A cell's distances from the left and the top of its board.
    Place(Place),
}

/// The file, in which each move takes `seconds` seconds. The error: out of memory.
pub(crate) fn draw_svg(
    alloc: Global,
    certificate: &Certificate,
    pictures: &[Picture],
    seconds: u8,
) -> Result<Vec<u8>, OutOfMemory>
    ensures { IfOk result (λ text. (front back : List ℕ)
        × (text.items ≡ file_text certificate.now front back)) }
{
    let mut head = Vec::new(alloc);
    push_head(&mut head, certificate.shape())?;
    let mut boards = Vec::new(alloc);
    push_boards(&mut boards, certificate, pictures, seconds)?;
    let mut text = Vec::new(alloc);
    push_file(&mut text, certificate, head.as_slice(), boards.as_slice())?;
    Ok(text)
}

// The file, with the claim between its head and its boards.
fn push_file(
    text: &mut Vec<u8>,
    certificate: &Certificate,
    head: &[u8],
    boards: &[u8],
) -> Result<(), OutOfMemory>
    ensures { OnOk result (text.new.items
        ≡ text.old.items ++ file_text certificate.now head.now boards.now) }
{
    push_all(text, b"<svg ")?;
    push_all(text, head)?;
    push_claim(text, certificate.claim())?;
    push_all(text, boards)?;
    push_all(text, b"</svg>\n")
}

// The end of the file after the claim: the boards, and how the tiles slide.
fn push_boards(
    text: &mut Vec<u8>,
    certificate: &Certificate,
    pictures: &[Picture],
    seconds: u8,
) -> Result<(), OutOfMemory> {
    let (start, goal) = (certificate.start(), certificate.goal());
    push_all(text, b"</text>\n")?;
    push_board(text, "start", "caption0", SPACE, &start)?;
    push_board(
        text,
        "goal",
        "caption",
        right_of(certificate.shape()),
        &goal,
    )?;
    push_steps(text, &start, pictures, seconds)
}

// The head of the file, up to the claim.
fn push_head(text: &mut Vec<u8>, shape: Shape) -> Result<(), OutOfMemory> {
    let width = right_of(shape) + CELL * shape.cols() as u64 + SPACE;
    let height = TOP + CELL * shape.rows() as u64 + BOTTOM;
    push_pieces(
        text,
        &[
            Piece::Text("xmlns=\"http://www.w3.org/2000/svg\" "),
            Piece::Text("xmlns:xlink=\"http://www.w3.org/1999/xlink\" version=\"1.1\" "),
            Piece::Text("font-family=\"sans-serif\" font-size=\"36\" text-anchor=\"middle\" "),
            Piece::Text("viewBox=\"0 0 "),
            Piece::Number(width),
            Piece::Text(" "),
            Piece::Number(height),
            Piece::Text("\">\n<rect width=\"100%\" height=\"100%\" fill=\"white\"/>\n<text x=\""),
            Piece::Number(width / 2),
            Piece::Text("\" y=\""),
            Piece::Number(height - 25),
            Piece::Text("\" font-size=\"24\">"),
        ],
    )
}

// A board under its name, which has an id. The ids of its tiles begin with the name.
fn push_board<'a>(
    text: &mut Vec<u8>,
    name: &'a str,
    id: &'a str,
    left: u64,
    board: &Board,
) -> Result<(), OutOfMemory>
    requires { left ≤ 2 ^ 16 }
{
    let shape = board.shape();
    let width = CELL * shape.cols() as u64;
    push_pieces(
        text,
        &[
            Piece::Text("<text id=\""),
            Piece::Text(id),
            Piece::Text("\" x=\""),
            Piece::Number(left + width / 2),
            Piece::Text("\" y=\"45\">"),
            Piece::Text(name),
            Piece::Text("</text>\n<g transform=\"translate("),
            Piece::Number(left),
            Piece::Text(","),
            Piece::Number(TOP),
            Piece::Text(")\">\n<rect width=\""),
            Piece::Number(width),
            Piece::Text("\" height=\""),
            Piece::Number(CELL * shape.rows() as u64),
            Piece::Text("\" fill=\"#ddd\" stroke=\"black\" stroke-width=\"4\"/>\n"),
        ],
    )?;
    push_tiles(text, name, shape, board.tiles())?;
    push_all(text, b"</g>\n")
}

// The tiles of a board, from cell 0 on, without the blank.
fn push_tiles(
    text: &mut Vec<u8>,
    name: &str,
    shape: Shape,
    tiles: &[u8],
) -> Result<(), OutOfMemory> {
    for (cell, tile) in tiles.iter().enumerate() {
        if *tile != 0 {
            push_tile(text, name, shape, cell, *tile)?;
        }
    }
    Ok(())
}

// A tile on a cell.
fn push_tile(
    text: &mut Vec<u8>,
    name: &str,
    shape: Shape,
    cell: usize,
    tile: u8,
) -> Result<(), OutOfMemory> {
    push_pieces(
        text,
        &[
            Piece::Text("<g id=\""),
            Piece::Text(name),
            Piece::Number(tile as u64),
            Piece::Text("\" transform=\"translate("),
            Piece::Place(place_of(shape, cell)),
            Piece::Text(")\"><rect x=\"4\" y=\"4\" width=\"92\" height=\"92\" rx=\"8\" "),
            Piece::Text("fill=\"#f5deb3\" stroke=\"black\"/><text x=\"50\" y=\"63\">"),
            Piece::Number(tile as u64),
            Piece::Text("</text></g>\n"),
        ],
    )
}

// The moves, from the pictures of the start, of the board after each move, and of the goal.
fn push_steps(
    text: &mut Vec<u8>,
    start: &Board,
    pictures: &[Picture],
    seconds: u8,
) -> Result<(), OutOfMemory> {
    let mut before = *start;
    for picture in pictures {
        if let Caption::Step(number, direction) = picture.caption {
            let begin = number as u64 * seconds as u64;
            push_caption(text, &before, number, direction, begin)?;
            push_slide(text, &before, &picture.board, begin, seconds)?;
        }
        before = picture.board;
    }
    Ok(())
}

// The caption of a move. It takes the place of the one before it when the move begins, after
// `begin` seconds.
fn push_caption(
    text: &mut Vec<u8>,
    board: &Board,
    number: u32,
    direction: Move,
    begin: u64,
) -> Result<(), OutOfMemory> {
    push_pieces(
        text,
        &[
            Piece::Text("<set xlink:href=\"#caption"),
            Piece::Number((number as u64).saturating_sub(1)),
            Piece::Text("\" attributeName=\"visibility\" to=\"hidden\" fill=\"freeze\" begin=\""),
            Piece::Number(begin),
            Piece::Text("s\"/>\n<text id=\"caption"),
            Piece::Number(number as u64),
            Piece::Text("\" x=\""),
            Piece::Number(SPACE + CELL * board.shape().cols() as u64 / 2),
            Piece::Text("\" y=\"45\" visibility=\"hidden\">"),
            Piece::Number(number as u64),
            Piece::Text(" "),
            Piece::Text(letter_text(direction)),
            Piece::Text(
                "<set attributeName=\"visibility\" to=\"visible\" fill=\"freeze\" begin=\"",
            ),
            Piece::Number(begin),
            Piece::Text("s\"/></text>\n"),
        ],
    )
}

// The tile that leaves a cell for the blank's. It slides in the first half of the move's seconds,
// which begin then.
fn push_slide(
    text: &mut Vec<u8>,
    before: &Board,
    after: &Board,
    begin: u64,
    seconds: u8,
) -> Result<(), OutOfMemory> {
    let Some(tile) = before.tiles().get(after.blank()) else {
        return Ok(());
    };
    let shape = before.shape();
    push_pieces(
        text,
        &[
            Piece::Text("<animateTransform xlink:href=\"#start"),
            Piece::Number(*tile as u64),
            Piece::Text(
                "\" attributeName=\"transform\" type=\"translate\" fill=\"freeze\" from=\"",
            ),
            Piece::Place(place_of(shape, after.blank())),
            Piece::Text("\" to=\""),
            Piece::Place(place_of(shape, before.blank())),
            Piece::Text("\" begin=\""),
            Piece::Number(begin),
            Piece::Text("s\" dur=\""),
            Piece::Number(500 * seconds as u64),
            Piece::Text("ms\"/>\n"),
        ],
    )
}

// The letter of a move.
fn letter_text(direction: Move) -> &'static str {
    match direction {
        Move::U => "U",
        Move::L => "L",
        Move::R => "R",
        Move::D => "D",
    }
}

// Where a cell is on its board.
fn place_of(shape: Shape, cell: usize) -> Place {
    // The contract of this call says that no side is 0.
    let _ = shape.cells();
    let cols = shape.cols() as usize;
    Place {
        column: cell % cols,
        row: cell / cols,
    }
}

// How far the right board is from the left edge.
fn right_of(shape: Shape) -> u64
    ensures { result ≤ 2 ^ 16 }
{
    SPACE + CELL * shape.cols() as u64 + SPACE
}

// Pieces, one after the other.
fn push_pieces(text: &mut Vec<u8>, pieces: &[Piece<'_>]) -> Result<(), OutOfMemory> {
    for piece in pieces {
        push_piece(text, *piece)?;
    }
    Ok(())
}

fn push_piece(text: &mut Vec<u8>, piece: Piece<'_>) -> Result<(), OutOfMemory> {
    match piece {
        Piece::Text(more) => push_all(text, more.as_bytes()),
        Piece::Number(number) => push_number(text, number),
        Piece::Place(place) => {
            push_number(text, CELL.saturating_mul(place.column as u64))?;
            push_all(text, b",")?;
            push_number(text, CELL.saturating_mul(place.row as u64))
        }
    }
}
