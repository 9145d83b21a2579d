//! What is seen of a worker, of its lanes and of the book.
//!
//! It is one text of pieces, each behind its name.

use crate::steps::team::{Team, WORKERS};
use board::{Board, Shape};
use message_ledger::Tokens;
use quiescence::Book;
use search_lists::SearchLists;
use std::alloc::Global;
use std::io::{self, ErrorKind, Print};
use worker_core::{Queue, Worker};
use world_model::{Item, Stop};

// The text between two pieces.
const BETWEEN: &str = "; ";

// How many items are listed at most. A longer list is shown by its length and its last item.
const MOST_LISTED: usize = 4;

/// What is seen of a team.
pub fn look<C: Tokens>(alloc: Global, team: &Team<C>) -> io::Result<String> {
    let mut text = String::new(alloc);
    push_all(&mut text, team)?;
    Ok(text)
}

/// Prints each piece that has changed, and ends the line.
pub fn print_changes(rt: &impl Print, before: &str, after: &str) -> io::Result<()> {
    'pieces: for (old, new) in before.split(BETWEEN).zip(after.split(BETWEEN)) {
        if old != new {
            print_piece(rt, new)?;
        }
    }
    rt.println("")
}

fn print_piece(rt: &impl Print, piece: &str) -> io::Result<()> {
    rt.print(BETWEEN)?;
    rt.print(piece)
}

fn push_all<C: Tokens>(text: &mut String, team: &Team<C>) -> io::Result<()> {
    push_known(text, team.trial.shape(), team.trial.worker().lists())?;
    push_worker(text, team.trial.worker())?;
    push_lane(text, "out", &team.lane_out)?;
    push_lane(text, "in", &team.lane_in)?;
    push_book(text, &team.book)
}

// What a worker has except for its known boards.
fn push_worker<C: Tokens>(text: &mut String, worker: &Worker<C>) -> io::Result<()> {
    push_items(text, "held", worker.held())?;
    push_unsent(text, worker)?;
    push_amounts(text, worker)
}

// The known boards in order of arrival: the tiles, the cost, the last move, and a star where the
// board is closed.
fn push_known(text: &mut String, shape: Shape, lists: &SearchLists) -> io::Result<()> {
    text.push_str("known")?;
    if lists.len() == 0 {
        text.push_str(" -")?;
    }
    'known: for place in 0..lists.len() {
        let (key, known) = lists.at(place);
        let Some(board) = board_by(shape, key) else {
            return Err(ErrorKind::InvalidData.into());
        };
        push_board(text, &board)?;
        write!(text, ":{}{:?}", known.cost, known.via)?;
        if known.expanded {
            text.push('*')?;
        }
    }
    Ok(())
}

// The board of a shape with a search key, if there is one.
fn board_by(shape: Shape, key: u128) -> Option<Board> {
    let cells = shape.cells();
    let base = if cells <= 16 { 16 } else { 32 };
    let mut tiles = [0; 25];
    let mut rest = key;
    'numbers: for number in 0..cells {
        let cell = (rest % base) as usize;
        if cell >= cells {
            return None;
        }
        tiles[cell] = number as u8;
        rest /= base;
    }
    Board::from_tiles(shape, &tiles[..cells]).ok()
}

// The items that a worker has to send.
fn push_unsent<C: Tokens>(text: &mut String, worker: &Worker<C>) -> io::Result<()> {
    if worker.workers() != WORKERS {
        return Err(ErrorKind::InvalidData.into());
    }
    push_items(text, "for 0", worker.unsent(0))?;
    push_items(text, "for 1", worker.unsent(1))
}

fn push_amounts<C: Tokens>(text: &mut String, worker: &Worker<C>) -> io::Result<()> {
    let (purse, allowance) = (worker.purse(), worker.allowance());
    let expansions = worker.expansions();
    write!(
        text,
        "; purse {purse}; allowance {allowance}; expansions {expansions}"
    )?;
    push_cost(text, "best", worker.best().cost())
}

fn push_book<C: Tokens>(text: &mut String, book: &Book<C>) -> io::Result<()> {
    write!(text, "; credit {}", book.credit())?;
    push_cost(text, "incumbent", book.best().cost())?;
    push_stop(text, book.stop())
}

fn push_stop(text: &mut String, stop: Option<Stop>) -> io::Result<()> {
    match stop {
        Some(stop) => write!(text, "; stop {stop:?}")?,
        None => text.push_str("; stop -")?,
    }
    Ok(())
}

fn push_cost(text: &mut String, name: &str, cost: Option<u32>) -> io::Result<()> {
    match cost {
        Some(cost) => write!(text, "; {name} {cost}")?,
        None => write!(text, "; {name} -")?,
    }
    Ok(())
}

// How many packets a lane has, and the items of the last.
fn push_lane<C: Tokens>(text: &mut String, name: &str, lane: &Queue<C>) -> io::Result<()> {
    let count = lane.len();
    write!(text, "; {name} {count}")?;
    if count == 0 {
        return Ok(());
    }
    text.push(':')?;
    list_items(text, lane.packet(count - 1))
}

fn push_items(text: &mut String, name: &str, items: &[Item]) -> io::Result<()> {
    write!(text, "; {name}")?;
    if items.is_empty() {
        text.push_str(" -")?;
    }
    list_items(text, items)
}

// Items: of each the tiles, the cost and the last move.
fn list_items(text: &mut String, items: &[Item]) -> io::Result<()> {
    let mut first = 0;
    if items.len() > MOST_LISTED {
        first = items.len() - 1;
        write!(text, " {} items, the last", items.len())?;
    }
    'items: for item in &items[first..] {
        push_board(text, &item.board.board())?;
        write!(text, ":{}{:?}", item.cost, item.via)?;
    }
    Ok(())
}

fn push_board(text: &mut String, board: &Board) -> io::Result<()> {
    text.push(' ')?;
    for tile in board.tiles() {
        write!(text, "{tile}")?;
    }
    Ok(())
}
