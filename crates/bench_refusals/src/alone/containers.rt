//! Places that are made in the containers of a search.

use super::{Answer, refused_if, whole_if};
use board::Move;
use closed_table::Closed;
use open_buckets::Open;
use search_lists::SearchLists;
use std::alloc::Global;

/// Makes the call of this name, or answers None where it is none of these.
pub fn call(alloc: Global, name: &str) -> Option<Answer> {
    match name {
        "open" => Some(reserve_open(alloc)),
        "closed" => Some(reserve_closed(alloc)),
        "lists" => Some(reserve_lists(alloc)),
        _ => None,
    }
}

// Whether the least f of an open list is 2, and its next entry has key 7 and cost 1.
fn has_one_entry(open: &Open<u32>) -> bool {
    open.lowest() == Some(2) && open.last_at(2) == Some((7, 1))
}

// Makes places in an open list that has an entry.
fn reserve_open(alloc: Global) -> Answer {
    let mut open = Open::new(alloc);
    if put_entry(alloc, &mut open) {
        reserve_entries(alloc, &mut open)
    } else {
        refused_if(open.lowest().is_none(), "an entry from nowhere")
    }
}

// Puts an entry in an open list, and answers whether there was memory for its place.
fn put_entry(alloc: Global, open: &mut Open<u32>) -> bool {
    match open.reserve(alloc, 2, 1) {
        Ok(()) => {
            open.put(2, 7, 1);
            true
        }
        Err(_) => false,
    }
}

// Makes places beside the entry.
fn reserve_entries(alloc: Global, open: &mut Open<u32>) -> Answer {
    match open.reserve(alloc, 9, 5) {
        Ok(()) => whole_if(has_one_entry(open), "other entries"),
        Err(_) => refused_if(has_one_entry(open), "other entries"),
    }
}

// Whether a table knows one board, the one that is added here, as it was added.
fn has_one_board(closed: &Closed) -> bool {
    let Some(known) = closed.get(7) else {
        return false;
    };
    closed.len() == 1 && known.cost == 3 && !known.expanded && known.via == Move::D
}

// Makes places for more known boards than a page has, beside one that is known.
fn reserve_closed(alloc: Global) -> Answer {
    let mut closed = Closed::new(alloc);
    if add_board(alloc, &mut closed) {
        reserve_boards(alloc, &mut closed)
    } else {
        refused_if(closed.len() == 0, "a board from nowhere")
    }
}

// Adds a board to a table, and answers whether there was memory for its place.
fn add_board(alloc: Global, closed: &mut Closed) -> bool {
    match closed.reserve(alloc, 1) {
        Ok(()) => {
            closed.relax(7, 3, Move::D);
            true
        }
        Err(_) => false,
    }
}

// Makes places beside the board.
fn reserve_boards(alloc: Global, closed: &mut Closed) -> Answer {
    match closed.reserve(alloc, 3000) {
        Ok(()) => whole_if(has_one_board(closed), "other boards"),
        Err(_) => refused_if(has_one_board(closed), "other boards"),
    }
}

// Makes places for a board, and for one that waits, in new lists.
fn reserve_lists(alloc: Global) -> Answer {
    let mut lists = SearchLists::new(alloc);
    if lists.reserve_boards(alloc, 1).is_err() {
        return Answer::Refused;
    }
    match lists.reserve_places(alloc, 2, 1) {
        Ok(()) => whole_if(lists.has_places(2, 1), "no place"),
        Err(_) => refused_if(!lists.has_places(2, 1), "a place from nowhere"),
    }
}
