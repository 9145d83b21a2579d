//! What is done in a scene, line by line, and words for what it answers.

use crate::steps::scenes::{Act, Row};
use crate::steps::team::Team;
use crate::steps::trial::Trial;
use arrayvec::ArrayVec;
use board::{Board, Move, Shape};
use message_ledger::{Packet, Purse, Tokens};
use owners::Spread;
use quiescence::{Book, Rested, book_code};
use replay_runs::{answer_word, step_code};
use search_keys::KeyedBoard;
use std::alloc::Global;
use worker_core::{LaneIn, LaneOut, Queue};
use world_model::{Item, LANE_LIMIT, PACKET_LIMIT, Refusal};

/// Does what a line says, and returns the word for the answer.
pub fn make<C: Tokens, S: Spread>(
    alloc: Global,
    owners: &S,
    me: usize,
    team: &mut Team<C>,
    act: Act,
) -> &'static str {
    if let Some(answer) = make_alone(alloc, owners, me, &mut team.trial, act) {
        return answer;
    }
    if let Some(answer) = make_on_book(owners, me, &mut team.trial, &mut team.book, act) {
        return answer;
    }
    make_on_lanes(team, act)
}

// A step that the worker takes alone.
fn make_alone<C: Tokens, S: Spread>(
    alloc: Global,
    owners: &S,
    me: usize,
    trial: &mut Trial<C>,
    act: Act,
) -> Option<&'static str> {
    match act {
        Act::Meet(tiles, cost, via) => Some(meet(alloc, trial, &(tiles, cost, via))),
        Act::Expand => Some(word_of(trial.expand(alloc, owners, me))),
        Act::ExpandFrom(tiles, cost) => Some(expand_from(alloc, owners, me, trial, tiles, cost)),
        Act::Settle => Some(word_of(trial.settle(alloc, owners, me))),
        _ => None,
    }
}

// A board is met.
fn meet<C: Tokens>(alloc: Global, trial: &mut Trial<C>, row: &Row) -> &'static str {
    let Some(item) = item_of(trial.shape(), row) else {
        return "no board";
    };
    match trial.meet(alloc, &item) {
        Some(Ok(())) => "ok",
        Some(Err(_)) => "no memory",
        None => "left out",
    }
}

// A board is met at this cost and expanded, then at 1 less and so on down to 1.
fn expand_from<C: Tokens, S: Spread>(
    alloc: Global,
    owners: &S,
    me: usize,
    trial: &mut Trial<C>,
    tiles: &'static [u8],
    cost: u32,
) -> &'static str {
    'costs: for k in 0..cost {
        let met = meet(alloc, trial, &(tiles, cost - k, Move::U));
        if met != "ok" {
            return met;
        }
        let expanded = word_of(trial.expand(alloc, owners, me));
        if expanded != "ok" {
            return expanded;
        }
    }
    "ok"
}

// A step on the book.
fn make_on_book<C: Tokens, S: Spread>(
    owners: &S,
    me: usize,
    trial: &mut Trial<C>,
    book: &mut Book<C>,
    act: Act,
) -> Option<&'static str> {
    match act {
        Act::Draw => Some(answer_word(trial.draw(book))),
        Act::Announce => Some(word_of(trial.announce(owners, me, book))),
        Act::Grant => Some(answer_word(trial.grant(book))),
        Act::Rest => Some(rest_word(trial.rest(me, book))),
        Act::HaltByLimit => Some(answer_word(trial.halt_by_limit(book))),
        Act::HaltByStart => Some(answer_word(trial.halt_by_start(book))),
        _ => None,
    }
}

// A step on a lane, or what the other worker does.
fn make_on_lanes<C: Tokens>(team: &mut Team<C>, act: Act) -> &'static str {
    match act {
        Act::Send(to) => word_of(team.trial.send(to, &mut team.lane_out)),
        Act::Deliver => answer_word(team.trial.deliver(&mut team.lane_in)),
        Act::OtherSends(rows) => {
            push_rows(team.trial.shape(), rows, &mut team.other, &mut team.lane_in)
        }
        Act::OtherFills => fill_lane(&mut team.other, &mut team.lane_out),
        Act::OtherTakes => take_first(&mut team.other, &mut team.lane_out),
        Act::OtherAnnounces(cost) => announce(&mut team.book, cost),
        _ => "no act",
    }
}

// The other worker announces a cost.
fn announce<C: Tokens>(book: &mut Book<C>, cost: u32) -> &'static str {
    match book.announce(cost) {
        Ok(()) => "ok",
        Err(fault) => book_code(fault),
    }
}

// The item of a row, where its board is one of this shape.
fn item_of(shape: Shape, row: &Row) -> Option<Item> {
    let (tiles, cost, via) = row;
    let Ok(board) = Board::from_tiles(shape, tiles) else {
        return None;
    };
    Some(Item {
        board: KeyedBoard::new(&board),
        cost: *cost,
        via: *via,
    })
}

// A packet of these items goes into a lane.
fn push_rows<C: Tokens>(
    shape: Shape,
    rows: &[Row],
    purse: &mut Purse<C>,
    lane: &mut Queue<C>,
) -> &'static str {
    let mut items: ArrayVec<Item, PACKET_LIMIT> = ArrayVec::new();
    'rows: for row in rows {
        let Some(item) = item_of(shape, row) else {
            return "no board";
        };
        if items.try_push(item).is_err() {
            return "too many items";
        }
    }
    if items.is_empty() || purse.amount() == 0 {
        return "no packet";
    }
    let Ok(()) = lane.push(Packet::seal(items, purse)) else {
        return "full";
    };
    "ok"
}

// Packets of one item go into a lane until it is full.
fn fill_lane<C: Tokens>(purse: &mut Purse<C>, lane: &mut Queue<C>) -> &'static str {
    'packets: for _ in 0..LANE_LIMIT {
        if purse.amount() == 0 {
            return "no packet";
        }
        let mut items = ArrayVec::new();
        items.push(Item::default());
        let Ok(()) = lane.push(Packet::seal(items, purse)) else {
            return "full";
        };
    }
    "ok"
}

// The first packet is taken out of a lane.
fn take_first<C: Tokens>(purse: &mut Purse<C>, lane: &mut Queue<C>) -> &'static str {
    if purse.amount() == u64::MAX {
        return "too much";
    }
    let Some(packet) = lane.pop() else {
        return "empty";
    };
    let _ = packet.open(purse);
    "ok"
}

// The word for a step that may have been left out.
fn word_of(answer: Option<Result<(), Refusal>>) -> &'static str {
    match answer {
        Some(made) => answer_word(made),
        None => "left out",
    }
}

// The same of a worker that rests.
fn rest_word(answer: Option<Result<Rested, Refusal>>) -> &'static str {
    match answer {
        Some(Ok(Rested::Waits)) => "waits",
        Some(Ok(Rested::Quiet)) => "quiet",
        Some(Err(refusal)) => step_code(refusal),
        None => "left out",
    }
}
