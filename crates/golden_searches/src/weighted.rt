//! Tries weights that are drawn at random: all boards of 2 by 2 and of 2 by 3 with ten lists of
//! weights each, beside a breadth-first search. The tables are none, and those of two partitions of
//! the tiles, whole and folded.
//!
//! An answer is wrong where its cost is not the least, where a plan is found and there is none or
//! none is found and there is one, and where the checker refuses its certificate.
//!
//! Then one byte of each certificate is changed, several times anew. The checker may accept what is
//! still read, where its cost is the least by that search for the start, the goal and the weights
//! that it has now; else that is wrong too.

ghost use Rattle.std.specs.Prelude.{◌≡◌, IfSome};
ghost use Rattle.lower_bound.specs.Tables.{ArePotentials};

mod damages;
mod tables;

use crate::problems::{Answer, Problem, answer_of};
use board::{Board, Shape, Weights};
use certificate::Certificate;
use certificate_check::check;
use damages::{Fate, fate_of};
use lower_bound::Bound;
use rand_core::SeedableRng;
use rand_core::utils::NextWord;
use rand_xoshiro::SplitMix64;
use std::alloc::Global;
use std::io::{self, ErrorKind, Print};
use tables::{TABLES_OF_2_BY_2, TABLES_OF_2_BY_3, Tables, bound_for, guide_of};
use test_support::least_costs;

// How many lists of weights are drawn for a shape.
const LISTS: usize = 10;

// Every second time one of this many first bytes is changed. What a certificate of these shapes has
// before its rows is about as long, and is seldom met otherwise where there are many rows.
const FRONT: usize = 50;

/// Prints what is answered of all boards of both shapes.
pub fn print_weighted<R: Print + AllocGlobal>(rt: &R) -> io::Result<()> {
    print_tally(rt, 2, &TABLES_OF_2_BY_2, 50)?;
    print_tally(rt, 3, &TABLES_OF_2_BY_3, 4)
}

// Prints what is answered of all boards of two rows and `cols` columns, and what becomes of each
// certificate when it is damaged `damages` times.
fn print_tally<R: Print + AllocGlobal>(
    rt: &R,
    cols: u8,
    guides: &[Tables],
    damages: u64,
) -> io::Result<()> {
    let Ok(shape) = Shape::new(2, cols) else {
        return Err(ErrorKind::InvalidData.into());
    };
    let Some(tally) = tally_shape(rt.alloc(), shape, guides, damages) else {
        return Err(ErrorKind::OutOfMemory.into());
    };
    println!(rt; "# All boards of 2 by {cols}")?;
    println!(rt; "{tally:?}")
}

// How many lists of weights there were, how many plans were right and what they cost in all, how
// many boards were rightly said to have none. Then how many certificates with a byte changed could
// not be read, how many others the checker refused, and how many it rightly accepted. Last, how many
// answers were wrong.
#[derive(Clone, Copy, Debug)]
struct Tally {
    lists: u64,
    plans: u64,
    costs: u64,
    unsolvable: u64,
    unread: u64,
    refused: u64,
    accepted: u64,
    wrong: u64,
}

// Where damages are drawn from, and how many for each certificate.
#[derive(Drop)]
struct Damaging {
    words: SplitMix64,
    count: u64,
}

// What is answered of all boards of a shape by each of these tables, and what becomes of each
// certificate when it is damaged `damages` times; or None where memory was refused.
fn tally_shape(alloc: Global, shape: Shape, guides: &[Tables], damages: u64) -> Option<Tally> {
    let mut tally = Tally {
        lists: 0,
        plans: 0,
        costs: 0,
        unsolvable: 0,
        unread: 0,
        refused: 0,
        accepted: 0,
        wrong: 0,
    };
    let goal = Board::goal(shape);
    let mut weighing = words(0);
    let mut damaging = Damaging {
        words: words(1),
        count: damages,
    };
    for number in 0..LISTS {
        let weights = draw_weights(&mut weighing, shape, number)?;
        tally_list(&mut tally, alloc, &mut damaging, &goal, &weights, guides)?;
    }
    Some(tally)
}

// Counts what is answered of all boards with a list of weights.
fn tally_list(
    tally: &mut Tally,
    alloc: Global,
    damaging: &mut Damaging,
    goal: &Board,
    weights: &Weights,
    guides: &[Tables],
) -> Option<()>
    requires { weights.now.grid ≡ goal.now.grid }
{
    tally.lists = tally.lists.saturating_add(1);
    let boards = least_costs(alloc, goal, weights).ok()?;
    for tables in guides {
        let guide = guide_of(alloc, goal, weights, tables)?;
        for (start, least) in boards.as_slice() {
            let problem = Problem {
                start: *start,
                goal: *goal,
                weights: *weights,
            };
            count(tally, alloc, damaging, &problem, &guide, *least)?;
        }
    }
    Some(())
}

// Counts what is answered of a board.
fn count(
    tally: &mut Tally,
    alloc: Global,
    damaging: &mut Damaging,
    problem: &Problem,
    guide: &Bound,
    least: Option<u32>,
) -> Option<()>
    requires { ArePotentials problem.now.weights problem.now.goal guide.now }
{
    match answer_of(alloc, problem, guide)? {
        Answer::Plan(certificate) => {
            tally.note_plan(alloc, &certificate, least)?;
            damage_often(tally, alloc, damaging, &certificate)?;
        }
        Answer::NoPlan => tally.note_none(least),
        Answer::Neither => tally.wrong = tally.wrong.saturating_add(1),
    }
    Some(())
}

// Counts what becomes of a certificate when it is damaged.
fn damage_often(
    tally: &mut Tally,
    alloc: Global,
    damaging: &mut Damaging,
    certificate: &Certificate,
) -> Option<()> {
    for _ in 0..damaging.count {
        let fate = fate_of(alloc, &mut damaging.words, certificate)?;
        tally.note_fate(fate);
    }
    Some(())
}

impl Tally {
    // One more plan, where it costs this and the checker accepts its certificate.
    fn note_plan(
        &mut self,
        alloc: Global,
        certificate: &Certificate,
        least: Option<u32>,
    ) -> Option<()> {
        let whole = bound_for(alloc, certificate)?;
        if least == Some(certificate.cost()) && check(certificate, &whole).is_ok() {
            self.plans = self.plans.saturating_add(1);
            self.costs = self.costs.saturating_add(u64::from(certificate.cost()));
        } else {
            self.wrong = self.wrong.saturating_add(1);
        }
        Some(())
    }

    // One more board that was said to have no plan.
    fn note_none(&mut self, least: Option<u32>) {
        let count = if least.is_none() {
            &mut self.unsolvable
        } else {
            &mut self.wrong
        };
        *count = count.saturating_add(1);
    }

    // One more certificate with a byte changed.
    fn note_fate(&mut self, fate: Fate) {
        let count = match fate {
            Fate::Unread => &mut self.unread,
            Fate::Refused => &mut self.refused,
            Fate::Accepted => &mut self.accepted,
            Fate::Wrong => &mut self.wrong,
        };
        *count = count.saturating_add(1);
    }
}

// The words that everything is drawn from.
fn words(seed: u8) -> SplitMix64 {
    SplitMix64::from_seed([seed; 8])
}

// Weights of a shape: spread over 1 to 255 where their number is even, else from 1 to 3, so that
// many plans cost the same.
fn draw_weights(words: &mut SplitMix64, shape: Shape, number: usize) -> Option<Weights>
    ensures { IfSome result (λ weights. weights.grid ≡ shape) }
{
    let mut listed = [0; 24];
    let listed = listed.get_mut(1..shape.cells())?;
    for weight in listed.iter_mut() {
        *weight = weight_of(words.next_word(), number);
    }
    Weights::list(shape, listed).ok()
}

// The weight that a word gives.
fn weight_of(word: u64, number: usize) -> u8 {
    let most = if number % 2 == 0 { 255 } else { 3 };
    ((word % most) as u8).saturating_add(1)
}

/// Changes one byte, where there is one.
pub fn damage(words: &mut SplitMix64, bytes: &mut [u8]) -> Option<()> {
    let word = words.next_word();
    let count = if word % 2 == 0 {
        bytes.len()
    } else {
        bytes.len().min(FRONT)
    };
    if count == 0 {
        return None;
    }
    let place = (word / 2 % count as u64) as usize;
    let byte = bytes.get_mut(place)?;
    *byte = byte.wrapping_add(weight_of(words.next_word(), 0));
    Some(())
}
