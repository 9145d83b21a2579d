//! What the scripts of `bench/` time beside plain Rust: parts of the search, each over
//! pseudo-random input or over all of a table, and a search over the containers. Each prints what
//! it came to.

mod containers;
mod ranks;
mod steps;
mod sums;
mod tables;
mod words;

use board::Shape;
use containers::{Stop, search};
use pattern_index::{Group, Partition};
use ranks::sum_of_ranks;
use std::io::{self, ErrorKind, Print};
use std::thread::Threads;
use steps::walk_from_goal;
use sums::check_offers;
use tables::{Made, Summary, Task, frame_for};
use words::{Part, read_words};

fn print_steps(rt: &impl Print, shape: Shape, steps: u32) -> io::Result<()> {
    let walk = walk_from_goal(shape, steps);
    let accepted = walk.accepted;
    let cost = walk.cost;
    let key = walk.board.key();
    println!(rt; "steps {steps} accepted {accepted} cost {cost} key {key}")
}

fn print_ranks(rt: &impl Print, group: &Group, ranks: u32) -> io::Result<()> {
    let size = group.size();
    let sum = sum_of_ranks(group, ranks);
    println!(rt; "size {size} ranks {ranks} sum {sum}")
}

// Prints what the values of a table come to.
fn print_summary(rt: &impl Print, summary: Summary) -> io::Result<()> {
    let views = summary.views;
    let highest = summary.highest;
    let sum = summary.sum;
    let check = summary.check;
    println!(rt; "views {views} highest {highest} sum {sum} check {check}")
}

// All tables are kept to the end, as a search would keep them.
fn print_tables(rt: &(impl Print + AllocGlobal), groups: &[Group], task: Task) -> io::Result<()> {
    let mut tables: Vec<Made> = Vec::new(rt.alloc());
    let mut last = None;
    for group in groups {
        let Some(frame) = frame_for(rt.alloc(), last, group) else {
            return Err(ErrorKind::OutOfMemory.into());
        };
        let Some(table) = Made::new(rt.alloc(), &frame, group, task) else {
            return Err(ErrorKind::OutOfMemory.into());
        };
        last = Some(frame);
        if task.is_read {
            print_summary(rt, table.summary())?;
        }
        tables.push(table)?;
    }
    Ok(())
}

fn print_sums(
    rt: &(impl Print + Threads + AllocGlobal + Sync),
    groups: &Partition,
    boards: u32,
    rounds: u32,
) -> io::Result<()> {
    let Some(check) = check_offers(rt, groups, boards, rounds) else {
        return Err(ErrorKind::OutOfMemory.into());
    };
    println!(rt; "boards {boards} rounds {rounds} check {check}")
}

fn print_search(rt: &(impl Print + AllocGlobal), count: usize) -> io::Result<()> {
    match search(rt.alloc(), count) {
        Some(found) => print_stop(rt, found),
        None => Err(ErrorKind::OutOfMemory.into()),
    }
}

fn print_stop(rt: &impl Print, stop: Stop) -> io::Result<()> {
    let expanded = stop.expanded;
    let known = stop.known;
    let f = stop.f;
    println!(rt; "expanded {expanded} known {known} f {f}")
}

// Runs a part, and prints what it came to.
fn print_part(rt: &(impl Print + Threads + AllocGlobal + Sync), part: &Part) -> io::Result<()> {
    match part {
        Part::Steps(shape, steps) => print_steps(rt, *shape, *steps),
        Part::Ranks(group, ranks) => print_ranks(rt, group, *ranks),
        Part::Tables(groups, task) => print_tables(rt, groups, *task),
        Part::Sums(groups, boards, rounds) => print_sums(rt, groups, *boards, *rounds),
        Part::Containers(count) => print_search(rt, *count),
    }
}

/// Runs the part of this name by the arguments after it, and prints what it came to. Returns the
/// exit status.
pub fn run(rt: &(impl Print + Threads + AllocGlobal + Sync), name: &str, words: &[String]) -> u8 {
    let Some(part) = read_words(rt.alloc(), name, words) else {
        return 2;
    };
    match print_part(rt, &part) {
        Ok(()) => 0,
        Err(_) => 1,
    }
}
