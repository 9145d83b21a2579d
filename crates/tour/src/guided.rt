//! A board of 4 by 4, solved with tables for five groups of three tiles.

use crate::runs::tell;
use batch_cli::{Free, LinesFault, Setup, Summary, run_batch};
use batch_lines::read_groups;
use board::{Board, Shape, Weights};
use byte_streams::{ByteSink, ByteSource};
use std::alloc::Global;
use std::io;
use std::sync::Wait;
use std::thread::Threads;
use table_sets::build_bound;

const LINE: &[u8] = b"e 0 11 1 5 4 2 10 6 12 9 15 3 13 8 7 14\n";

const GROUPS: &str = "1,2,3/4,5,6/7,8,9/10,11,12/13,14,15";

/// The report of a board of 4 by 4, from which no plan of less than 36 moves leads to the goal.
pub fn visit(rt: &(impl Print + AllocGlobal + Threads + Wait + Sync)) -> io::Result<()> {
    match guided_setup(rt, rt.alloc()) {
        Some(setup) => print_report(rt, &setup),
        None => rt.println("no memory for tables"),
    }
}

// Boards of 4 by 4, Korf's goal, unit cost, and a table for each of the groups.
fn guided_setup(rt: &(impl Threads + Sync), alloc: Global) -> Option<Setup> {
    let shape = Shape::new(4, 4).unwrap();
    let goal = Board::goal(shape);
    let weights = Weights::unit(shape);
    let groups = read_groups(alloc, shape, GROUPS).ok()?;
    let bound = build_bound(rt, alloc, groups, &goal, &weights).ok()?;
    Some(Setup::new(alloc, goal, weights).bound(bound))
}

fn print_report(
    rt: &(impl Print + AllocGlobal + Threads + Wait + Sync),
    setup: &Setup,
) -> io::Result<()> {
    let mut reports = ByteSink::new(Vec::new(rt.alloc()));
    let counts = report(rt, rt.alloc(), &mut reports, setup);
    tell(rt, reports.into_inner().as_slice(), &counts)
}

fn report(
    rt: &(impl Threads + Wait + Sync),
    alloc: Global,
    reports: &mut ByteSink<Vec<u8>>,
    setup: &Setup,
) -> Result<Summary, LinesFault> {
    run_batch(rt, alloc, &mut ByteSource::new(LINE), reports, setup, &Free)
}
