//! A replay: how two workers share a search.

use crate::runs::tell;
use batch_cli::{LinesFault, Setup, SpreadKind, run_replay};
use board::{Board, Shape, Weights};
use byte_streams::{ByteSink, ByteSource};
use std::alloc::Global;
use std::io;
use std::thread::Threads;

const STEPS: &[u8] = b"r 1 0 2 3\ngrant 1\nexpand 1\nsend 1 0\ndraw 1\nsend 1 0\n\
    deliver 0 1\nsettle 0\nannounce 0\nrest 0\nrest 1\n";

/// A board that is one move from the goal: one worker expands it and sends the goal to the other,
/// which owns it, and both rest.
pub fn visit(rt: &(impl Print + AllocGlobal + Threads + Sync)) -> io::Result<()> {
    let shape = Shape::new(2, 2).unwrap();
    let setup = Setup::new(rt.alloc(), Board::goal(shape), Weights::unit(shape));
    match setup.spread(SpreadKind::Blank).workers(2) {
        Ok(setup) => print_replay(rt, &setup),
        Err(fault) => println!(rt; "no setup: {}", fault.code()),
    }
}

fn print_replay(rt: &(impl Print + AllocGlobal + Threads + Sync), setup: &Setup) -> io::Result<()> {
    let mut answers = ByteSink::new(Vec::new(rt.alloc()));
    let status = replay(rt, rt.alloc(), &mut answers, setup);
    tell(rt, answers.into_inner().as_slice(), &status)
}

fn replay(
    rt: &(impl Threads + Sync),
    alloc: Global,
    answers: &mut ByteSink<Vec<u8>>,
    setup: &Setup,
) -> Result<u8, LinesFault> {
    run_replay(rt, alloc, &mut ByteSource::new(STEPS), answers, setup)
}
