//! Tries searches that tables guide:
//!
//! - lines whose reports or certificates are known;
//! - each board of 2 by 2 and of 2 by 3, beside a breadth-first search: without tables, and with
//!   those of each partition of the tiles into at most three groups, whole and folded;
//! - some boards of 3 by 3, with whole tables and with folded ones.
//!
//! An answer of a board is wrong where its cost is not the least, where a plan is found and there
//! is none or none is found and there is one, and where the checker refuses its certificate.

mod boards;
mod lines;
mod tables;

use batch_runs::Setup;
use board::{Board, Shape, Weights};
use boards::{Tally, compare_on_a_walk, tally_boards};
use byte_streams::{ByteSink, ByteSource};
use certificate_runs::run_check;
use hda_run::Free;
use lines::{Asked, CERTIFIED, LINES, print_report, print_text, setup_of};
use setup_runs::run_cert;
use std::io::{self, ErrorKind, Print};
use std::sync::Wait;
use std::thread::Threads;

// No more bytes are printed. In a longer certificate the rows may differ where other boards are
// met first.
const MOST_SHOWN: usize = 100;

/// Prints what is answered of the lines, of the boards of small shapes, and of the boards on a walk.
pub fn print_guided<R: Print + AllocGlobal + Threads + Wait + Sync>(rt: &R) -> io::Result<()> {
    print_lines(rt)?;
    print_shapes(rt)?;
    print_walk(rt)
}

// Prints the reports of lines, and certificates of others.
fn print_lines<R: Print + AllocGlobal + Threads + Wait + Sync>(rt: &R) -> io::Result<()> {
    for line in &LINES {
        print_report(rt, line)?;
    }
    for line in &CERTIFIED {
        print_certificate(rt, line)?;
    }
    Ok(())
}

// Prints what is answered of all boards of each small shape.
fn print_shapes<R: Print + AllocGlobal + Threads + Wait + Sync>(rt: &R) -> io::Result<()> {
    for shape in [Shape::new(2, 2), Shape::new(2, 3)] {
        let Ok(shape) = shape else {
            return Err(ErrorKind::InvalidData.into());
        };
        for fold in [false, true] {
            print_tally(rt, "unit", Weights::unit(shape), fold)?;
            print_tally(rt, "face", Weights::face(shape), fold)?;
        }
    }
    Ok(())
}

// Prints whether whole and folded tables agree of boards on a walk.
fn print_walk<R: Print + AllocGlobal + Threads + Wait + Sync>(rt: &R) -> io::Result<()> {
    let Some(agreed) = compare_on_a_walk(rt, rt.alloc()) else {
        return Err(ErrorKind::OutOfMemory.into());
    };
    println!(rt; "# Boards of 3 by 3 on a walk, with whole tables and with folded ones")?;
    println!(rt; "{agreed:?}")
}

// Prints what is answered of all boards of a shape.
fn print_tally<R: Print + AllocGlobal + Threads + Wait + Sync>(
    rt: &R,
    name: &str,
    weights: Weights,
    fold: bool,
) -> io::Result<()> {
    let shape = weights.shape();
    let Some(tally) = tally_boards(rt, rt.alloc(), &Board::goal(shape), &weights, fold) else {
        return Err(ErrorKind::OutOfMemory.into());
    };
    let (rows, cols) = (shape.rows(), shape.cols());
    let kind = if fold { "folded" } else { "whole" };
    println!(rt; "# All boards of {rows} by {cols} at {name} cost, tables {kind}")?;
    println!(rt; "{tally:?}")
}

// Prints a line's certificate, where it is short, and what the checker reports of it.
fn print_certificate<R: Print + AllocGlobal + Threads + Wait + Sync>(
    rt: &R,
    asked: &Asked,
) -> io::Result<()> {
    asked.print(rt)?;
    let Some(bytes) = certificate_of(rt, asked) else {
        return Err(ErrorKind::InvalidData.into());
    };
    if bytes.len() <= MOST_SHOWN {
        println!(rt; "{bytes:?}")?;
    }
    print_verdict(rt, bytes.as_slice())
}

// The bytes that are written for a line, or None where memory was refused.
fn certificate_of<R: Threads + Wait + AllocGlobal + Sync>(
    rt: &R,
    asked: &Asked,
) -> Option<Vec<u8>> {
    let setup = setup_of(rt, rt.alloc(), asked)?;
    certificate_by(rt, &setup, asked.line)
}

fn certificate_by<R: Threads + Wait + AllocGlobal + Sync>(
    rt: &R,
    setup: &Setup,
    line: &str,
) -> Option<Vec<u8>> {
    let mut source = ByteSource::new(line.as_bytes());
    let mut sink = ByteSink::new(Vec::new(rt.alloc()));
    run_cert(rt, rt.alloc(), &mut source, &mut sink, setup, &Free).ok()?;
    Some(sink.into_inner())
}

// Prints what the checker reports of bytes.
fn print_verdict<R: Print + AllocGlobal + Threads + Sync>(rt: &R, bytes: &[u8]) -> io::Result<()> {
    let mut sink = ByteSink::new(Vec::new(rt.alloc()));
    let Ok(_) = run_check(rt, rt.alloc(), &mut ByteSource::new(bytes), &mut sink) else {
        return Err(ErrorKind::InvalidData.into());
    };
    print_text(rt, sink.into_inner().as_slice())
}
