//! Reports of lines, and certificates.
//!
//! Each run is called by a function without clauses, so that no other has its contract to look at.

ghost use Rattle.std.specs.Prelude.{◌≡◌};

use batch_cli::{
    CertifyFault, CheckFault, Free, LinesFault, Setup, Summary, run_batch, run_cert, run_check,
};
use board::{Board, Shape, Weights};
use byte_streams::{ByteSink, ByteSource};
use std::alloc::Global;
use std::fmt::Debug;
use std::io;
use std::sync::Wait;
use std::thread::Threads;

const LINES: &[u8] = b"a 1 2 0 3 4 5 6 7 8\nb 2 1 0 3 4 5 6 7 8\nc 1 2 3\n";

/// The reports of three lines; and the certificate of the first one's board, made and checked.
pub fn visit(rt: &(impl Print + AllocGlobal + Threads + Wait + Sync)) -> io::Result<()> {
    print_reports(rt)?;
    print_certificate(rt)
}

fn print_reports(rt: &(impl Print + AllocGlobal + Threads + Wait + Sync)) -> io::Result<()> {
    let mut reports = ByteSink::new(Vec::new(rt.alloc()));
    let counts = report(rt, rt.alloc(), &mut reports);
    tell(rt, reports.into_inner().as_slice(), &counts)
}

fn report(
    rt: &(impl Threads + Wait + Sync),
    alloc: Global,
    reports: &mut ByteSink<Vec<u8>>,
) -> Result<Summary, LinesFault> {
    let setup = setup_of_faces(alloc);
    run_batch(
        rt,
        alloc,
        &mut ByteSource::new(LINES),
        reports,
        &setup,
        &Free,
    )
}

fn print_certificate(rt: &(impl Print + AllocGlobal + Threads + Wait + Sync)) -> io::Result<()> {
    let mut bytes = ByteSink::new(Vec::new(rt.alloc()));
    let status = certify(rt, rt.alloc(), &mut bytes);
    print_check(rt, bytes.into_inner().as_slice(), &status)
}

fn certify(
    rt: &(impl Threads + Wait + Sync),
    alloc: Global,
    bytes: &mut ByteSink<Vec<u8>>,
) -> Result<u8, CertifyFault> {
    let setup = setup_of_faces(alloc);
    run_cert(rt, alloc, &mut ByteSource::new(LINES), bytes, &setup, &Free)
}

// How a certificate was made, and what the checker says of it.
fn print_check(
    rt: &(impl Print + AllocGlobal + Threads + Sync),
    certificate: &[u8],
    made: &Result<u8, CertifyFault>,
) -> io::Result<()> {
    println!(rt; "{made:?}, a certificate of {} bytes", certificate.len())?;
    let mut verdict = ByteSink::new(Vec::new(rt.alloc()));
    let status = check(rt, rt.alloc(), certificate, &mut verdict);
    tell(rt, verdict.into_inner().as_slice(), &status)
}

fn check(
    rt: &(impl Threads + Sync),
    alloc: Global,
    certificate: &[u8],
    verdict: &mut ByteSink<Vec<u8>>,
) -> Result<u8, CheckFault> {
    run_check(rt, alloc, &mut ByteSource::new(certificate), verdict)
}

// Boards of 3 by 3, Korf's goal, and face cost: moving tile t costs t.
fn setup_of_faces(alloc: Global) -> Setup {
    let shape = Shape::new(3, 3).unwrap();
    Setup::new(alloc, Board::goal(shape), Weights::face(shape))
}

/// Prints what a run wrote, and what it answered.
pub fn tell(rt: &impl Print, written: &[u8], answer: &impl Debug) -> io::Result<()> {
    print_text(rt, written)?;
    println!(rt; "{answer:?}")
}

fn print_text(rt: &impl Print, bytes: &[u8]) -> io::Result<()> {
    match str::from_utf8(bytes) {
        Ok(text) => rt.print(text),
        Err(_) => rt.println("no text"),
    }
}
