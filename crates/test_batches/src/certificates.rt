//! Certificates that runs write, changed and checked.

use batch_cli::{Free, Setup, run_cert, run_check};
use board::{Board, Shape, Weights};
use byte_streams::{ByteSink, ByteSource};
use std::sync::Wait;
use std::thread::Threads;

// The goal of 2 by 2 itself: no move, and no row is due.
pub(crate) const SOLVED: [u8; 37] = [
    0x54, 0x49, 0x4c, 0x45, 0x43, 0x52, 0x54, 0x32, 0, 2, 2, 0, 0, // the opening
    0, 1, 2, 3, 0, 1, 2, 3, // start and goal
    0, 0, 0, 0, 0, 0, 0, 0, // the cost and the plan
    0, 0, 0, 0, 0, 0, 0, 0, // the count of rows
];

// 1 0 over 2 3, which one move to the left solves.
pub(crate) const ONE_MOVE: [u8; 46] = [
    0x54, 0x49, 0x4c, 0x45, 0x43, 0x52, 0x54, 0x32, 0, 2, 2, 0, 0, // the opening
    1, 0, 2, 3, 0, 1, 2, 3, // start and goal
    1, 0, 0, 0, 1, 0, 0, 0, 0x4c, // the cost and the plan
    1, 0, 0, 0, 0, 0, 0, 0, // the count of rows
    1, 0, 2, 3, 0, 0, 0, 0, // the row
];

// The same in version 1.
pub(crate) const ONE_MOVE_ONE: [u8; 45] = [
    0x54, 0x49, 0x4c, 0x45, 0x43, 0x52, 0x54, 0x31, 2, 2, 0, 0, // the opening
    1, 0, 2, 3, 0, 1, 2, 3, // start and goal
    1, 0, 0, 0, 1, 0, 0, 0, 0x4c, // the cost and the plan
    1, 0, 0, 0, 0, 0, 0, 0, // the count of rows
    1, 0, 2, 3, 0, 0, 0, 0, // the row
];

// 1 3 over 0 2, which three moves solve: right, up, left. The boards that cost less prove it.
pub(crate) const THREE_MOVES: [u8; 80] = [
    0x54, 0x49, 0x4c, 0x45, 0x43, 0x52, 0x54, 0x32, 0, 2, 2, 0, 0, // the opening
    1, 3, 0, 2, 0, 1, 2, 3, // start and goal
    3, 0, 0, 0, 3, 0, 0, 0, b'R', b'U', b'L', // the cost and the plan
    5, 0, 0, 0, 0, 0, 0, 0, // the count of rows
    0, 3, 1, 2, 1, 0, 0, 0, // the rows, at 1,
    1, 0, 2, 3, 2, 0, 0, 0, // at 2,
    1, 3, 0, 2, 0, 0, 0, 0, // at 0,
    1, 3, 2, 0, 1, 0, 0, 0, // at 1,
    3, 0, 1, 2, 2, 0, 0, 0, // and at 2
];

// A bound of 1 for the same board: no plan costs less, since it is not the goal.
pub(crate) const BOUND: [u8; 41] = [
    0x54, 0x49, 0x4c, 0x45, 0x43, 0x52, 0x54, 0x32, 1, 2, 2, 0, 0, // the opening
    1, 0, 2, 3, 0, 1, 2, 3, // start and goal
    1, 0, 0, 0, // the bound
    1, 0, 0, 0, 0, 0, 0, 0, // the count of rows
    1, 0, 2, 3, 0, 0, 0, 0, // the row
];

// From which byte to which `ONE_MOVE_ONE` is replaced, by what, and the code that the result is
// refused by.
static CHANGES: [(usize, usize, &[u8], &str); 13] = [
    (0, 1, &[0x55], "F1"),
    (44, 45, &[], "F2"),
    (29, 30, &[2], "F2"),
    (8, 9, &[6], "F3"),
    // A row of the goal behind that of the start.
    (
        29,
        45,
        &[
            2, 0, 0, 0, 0, 0, 0, 0, 1, 0, 2, 3, 0, 0, 0, 0, 0, 1, 2, 3, 1, 0, 0, 0,
        ],
        "F4",
    ),
    (45, 45, &[0], "F5"),
    (28, 29, b"U", "C1"),
    (28, 29, b"D", "C2"),
    (20, 21, &[2], "C3"),
    // The start's row costs 1, and then there is none.
    (41, 42, &[1], "C5"),
    (29, 45, &[0, 0, 0, 0, 0, 0, 0, 0], "C5"),
    // A row of the goal before that of the start.
    (
        29,
        37,
        &[2, 0, 0, 0, 0, 0, 0, 0, 0, 1, 2, 3, 1, 0, 0, 0],
        "C6",
    ),
    // Three moves, and the row of the start alone.
    (
        12,
        41,
        &[
            1, 3, 0, 2, 0, 1, 2, 3, 3, 0, 0, 0, 3, 0, 0, 0, b'R', b'U', b'L', 1, 0, 0, 0, 0, 0, 0,
            0, 1, 3, 0, 2,
        ],
        "C7",
    ),
];

// By which code `ONE_MOVE_ONE` is refused where one of its bytes is 255: those below this place,
// and from that of the row above on.
static HIGH_BYTES: [(usize, &str); 8] = [
    (8, "F1"),
    (20, "F3"),
    // The lowest bytes of the cost.
    (22, "C3"),
    (29, "F3"),
    // The count of rows.
    (37, "F2"),
    (41, "F3"),
    // The lowest bytes of what the start's row costs.
    (43, "C5"),
    (45, "F3"),
];

// Whether bytes are judged so, with this status.
fn is_judged<R: Threads + AllocGlobal + Sync>(
    rt: &R,
    bytes: &[u8],
    report: &[u8],
    status: u8,
) -> bool {
    let mut sink = ByteSink::new(Vec::new(rt.alloc()));
    run_check(rt, rt.alloc(), &mut ByteSource::new(bytes), &mut sink) == Ok(status)
        && sink.into_inner().as_slice() == report
}

// Whether a changed `ONE_MOVE_ONE` is refused by this code.
fn is_refused<R: Threads + AllocGlobal + Sync>(
    rt: &R,
    from: usize,
    to: usize,
    by: &[u8],
    code: &str,
) -> Option<bool> {
    let alloc = rt.alloc();
    let mut bytes = Vec::new(alloc);
    bytes
        .extend_from_slice(ONE_MOVE_ONE.get(..from).unwrap_or(&[]))
        .ok()?;
    bytes.extend_from_slice(by).ok()?;
    bytes
        .extend_from_slice(ONE_MOVE_ONE.get(to..).unwrap_or(&[]))
        .ok()?;
    let report = format!(in alloc; "{{\"fault\":\"{code}\",\"status\":\"refused\"}}\n").ok()?;
    Some(is_judged(rt, bytes.as_slice(), report.as_bytes(), 5))
}

// The certificate that is written of the hardest board of 3 by 3. None where none is written, or
// memory was refused.
fn certificate_of_hardest<R: Threads + Wait + AllocGlobal + Sync>(rt: &R) -> Option<Vec<u8>> {
    let alloc = rt.alloc();
    let shape = Shape::new(3, 3).ok()?;
    let setup = Setup::new(alloc, Board::goal(shape), Weights::unit(shape));
    certificate_with(rt, &setup, b"h 8 0 6 5 4 7 2 3 1\n")
}

// The certificate that is written of the first line, if one is.
fn certificate_with<R: Threads + Wait + AllocGlobal + Sync>(
    rt: &R,
    setup: &Setup,
    lines: &[u8],
) -> Option<Vec<u8>> {
    let alloc = rt.alloc();
    let mut source = ByteSource::new(lines);
    let mut sink = ByteSink::new(Vec::new(alloc));
    match run_cert(rt, alloc, &mut source, &mut sink, setup, &Free) {
        Ok(0) => Some(sink.into_inner()),
        _ => None,
    }
}

#[test]
fn what_the_search_finds_is_accepted(rt: HostRuntime) {
    let Some(certificate) = certificate_of_hardest(&rt) else {
        panic!(rt; "no certificate");
    };
    let report = b"{\"cost\":31,\"status\":\"accepted\"}\n";
    assert!(rt; is_judged(&rt, certificate.as_slice(), report, 0));
}

#[test]
fn changed_certificates_are_refused(rt: HostRuntime) {
    for (from, to, by, code) in &CHANGES {
        let is_refused = is_refused(&rt, *from, *to, by, code);
        assert_eq!(rt; is_refused, Some(true), "{code}");
    }
}

#[test]
fn certificates_that_end_early_are_refused(rt: HostRuntime) {
    for length in 0..45 {
        assert_eq!(rt;
            is_refused(&rt, length, 45, &[], "F2"),
            Some(true),
            "{length}"
        );
    }
}

#[test]
fn high_bytes_are_refused(rt: HostRuntime) {
    let mut from = 0;
    for (end, code) in &HIGH_BYTES {
        for place in from..*end {
            let is_refused = is_refused(&rt, place, place + 1, &[255], code);
            assert_eq!(rt; is_refused, Some(true), "{place}");
        }
        from = *end;
    }
}
