//! The checker: certificates that it accepts, and one for each refusal.

use crate::groups::bound_for;
use crate::vectors::{
    BOUND_OF_0, BOUND_OF_1, GOAL, GREATEST, NO_ROWS_AT_2, ONE_MOVE, ONE_MOVE_TWO, ONE_ROW_LESS,
    THREE_MOVES, WITH_GROUPS, WITH_WEIGHTS,
};
use board::Move;
use byte_streams::ByteSource;
use certificate::{Certificate, FormatFault, ReadFault, read};
use certificate_check::{Refusal, check, check_parallel};
use std::process::Abort;
use std::thread::Threads;

// The place of the kind of costs.
const KIND: usize = 10;

// Its place in version 2.
const KIND_OF_TWO: usize = 11;

// What is answered for bytes: why they are no certificate, or what the checker says of the one that
// they spell, with the tables of its groups.
type Answer = Result<Result<(), Refusal>, ReadFault>;

// What one thread or several say of a certificate, with the tables of its groups.
fn judge<R: Abort + AllocGlobal + Threads + Sync>(
    rt: &R,
    certificate: &Certificate,
    by_several: bool,
) -> Result<(), Refusal> {
    let bound = bound_for(rt, certificate);
    if by_several {
        check_parallel(rt, certificate, &bound).unwrap()
    } else {
        check(certificate, &bound)
    }
}

fn answer<R: Abort + AllocGlobal + Threads + Sync>(
    rt: &R,
    bytes: &[u8],
    by_several: bool,
) -> Answer {
    match read(rt.alloc(), &mut ByteSource::new(bytes)) {
        Ok(certificate) => Ok(judge(rt, &certificate, by_several)),
        Err(fault) => Err(fault),
    }
}

// Compares what one thread and several answer.
fn expect_answer<R: Abort + AllocGlobal + Threads + Sync>(rt: &R, bytes: &[u8], want: &Answer) {
    for by_several in [false, true] {
        assert_eq!(rt; answer(rt, bytes, by_several), *want, "{bytes:?}");
    }
}

// Bytes, and what is answered for them.
static ANSWERS: [(&[u8], Answer); 23] = [
    (&GOAL, Ok(Ok(()))),
    (&ONE_MOVE, Ok(Ok(()))),
    (&THREE_MOVES, Ok(Ok(()))),
    (&WITH_GROUPS, Ok(Ok(()))),
    (&WITH_WEIGHTS, Ok(Ok(()))),
    (&NO_ROWS_AT_2, Ok(Err(Refusal::OpenSuccessor(0, Move::R)))),
    (&ONE_ROW_LESS, Ok(Err(Refusal::OpenSuccessor(2, Move::U)))),
    // Fields that are cut off are not judged.
    (b"\xff", Err(ReadFault::Format(FormatFault::Truncated))),
    (
        b"TILECRT1\x02\x02\x00\x00\x01\xff\x02",
        Err(ReadFault::Format(FormatFault::Truncated)),
    ),
    (
        b"TILECRT1\x02\x02\x02\x00\x01",
        Err(ReadFault::Format(FormatFault::Truncated)),
    ),
    // There is no kind 3, and weights are those of no other kind and above 0.
    (
        b"TILECRT1\x02\x02\x03",
        Err(ReadFault::Format(FormatFault::OutOfRange)),
    ),
    (
        b"TILECRT1\x02\x02\x02\x05\x01\x00",
        Err(ReadFault::Format(FormatFault::OutOfRange)),
    ),
    (
        b"TILECRT1\x02\x02\x02\x01\x01\x01",
        Err(ReadFault::Format(FormatFault::OutOfRange)),
    ),
    (
        b"TILECRT1\x02\x02\x02\x01\x02\x03",
        Err(ReadFault::Format(FormatFault::OutOfRange)),
    ),
    (
        b"TILECRT1\x02\x02\x02\xff\xff\xff",
        Err(ReadFault::Format(FormatFault::Truncated)),
    ),
    // Version 2, with a plan or with a bound, which rows have to prove.
    (&ONE_MOVE_TWO, Ok(Ok(()))),
    (&BOUND_OF_1, Ok(Ok(()))),
    (&BOUND_OF_0, Ok(Ok(()))),
    (&GREATEST, Ok(Err(Refusal::StartUnproved))),
    (
        b"TILECRT2\x01\x02\x02\x00\x00\x01\x00\x02\x03\x00\x01\x02\x03\x02\x00\x00\x00\x01\x00\x00\x00\x00\x00\x00\x00\x01\x00\x02\x03\x00\x00\x00\x00",
        Ok(Err(Refusal::OpenSuccessor(0, Move::L))),
    ),
    (
        b"TILECRT2\x01\x02\x02\x00\x00\x01\x00\x02\x03\x00\x01\x02\x03\x01\x00\x00\x00\x00\x00\x00\x00\x00\x00\x00\x00",
        Ok(Err(Refusal::StartUnproved)),
    ),
    // A bound of 2,621,416.
    (
        b"TILECRT2\x01\x02\x02\x00\x00\x01\x00\x02\x03\x00\x01\x02\x03\xe8\xff\x27\x00\x00",
        Err(ReadFault::Format(FormatFault::OutOfRange)),
    ),
    // The last byte of the certificate of a bound of 1 left out.
    (
        b"TILECRT2\x01\x02\x02\x00\x00\x01\x00\x02\x03\x00\x01\x02\x03\x01\x00\x00\x00\x01\x00\x00\x00\x00\x00\x00\x00\x01\x00\x02\x03\x00\x00\x00",
        Err(ReadFault::Format(FormatFault::Truncated)),
    ),
];

#[test]
fn known_answers(rt: HostRuntime) {
    for (bytes, want) in &ANSWERS {
        expect_answer(&rt, bytes, want);
    }
}

// The bytes of three moves, with other bytes from a place on.
fn changed(place: usize, bytes: &[u8]) -> [u8; 79] {
    let mut text = THREE_MOVES;
    for (old, new) in text.iter_mut().skip(place).zip(bytes) {
        *old = *new;
    }
    text
}

// The place of a change, the bytes there, and what is answered then.
static CHANGES: [(usize, &[u8], Answer); 13] = [
    // Another text in front.
    (7, b"3", Err(ReadFault::Format(FormatFault::OtherMagic))),
    // The number of rows where a claim is due.
    (7, b"2", Err(ReadFault::Format(FormatFault::OutOfRange))),
    // More rows announced than any memory holds.
    (
        31,
        &[0xff; 8],
        Err(ReadFault::Format(FormatFault::Truncated)),
    ),
    // A cost of 1,048,576.
    (
        20,
        &[0, 0, 16],
        Err(ReadFault::Format(FormatFault::OutOfRange)),
    ),
    // The second row's board in the first row.
    (
        39,
        &[1, 0, 2, 3],
        Err(ReadFault::Format(FormatFault::NotRising)),
    ),
    // The same board at 1,048,576: a row's order is judged last.
    (
        39,
        &[1, 0, 2, 3, 0, 0, 16],
        Err(ReadFault::Format(FormatFault::OutOfRange)),
    ),
    // One row less announced than there is.
    (31, &[4], Err(ReadFault::Format(FormatFault::BytesAfterEnd))),
    // The plans R, R, L and R, U, D.
    (29, b"R", Ok(Err(Refusal::IllegalMove(1)))),
    (30, b"D", Ok(Err(Refusal::OtherEnd))),
    // A cost of 4.
    (20, &[4], Ok(Err(Refusal::OtherCost))),
    // The start's row at 1.
    (59, &[1], Ok(Err(Refusal::StartUnproved))),
    // The goal in the first row.
    (40, &[1, 2, 3], Ok(Err(Refusal::GoalRow(0)))),
    // The second row at 3.
    (51, &[3], Ok(Err(Refusal::OpenSuccessor(3, Move::U)))),
];

#[test]
fn each_fault_and_refusal(rt: HostRuntime) {
    for (place, bytes, want) in &CHANGES {
        expect_answer(&rt, &changed(*place, bytes), want);
    }
}

// Whether bytes are accepted with this much more at a place, beyond 255 from 0 on.
fn is_accepted<R: Abort + AllocGlobal + Threads + Sync>(
    rt: &R,
    bytes: &[u8],
    place: usize,
    step: u8,
) -> bool {
    let mut text = Vec::from_slice(rt.alloc(), bytes).expect(rt, "memory");
    if let Some(byte) = text.get_mut(place) {
        *byte = byte.wrapping_add(step);
    }
    answer(rt, text.as_slice(), false) == Ok(Ok(()))
}

// The changes of one byte, by its place and by what is added there, after which bytes are accepted.
fn accepted_changes<R: Abort + AllocGlobal + Threads + Sync>(
    rt: &R,
    bytes: &[u8],
) -> Vec<(usize, u8)> {
    let mut accepted = Vec::new(rt.alloc());
    for place in 0..bytes.len() {
        for step in 1..=255 {
            if is_accepted(rt, bytes, place, step) {
                accepted.push((place, step)).expect(rt, "memory");
            }
        }
    }
    accepted
}

// Certificates, and the changes after which they are accepted. The one move is of tile 1, so its
// face cost is 1 too. Three moves with groups cost 6.
static ACCEPTED: [(&[u8], &[(usize, u8)]); 3] = [
    (&ONE_MOVE, &[(KIND, 1)]),
    (&WITH_GROUPS, &[]),
    (&ONE_MOVE_TWO, &[(KIND_OF_TWO, 1)]),
];

#[test]
fn each_byte_changed(rt: HostRuntime) {
    for (bytes, accepted) in &ACCEPTED {
        assert_eq!(rt; accepted_changes(&rt, bytes).as_slice(), *accepted);
    }
}
