//! Streams that fail at each of their calls in turn.

use crate::groups::certificate_of;
use crate::vectors::ONE_MOVE;
use byte_streams::{ByteSink, ByteSource};
use certificate::{Certificate, FormatFault, ReadFault, read, write};
use std::alloc::Global;
use std::io::ErrorKind;
use test_support::{FailingReader, FailingWriter};

// What is answered if this many reads succeed.
fn fault_after(alloc: Global, bytes: &[u8], reads_before: usize) -> Option<ReadFault> {
    let mut source = ByteSource::new(FailingReader {
        bytes,
        reads_before,
        kind: ErrorKind::Other,
    });
    read(alloc, &mut source).err()
}

// How many reads come before the first of these that can fail with no fault.
fn first_unfailed(alloc: Global, bytes: &[u8], reads: usize) -> Option<usize> {
    for reads_before in 0..reads {
        if fault_after(alloc, bytes, reads_before) != Some(ReadFault::Failed) {
            return Some(reads_before);
        }
    }
    None
}

#[test]
fn each_read_fails_in_turn(rt: HostRuntime) {
    // One group is announced, of one tile, which is 0.
    let mut with_groups = ONE_MOVE;
    with_groups[11] = 1;
    let group_fault = Some(ReadFault::Format(FormatFault::OutOfRange));
    // Each byte is a read, and so is the end. Nothing behind a fault is read.
    for (text, reads, answer) in [(&ONE_MOVE, 46, None), (&with_groups, 14, group_fault)] {
        assert_eq!(rt; first_unfailed(rt.alloc(), text, reads), None, "of {reads}");
        assert_eq!(rt; fault_after(rt.alloc(), text, reads), answer);
    }
}

// Whether as many bytes are written as writes succeed, each by one write.
fn takes_as_many(alloc: Global, certificate: &Certificate, writes_before: usize) -> bool {
    let writer = FailingWriter::new(alloc, writes_before, Some(ErrorKind::Other));
    let mut sink = ByteSink::new(writer);
    let answer = write(&mut sink, certificate);
    answer.is_ok() == (writes_before == ONE_MOVE.len())
        && Some(sink.into_inner().taken.as_slice()) == ONE_MOVE.get(..writes_before)
}

#[test]
fn each_write_fails_in_turn(rt: HostRuntime) {
    let certificate = certificate_of(&rt, &ONE_MOVE);
    for writes_before in 0..=ONE_MOVE.len() {
        assert!(rt;
            takes_as_many(rt.alloc(), &certificate, writes_before),
            "{writes_before}"
        );
    }
}
