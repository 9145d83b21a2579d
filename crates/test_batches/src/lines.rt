//! How inputs are cut into lines.

use batch_cli::LineKind::{PassedOver, TooLong, Within};
use batch_cli::{Line, LineKind, LineReader};
use byte_streams::{ByteSource, ReadFailed};
use std::alloc::Global;
use std::io::ErrorKind;
use test_support::FailingReader;

// Inputs, and the kinds of their lines, with the bytes of each that is within the limit.
static SHORT: [(&[u8], &[(LineKind, &[u8])]); 8] = [
    (b"", &[]),
    (b"\n", &[(PassedOver, b"")]),
    (b"\r", &[(PassedOver, b"")]),
    (b"a", &[(Within, b"a")]),
    (b"a\r\nb\r", &[(Within, b"a"), (Within, b"b")]),
    // Only one carriage return is dropped, and none within a line.
    (
        b"a\r\r\n\r\r\nb\rc\n",
        &[(Within, b"a\r"), (Within, b"\r"), (Within, b"b\rc")],
    ),
    // A number sign behind other bytes begins no comment.
    (
        b" \t#a\na#\n \t\r\n",
        &[(PassedOver, b""), (Within, b"a#"), (PassedOver, b"")],
    ),
    (
        b"# list\r\n\r\n  7   1\r\n7",
        &[
            (PassedOver, b""),
            (PassedOver, b""),
            (Within, b"  7   1"),
            (Within, b"7"),
        ],
    ),
];

// Lines of one byte, repeated, and an end, and their kinds.
static LONG: [(u8, usize, &[u8], LineKind); 9] = [
    (b'x', 1024, b"\r\n", Within),
    (b'x', 1024, b"", Within),
    (b'x', 1024, b"\r\r\n", TooLong),
    (b'x', 1025, b"\n", TooLong),
    (b'x', 5000, b"", TooLong),
    (b' ', 3000, b"\n", PassedOver),
    (b' ', 2000, b"\r\r\n", TooLong),
    (b' ', 2000, b"x\n", TooLong),
    (b'#', 5000, b"\n", PassedOver),
];

// Whether an input is cut into these lines.
fn is_cut(input: &[u8], lines: &[(LineKind, &[u8])]) -> bool {
    let mut source = ByteSource::new(input);
    let mut reader = LineReader::new();
    for (place, (kind, bytes)) in lines.iter().enumerate() {
        let line = Line {
            number: place as u64 + 1,
            kind: *kind,
        };
        if reader.next_line(&mut source) != Ok(Some(line)) {
            return false;
        }
        if *kind == Within && reader.bytes() != *bytes {
            return false;
        }
    }
    reader.next_line(&mut source) == Ok(None)
}

// Whether an input is cut into one line of this kind.
fn is_one_line(alloc: Global, byte: u8, count: usize, end: &[u8], kind: LineKind) -> Option<bool> {
    let line = vec![in alloc; byte; count].ok()?;
    let mut input = line.clone().ok()?;
    input.extend_from_slice(end).ok()?;
    Some(is_cut(input.as_slice(), &[(kind, line.as_slice())]))
}

#[test]
fn inputs_are_cut_into_lines(rt: HostRuntime) {
    for (place, (input, lines)) in SHORT.iter().enumerate() {
        assert!(rt; is_cut(input, lines), "{place}");
    }
}

#[test]
fn long_lines_are_cut_off(rt: HostRuntime) {
    for (byte, count, end, kind) in &LONG {
        let is_one = is_one_line(rt.alloc(), *byte, *count, end, *kind);
        assert_eq!(rt; is_one, Some(true), "{count} of {byte}");
    }
}

// Whether this many lines are read before the read that fails, and none ever after.
fn reads_lines_up_to_failure(reads_before: usize, lines: usize) -> bool {
    let mut source = ByteSource::new(FailingReader {
        bytes: b"ab\n#c\n\nd",
        reads_before,
        kind: ErrorKind::Interrupted,
    });
    let mut reader = LineReader::new();
    for _ in 0..lines {
        if !matches!(reader.next_line(&mut source), Ok(Some(_))) {
            return false;
        }
    }
    reader.next_line(&mut source) == Err(ReadFailed)
        && reader.next_line(&mut source) == Err(ReadFailed)
}

#[test]
fn lines_are_read_up_to_a_failure(rt: HostRuntime) {
    // How many lines are whole where the read with this number fails, that of the end among them.
    let whole = [0, 0, 0, 1, 1, 1, 2, 3, 3];
    for (reads_before, lines) in whole.into_iter().enumerate() {
        assert!(rt;
            reads_lines_up_to_failure(reads_before, lines),
            "{reads_before}"
        );
    }
}
