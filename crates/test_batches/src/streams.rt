//! Streams over std, and over readers and writers that fail.

ghost use Rattle.std.specs.Prelude.{◌≡◌, ◌<◌, ◌+◌, ◌^◌, ◌++◌, false, length, None, Some};
ghost use Rattle.byte_streams.specs.ByteSource.{source_has_failed};
ghost use Rattle.byte_streams.specs.ByteSink.{inner_writer, sink_has_failed};

use byte_streams::{
    BufferedSource, ByteSink, ByteSource, ReadFailed, Reader, Sink, Source, WriteFailed, Writer,
};
use std::alloc::Global;
use std::io;
use std::io::{ErrorKind, Read};
use test_support::{FailingReader, FailingWriter};

// Whether a source gives the bytes before the read that fails, loses none, and fails for ever after
// them. Its fourth read is that of the end.
fn reads_up_to_failure(kind: ErrorKind, reads_before: usize) -> bool {
    let text = b"abc";
    let mut source = ByteSource::new(FailingReader {
        bytes: text,
        reads_before,
        kind,
    });
    for byte in text.iter().take(reads_before) {
        if source.next_byte() != Ok(Some(*byte)) {
            return false;
        }
    }
    for _ in 0..2 {
        if source.next_byte() != Err(ReadFailed) {
            return false;
        }
    }
    source.into_inner().bytes.len() == text.len().saturating_sub(reads_before)
}

// Whether a source that reads many bytes at once gives them one by one, holds those that it has not
// given yet, and fails for ever after them.
fn gives_what_it_holds(alloc: Global) -> bool {
    let text = b"abc";
    let reader = FailingReader {
        bytes: text,
        reads_before: 1,
        kind: ErrorKind::Other,
    };
    let Ok(mut source) = BufferedSource::new(alloc, reader) else {
        return false;
    };
    for place in 0..text.len() {
        if source.next_byte() != Ok(Some(text[place])) || source.held() != &text[place + 1..] {
            return false;
        }
    }
    source.next_byte() == Err(ReadFailed) && source.next_byte() == Err(ReadFailed)
}

// Whether a sink writes the bytes before the write or flush that fails, and fails for ever after
// them. There are five writes and a flush.
fn writes_up_to_failure(alloc: Global, kind: Option<ErrorKind>, calls_before: usize) -> bool {
    let mut sink = ByteSink::new(FailingWriter::new(alloc, calls_before, kind));
    let due = if calls_before < 6 {
        Err(WriteFailed)
    } else {
        Ok(())
    };
    if put_texts(&mut sink) != due {
        return false;
    }
    if due.is_err() && (sink.put(b"f") != due || sink.flush() != due) {
        return false;
    }
    sink.into_inner().taken.as_slice() == &b"abcde"[..calls_before.min(5)]
}

// Writes some texts, one of them empty, and flushes.
fn put_texts<K: Sink>(sink: &mut K) -> Result<(), WriteFailed> {
    sink.put(b"abc")?;
    sink.put(b"")?;
    sink.put(b"de")?;
    sink.flush()
}

#[test]
fn streams_fail_once_and_for_all(rt: HostRuntime) {
    let (other, interrupted) = (ErrorKind::Other, ErrorKind::Interrupted);
    for kind in [other, interrupted, ErrorKind::WouldBlock] {
        for reads_before in 0..4 {
            assert!(rt;
                reads_up_to_failure(kind, reads_before),
                "{kind:?}, {reads_before}"
            );
        }
    }
    assert!(rt; gives_what_it_holds(rt.alloc()));
    for kind in [Some(other), Some(interrupted), None] {
        for calls_before in 0..7 {
            assert!(rt;
                writes_up_to_failure(rt.alloc(), kind, calls_before),
                "{kind:?}, {calls_before}"
            );
        }
    }
}

// The bytes that one read of a text gives.
fn read_through<R: Reader>(reader: &mut R) -> Option<[u8; 2]> {
    let mut buffer = [0; 2];
    match reader.read_once(&mut buffer) {
        Ok(2) => Some(buffer),
        _ => None,
    }
}

// How many bytes one write takes, where a flush succeeds after it.
fn write_through<W: Writer>(writer: &mut W) -> Option<usize> {
    let taken = writer.write_once(b"ab").ok()?;
    writer.flush_once().ok()?;
    Some(taken)
}

// Whether std's readers and writers are passed on, and given back as they are.
fn passes_on(alloc: Global) -> bool {
    let mut text = "abcd".as_bytes();
    let mut written = Vec::new(alloc);
    if read_through(&mut text) != Some([b'a', b'b']) || write_through(&mut written) != Some(2) {
        return false;
    }
    let mut source = ByteSource::new(text);
    let mut sink = ByteSink::new(written);
    source.next_byte() == Ok(Some(b'c'))
        && source.into_inner() == b"d".as_slice()
        && put_texts(&mut sink) == Ok(())
        && sink.into_inner().as_slice() == b"ababcde".as_slice()
}

// A text in memory, whose reads never fail.
#[derive(Drop)]
struct Text<'a> {
    bytes: &'a [u8],
}

impl Reader for Text<'_> {
    ghost left = { λ t. Some t.bytes.now };

    ghost read_gives = { λ old bytes new. old.bytes.now ≡ bytes ++ new.bytes.now };

    ghost read_fails = { λ _ _. ⊥ };

    fn read_once(&mut self, buffer: &mut [u8]) -> io::Result<usize> {
        self.bytes.read(buffer)
    }
}

// A writer that only counts, whose calls never fail.
#[derive(Drop)]
struct Counter {
    count: usize,
}

impl Writer for Counter {
    ghost contents = { λ _. None };

    ghost write_takes = { λ old bytes new. old.count + length bytes < 2 ^ 64
        → new.count ≡ old.count + length bytes };

    ghost write_fails = { λ _ _. ⊥ };

    ghost flushes = { λ old new. new.count ≡ old.count };

    ghost flush_fails = { λ _ _. ⊥ };

    fn write_once(&mut self, bytes: &[u8]) -> io::Result<usize> {
        self.count = self.count.saturating_add(bytes.len());
        Ok(bytes.len())
    }

    fn flush_once(&mut self) -> io::Result<()> {
        Ok(())
    }
}

// Each `unwrap` is proved: a stream fails only where its reader or its writer failed.
fn next_of_text(source: &mut ByteSource<Text>) -> Option<u8>
    requires { source_has_failed source.old ≡ false }
{
    source.next_byte().unwrap()
}

// The count is proved too: each write adds to it, and `put` makes no write but those that took the
// bytes.
fn count_of(sink: ByteSink<Counter>, bytes: &[u8]) -> usize
    requires fresh { sink_has_failed sink ≡ false }
    requires empty { (inner_writer sink).count ≡ 0 }
    requires short { length bytes.now < 2 ^ 64 }
    ensures { result ≡ length bytes.now }
{
    let mut sink = sink;
    sink.put(bytes).unwrap();
    sink.flush().unwrap();
    sink.into_inner().count
}

#[test]
fn streams_pass_calls_on(rt: HostRuntime) {
    assert!(rt; passes_on(rt.alloc()));
    let mut source = ByteSource::new(Text { bytes: b"a" });
    assert_eq!(rt; next_of_text(&mut source), Some(b'a'));
    let sink = ByteSink::new(Counter { count: 0 });
    assert_eq!(rt; count_of(sink, b"abc"), 3);
}
