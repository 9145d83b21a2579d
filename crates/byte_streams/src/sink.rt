//! Bytes that are written, and what writes them to a writer.

ghost use Rattle.std.specs.Prelude.{◌≡◌, ◌<◌, ◌≤◌, ℕ, true, false, IfOk, OnErr, OnOk};
ghost use Rattle.std.specs.Prelude.{List, Option, length, take};
ghost use Rattle.std.specs.Io.KnownBytes.{Appends, Keeps};
ghost use Rattle.byte_streams.specs.Streams.{SinkState, change};
ghost use Rattle.byte_streams.specs.Sink.{Writes, Flushes, AreTaken, StopsAtFailure};
ghost use Rattle.byte_streams.specs.ByteSink.{inner_writer, sink_has_failed, byte_sink_state};
ghost use Rattle.byte_streams.specs.ByteSink.{WasFlushed};

use crate::writer::Writer;
use thiserror::Error;

/// A sink failed.
#[derive(Clone, Copy, Debug, PartialEq, Eq, Error)]
#[error("the output cannot be written")]
pub struct WriteFailed;

/// Bytes that are written, to what may fail.
pub trait Sink {
    // The bytes that are written, and whether a write or a flush has failed.
    ghost state: { Self → SinkState };

    // A flush came last, and has succeeded.
    ghost is_flushed: { Self → Type 0 };

    /// Writes all of the bytes.
    ///
    /// It fails exactly where the sink has failed after it. A beginning of the bytes was written
    /// then, after what was written before. Each later call fails and writes nothing.
    fn put(&mut self, bytes: &[u8]) -> Result<(), WriteFailed>
        ensures { Writes (change state self.old self.new) bytes.now result };

    /// Passes on what is still held back.
    ///
    /// It fails exactly where the sink has failed after it, and writes no byte of its own.
    fn flush(&mut self) -> Result<(), WriteFailed>
        ensures flushes { Flushes (change state self.old self.new) result }
        ensures last { OnOk result (is_flushed self.new) };
}

/// The bytes that a writer takes, up to its first failure.
///
/// Short texts are writes of their own, so put a `BufWriter` round a writer whose writes are slow,
/// and flush the sink at the end: a `BufWriter` that is dropped reports no failure.
#[derive(Debug, Drop)]
pub struct ByteSink<W> {
    writer: W,
    has_failed: bool,
}

impl<W: Writer> ByteSink<W> {
    /// A sink that adds to what the writer holds.
    pub fn new(writer: W) -> Self
        ensures writer { inner_writer result ≡ writer }
        ensures fresh { sink_has_failed result ≡ false }
        ensures shown { byte_sink_state W.contents result ≡ record {
          contents = W.contents writer;
          has_failed = false;
        } }
    {
        ByteSink {
            writer,
            has_failed: false,
        }
    }

    /// The writer, with what it holds. Nothing is flushed.
    pub fn into_inner(self) -> W
        ensures { result ≡ inner_writer self }
    {
        self.writer
    }
}

impl<W: Writer> Sink for ByteSink<W> {
    ghost state = { byte_sink_state W.contents };

    ghost is_flushed = { WasFlushed W.flushes };

    fn put(&mut self, bytes: &[u8]) -> Result<(), WriteFailed>
        ensures writes { Writes (change (byte_sink_state W.contents) self.old self.new)
            bytes.now result }

        // It succeeds by writes that each took bytes. It fails by such writes and one more, which
        // failed or took no byte, or since it had failed before.
        ensures taken { OnOk result
            (AreTaken W.write_takes (inner_writer self.old) bytes.now (inner_writer self.new)) }
        ensures cause { sink_has_failed self.old ≡ false → OnErr result
            (StopsAtFailure W.write_takes W.write_fails (change inner_writer self.old self.new)
            bytes.now) }
        ensures untouched { sink_has_failed self.old ≡ true
            → inner_writer self.new ≡ inner_writer self.old }
    {
        if self.has_failed {
            return Err(WriteFailed);
        }
        let mut sent = 0;
        'writes: while sent < bytes.len() {
            match write_some(&mut self.writer, &bytes[sent..]) {
                Ok(taken) => sent += taken,
                Err(failure) => {
                    self.has_failed = true;
                    return Err(failure);
                }
            }
        }
        Ok(())
    }

    fn flush(&mut self) -> Result<(), WriteFailed>
        ensures flushes { Flushes (change (byte_sink_state W.contents) self.old self.new) result }

        // It succeeds only by a flush, and fails only by one that failed in this call, or since it
        // had failed before.
        ensures last { OnOk result (W.flushes (inner_writer self.old) (inner_writer self.new)) }
        ensures cause { sink_has_failed self.old ≡ false
            → OnErr result (W.flush_fails (inner_writer self.old) (inner_writer self.new)) }
        ensures untouched { sink_has_failed self.old ≡ true
            → inner_writer self.new ≡ inner_writer self.old }
    {
        if self.has_failed {
            return Err(WriteFailed);
        }
        if self.writer.flush_once().is_err() {
            self.has_failed = true;
            return Err(WriteFailed);
        }
        Ok(())
    }
}

// One write of a text that is not empty. A writer that takes none of it may never take any, so that
// counts as a failure.
fn write_some<W: Writer>(writer: &mut W, bytes: &[u8]) -> Result<usize, WriteFailed>
    requires { 0 < length bytes.now }
    ensures bound { IfOk result (λ n. (0 < n) × (n ≤ length bytes.now)) }
    ensures taken { IfOk result
        (λ n. Appends (W.contents writer.old) (W.contents writer.new) (take n bytes.now)) }
    ensures takes { IfOk result (λ n. W.write_takes writer.old (take n bytes.now) writer.new) }
    ensures kept { OnErr result (Keeps (W.contents writer.old) (W.contents writer.new)) }
    ensures cause { OnErr result (W.write_fails writer.old writer.new) }
{
    match writer.write_once(bytes) {
        Ok(0) => Err(WriteFailed),
        Ok(taken) => Ok(taken),
        Err(_) => Err(WriteFailed),
    }
}
