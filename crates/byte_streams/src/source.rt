//! Bytes that are read one by one, and those of a reader.

ghost use Rattle.std.specs.Prelude.{◌≡◌, ℕ, true, false, IfOk, List, OnErr, Option};
ghost use Rattle.byte_streams.specs.Streams.{SourceState, change};
ghost use Rattle.byte_streams.specs.Source.{GivesNext, GivenByRead};
ghost use Rattle.byte_streams.specs.Buffered.{AreNext};
ghost use Rattle.byte_streams.specs.ByteSource.{inner_reader, source_has_failed, byte_source_state};

use crate::reader::Reader;
use thiserror::Error;

/// A source failed.
#[derive(Clone, Copy, Debug, PartialEq, Eq, Error)]
#[error("the input cannot be read")]
pub struct ReadFailed;

/// Bytes that are read one by one, from what may fail.
pub trait Source {
    // The bytes that are left, and whether reading has failed.
    ghost state: { Self → SourceState };

    /// The next byte, or `None` at the end.
    ///
    /// It fails exactly where the source has failed after it. No byte is lost then, and each later
    /// call fails too.
    fn next_byte(&mut self) -> Result<Option<u8>, ReadFailed>
        ensures { GivesNext (change state self.old self.new) result };

    /// The next bytes, as far as they were read already, so looking at them waits for nothing. A
    /// source that reads no more than it gives holds none.
    fn held(&self) -> &[u8]
        ensures { AreNext (state self.now).left result.now }
    {
        &[]
    }
}

/// The bytes of a reader, up to its first failure.
///
/// Each byte is a read of its own, so put a `BufReader` round a reader whose reads are slow.
#[derive(Debug, Drop)]
pub struct ByteSource<R> {
    reader: R,
    has_failed: bool,
}

impl<R: Reader> ByteSource<R> {
    /// A source of what the reader has left.
    pub fn new(reader: R) -> Self
        ensures reader { inner_reader result ≡ reader }
        ensures fresh { source_has_failed result ≡ false }
        ensures shown { byte_source_state R.left result ≡ record {
          left = R.left reader;
          has_failed = false;
        } }
    {
        ByteSource {
            reader,
            has_failed: false,
        }
    }

    /// The reader, positioned after the last byte that was given.
    pub fn into_inner(self) -> R
        ensures { result ≡ inner_reader self }
    {
        self.reader
    }
}

impl<R: Reader> Source for ByteSource<R> {
    ghost state = { byte_source_state R.left };

    fn next_byte(&mut self) -> Result<Option<u8>, ReadFailed>
        ensures gives { GivesNext (change (byte_source_state R.left) self.old self.new) result }

        // It succeeds by one read, and fails only by one that failed in this call, or since it had
        // failed before.
        ensures reads { IfOk result
            (GivenByRead R.read_gives (change inner_reader self.old self.new)) }
        ensures cause { source_has_failed self.old ≡ false
            → OnErr result (R.read_fails (inner_reader self.old) (inner_reader self.new)) }
        ensures untouched { source_has_failed self.old ≡ true
            → inner_reader self.new ≡ inner_reader self.old }
    {
        if self.has_failed {
            return Err(ReadFailed);
        }
        let mut byte = [0; 1];
        match self.reader.read_once(&mut byte) {
            Ok(0) => Ok(None),
            Ok(_) => Ok(Some(byte[0])),
            Err(_) => {
                self.has_failed = true;
                Err(ReadFailed)
            }
        }
    }
}
