//! A reader and a writer that fail at one call, for tests.

use std::alloc::Global;
use std::io;
use std::io::{ErrorKind, Read, Write};

/// More calls than any test makes.
pub const NEVER: usize = 9999;

/// Gives its bytes, and fails at the read after `reads_before` others.
#[derive(Drop)]
pub struct FailingReader<'a> {
    /// What is left.
    pub bytes: &'a [u8],
    pub reads_before: usize,
    /// The error of the read that fails.
    pub kind: ErrorKind,
}

impl Read for FailingReader<'_> {
    fn read(&mut self, buffer: &mut [u8]) -> io::Result<usize> {
        if self.reads_before == 0 {
            // A later read would give bytes again: only a source remembers the failure.
            self.reads_before = NEVER;
            return Err(io::Error::from(self.kind));
        }
        self.reads_before -= 1;
        self.bytes.read(buffer)
    }
}

/// Takes one byte a write, and fails at the write or flush after `calls_before` others.
#[derive(Drop)]
pub struct FailingWriter {
    pub taken: Vec<u8>,
    pub flushes: usize,
    calls_before: usize,
    // None: the write takes no byte.
    kind: Option<ErrorKind>,
}

impl FailingWriter {
    /// A writer that has taken nothing. Without a kind of error the write that fails takes no byte.
    pub fn new(alloc: Global, calls_before: usize, kind: Option<ErrorKind>) -> Self {
        FailingWriter {
            taken: Vec::new(alloc),
            flushes: 0,
            calls_before,
            kind,
        }
    }

    // One call more: whether it is the one that fails.
    fn fails(&mut self) -> bool {
        if self.calls_before == 0 {
            // A later call would succeed again: only a sink remembers the failure.
            self.calls_before = NEVER;
            return true;
        }
        self.calls_before -= 1;
        false
    }
}

impl Write for FailingWriter {
    fn write(&mut self, bytes: &[u8]) -> io::Result<usize> {
        let [first, ..] = bytes else {
            return Ok(0);
        };
        if self.fails() {
            return match self.kind {
                Some(kind) => Err(io::Error::from(kind)),
                None => Ok(0),
            };
        }
        self.taken.push(*first)?;
        Ok(1)
    }

    fn flush(&mut self) -> io::Result<()> {
        if self.fails() {
            return Err(io::Error::from(self.kind.unwrap_or(ErrorKind::Other)));
        }
        self.flushes = self.flushes.saturating_add(1);
        Ok(())
    }
}
