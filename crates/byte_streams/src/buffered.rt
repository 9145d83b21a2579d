//! Bytes that are read many at a time.

ghost use Rattle.std.specs.Prelude.{◌≡◌, ◌≢◌, ◌∷◌, [], ℕ, List, Ok, Some, true, false, IfOk, OnErr};
ghost use Rattle.byte_streams.specs.Streams.{change, from_to};
ghost use Rattle.byte_streams.specs.Source.{GivesNext};
ghost use Rattle.byte_streams.specs.Buffered.{AreNext, Fills, GivenByFill, buffered_state};

use crate::reader::Reader;
use crate::source::{ReadFailed, Source};
use memory::{OutOfMemory, filled};
use std::alloc::Global;
use std::marker::Model;

// How many bytes one read may give.
const READ_AT_ONCE: usize = 65_536;

/// The bytes of a reader, up to its first failure. Many are read at once where the reader gives
/// many, and are held until they are asked for.
#[derive(Drop)]
pub struct BufferedSource<R> {
    reader: R,
    buffer: Vec<u8>,
    // The held bytes are those of the buffer from one place up to another.
    first: usize,
    end: usize,
    has_failed: bool,
}

impl<R> Model for BufferedSource<R> {
    ghost use Rattle.byte_streams.specs.Buffered.{BufferedModel, buffered_of, IsBuffer};

    ghost Value = { BufferedModel R };

    ghost view = { buffered_of };

    ghost invariant = { IsBuffer };
}

impl<R: Reader + Drop> BufferedSource<R> {
    /// A source of what the reader has left, which holds nothing yet.
    pub fn new(alloc: Global, reader: R) -> Result<Self, OutOfMemory>
        ensures { IfOk result
            (λ source. source ≡ record { reader = reader; held = []; has_failed = false }) }
    {
        let buffer = filled(alloc, 0, READ_AT_ONCE)?;
        Ok(BufferedSource {
            reader,
            buffer,
            first: 0,
            end: 0,
            has_failed: false,
        })
    }
}

impl<R: Reader> BufferedSource<R> {
    // Reads, where nothing is held, and answers whether there was a byte.
    fn fill(&mut self) -> Result<bool, ReadFailed>
        requires { self.old.held ≡ [] }
        ensures fills { Fills R.left (from_to self.old self.new) result }
        ensures gives { IfOk result (λ found. R.read_gives self.old.reader self.new.held self.new.reader) }
        ensures fails { OnErr result (R.read_fails self.old.reader self.new.reader) }
    {
        self.first = 0;
        self.end = 0;
        match self.reader.read_once(self.buffer.as_mut_slice()) {
            Ok(0) => Ok(false),
            Ok(count) => {
                self.end = count;
                Ok(true)
            }
            Err(_) => {
                self.has_failed = true;
                Err(ReadFailed)
            }
        }
    }
}

impl<R> BufferedSource<R> {
    // Gives the first of the bytes that are held.
    fn give(&mut self) -> u8
        requires { self.old.held ≢ [] }
        ensures given { self.old.held ≡ result ∷ self.new.held }
        ensures same { self.new ≡ record self.old { held = self.new.held } }
    {
        let byte = self.buffer[self.first];
        self.first += 1;
        byte
    }
}

impl<R: Reader> Source for BufferedSource<R> {
    ghost state = { buffered_state R.left };

    fn next_byte(&mut self) -> Result<Option<u8>, ReadFailed>
        ensures gives { GivesNext (change (buffered_state R.left) self.old self.new) result }

        // Where bytes are held, the first of them is given, and nothing is read.
        ensures held { (byte : ℕ) (rest : List ℕ) → self.old.held ≡ byte ∷ rest
            → self.old.has_failed ≡ false
            → (result ≡ Ok (Some byte)) × (self.new ≡ record self.old { held = rest }) }

        // Where none is, it succeeds by one read, and fails only by one that failed in this call,
        // or since it had failed before.
        ensures reads { self.old.held ≡ [] → IfOk result (GivenByFill R.read_gives
            (from_to self.old self.new)) }
        ensures cause { self.old.has_failed ≡ false
            → OnErr result (R.read_fails self.old.reader self.new.reader) }
        ensures untouched { self.old.has_failed ≡ true → self.new ≡ self.old }
    {
        if self.has_failed {
            return Err(ReadFailed);
        }
        if self.first < self.end {
            return Ok(Some(self.give()));
        }
        match self.fill() {
            Ok(true) => Ok(Some(self.give())),
            Ok(false) => Ok(None),
            Err(failure) => Err(failure),
        }
    }

    fn held(&self) -> &[u8]
        ensures next { AreNext (buffered_state R.left self.now).left result.now }
        ensures all { result.now ≡ self.now.held }
    {
        &self.buffer[self.first..self.end]
    }
}
