//! What is read of std: one read, with a word for its failure.

ghost use Rattle.std.specs.Prelude.{ℕ, ◌<◌, IfOk, List, OnErr, Option, length, take};
ghost use Rattle.std.specs.Io.{ReadsAtMost};
ghost use Rattle.std.specs.Io.KnownBytes.{ReadConsumes};

use std::io;
use std::io::Read;

/// A reader of std, with words for what one read gave, and for a read that failed.
///
/// Each `Read` is a `Reader`. std does not say when a read fails, so these words hold of any two
/// states there. But what is proved of every `Reader` can speak of a failure only where a read has
/// answered one, and of bytes given only where one read gave them. Implement it by hand where more
/// is known of a reader, such as that it never fails.
pub trait Reader {
    // The bytes that are left, where they are known.
    ghost left: { Self → Option (List ℕ) };

    // One read gave these bytes, or none at the end, from the one state to the other.
    ghost read_gives: { Self → List ℕ → Self → Type 0 };

    // A read failed, from the one state to the other.
    ghost read_fails: { Self → Self → Type 0 };

    /// One read, as std's `read`: how many bytes it put at the front of the buffer.
    ///
    /// No byte means the end, where the buffer has room. Any error is a failure, `Interrupted` too.
    fn read_once(&mut self, buffer: &mut [u8]) -> io::Result<usize>
        ensures bound { ReadsAtMost result buffer.new }
        ensures bytes { ReadConsumes (left self.old) (left self.new) result buffer.new }
        ensures gives { IfOk result
            (λ n. 0 < length buffer.new → read_gives self.old (take n buffer.new) self.new) }
        ensures fails { OnErr result (read_fails self.old self.new) };
}

impl<R: Read> Reader for R {
    ghost left = { R.remaining };

    ghost read_gives = { λ _ _ _. Unit {0} };

    ghost read_fails = { λ _ _. Unit {0} };

    fn read_once(&mut self, buffer: &mut [u8]) -> io::Result<usize> {
        self.read(buffer)
    }
}
