//! What is written to of std: one write and one flush, with words for their failures.

ghost use Rattle.std.specs.Prelude.{◌≡◌, ℕ, ◌<◌, IfOk, List, Option, Ok, OnErr, OnOk, length, take};
ghost use Rattle.std.specs.Io.{WritesAtMost};
ghost use Rattle.std.specs.Io.KnownBytes.{Keeps, WriteAppends};

use std::io;
use std::io::Write;

/// A writer of std, with words for what one write and one flush did, and for those that failed.
///
/// Each `Write` is a `Writer`. std does not say when a call fails, so these words hold of any two
/// states there. But what is proved of every `Writer` can speak of a failure only where a call has
/// answered one, and of bytes taken or a flush only where one call did it. Implement it by hand
/// where more is known of a writer, such as that it never fails.
pub trait Writer {
    // The bytes that are written, where they are known, with those that a buffer holds back.
    ghost contents: { Self → Option (List ℕ) };

    // One write took these bytes, one or more, from the one state to the other.
    ghost write_takes: { Self → List ℕ → Self → Type 0 };

    // A write failed, or took none of its bytes, from the one state to the other.
    ghost write_fails: { Self → Self → Type 0 };

    // A flush succeeded, from the one state to the other.
    ghost flushes: { Self → Self → Type 0 };

    // A flush failed, from the one state to the other.
    ghost flush_fails: { Self → Self → Type 0 };

    /// One write, as std's `write`: how many bytes it took from the front.
    ///
    /// Any error is a failure, and so is a write that takes 0 bytes of a text that is not empty.
    fn write_once(&mut self, bytes: &[u8]) -> io::Result<usize>
        ensures bound { WritesAtMost result bytes.now }
        ensures bytes { WriteAppends (contents self.old) (contents self.new) result bytes.now }
        ensures takes { IfOk result
            (λ n. 0 < n → write_takes self.old (take n bytes.now) self.new) }
        ensures fails { OnErr result (write_fails self.old self.new) }
        ensures takes_none { result ≡ Ok 0 → 0 < length bytes.now
            → write_fails self.old self.new };

    /// One flush, as std's `flush`. Any error is a failure.
    fn flush_once(&mut self) -> io::Result<()>
        ensures bytes { Keeps (contents self.old) (contents self.new) }
        ensures flushes { OnOk result (flushes self.old self.new) }
        ensures fails { OnErr result (flush_fails self.old self.new) };
}

impl<W: Write> Writer for W {
    ghost contents = { W.contents };

    ghost write_takes = { λ _ _ _. Unit {0} };

    ghost write_fails = { λ _ _. Unit {0} };

    ghost flushes = { λ _ _. Unit {0} };

    ghost flush_fails = { λ _ _. Unit {0} };

    fn write_once(&mut self, bytes: &[u8]) -> io::Result<usize> {
        self.write(bytes)
    }

    fn flush_once(&mut self) -> io::Result<()> {
        self.flush()
    }
}
