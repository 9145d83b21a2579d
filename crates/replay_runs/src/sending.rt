//! Words on lines of their own, which are written and passed on at once.

ghost use Rattle.std.specs.Prelude.{◌≡◌, ◌++◌, ◌∷◌, [], OnOk};
ghost use Rattle.byte_streams.specs.Streams.{change};
ghost use Rattle.byte_streams.specs.Sink.{Writes};

use batch_runs::send_report;
use byte_streams::{Sink, WriteFailed};

/// Writes a word on a line of its own, and passes it on.
pub(crate) fn send_word<K: Sink>(sink: &mut K, word: &str) -> Result<(), WriteFailed>
    ensures writes { Writes (change K.state sink.old sink.new) (word.now ++ 10 ∷ []) result }
    ensures last { OnOk result (K.is_flushed sink.new) }
{
    let Ok(()) = sink.put(word.as_bytes()) else {
        return Err(WriteFailed);
    };
    send_report(sink, "\n")
}
