//! The laws of the definitions: each is the contract of a function that does nothing.

ghost use Rattle.byte_streams.specs.Laws.{EndsAreTrue, BytesAreFirst, HeldBytesComeNext};
ghost use Rattle.byte_streams.specs.Laws.{FailuresTakeNone, AnswersTellFailures, FailuresLast};
ghost use Rattle.byte_streams.specs.Laws.{PutsTellFailures, FlushesTellFailures};
ghost use Rattle.byte_streams.specs.Laws.{PutsAddBytes, FlushesAddNone};
ghost use Rattle.byte_streams.specs.Laws.{PutFailuresLast, FlushFailuresLast};
ghost use Rattle.byte_streams.specs.Laws.{ReadsAreNoted, WritesAreNoted};
ghost use Rattle.byte_streams.specs.Buffered.{buffered_state};
ghost use Rattle.byte_streams.specs.ByteSink.{byte_sink_state, inner_writer, WasFlushed};
ghost use Rattle.byte_streams.specs.ByteSource.{byte_source_state};
ghost use Rattle.byte_streams.specs.declared.sink.ByteSink.{ByteSink};
ghost use Rattle.std.specs.Prelude.{◌≡◌, ◌↔◌};

use crate::buffered::BufferedSource;
use crate::reader::Reader;
use crate::sink::{ByteSink, Sink};
use crate::source::{ByteSource, Source};
use crate::writer::Writer;
use std::io::{Read, Write};

/// What is left of a source is what is left of its reader, behind the bytes that it holds. What a
/// sink holds is what its writer holds. It is flushed where the writer is as a flush left it.
pub fn streams_are_those_of_readers_and_writers<R: Reader, W: Writer>()
    ensures source { ⟦<ByteSource<R> as Source>⟧.state ≡ byte_source_state R.left }
    ensures buffered { ⟦<BufferedSource<R> as Source>⟧.state ≡ buffered_state R.left }
    ensures sink { ⟦<ByteSink<W> as Sink>⟧.state ≡ byte_sink_state W.contents }
    ensures flushed { (sink : ByteSink W)
        → ⟦<ByteSink<W> as Sink>⟧.is_flushed sink ↔ WasFlushed W.flushes sink }
    ensures writer { (sink : ByteSink W) → ⟦<ByteSink<W> as Sink>⟧.is_flushed sink
        → (before : W) × W.flushes before (inner_writer sink) }
{}

/// What is left of a reader of std, and what a writer of std holds, is what std says.
pub fn known_bytes_are_those_of_std<R: Read, W: Write>()
    ensures left { ⟦<R as Reader>⟧.left ≡ R.remaining }
    ensures contents { ⟦<W as Writer>⟧.contents ≡ W.contents }
{}

/// Where bytes are known to be left, the end is not answered.
pub fn ends_are_true()
    ensures { EndsAreTrue }
{}

/// A byte that is answered is the first of those known to be left, and the others stay.
#[tactic(auto, using(crate::proofs::SourceLemmas::one_taken))]
pub fn bytes_are_first()
    ensures { BytesAreFirst }
{}

/// Bytes that a source holds are those that it gives next, one after the other.
#[tactic(auto, using(crate::proofs::SourceLemmas::held_next))]
pub fn held_bytes_come_next()
    ensures { HeldBytesComeNext }
{}

/// A failure takes none of the bytes known to be left.
#[tactic(auto, using(crate::proofs::SourceLemmas::all_kept))]
pub fn failures_take_none()
    ensures { FailuresTakeNone }
{}

/// A source has failed exactly where its last answer is a failure.
pub fn answers_tell_failures()
    ensures { AnswersTellFailures }
{}

/// A source that has failed answers neither a byte nor the end.
#[tactic(auto, using(crate::proofs::SourceLemmas::none_given))]
pub fn failures_last()
    ensures { FailuresLast }
{}

/// A sink has failed exactly where its last put or flush failed.
pub fn sinks_tell_failures()
    ensures puts { PutsTellFailures }
    ensures flushes { FlushesTellFailures }
{}

/// A put adds its bytes behind what a sink is known to hold, or a beginning of them where it fails.
/// A flush adds none.
pub fn puts_add_bytes()
    ensures puts { PutsAddBytes }
    ensures flushes { FlushesAddNone }
{}

/// Every put and every flush to a sink that has failed fails, and adds nothing.
pub fn sink_failures_last()
    ensures puts { PutFailuresLast }
    ensures flushes { FlushFailuresLast }
{}

/// A source reads once for a byte that it doesn't hold, and once for the end. The writes of a put
/// take its bytes, one after the other, and one that fails is the last.
#[tactic(auto, using(crate::proofs::SourceLemmas::reads_noted, crate::proofs::SinkLemmas::writes_noted))]
pub fn calls_are_noted<R: Reader, W: Writer>()
    ensures reads { ReadsAreNoted R.read_gives }
    ensures writes { WritesAreNoted W.write_takes W.write_fails }
{}
