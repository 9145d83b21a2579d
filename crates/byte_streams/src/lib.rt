//! Streams of bytes that say when they have failed.
//!
//! std's `Read` and `Write` promise nothing of when a call fails, and their calls for whole texts
//! try again after some errors. A [`Source`] and a [`Sink`] fail once and for all, and their
//! contracts say what holds then.
//!
//! - A `Source` shows a `SourceState`, a `Sink` a `SinkState`: the bytes left or written, known or
//!   not, and whether it has failed. Contracts speak of changes (`change`).
//! - A stream that has failed stays so and touches its reader or writer no more. `into_inner` gives
//!   that back.
//! - `next_byte` is `GivesNext`, `put` is `Writes`, `flush` is `Flushes`. A `put` is made of writes
//!   that took bytes and at most one that failed.
//! - `ByteSource` and `ByteSink` are proved over any `Reader` and `Writer`, which give a failure
//!   and a success a name. So a failure needs a failed call.
//! - `BufferedSource` reads 64 KiB at once; `held` lends the bytes that were read and not taken.
//!   `ByteSource` never reads ahead.
//! - Start with `specs/Streams.antt`, `src/source.rt`, `src/sink.rt`; `src/reader.rt` explains the
//!   names of failures.
#![tactic(auto)]

mod buffered;
pub mod laws;
mod reader;
mod sink;
mod source;
mod writer;

pub use buffered::BufferedSource;
pub use reader::Reader;
pub use sink::{ByteSink, Sink, WriteFailed};
pub use source::{ByteSource, ReadFailed, Source};
pub use writer::Writer;
