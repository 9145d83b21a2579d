//! The program over any streams.

ghost use Rattle.std.specs.Prelude.{◌≡◌, ◌⊎◌, map, string_bytes};
ghost use Rattle.byte_streams.specs.Streams.{change};
ghost use Rattle.batch_runs.specs.Batches.{HasFailed};
ghost use Rattle.batch_cli.specs.Headline.{RunsProgram};
ghost use Rattle.batch_cli.specs.Programs.{HandsBy};

use crate::progress::Unkept;
use crate::runner::Runner;
use byte_streams::{Sink, Source};
use setup_runs::Watch;
use std::alloc::Global;
use std::sync::Wait;
use std::thread::Threads;

/// Runs the program over any streams, and answers its exit status. `words` are the arguments after
/// the program's name.
///
/// What the arguments ask for is done, and the sink is flushed. Boards are solved or steps replayed
/// with tables that are built once, a certificate is written, checked, drawn or upgraded, boards
/// are listed, or a text of help is written. No arguments mean `solve --rows 3 --cols 3`: 3 by 3
/// boards at unit cost with Korf's goal, and the tables of the groups `1,2,3,4/5,6,7,8`.
///
/// What is written tells the truth: `IsTrueBy` says so, and `IsTrue` where there are no arguments.
/// Where the arguments are invalid, or there is no memory for the tables, nothing is read or
/// written.
pub fn run_program<R: Threads + Wait + Sync, S: Source, K: Sink, E: Sink>(
    rt: &R,
    alloc: Global,
    words: &[String],
    source: &mut S,
    sink: &mut K,
    errors: &mut E,
) -> u8
    ensures { RunsProgram (map string_bytes words.now) (change S.state source.old source.new)
        (change K.state sink.old sink.new) (change E.state errors.old errors.new) result
        (K.is_flushed sink.new ⊎ HasFailed (K.state sink.new))
        ((source.new ≡ source.old) × (sink.new ≡ sink.old)) }
{
    run_with_progress(rt, alloc, words, source, sink, errors, &Unkept)
}

/// Runs the program as `run_program` does, under a watch. The watch is passed after each step of
/// the search where the arguments ask for progress. It takes the figures of lines where they ask
/// for these, as the clause `figures` says.
pub fn run_with_progress<R: Threads + Wait + Sync, S: Source, K: Sink, E: Sink, W: Watch + Sync>(
    rt: &R,
    alloc: Global,
    words: &[String],
    source: &mut S,
    sink: &mut K,
    errors: &mut E,
    watch: &W,
) -> u8
    ensures run { RunsProgram (map string_bytes words.now) (change S.state source.old source.new)
        (change K.state sink.old sink.new) (change E.state errors.old errors.new) result
        (K.is_flushed sink.new ⊎ HasFailed (K.state sink.new))
        ((source.new ≡ source.old) × (sink.new ≡ sink.old)) }
    ensures figures { HandsBy (λ id stats. W.has_taken watch.now id stats)
        (map string_bytes words.now) (change S.state source.old source.new)
        (change K.state sink.old sink.new)
        ((source.new ≡ source.old) × (sink.new ≡ sink.old)) }
{
    let runner = Runner { rt, alloc, watch };
    let ending = runner.end_program(words, source, sink);
    ending.tell(errors)
}
