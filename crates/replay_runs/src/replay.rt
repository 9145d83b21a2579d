//! Replays with the worlds of a setup.

ghost use Rattle.byte_streams.specs.Streams.{change};
ghost use Rattle.batch_runs.specs.Batches.{LeavesFlushed};
ghost use Rattle.replay_runs.specs.Replays.{Replays};
ghost use Rattle.replay_runs.specs.Openings.{setup_jobs, jobs_by};

use crate::board_line::replay_lines;
use crate::worlds::Opening;
use batch_runs::{LinesFault, Setup, SpreadKind};
use byte_streams::{Sink, Source};
use owners::{Abstract, ByBlank, Spread, Zobrist};
use std::alloc::Global;
use std::thread::Threads;

/// Replays the steps that the lines of the source say, in a run of the board that the first line
/// names. Each line behind it is answered: `ok`, the code of the refusal, or `B4` where it says no
/// step. At the end of the input the report of the run's outcome is written.
///
/// A board line that is refused, by V3 too, is reported, and nothing behind it is read. Without a
/// board line nothing is written. The sink is flushed after each line.
///
/// Answers the status: 0 for a plan or none, where no line was answered by `B4`, and where there is
/// no board line; else 1. After `Read` the answers of the lines that were read whole are written,
/// after `Memory` those of all lines, and after `Write` a beginning.
pub fn run_replay<R: Threads + Sync, S: Source, K: Sink>(
    rt: &R,
    alloc: Global,
    source: &mut S,
    sink: &mut K,
    setup: &Setup,
) -> Result<u8, LinesFault>
    ensures replays { Replays (setup_jobs setup.now) (change S.state source.old source.new)
        (change K.state sink.old sink.new) result }
    ensures flushed { LeavesFlushed K.is_flushed K.state sink.old sink.new }
{
    // The calling thread takes the steps of all workers: none is started for them.
    let _ = rt;
    match setup.spread_kind() {
        SpreadKind::Zobrist => {
            let spread = Zobrist::new(setup.shape());
            replay_spread(alloc, source, sink, setup, &spread)
        }
        SpreadKind::Blank => replay_spread(alloc, source, sink, setup, &ByBlank),
        SpreadKind::Abstract => {
            let by_tiles = Abstract::new(setup.shape());
            replay_spread(alloc, source, sink, setup, &by_tiles)
        }
    }
}

// The same, where boards are spread so.
fn replay_spread<S: Source, K: Sink, P: Spread>(
    alloc: Global,
    source: &mut S,
    sink: &mut K,
    setup: &Setup,
    spread: &P,
) -> Result<u8, LinesFault>
    ensures replays { Replays (jobs_by (P.owner_of spread.now) setup.now)
        (change S.state source.old source.new) (change K.state sink.old sink.new) result }
    ensures flushed { LeavesFlushed K.is_flushed K.state sink.old sink.new }
{
    let opening = Opening { setup, spread };
    replay_lines(alloc, source, sink, setup.shape(), opening)
}
