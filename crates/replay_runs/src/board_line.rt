//! The board line, and the replay that it begins.

ghost use Rattle.std.specs.Prelude.{◌≡◌, ◌≤◌, IfOk, IfErr, OnErr, List, ℕ, length};
ghost use Rattle.board.specs.declared.moves.Move.{Move};
ghost use Rattle.byte_streams.specs.Streams.{change};
ghost use Rattle.world_model.specs.Openings.{opening};
ghost use Rattle.batch_runs.specs.Batches.{LeavesFlushed};
ghost use Rattle.replay_runs.specs.Replays.{Jobs, IsGuidedJob, IsReadLine, OpensRun};
ghost use Rattle.replay_runs.specs.Replays.{IsLineRefusedBy};
ghost use Rattle.replay_runs.specs.Replays.{Replays, ReportsRefusal};

use crate::stepping::{Opened, Run, replay_steps};
use arrayvec::ArrayVec;
use batch_lines::{EntryFault, LINE_LIMIT, LineKind, LineReader, read_entry};
use batch_runs::{LinesFault, find_line, refused_report, send_report};
use board::{Board, Shape};
use byte_streams::{Sink, Source};
use memory::OutOfMemory;
use outcomes::SolveFault;
use std::alloc::Global;
use world_model::laws::runs_keep_sound;

/// What opens the runs of boards' jobs.
pub trait Opener<R: Run> {
    // The shape of the boards, the job of each, and when memory is refused for it.
    ghost jobs: { Self → Jobs };

    /// Opens the run of a board's job. The error is that memory was refused.
    fn open(self, alloc: Global, start: &Board) -> Result<R, OutOfMemory>
        requires { start.now.grid ≡ (jobs self).grid }
        ensures opened { IfOk result (λ run. (via : Move)
            × (R.world run ≡ opening ((jobs self).job start.now) via)) }
        ensures guided { IfOk result (λ run. IsGuidedJob ((jobs self).job start.now)) }
        ensures lacking { OnErr result ((jobs self).lacks start.now) };
}

/// Reads a board line and then lines of steps. Each step is answered, and at the end the report of
/// the run's outcome is written. A board line that is refused is reported, and nothing behind it is
/// read. Answers the status.
pub fn replay_lines<S: Source, K: Sink, R: Run + Drop, O: Opener<R> + Drop>(
    alloc: Global,
    source: &mut S,
    sink: &mut K,
    shape: Shape,
    opener: O,
) -> Result<u8, LinesFault>
    requires { (O.jobs opener).grid ≡ shape }
    ensures replays { Replays (O.jobs opener) (change S.state source.old source.new)
        (change K.state sink.old sink.new) result }
    ensures flushed { LeavesFlushed K.is_flushed K.state sink.old sink.new }
{
    let mut reader = LineReader::new();
    let found = match find_line(source, &mut reader) {
        Ok(found) => found,
        Err(_) => return Err(LinesFault::Read),
    };
    let Some(line) = found else {
        return Ok(0);
    };
    let LineKind::Within = line.kind else {
        return refuse(alloc, sink, EntryFault::NoText.code(), line.number);
    };
    let kept = copy_line(reader.bytes());
    let opened = match open_run(alloc, shape, opener, kept.as_slice()) {
        Ok(opened) => opened,
        Err(code) => return refuse(alloc, sink, code, line.number),
    };
    // By this law the outcome answers the board's task.
    runs_keep_sound();
    replay_steps(alloc, source, sink, &mut reader, opened)
}

// Opens the run of the board that a line names by these bytes. The error is the code by which the
// line is refused.
fn open_run<'a, R: Run + Drop, O: Opener<R> + Drop>(
    alloc: Global,
    shape: Shape,
    opener: O,
    bytes: &'a [u8],
) -> Result<Opened<'a, R>, &'static str>
    requires { (O.jobs opener).grid ≡ shape }
    ensures opened { IfOk result (λ opened. (line : List ℕ) → IsReadLine line bytes.entry.now
        → OpensRun (O.jobs opener) line opened.id.now (R.world opened.run)) }
    ensures refused { IfErr result (λ code. (line : List ℕ) → IsReadLine line bytes.entry.now
        → IsLineRefusedBy (O.jobs opener) line code.now) }
{
    let entry = match read_entry(shape, bytes) {
        Ok(entry) => entry,
        Err(fault) => return Err(fault.code()),
    };
    match opener.open(alloc, &entry.board) {
        Ok(run) => Ok(Opened { run, id: entry.id }),
        Err(refused) => Err(SolveFault::Memory(refused).code()),
    }
}

// Writes the report of a line that is refused. Answers the status 1.
fn refuse<K: Sink>(alloc: Global, sink: &mut K, code: &str, number: u64) -> Result<u8, LinesFault>
    ensures refuses { ReportsRefusal (change K.state sink.old sink.new) code.now number result }
    ensures flushed { LeavesFlushed K.is_flushed K.state sink.old sink.new }
{
    let report = match refused_report(alloc, code, number) {
        Ok(report) => report,
        Err(lacking) => return Err(LinesFault::Memory(lacking)),
    };
    let Ok(()) = send_report(sink, report.as_str()) else {
        return Err(LinesFault::Write);
    };
    Ok(1)
}

// The bytes of a line, kept while others are read.
fn copy_line(bytes: &[u8]) -> ArrayVec<u8, LINE_LIMIT>
    requires { length bytes.now ≤ 1024 }
    ensures { result.items ≡ bytes.now }
{
    let mut kept = ArrayVec::new();
    kept.try_extend_from_slice(bytes).unwrap();
    kept
}
