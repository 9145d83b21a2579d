//! Lines that say steps, and the report at their end.

ghost use Rattle.std.specs.Prelude.{◌≡◌, ◌≢◌, IfOk, OnOk, List, ℕ, Option};
ghost use Rattle.byte_streams.specs.Streams.{SourceState, change, from_to};
ghost use Rattle.batch_lines.specs.declared.lines.LineKind.TheVariants.{PassedOver};
ghost use Rattle.world_model.specs.declared.steps.Refusal.{Refusal};
ghost use Rattle.world_model.specs.Turns.{turn, refusal_in};
ghost use Rattle.world_model.specs.Worlds.{WorldState};
ghost use Rattle.world_model.specs.Steps.{Next};
ghost use Rattle.world_model.specs.Outcomes.{IsGiven};
ghost use Rattle.batch_runs.specs.Batches.{LeavesFlushed};
ghost use Rattle.batch_runs.specs.FirstLines.{HasRead};
ghost use Rattle.replay_runs.specs.Replies.{RepliesToKind, Changes, WritesReply, WritesLine};
ghost use Rattle.replay_runs.specs.Replies.{reply_to, line_of, replay_status_of};
ghost use Rattle.replay_runs.specs.Stepping.{RepliesToLines, Finishes};

use crate::answers::{NO_STEP, answer_word};
use crate::sending::send_word;
use crate::steps::read_step;
use batch_lines::{Line, LineKind, LineReader};
use batch_runs::{LinesFault, outcome_report, send_report};
use byte_streams::{Sink, Source, WriteFailed};
use outcomes::{Ending, Outcome};
use std::alloc::Global;
use world_model::{Refusal, Step};

/// A run of steps, and the outcome at its end.
pub trait Run {
    // The world that the steps have reached.
    ghost world: { Self → WorldState };

    /// Takes a step, or says why not.
    fn step(&mut self, alloc: Global, step: Step) -> Result<(), Refusal>
        ensures { Next step (turn (world self.old) (refusal_in result) (world self.new)) };

    /// The outcome that the world gives.
    fn finish(self, alloc: Global) -> Outcome
        ensures { IsGiven (world self) result };
}

/// A run that a board line has opened, and the id that the line gives.
#[derive(Drop)]
pub(crate) struct Opened<'a, R> {
    pub(crate) run: R,
    pub(crate) id: &'a str,
}

/// Answers each line of the source that isn't passed over, and then writes the report of the run's
/// outcome by its id. Returns the status.
pub(crate) fn replay_steps<S: Source, K: Sink, R: Run + Drop>(
    alloc: Global,
    source: &mut S,
    sink: &mut K,
    reader: &mut LineReader,
    opened: Opened<R>,
) -> Result<u8, LinesFault>
    ensures replays { (begun : SourceState) (lines : List (List ℕ))
        → HasRead (from_to begun (S.state source.old)) reader.old lines
        → Finishes (from_to begun (S.state source.new)) lines (R.world opened.entry.run)
        opened.entry.id.now (change K.state sink.old sink.new) result }
    ensures flushed { LeavesFlushed K.is_flushed K.state sink.old sink.new }
{
    let Opened { mut run, id } = opened;
    let said = match answer_lines(alloc, source, sink, reader, &mut run) {
        Ok(said) => said,
        Err(fault) => return Err(fault),
    };
    // A report has no rows: what they take is given back before it is made.
    let outcome = run.finish(alloc);
    let ending = outcome.without_rows();
    let report = match outcome_report(alloc, id, &ending) {
        Ok(report) => report,
        Err(lacking) => return Err(LinesFault::Memory(lacking)),
    };
    let Ok(()) = send_report(sink, report.as_str()) else {
        return Err(LinesFault::Write);
    };
    Ok(status_of(said, &ending))
}

// 0 for a plan or none, where each line said a step; else 1.
fn status_of(said: bool, ending: &Ending) -> u8
    ensures { result ≡ replay_status_of said ending.now }
{
    match ending {
        Ending::Bounded { .. } => 1,
        _ => { if said { 0 } else { 1 } }
    }
}

// Answers each line of the source that isn't passed over, and whether each said a step.
fn answer_lines<S: Source, K: Sink, R: Run>(
    alloc: Global,
    source: &mut S,
    sink: &mut K,
    reader: &mut LineReader,
    run: &mut R,
) -> Result<bool, LinesFault>
    ensures answers { (begun : SourceState) (lines : List (List ℕ))
        → HasRead (from_to begun (S.state source.old)) reader.old lines
        → RepliesToLines (from_to begun (S.state source.new)) lines
        (change R.world run.old run.new) (change K.state sink.old sink.new) result }
    ensures flushed { LeavesFlushed K.is_flushed K.state sink.old sink.new }
{
    let mut said = true;
    'lines: loop {
        let next = match reader.next_line(source) {
            Ok(next) => next,
            Err(_) => return Err(LinesFault::Read),
        };
        let Some(line) = next else {
            return Ok(said);
        };
        match line.kind {
            LineKind::PassedOver => {}
            _ => {
                let step = step_in(line.kind, reader.bytes());
                said = match answer_step(alloc, sink, run, step, said) {
                    Ok(said) => said,
                    Err(_) => return Err(LinesFault::Write),
                };
            }
        }
    }
}

// The step that a line says by these bytes, which are given where it is to be read.
fn step_in(kind: LineKind, bytes: &[u8]) -> Option<Step>
    requires { kind ≢ PassedOver }
    ensures { (refusal : Option Refusal) → RepliesToKind kind bytes.now (reply_to result refusal) }
{
    let LineKind::Within = kind else {
        return None;
    };
    read_step(bytes)
}

// Takes the step that a line says, if it says one, and answers the line. Returns whether each line
// up to it said one.
fn answer_step<K: Sink, R: Run>(
    alloc: Global,
    sink: &mut K,
    run: &mut R,
    step: Option<Step>,
    said: bool,
) -> Result<bool, WriteFailed>
    ensures reply { (refusal : Option Refusal)
        × Changes (change R.world run.old run.new) (reply_to step refusal)
        × WritesReply (change K.state sink.old sink.new) (reply_to step refusal) said result }
    ensures last { OnOk result (K.is_flushed sink.new) }
{
    match step {
        Some(step) => {
            let answer = run.step(alloc, step);
            tell(sink, answer_word(answer), said)
        }
        None => tell(sink, NO_STEP, false),
    }
}

// Writes a word on a line of its own, and passes it on. Answers `said`.
fn tell<K: Sink>(sink: &mut K, word: &str, said: bool) -> Result<bool, WriteFailed>
    ensures writes { WritesLine (change K.state sink.old sink.new) (line_of word.now) said result }
    ensures last { OnOk result (K.is_flushed sink.new) }
{
    match send_word(sink, word) {
        Ok(()) => Ok(said),
        Err(failure) => Err(failure),
    }
}
