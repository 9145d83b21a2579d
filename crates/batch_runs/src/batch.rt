//! Lines in, reports out, by any solver.

ghost use Rattle.std.specs.Prelude.{◌≡◌, OnOk};
ghost use Rattle.byte_streams.specs.Streams.{change};
ghost use Rattle.byte_streams.specs.Sink.{Writes};
ghost use Rattle.batch_runs.specs.Batches.{ReportsLines, IsTruthful, CanCountMore, LeavesFlushed};
ghost use Rattle.batch_runs.specs.Batches.{with_outcome, with_refused};
ghost use Rattle.batch_runs.specs.Headline.{IsTrueRun};
ghost use Rattle.batch_runs.specs.Stats.{HandsFigures};

use crate::answering::{Answerer, Solver};
use crate::faults::LinesFault;
use batch_lines::{LineKind, LineReader};
use byte_streams::{Sink, Source, WriteFailed};
use outcomes::Ending;
use std::alloc::Global;

/// How many lines were answered, and how.
#[derive(Clone, Copy, Debug, PartialEq, Eq)]
pub struct Summary {
    pub optimal: u64,
    pub unsolvable: u64,
    pub bounded: u64,
    pub refused: u64,
}

impl Summary {
    // One line more that was answered so.
    pub(crate) fn with_outcome(self, outcome: &Ending) -> Self
        requires { CanCountMore self }
        ensures { result ≡ with_outcome self outcome.now }
    {
        let mut counts = self;
        match outcome {
            Ending::Optimal { .. } => counts.optimal += 1,
            Ending::Unsolvable { .. } => counts.unsolvable += 1,
            Ending::Bounded { .. } => counts.bounded += 1,
        }
        counts
    }

    // One line more that was refused.
    pub(crate) fn with_refused(self) -> Self
        requires { CanCountMore self }
        ensures { result ≡ with_refused self }
    {
        let mut counts = self;
        counts.refused += 1;
        counts
    }
}

/// Writes a report for each line of the source that isn't passed over, in order, and flushes the
/// sink after each. The solver answers a board as its rules allow. Where they are truthful, so is
/// what is written.
///
/// Before a report of an ending is written, the solver is handed the ending and its figures.
///
/// Boards may be solved ahead, from bytes that the source already holds. So nothing is read for
/// boards that are not answered yet.
pub fn run_lines<S: Source, K: Sink, A: Solver>(
    alloc: Global,
    source: &mut S,
    sink: &mut K,
    solver: &A,
) -> Result<Summary, LinesFault>
    requires callable { A.is_callable solver.now }
    ensures reports { ReportsLines (A.rules solver.now) (change S.state source.old source.new)
        (change K.state sink.old sink.new) result }
    ensures truth { IsTruthful (A.rules solver.now) → IsTrueRun (A.rules solver.now)
        (change S.state source.old source.new) (change K.state sink.old sink.new) result }
    ensures flushed { LeavesFlushed K.is_flushed K.state sink.old sink.new }
    ensures figures { HandsFigures (A.rules solver.now) (λ id b solved. A.has_stats solver.now b solved
        × A.has_observed solver.now id solved) (S.state source.old).left
        (change K.state sink.old sink.new) }
{
    report_all(alloc, source, sink, solver)
}

// The same, by what was answered.
fn report_all<S: Source, K: Sink, A: Solver>(
    alloc: Global,
    source: &mut S,
    sink: &mut K,
    solver: &A,
) -> Result<Summary, LinesFault>
    requires callable { A.is_callable solver.now }
    ensures reports { ReportsLines (A.rules solver.now) (change S.state source.old source.new)
        (change K.state sink.old sink.new) result }
    ensures flushed { LeavesFlushed K.is_flushed K.state sink.old sink.new }
    ensures figures { HandsFigures (A.rules solver.now) (λ id b solved. A.has_stats solver.now b solved
        × A.has_observed solver.now id solved) (S.state source.old).left
        (change K.state sink.old sink.new) }
{
    let mut reader = LineReader::new();
    let mut answerer = Answerer::new(alloc, solver);
    let mut summary = Summary {
        optimal: 0,
        unsolvable: 0,
        bounded: 0,
        refused: 0,
    };
    'lines: loop {
        let next = match reader.next_line(source) {
            Ok(next) => next,
            Err(_) => return Err(LinesFault::Read),
        };
        let Some(line) = next else {
            return Ok(summary);
        };
        match line.kind {
            LineKind::PassedOver => {}
            _ => {
                let report = match answerer.report_line(
                    line,
                    reader.bytes(),
                    source.held(),
                    summary,
                ) {
                    Ok(report) => report,
                    Err(lacking) => return Err(LinesFault::Memory(lacking)),
                };
                let Ok(()) = send_report(sink, report.0.as_str()) else {
                    return Err(LinesFault::Write);
                };
                summary = report.1;
            }
        }
    }
}

/// Writes a report and flushes the sink, so that a reader who waits for the report has it at once.
pub fn send_report<K: Sink>(sink: &mut K, text: &str) -> Result<(), WriteFailed>
    ensures writes { Writes (change K.state sink.old sink.new) text.now result }
    ensures last { OnOk result (K.is_flushed sink.new) }
{
    sink.put(text.as_bytes())?;
    sink.flush()
}
