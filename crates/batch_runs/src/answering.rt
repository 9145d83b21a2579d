//! Solvers of boards, and what is answered of each line.

ghost use Rattle.std.specs.Prelude.{ℕ, ◌≡◌, ◌≢◌, List, All, IfOk, IfSome, OnErr, Some, None};
ghost use Rattle.std.specs.Prelude.{string_bytes, ⊤};
ghost use Rattle.board.specs.Boards.{BoardModel};
ghost use Rattle.batch_lines.specs.Words.{IsEntry};
ghost use Rattle.batch_lines.specs.declared.lines.LineKind.TheVariants.{PassedOver};
ghost use Rattle.batch_runs.specs.Batches.{Rules, Answer, AnswersKind, AnswersEntry};
ghost use Rattle.batch_runs.specs.Batches.{CanCountMore, MayGive, AreAllowed};
ghost use Rattle.batch_runs.specs.Batches.{answer_text, with_answer};
ghost use Rattle.batch_runs.specs.Stats.{HandsOver};

use crate::batch::Summary;
use crate::report::{NoReport, outcome_report, refused_report};
use crate::stats::Solved;
use batch_lines::{EntryFault, Line, LineKind, read_entry};
use board::{Board, Shape};
use memory::OutOfMemory;
use outcomes::SolveFault;
use std::alloc::Global;
use std::marker::Model;

/// Rules of how boards are answered.
pub trait Ruled {
    // The shape of the boards, what is asked of a board, and what it may be answered by.
    ghost rules: { Self → Rules };
}

/// A solver of boards, which answers them as the rules allow.
pub trait Solver: Ruled {
    ghost use Rattle.batch_runs.specs.declared.stats.Solved.{Solved};

    // What a caller proves before each call. A solver with closures needs their contracts here.
    ghost is_callable: { Self → Type 0 };

    // Whether a board's stats are those of the search that gave its ending.
    ghost has_stats: { Self → BoardModel → Solved → Type 0 };

    // Figures were handed over with this id: for any solver this follows from `observe` alone.
    ghost has_observed: { Self → List ℕ → Solved → Type 0 } = { λ _ _ _. ⊤ };

    /// The shape of the boards.
    fn shape(&self) -> Shape
        ensures { result ≡ (Self.rules self.now).grid };

    /// The ending of a board, with figures. The error: out of memory before the first step.
    fn solve(&self, start: &Board) -> Result<Solved, OutOfMemory>
        requires callable { is_callable self.now }
        requires grid { start.now.grid ≡ (Self.rules self.now).grid }
        ensures allowed { MayGive (Self.rules self.now) start.now result }
        ensures stats { IfOk result (has_stats self.now start.now) };

    /// Boards, the first one last: this board, and boards of the lines among the bytes that the
    /// source holds behind its line. A board has its ending, unless it is to be solved when its
    /// line is taken. The list may be empty.
    fn solve_ahead(&self, start: &Board, held: &[u8]) -> Vec<(Board, Option<Solved>)>
        requires callable { is_callable self.now }
        requires grid { start.now.grid ≡ (Self.rules self.now).grid }
        ensures allowed { AreAllowed (Self.rules self.now) result.items }
        ensures stats { All (λ it. IfSome it.1 (has_stats self.now it.0)) result.items };

    /// Takes the figures of a line's board, which is answered, with the id of the line. No contract
    /// says what becomes of them.
    fn observe(&self, id: &str, solved: &Solved)
        requires { (line : List ℕ) × (b : BoardModel) × IsEntry (Self.rules self.now).grid line id.now b
            × has_stats self.now b solved.now }
        ensures { has_observed self.now id.now solved.now };
}

/// A solver, and boards whose lines are not taken yet, the first one last: each with its ending, if
/// that is ready.
#[derive(Drop)]
pub(crate) struct Answerer<'a, A: Solver> {
    alloc: Global,
    solver: &'a A,
    ready: Vec<(Board, Option<Solved>)>,
}

// A clause sees the solver: it may be called, and allows what is ready.
impl<'a, A: Solver> Model for Answerer<'a, A> {
    ghost Value = { A };

    ghost view = { λ answerer. answerer.solver.now };

    ghost invariant = { λ answerer. A.is_callable answerer.solver.now
        × AreAllowed (A.rules answerer.solver.now) answerer.ready.items
        × All (λ it. IfSome it.1 (A.has_stats answerer.solver.now it.0)) answerer.ready.items };
}

impl<'a, A: Solver> Answerer<'a, A> {
    /// An answerer for which nothing is ready.
    pub(crate) fn new(alloc: Global, solver: &'a A) -> Self
        requires { A.is_callable solver.now }
        ensures { result ≡ solver.now }
    {
        Answerer {
            alloc,
            solver,
            ready: Vec::new(alloc),
        }
    }

    /// What is written for a line that isn't passed over, and the counts after it. `bytes` are its
    /// bytes, where it is to be read, and `held` those that the source holds behind it.
    pub(crate) fn report_line(
        &mut self,
        line: Line,
        bytes: &[u8],
        held: &[u8],
        summary: Summary,
    ) -> Result<(String, Summary), NoReport>
        requires room { CanCountMore summary }
        requires kind { line.kind ≢ PassedOver }
        ensures same { self.new ≡ self.old }
        ensures report { IfOk result (λ report. (answer : Answer)
            × AnswersKind (A.rules self.old) line.kind bytes.now answer
            × (string_bytes report.0 ≡ answer_text line.number answer)
            × (report.1 ≡ with_answer summary answer)
            × HandsOver (A.rules self.old).grid (λ id b solved. A.has_stats self.old b solved
            × A.has_observed self.old id solved) bytes.now answer) }
    {
        let LineKind::Within = line.kind else {
            let text = refused_report(self.alloc, EntryFault::NoText.code(), line.number)?;
            return Ok((text, summary.with_refused()));
        };
        self.answer_line(line.number, bytes, held, summary)
    }

    // What is written for a line that is to be read, and the counts after it.
    fn answer_line(
        &mut self,
        number: u64,
        bytes: &[u8],
        held: &[u8],
        summary: Summary,
    ) -> Result<(String, Summary), NoReport>
        requires { CanCountMore summary }
        ensures same { self.new ≡ self.old }
        ensures report { IfOk result (λ report. (answer : Answer)
            × AnswersEntry (A.rules self.old) bytes.now answer
            × (string_bytes report.0 ≡ answer_text number answer)
            × (report.1 ≡ with_answer summary answer)
            × HandsOver (A.rules self.old).grid (λ id b solved. A.has_stats self.old b solved
            × A.has_observed self.old id solved) bytes.now answer) }
    {
        let entry = match read_entry(self.solver.shape(), bytes) {
            Ok(entry) => entry,
            Err(fault) => {
                let text = refused_report(self.alloc, fault.code(), number)?;
                return Ok((text, summary.with_refused()));
            }
        };
        let solved = match self.end_board(&entry.board, held) {
            Ok(solved) => solved,
            Err(refused) => {
                let code = SolveFault::Memory(refused).code();
                let text = refused_report(self.alloc, code, number)?;
                return Ok((text, summary.with_refused()));
            }
        };
        let text = outcome_report(self.alloc, entry.id, &solved.ending)?;
        self.solver.observe(entry.id, &solved);
        Ok((text, summary.with_outcome(&solved.ending)))
    }

    // What is answered of a board: what is ready, or what the solver says. Where nothing is ready,
    // it and boards behind it may be solved now.
    fn end_board(&mut self, start: &Board, held: &[u8]) -> Result<Solved, OutOfMemory>
        requires { start.now.grid ≡ (A.rules self.old).grid }
        ensures same { self.new ≡ self.old }
        ensures answered { IfOk result (λ solved. (A.rules self.old).allows start.now (Some solved.ending)) }
        ensures lacking { OnErr result ((A.rules self.old).allows start.now None) }
        ensures stats { IfOk result (A.has_stats self.old start.now) }
    {
        if self.ready.is_empty() {
            self.ready = self.solver.solve_ahead(start, held);
        }
        if let Some(solved) = self.take_ready(start) {
            return Ok(solved);
        }
        self.solver.solve(start)
    }

    // The ending of the board that is next, if it is ready and the board is this one. The ending of
    // another board is dropped: that board is solved again when its line comes.
    fn take_ready(&mut self, start: &Board) -> Option<Solved>
        ensures same { self.new ≡ self.old }
        ensures answered { IfSome result
            (λ solved. (A.rules self.old).allows start.now (Some solved.ending)) }
        ensures stats { IfSome result (A.has_stats self.old start.now) }
    {
        let Some(next) = self.ready.pop() else {
            return None;
        };
        if next.0 == *start {
            return next.1;
        }
        None
    }
}
