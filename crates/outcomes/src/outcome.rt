//! Outcomes, the reasons and causes that they name, and the word for each in a report.

ghost use Rattle.std.specs.Prelude.{◌≡◌};
ghost use Rattle.outcomes.specs.Words.{why_word, cause_word};
ghost use Rattle.outcomes.specs.Endings.{without_rows};

use board::{Board, Move};
use memory::OutOfMemory;

/// Why there is no plan.
#[derive(Clone, Copy, Debug, PartialEq, Eq)]
pub enum Why {
    /// The boards are of two classes.
    Parity,
    /// The search met every board that can be reached.
    Exhausted,
}

impl Why {
    /// The word of the reason in a report.
    pub fn word(self) -> &'static str
        ensures { result.now ≡ why_word self }
    {
        match self {
            Why::Parity => "parity",
            Why::Exhausted => "exhausted",
        }
    }
}

/// How memory ran out.
#[derive(Clone, Copy, Debug, PartialEq, Eq)]
pub enum Want {
    /// A list of steps says so.
    Stated,
    /// Memory was refused.
    Refused(OutOfMemory),
}

/// Why a run names only a bound.
#[derive(Clone, Copy, Debug, PartialEq, Eq)]
pub enum Cause {
    /// The limit on expansions was reached.
    Limit,
    /// Memory ran out.
    Memory(Want),
    /// A thread could not be started.
    Start,
    /// Each plan costs more than a run may reach.
    Cost,
    /// The run was ended before it stopped.
    Cut,
}

impl Cause {
    /// The word of the cause in a report.
    pub fn word(self) -> &'static str
        ensures { result.now ≡ cause_word self }
    {
        match self {
            Cause::Limit => "limit",
            Cause::Memory(_) => "memory",
            Cause::Start => "start",
            Cause::Cost => "cost",
            Cause::Cut => "cut",
        }
    }
}

/// What a run answers.
#[derive(Debug, Drop)]
pub enum Outcome {
    /// A plan of least cost, and rows that prove it.
    Optimal {
        cost: u32,
        plan: Vec<Move>,
        rows: Vec<(Board, u32)>,
    },
    /// No plan leads to the goal.
    Unsolvable {
        why: Why,
    },
    /// No plan costs less than the bound; the best plan found, with its cost, if there is one; and
    /// rows that prove the bound, where memory was there for them.
    Bounded {
        bound: u32,
        best: Option<(u32, Vec<Move>)>,
        cause: Cause,
        rows: Option<Vec<(Board, u32)>>,
    },
}

impl Outcome {
    /// The same without rows, which are freed.
    pub fn without_rows(self) -> Ending
        ensures { result ≡ without_rows self }
    {
        match self {
            Outcome::Optimal { cost, plan, .. } => Ending::Optimal { cost, plan },
            Outcome::Unsolvable { why } => Ending::Unsolvable { why },
            Outcome::Bounded {
                bound,
                best,
                cause,
                ..
            } => Ending::Bounded { bound, best, cause },
        }
    }
}

/// What a run answers, without the rows.
#[derive(Debug, Drop)]
pub enum Ending {
    /// A plan of least cost.
    Optimal {
        cost: u32,
        plan: Vec<Move>,
    },
    /// No plan leads to the goal.
    Unsolvable {
        why: Why,
    },
    /// No plan costs less than the bound; the best plan found, with its cost, if there is one.
    Bounded {
        bound: u32,
        best: Option<(u32, Vec<Move>)>,
        cause: Cause,
    },
}
