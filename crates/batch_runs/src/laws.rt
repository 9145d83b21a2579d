//! The laws of batches: each is the contract of a function that does nothing.

ghost use Rattle.batch_runs.specs.Headline.{AnswersTellTheTruth, BeginningsAreOfLines};
ghost use Rattle.batch_runs.specs.Headline.{BatchOutputsTellTheTruth, BeginningsTellTheTruth};
ghost use Rattle.batch_runs.specs.Laws.{BatchLinesAreLostToFailures, OutputsAreAnswers};
ghost use Rattle.batch_runs.specs.Laws.{FailedWritesAreTold, ReportsAreNamed};
ghost use Rattle.batch_runs.specs.Laws.{WriteFaultsAreFailures, ReadFaultsAreFailures};
ghost use Rattle.batch_runs.specs.Laws.{ReasonsAreTrue, BestPlansLead, CausesAreTrue};
ghost use Rattle.batch_runs.specs.Laws.{RefusedBoardsLackMemory, RefusedLinesAreFaulty};
ghost use Rattle.batch_runs.specs.Laws.{OutputLinesAreRead, SilenceIsNoTruth, BoardsAreAnswered};
ghost use Rattle.batch_runs.specs.Laws.{DecidedLinesAreAccepted, DecidedLinesAreSettled};
ghost use Rattle.batch_runs.specs.Laws.{AnsweredBoardsAreTold, FaultyLinesHaveNoEnding};
ghost use Rattle.batch_runs.specs.Laws.{LinesPassedOverAreCounted, CountsAreOfReports};
ghost use Rattle.batch_runs.specs.Laws.{OptimalReportsAreLeast, UnsolvableReportsHaveNoPlan};
ghost use Rattle.batch_runs.specs.Laws.{BoundedReportsAreBelow, FiguresBelongToReports};
ghost use Rattle.batch_runs.specs.Laws.{FoldedSetupsAskAlike, NewSetupsHaveNoSums};
ghost use Rattle.batch_runs.specs.Setups.{owner_by};
ghost use Rattle.batch_runs.specs.declared.setup.SpreadKind.TheVariants.{Zobrist, Blank, Abstract};
ghost use Rattle.owners.specs.Owners.{owner_by_hash, owner_by_blank, owner_by_abstract_hash};
ghost use Rattle.std.specs.Prelude.{◌≡◌};

use crate::answering::{Ruled, Solver};

/// What is written of the answers of a truthful solver tells the truth of each line.
#[tactic(auto, using(crate::proofs::TruthLemmas::truth))]
pub fn answers_tell_the_truth<A: Ruled>(asked: &A)
    ensures { AnswersTellTheTruth (A.rules asked.now) }
{
    let _ = asked;
}

/// Where the input is known and the output was empty, what a run that ends well leaves there tells
/// the truth of the input's lines. Where an output tells the truth, each of its lines is read, and
/// no report is missing. Where all lines of an output are decided, none is refused or bounded.
pub fn outputs_tell_the_truth<A: Ruled>(asked: &A)
    ensures truth { BatchOutputsTellTheTruth (A.rules asked.now) }
    ensures lines { OutputLinesAreRead (A.rules asked.now) }
    ensures silence { SilenceIsNoTruth (A.rules asked.now) }
    ensures accepted { DecidedLinesAreAccepted }
    ensures settled { DecidedLinesAreSettled }
{
    let _ = asked;
}

/// What an output that tells the truth says of a line. A line that names a board is refused by V3
/// alone, or what is reported of it is true of that board. One with a fault is refused by the code
/// of the fault. The number of a line counts those that are passed over. A report that is true of a
/// board has the name of the board's line.
pub fn reports_fit_their_lines<A: Ruled>(asked: &A)
    ensures boards { RefusedBoardsLackMemory (A.rules asked.now) }
    ensures faults { RefusedLinesAreFaulty (A.rules asked.now) }
    ensures endings { AnsweredBoardsAreTold (A.rules asked.now) }
    ensures no_ending { FaultyLinesHaveNoEnding (A.rules asked.now) }
    ensures numbers { LinesPassedOverAreCounted }
    ensures named { ReportsAreNamed }
{
    let _ = asked;
}

/// What is true of a board says a least plan, or that there is none, or a bound.
#[tactic(auto, using(crate::proofs::TruthLemmas::says_one))]
pub fn reports_answer_boards()
    ensures answered { BoardsAreAnswered }
{}

/// Where the input is known and the output was empty, what a run that ends early leaves there is a
/// beginning of what tells the truth of the input's first lines.
#[tactic(auto, using(crate::proofs::BatchLemmas::beginnings_true))]
pub fn beginnings_tell_the_truth<A: Ruled>(asked: &A)
    ensures { BeginningsTellTheTruth (A.rules asked.now) }
{
    let _ = asked;
}

/// In a beginning of an output each line that another one follows is a line of the output.
#[tactic(auto, using(crate::proofs::BatchLemmas::begun_same))]
pub fn beginnings_are_of_lines()
    ensures { BeginningsAreOfLines }
{}

/// Where the input is known and the output was empty, a run that ends well leaves an answer to each
/// line; and a sink fails only in a run that says so. A run says that it cannot write only where
/// the sink has failed, and that it cannot read an input within the limit only where the source
/// has. One that ends well counts the lines of its output by their status.
pub fn runs_are_told<A: Ruled>(asked: &A)
    ensures outputs { OutputsAreAnswers (A.rules asked.now) }
    ensures failures { FailedWritesAreTold (A.rules asked.now) }
    ensures write_faults { WriteFaultsAreFailures (A.rules asked.now) }
    ensures read_faults { ReadFaultsAreFailures (A.rules asked.now) }
    ensures counts { CountsAreOfReports (A.rules asked.now) }
{
    let _ = asked;
}

/// Where a run over a known input hands over figures and the output was empty, each report of an
/// ending belongs to figures: those of the board of its line, handed over with the id of the line.
#[tactic(auto, using(crate::proofs::BatchLemmas::figures_belong))]
pub fn figures_belong_to_reports<A: Solver>(asked: &A)
    ensures { FiguresBelongToReports (A.rules asked.now)
        (λ id b solved. A.has_stats asked.now b solved × A.has_observed asked.now id solved) }
{
    let _ = asked;
}

/// A line of an input within the limit is lost only where the source has failed.
#[tactic(auto, using(crate::proofs::BatchLemmas::lost))]
pub fn lines_are_lost_to_failures()
    ensures { BatchLinesAreLostToFailures }
{}

/// A report of an ending that is true of a board says the truth of its plans: one is least, there
/// is none, or none costs less than the bound. The reason and the cause that it names are true. The
/// best plan beside a bound leads to the goal.
pub fn reports_tell_of_plans()
    ensures optimal { OptimalReportsAreLeast }
    ensures unsolvable { UnsolvableReportsHaveNoPlan }
    ensures reasons { ReasonsAreTrue }
    ensures bounded { BoundedReportsAreBelow }
    ensures causes { CausesAreTrue }
    ensures best { BestPlansLead }
{}

/// The kinds of spreads are named after what owns a board: its hash, its blank's cell, or the hash
/// of every fourth tile.
pub fn spreads_are_as_named()
    ensures zobrist { owner_by Zobrist ≡ owner_by_hash }
    ensures blank { owner_by Blank ≡ owner_by_blank }
    ensures abstract_hash { owner_by Abstract ≡ owner_by_abstract_hash }
{}

/// A folded setup asks the same of each board, and no sum of its tables is higher.
pub fn folded_setups_ask_alike()
    ensures { FoldedSetupsAskAlike }
{}

/// A setup without tables has sums of 0.
pub fn new_setups_have_no_sums()
    ensures { NewSetupsHaveNoSums }
{}
