//! The laws of replies and of replays: each is the contract of a function without effect. The board
//! line is the first line that isn't passed over.

ghost use Rattle.replay_runs.specs.Replays.{PlaysNamedBoards, RefusesFirstLines};
ghost use Rattle.replay_runs.specs.Replays.{FailedReplayWritesAreTold, FailedReplayReadsAreTold};
ghost use Rattle.replay_runs.specs.Replays.{ReplayOutputsAreAnswers, EarlyReplaysBeginAnswers};
ghost use Rattle.replay_runs.specs.Replays.{EarlyReplaysAnswerAllRead, EarlyReplaysOfNoBoard};
ghost use Rattle.replay_runs.specs.Replays.{AnswersFollowRuns};
ghost use Rattle.replay_runs.specs.Replays.{SaidStepsAreAnswered, UnsaidStepsAreRefused};
ghost use Rattle.replay_runs.specs.Replays.{PassedLinesAreSilent, ReplayReportsAreTrue};
ghost use Rattle.replay_runs.specs.Replays.{RefusedBoardsLeaveTheRest};
ghost use Rattle.replay_runs.specs.Replies.{StepsAreTaken};
ghost use Rattle.replay_runs.specs.Openings.{ReplaysOpenAsSetUp};
ghost use Rattle.replay_runs.specs.Answers.{StepCodesDiffer};

use crate::board_line::Opener;
use crate::stepping::Run;
use crate::steps::read_step;

/// Where a text says a step, the reply to it is that this step was taken, or refused.
#[tactic(auto, using(crate::proofs::ReadLemmas::reply_taken))]
pub fn steps_are_taken(bytes: &[u8])
    ensures { StepsAreTaken bytes.now }
{
    let _ = read_step(bytes);
}

/// The board that is played is the one that the board line names, and the outcome at the end answers
/// its task.
#[tactic(auto, using(crate::proofs::ReadLemmas::plays_named))]
pub fn named_boards_are_played<R: Run, O: Opener<R>>(opener: &O)
    ensures { PlaysNamedBoards (O.jobs opener.now) }
{
    let _ = opener;
}

/// A refusal tells of the board line: a fault of it, or that memory was refused for the board that
/// it names.
#[tactic(auto, using(crate::proofs::ReadLemmas::refuses_first))]
pub fn first_lines_are_refused<R: Run, O: Opener<R>>(opener: &O)
    ensures { RefusesFirstLines (O.jobs opener.now) }
{
    let _ = opener;
}

/// A sink or a source fails in a replay that says so, and in no other.
pub fn failed_streams_are_told<R: Run, O: Opener<R>>(opener: &O)
    ensures writes { FailedReplayWritesAreTold (O.jobs opener.now) }
    ensures reads { FailedReplayReadsAreTold (O.jobs opener.now) }
{
    let _ = opener;
}

/// Where the input is known and the output was empty, a replay that ends well leaves an answer to
/// the board that the board line names, or the refusal of that line; or nothing, where there is no
/// board line.
#[tactic(auto, using(crate::proofs::ReadLemmas::outputs_answer))]
pub fn replay_outputs_are_answers<R: Run, O: Opener<R>>(opener: &O)
    ensures { ReplayOutputsAreAnswers (O.jobs opener.now) }
{
    let _ = opener;
}

/// And one that ends early leaves a beginning of such an answer, or of the replies to the first of
/// the lines that say steps.
#[tactic(auto, using(crate::proofs::ReadLemmas::early_begins))]
pub fn early_replays_begin_answers<R: Run, O: Opener<R>>(opener: &O)
    ensures { EarlyReplaysBeginAnswers (O.jobs opener.now) }
{
    let _ = opener;
}

/// Where a line was lost, a replay leaves the replies to all lines that were read whole. Where memory
/// was refused for a report, it leaves those to all lines, or nothing, if the board was refused.
#[tactic(auto, using(crate::proofs::ReadLemmas::early_answers))]
pub fn early_replays_answer_all_read<R: Run, O: Opener<R>>(opener: &O)
    ensures { EarlyReplaysAnswerAllRead (O.jobs opener.now) }
{
    let _ = opener;
}

/// Where the board line names no board, a replay that ends early leaves nothing, or a beginning of
/// the report of a fault of that line. Where there is no board line, it leaves nothing, and a line
/// was lost.
#[tactic(auto, using(crate::proofs::EarlyLemmas::early_of_none))]
pub fn early_replays_of_no_board<R: Run, O: Opener<R>>(opener: &O)
    ensures { EarlyReplaysOfNoBoard (O.jobs opener.now) }
{
    let _ = opener;
}

/// In what answers a board, a line that says a step has what this step answers in the world that
/// the lines before it reach. The report behind the replies is of an outcome that the last world
/// gives.
#[tactic(auto, using(crate::proofs::EarlyLemmas::answers_follow))]
pub fn answers_follow_runs<R: Run, O: Opener<R>>(opener: &O)
    ensures { AnswersFollowRuns (O.jobs opener.now) }
{
    let _ = opener;
}

/// No two refusals have the same code. None is the word for a step that was taken, and none of
/// these words is the one for a line that says no step.
pub fn step_codes_differ()
    ensures { StepCodesDiffer }
{}

/// Lines are replied to one by one, in their order. A line that says a step has what this step
/// answers in the world that the lines before it reach, and the lines behind it go on from what the
/// step leaves.
#[tactic(auto, using(crate::proofs::ReadLemmas::steps_answered))]
pub fn said_steps_are_answered()
    ensures { SaidStepsAreAnswered }
{}

/// A line that says no step has `B4`, and nothing is written for one that is passed over. Both leave
/// the world as it was.
#[tactic(auto, using(crate::proofs::ReadLemmas::steps_refused, crate::proofs::ReadLemmas::passed_silent))]
pub fn other_lines_take_no_step()
    ensures unsaid { UnsaidStepsAreRefused }
    ensures passed { PassedLinesAreSilent }
{}

/// The last line of what answers a board is read as JSON and says what is true of the board. The
/// status is 0 where it says a least plan or that there is none, and each line behind the board line
/// says a step or is passed over. No line is taken behind a board line that is refused.
#[tactic(auto, using(crate::proofs::ReadLemmas::reports_true, crate::proofs::ReadLemmas::rest_left))]
pub fn replay_reports_are_true<R: Run, O: Opener<R>>(opener: &O)
    ensures reports { ReplayReportsAreTrue (O.jobs opener.now) }
    ensures refused { RefusedBoardsLeaveTheRest (O.jobs opener.now) }
{
    let _ = opener;
}

/// A replay of a setup opens with the setup's workers, spread and limit: a step of another worker is
/// refused, only the board's owner draws credit, and no more than the limit is granted. It searches
/// for plans from the board to the setup's goal, guided by its tables. It refuses no board unless
/// memory was refused.
#[tactic(auto, using(crate::proofs::ReadLemmas::set_up))]
pub fn replays_open_as_set_up()
    ensures { ReplaysOpenAsSetUp }
{}
