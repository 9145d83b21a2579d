//! Replays: a board line, the steps that follow it, and what is written for each.
//!
//! - `read_step` reads a line that says a step. `answer_word` is its answer: `ok`, or the
//!   `step_code` of a refusal.
//! - `replay_lines` is generic in what opens runs (`Opener`) and takes steps (`Run`); `run_replay`
//!   uses worlds of `hda_run`.
//! - `RepliesTo`: what a line is answered; `Changes`: what its step does. `IsReplied`: all lines,
//!   whose steps are a run. `IsPlay`, `IsEnd`: with board line and outcome. `Replays`: how a replay
//!   ends.
//! - The last report is that of the ending, since rows are not reported.
//! - The laws at the end of `specs/Replays.antt` say what these give: the board that the
//!   first line that isn't passed over names is played and answered, and a failure of a stream is named.
//! - Start with `specs/Steps.antt`, `specs/Replays.antt`, then `src/board_line.rt`,
//!   `src/stepping.rt`.
#![tactic(auto)]

mod answers;
mod board_line;
pub mod laws;
mod replay;
mod sending;
mod stepping;
mod steps;
mod worked;
mod worlds;

pub use answers::{answer_word, step_code};
pub use board_line::{Opener, replay_lines};
pub use replay::run_replay;
pub use stepping::Run;
