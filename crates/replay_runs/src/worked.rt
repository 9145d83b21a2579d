//! Worked lines: each is the contract of a function that does nothing.

ghost use Rattle.std.specs.Prelude.{◌≡◌};
ghost use Rattle.replay_runs.specs.Answers.{no_step_code};
ghost use Rattle.replay_runs.specs.Worked.{KindsAreSaid, SpellingsAreSaid, OthersSayNothing};

use crate::answers::NO_STEP;

/// A line that says no step is answered by `B4`.
pub fn no_step()
    ensures { NO_STEP.now ≡ no_step_code }
{}

/// Each kind of step is said; numbers may have zeros before them, and words any blanks between.
pub fn said()
    ensures kinds { KindsAreSaid }
    ensures spellings { SpellingsAreSaid }
{}

/// Ten digits, a sign, upper case, a word too few or too many, or another word say nothing.
pub fn unsaid()
    ensures { OthersSayNothing }
{}
