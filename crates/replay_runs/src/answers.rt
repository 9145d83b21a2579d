//! The words that lines are answered by.

ghost use Rattle.std.specs.Prelude.{◌≡◌};
ghost use Rattle.world_model.specs.Turns.{refusal_in};
ghost use Rattle.replay_runs.specs.Answers as answers;

use world_model::Refusal;

/// The answer to a line that says no step.
pub(crate) const NO_STEP: &str = "B4";

/// The answer to a step: `ok`, or the code of its refusal.
pub fn answer_word(answer: Result<(), Refusal>) -> &'static str
    ensures { result.now ≡ answers.answer_word (refusal_in answer) }
{
    match answer {
        Ok(()) => "ok",
        Err(refusal) => step_code(refusal),
    }
}

/// The code that a refused step is answered by: `S1` to `S16`.
pub fn step_code(refusal: Refusal) -> &'static str
    ensures { result.now ≡ answers.step_code refusal }
{
    match refusal {
        Refusal::NothingBelowLimit => "S1",
        Refusal::NoAllowance => "S2",
        Refusal::NoRoom => "S3",
        Refusal::RingFull => "S4",
        Refusal::RingEmpty => "S5",
        Refusal::PurseTooSmall => "S6",
        Refusal::StillHolding => "S7",
        Refusal::Memory(_) => "S8",
        Refusal::NothingToAnnounce => "S9",
        Refusal::NotIdle => "S10",
        Refusal::Stopped => "S11",
        Refusal::PurseEmpty => "S12",
        Refusal::NothingThere => "S13",
        Refusal::AllowanceLeft => "S14",
        Refusal::NoSuchWorker => "S15",
        Refusal::PurseFull => "S16",
    }
}
