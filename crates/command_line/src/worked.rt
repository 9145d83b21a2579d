//! Worked rows of the definitions: the faults that a parse of arguments by the program finds, and
//! what arguments ask for.

ghost use Rattle.command_line.specs.Worked.{NumbersAreWithin, OptionsStandOnce, TextsAreAskedFor};
ghost use Rattle.command_line.specs.Worked.{WordsAskOneThing, WordsAreNotRefused};

/// A side of 6, 17 workers, 19 columns, x boards and a walk of a million moves and one are no values
/// of these options; a walk of a million moves is one.
#[tactic(auto, using(clap::proofs::OnLiterals::clap_on_literals), unfolding(clap::proofs::OnLiterals::clap_on_literals))]
pub fn numbers_are_within()
    ensures { NumbersAreWithin }
{}

/// An option that is given twice is a fault, and so is one of another subcommand.
#[tactic(auto, using(clap::proofs::OnLiterals::clap_on_literals), unfolding(clap::proofs::OnLiterals::clap_on_literals))]
pub fn options_stand_once()
    ensures { OptionsStandOnce }
{}

/// Help and the version are asked for; `check` alone has no fault, and neither have `upgrade` and
/// `show`.
#[tactic(auto, using(clap::proofs::OnLiterals::clap_on_literals), unfolding(clap::proofs::OnLiterals::clap_on_literals))]
pub fn texts_are_asked_for()
    ensures { TextsAreAskedFor }
{}

/// `check` asks only for a check, `upgrade` only for an upgrade, `show` only for the drawing that
/// its options say, `replay` only for a replay, and `solve` only for the search that its options
/// say.
#[tactic(auto, using(crate::proofs::ParseLemmas::words_ask_one_thing))]
pub fn words_ask_one_thing()
    ensures { WordsAskOneThing }
{}

/// `check` is refused only where memory is.
#[tactic(auto, using(crate::proofs::ParseLemmas::words_are_not_refused))]
pub fn words_are_not_refused()
    ensures { WordsAreNotRefused }
{}
