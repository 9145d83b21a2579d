//! The laws of what options say: each is the contract of a function that does nothing.

ghost use Rattle.command_line.specs.Laws.{ShapesAreDetermined, SaidGoalsAreDetermined};
ghost use Rattle.command_line.specs.Laws.{SaidGoalsHaveNoFault, SaidCostsAreDetermined};
ghost use Rattle.command_line.specs.Laws.{SaidCostsHaveNoFault};
ghost use Rattle.command_line.specs.Laws.{OptionsHaveNoFault, ListingsHaveNoFault};
ghost use Rattle.command_line.specs.Laws.{GoalsAreJudgedBeforeCosts};
ghost use Rattle.command_line.specs.Laws.{GoalsAreJudgedBeforeGroups, CostsAreJudgedBeforeGroups};
ghost use Rattle.command_line.specs.Laws.{FlagsAreSaid, FlagsAreOff};
ghost use Rattle.command_line.specs.Laws.{SearchesAreSaid, OptionsAreDetermined};
ghost use Rattle.command_line.specs.Laws.{ListingsAreDetermined, StylesAreDetermined};
ghost use Rattle.command_line.specs.Laws.{CertIsSaid, TextsAreOfFaults, UsageIsOfFaults};
ghost use Rattle.command_line.specs.Laws.{RequestsAreOfTheirCommands, RunsAreSaid};
ghost use Rattle.command_line.specs.Laws.{RunsWithoutBoardsAreAsked, RefusalsAreOfOptions};
ghost use Rattle.command_line.specs.Laws.{ListingsAreJudgedBeforeGoals, ChoicesAreThree};
ghost use Rattle.command_line.specs.Laws.{RunsHaveNoFault, OthersAreNoMatch, NumbersAreDecimal};

/// One shape is said, one goal and one rule of costs; and where these are said, their texts have no
/// fault. One style of drawing is said.
#[tactic(auto, using(crate::proofs::ParseLemmas::one_shape, crate::proofs::ParseLemmas::one_goal_said, crate::proofs::ParseLemmas::goal_no_fault, crate::proofs::ParseLemmas::one_rule_said, crate::proofs::ParseLemmas::costs_no_fault, crate::proofs::ParseLemmas::one_style))]
pub fn options_say_one_thing()
    ensures shapes { ShapesAreDetermined }
    ensures goals { SaidGoalsAreDetermined }
    ensures no_goal_fault { SaidGoalsHaveNoFault }
    ensures costs { SaidCostsAreDetermined }
    ensures no_costs_fault { SaidCostsHaveNoFault }
    ensures styles { StylesAreDetermined }
{}

/// Options that are said have no fault, except that memory may be refused. They say one goal, rule
/// of costs, limit, count of workers and spread. So it is with boards that are said: they are one
/// list. What asks for a run is refused only where memory is. Other subcommands have no match.
/// Numbers are decimal.
pub fn options_have_no_fault()
    ensures options { OptionsHaveNoFault }
    ensures listings { ListingsHaveNoFault }
    ensures one_search { OptionsAreDetermined }
    ensures one_list { ListingsAreDetermined }
    ensures runs { RunsHaveNoFault }
    ensures others { OthersAreNoMatch }
    ensures numbers { NumbersAreDecimal }
{}

/// The goal is judged before the costs, and these before the groups: no options have faults of two
/// of them.
pub fn options_are_judged_in_order()
    ensures costs { GoalsAreJudgedBeforeCosts }
    ensures groups { GoalsAreJudgedBeforeGroups }
    ensures costs_before_groups { CostsAreJudgedBeforeGroups }
{}

/// Tables are folded, and progress and figures printed, exactly where the option is there, and by
/// default none of this. `solve` writes a certificate exactly where `--cert` is there. Options say
/// the limit, workers and spread. Help and version are shown only where a fault asks for them,
/// usage only for another fault.
pub fn flags_are_said()
    ensures options { FlagsAreSaid }
    ensures defaults { FlagsAreOff }
    ensures search { SearchesAreSaid }
    ensures cert { CertIsSaid }
    ensures texts { TextsAreOfFaults }
    ensures usage { UsageIsOfFaults }
{}

/// Each subcommand asks only for its own runs, with what its options say. It is refused only for
/// its options; `check` and `upgrade` never are. Which boards are listed is judged before the goal.
/// Boards are spread in one of three ways.
#[tactic(auto, using(crate::proofs::ParseLemmas::one_command, crate::proofs::ParseLemmas::run_said, crate::proofs::ParseLemmas::always_asked, crate::proofs::ParseLemmas::refusal_of_options, crate::proofs::ParseLemmas::listing_before_goal, crate::proofs::ParseLemmas::three_choices))]
pub fn requests_are_of_their_commands()
    ensures requests { RequestsAreOfTheirCommands }
    ensures said { RunsAreSaid }
    ensures always { RunsWithoutBoardsAreAsked }
    ensures refusals { RefusalsAreOfOptions }
    ensures listings { ListingsAreJudgedBeforeGoals }
    ensures choices { ChoicesAreThree }
{}
