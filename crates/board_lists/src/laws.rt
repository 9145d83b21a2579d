//! The laws of the definitions: each is the contract of a function that does nothing.

ghost use Rattle.board_lists.specs.Laws.{LinesNameBoards, WalksKeepTheClass, TwoMovesLeadAway};
ghost use Rattle.board_lists.specs.Laws.{NoMoveIsTakenBack};
ghost use Rattle.board_lists.specs.Laws.{DrawnAreDue, WalkedAreDue, WholeIsDue, WholeIsOneList};
ghost use Rattle.board_lists.specs.Worked.{TwoAreListed};

/// The line of a board is read as its id and the board.
pub fn lines_name_boards()
    ensures { LinesNameBoards }
{}

/// A walk from a goal stays in its class.
pub fn walks_keep_the_class()
    ensures { WalksKeepTheClass }
{}

/// A walk of two moves is not back at the goal.
pub fn two_moves_lead_away()
    ensures { TwoMovesLeadAway }
{}

/// No move of a walk takes back the one before it.
#[tactic(auto, using(crate::proofs::WalkLemmas::none_taken_back))]
pub fn no_move_is_taken_back()
    ensures { NoMoveIsTakenBack }
{}

/// Lists have the boards that are due: as many as are asked for, each of the goal's class, and at the
/// end of a walk where walks are asked for; or all of the class, which is one list only.
pub fn lists_are_due()
    ensures drawn { DrawnAreDue }
    ensures walked { WalkedAreDue }
    ensures whole { WholeIsDue }
    ensures one_list { WholeIsOneList }
{}

/// The lines of two boards.
pub fn two_are_listed()
    ensures { TwoAreListed }
{}
