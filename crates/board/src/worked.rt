//! Worked rows that the definitions meet: each is the contract of a function that does nothing.

ghost use Rattle.board.specs.Worked.{TwoLeft, SixRound, OneUp, FourSuccessors};
ghost use Rattle.board.specs.Worked.{TwoClasses, TwoKeys, WeightsWithin, OneRow, NoRow};
ghost use Rattle.board.specs.Worked.{OblongNeighbours, OblongSuccessors};
ghost use Rattle.board.specs.Worked.{OblongClasses, OblongKeys, GreatestCosts};

/// Two moves to the left, at both cost rules.
pub fn two_left()
    ensures { TwoLeft }
{}

/// Six moves round a board of 2 by 2, either way.
pub fn six_round()
    ensures { SixRound }
{}

/// One move up, at both cost rules.
pub fn one_up()
    ensures { OneUp }
{}

/// What each of the four moves makes of a board.
pub fn four_successors()
    ensures { FourSuccessors }
{}

/// Boards of both classes.
pub fn two_classes()
    ensures { TwoClasses }
{}

/// The keys of two boards.
pub fn two_keys()
    ensures { TwoKeys }
{}

/// The greatest costs, in figures.
pub fn greatest_costs()
    ensures { GreatestCosts }
{}

/// The least and the greatest weight of a tile.
pub fn weights_within()
    ensures { WeightsWithin }
{}

/// A row that proves a cost of 1.
pub fn one_row()
    ensures { OneRow }
{}

/// No row proves a cost of 1 where the sum of the start is 1.
pub fn no_row()
    ensures { NoRow }
{}

/// The neighbours of a cell of 2 by 3.
pub fn oblong_neighbours()
    ensures { OblongNeighbours }
{}

/// What each of the four moves makes of a board of 2 by 3.
pub fn oblong_successors()
    ensures { OblongSuccessors }
{}

/// Boards of 2 by 3 of both classes.
pub fn oblong_classes()
    ensures { OblongClasses }
{}

/// The keys of two boards of 2 by 3.
pub fn oblong_keys()
    ensures { OblongKeys }
{}
