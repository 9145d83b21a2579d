//! Words, hashes and owners that are known.

ghost use Rattle.owners.specs.Worked.{FirstWords, GoalHashes, OwnersOfBoards};

/// The first three words.
pub fn first_words()
    ensures { FirstWords }
{}

/// The hashes of two goals.
pub fn hashes_of_goals()
    ensures { GoalHashes }
{}

/// The owners of two boards among 2, 3, 5 and 16 workers.
pub fn owners_of_boards()
    ensures { OwnersOfBoards }
{}
