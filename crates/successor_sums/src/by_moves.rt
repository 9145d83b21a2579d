//! Items for some of the four moves.

ghost use Rattle.std.specs.Prelude.{ℕ, ◌≡◌, ◌≤◌, ◌<◌, if◌then◌else◌, Some, None, length};
ghost use Rattle.std.specs.Prelude.{slice_index_or};
ghost use Rattle.board.specs.declared.moves.Move.{Move};
ghost use Rattle.successor_sums.specs.ByMoves.{IsBehind, entries_of, nothing, with_move};
ghost use Rattle.successor_sums.specs.ByMoves.{FourAreAllMoves, ItemsAreAsMade};

use board::Move;
use std::marker::Model;

/// The most moves from a board.
pub const MOVES: usize = 4;

/// Items for some of the four moves: entries in the order of the moves, with no gap. A loop over
/// them has as many rounds as there are entries, and doesn't test whether an entry is there.
#[derive(Debug, Drop)]
pub struct ByMoves<T> {
    moves: [Move; MOVES],
    items: [T; MOVES],
    count: usize,
}

impl<T> Model for ByMoves<T> {
    ghost use Rattle.successor_sums.specs.ByMoves.{ByMovesModel};

    ghost Value = { ByMovesModel T };

    ghost use Rattle.successor_sums.specs.ByMoves.{four_in, IsListed};

    ghost view = { four_in };

    ghost invariant = { IsListed };
}

impl<T: Copy> ByMoves<T> {
    /// No move has an item. `filler` is what lies in memory then.
    pub fn nothing(filler: T) -> Self
        ensures { result ≡ nothing }
    {
        ByMoves {
            moves: [Move::U; MOVES],
            items: [filler; MOVES],
            count: 0,
        }
    }

    /// Puts an item for a move that comes behind those that have one. Where `is_there` is false,
    /// nothing is put. There is no branch to mispredict.
    pub fn put_if(&mut self, direction: Move, item: T, is_there: bool)
        requires { IsBehind self.old direction }
        ensures { self.new
            ≡ with_move self.old direction (if is_there then Some item else None) }
    {
        self.moves[self.count] = direction;
        self.items[self.count] = item;
        self.count += is_there as usize;
    }

    /// Takes all items out.
    pub fn clear(&mut self)
        ensures { self.new ≡ nothing }
    {
        self.count = 0;
    }

    /// For how many moves there is an item.
    pub fn len(&self) -> usize
        ensures value { result ≡ length (entries_of self.now) }
        ensures few { result ≤ MOVES }
    {
        self.count
    }

    /// The move of an entry, by its place among the entries, and the item.
    pub fn entry(&self, place: usize) -> (Move, T)
        requires { place < length (entries_of self.now) }
        ensures { (d : Move × T) → slice_index_or (entries_of self.now) place d ≡ result }
    {
        (self.moves[place], self.items[place])
    }
}

/// What a function makes for each move is the item of that move, and there are no other moves.
pub fn items_are_as_made<T>()
    ensures moves { ItemsAreAsMade T }
    ensures four { FourAreAllMoves T }
{}
