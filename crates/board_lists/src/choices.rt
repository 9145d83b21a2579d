//! Which boards are listed.

ghost use Rattle.byte_streams.specs.Streams.{change};
ghost use Rattle.std.specs.Prelude.{◌≡◌, ◌⊎◌, true};
ghost use Rattle.board_lists.specs.Lists.{AreChosen, MayBeListed, ListsBoards};

use crate::lists::{list_class, list_drawn, list_walked};
use board::Board;
use byte_streams::{Sink, WriteFailed};

/// Which boards of a goal's class are listed. The seed decides all draws.
#[derive(Clone, Copy, Debug)]
pub enum Choice {
    /// `count` boards, drawn uniformly.
    Drawn { count: u64, seed: u64 },
    /// `count` boards, each reached from the goal by `moves` moves. None takes back the one before.
    Walked { moves: u64, count: u64, seed: u64 },
    /// All, in rising order of key.
    Whole,
}

/// Writes the lines of the boards that are chosen of a goal's class, and flushes the sink. Their
/// ids are `b1`, `b2` and so on.
pub fn list_boards<K: Sink>(sink: &mut K, goal: &Board, choice: Choice) -> Result<(), WriteFailed>
    requires { MayBeListed goal.now.grid choice }
    ensures lists { ListsBoards (AreChosen goal.now choice)
        (change K.state sink.old sink.new) result }
    ensures flushed { K.is_flushed sink.new ⊎ ((K.state sink.new).has_failed ≡ true) }
{
    match choice {
        Choice::Drawn { count, seed } => list_drawn(sink, goal, count, seed),
        Choice::Walked { moves, count, seed } => list_walked(sink, goal, moves, count, seed),
        Choice::Whole => list_class(sink, goal),
    }
}
