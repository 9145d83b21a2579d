//! Goals that texts say.

ghost use Rattle.std.specs.Prelude.{◌≡◌, ◌↔◌, IfOk, IsErrOf};
ghost use Rattle.board.specs.declared.faults.TilesFault.{TilesFault};
ghost use Rattle.batch_lines.specs.Words.{IsFirstWordFault};
ghost use Rattle.batch_lines.specs.Texts.{comma_words, IsGoalOf};

use crate::option_words::numbers_in;
use board::{Board, Shape, TilesFault};

/// The board whose tiles a text spells, as `--goal` takes it: one word for each cell, with commas
/// between. Else the answer is the first fault:
///
/// - E2: there are more words than cells, or fewer.
/// - E3: a word is no number below the count of cells.
/// - E4: the number of a word is that of a word before it.
///
/// Where the count is right, the first faulty word decides between E3 and E4.
pub fn read_goal(shape: Shape, text: &str) -> Result<Board, TilesFault>
    ensures goal { IfOk result (IsGoalOf shape text.now) }
    ensures fault { (fault : TilesFault) → IsErrOf result fault
        ↔ IsFirstWordFault shape (comma_words text.now) fault }
{
    // The last clause needs that the shape is one. The contract of this call says so.
    let _ = shape.cells();
    let numbers = numbers_in(text);
    Board::from_tiles(shape, numbers.as_slice())
}
