//! The numbers that the words of a text say.

ghost use Rattle.std.specs.Prelude.{◌≡◌, map, take};
ghost use Rattle.batch_lines.specs.TileNumbers.{tile_number};
ghost use Rattle.batch_lines.specs.Texts.{comma_words};

use crate::words::{WORDS_READ, tile_number};
use arrayvec::ArrayVec;

// The numbers that the first words between commas say. What is behind them is not read.
pub(crate) fn numbers_in(text: &str) -> ArrayVec<u8, 26>
    ensures { result.items ≡ map tile_number (take 26 (comma_words text.now)) }
{
    let mut numbers = ArrayVec::new();
    'words: for word in text.split(',').take(WORDS_READ) {
        numbers.push(tile_number(word.as_bytes()));
    }
    numbers
}
