//! Costs that texts say.

ghost use Rattle.std.specs.Prelude.{◌≡◌, ◌↔◌, IfOk, IsErrOf, map, take};
ghost use Rattle.board.specs.declared.faults.WeightsFault.{WeightsFault};
ghost use Rattle.batch_lines.specs.Texts.{comma_words, SaysCosts, weight_number};
ghost use Rattle.batch_lines.specs.GroupFaults.{IsFirstCostsFault};

use crate::words::{WORDS_READ, digits_number};
use arrayvec::ArrayVec;
use board::{Shape, Weights, WeightsFault};

/// The costs that a text says, as `--cost` takes it: `unit`, `face`, or a weight for each tile in
/// order, with commas between. Or the first fault: E13 where there are more words than tiles or
/// fewer, else E14 at the first word that is no number from 1 to 255.
pub fn read_costs(shape: Shape, text: &str) -> Result<Weights, WeightsFault>
    ensures costs { IfOk result (SaysCosts shape text.now) }
    ensures fault { (fault : WeightsFault) → IsErrOf result fault
        ↔ IsFirstCostsFault shape text.now fault }
{
    if text == "unit" {
        return Ok(Weights::unit(shape));
    }
    if text == "face" {
        return Ok(Weights::face(shape));
    }
    // The last clause needs that the shape is one. The contract of this call says so.
    let _ = shape.cells();
    let weights = weights_in(text);
    Weights::list(shape, weights.as_slice())
}

// The weights that the first words between commas say. What is behind them is not read.
fn weights_in(text: &str) -> ArrayVec<u8, 26>
    ensures { result.items ≡ map weight_number (take 26 (comma_words text.now)) }
{
    let mut weights = ArrayVec::new();
    'words: for word in text.split(',').take(WORDS_READ) {
        weights.push(weight_number(word.as_bytes()));
    }
    weights
}

// The number that a word of digits says, and 0 for a number above 255 and for any other word.
fn weight_number(word: &[u8]) -> u8
    ensures { result ≡ weight_number word.now }
{
    let Some(number) = digits_number(word) else {
        return 0;
    };
    if number == 256 {
        return 0;
    }
    number as u8
}
