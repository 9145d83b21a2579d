//! Worked rows of the definitions, and the limits in figures, which no definition may move.

ghost use Rattle.std.specs.Prelude.{◌≡◌, ◌-◌, ◌^◌, ◌∷◌, ◌++◌, [], codes, replicate};
ghost use Rattle.batch_lines.specs.Lines.{lines_of, without_return, line_kind_of};
ghost use Rattle.batch_lines.specs.Words.{words_of};
ghost use Rattle.batch_lines.specs.TileNumbers.{tile_number};
ghost use Rattle.batch_lines.specs.declared.lines.LineKind.TheVariants.{PassedOver, Within};
ghost use Rattle.batch_lines.specs.declared.lines.LineKind.TheVariants.{TooLong};

use crate::lines::{INPUT_LIMIT, LINE_LIMIT};

/// A line has 1,024 bytes at most, and an input two less than 2^64.
pub fn limits()
    ensures line { LINE_LIMIT ≡ 1024 }
    ensures input { INPUT_LIMIT ≡ 2 ^ 64 - 2 }
{}

/// A line feed ends a line, and no line begins behind the last one. Lines keep their carriage
/// returns (13) until one is dropped from the end of each.
pub fn inputs_are_cut()
    ensures two { lines_of (codes "a\nb") ≡ codes "a" ∷ codes "b" ∷ [] }
    ensures ended { lines_of (codes "a\n") ≡ codes "a" ∷ [] }
    ensures empty { lines_of (codes "\n\nb") ≡ [] ∷ [] ∷ codes "b" ∷ [] }
    ensures returns { lines_of (97 ∷ 13 ∷ 10 ∷ []) ≡ (97 ∷ 13 ∷ []) ∷ [] }
    ensures dropped { without_return (97 ∷ 13 ∷ 13 ∷ []) ≡ 97 ∷ 13 ∷ [] }
    ensures within { without_return (13 ∷ 97 ∷ []) ≡ 13 ∷ 97 ∷ [] }
{}

/// Blank lines and comments are passed over, with one carriage return at their end or without.
pub fn lines_are_passed_over()
    ensures empty { line_kind_of [] ≡ PassedOver }
    ensures blank { line_kind_of (32 ∷ 9 ∷ 32 ∷ 13 ∷ []) ≡ PassedOver }
    ensures comment { line_kind_of (32 ∷ codes "# a 1 2") ≡ PassedOver }
    ensures two_returns { line_kind_of (13 ∷ 13 ∷ []) ≡ Within }
    ensures sign_behind { line_kind_of (codes "a #") ≡ Within }
    ensures other_sign { line_kind_of (codes "; a") ≡ Within }
{}

/// The length of a line is judged without a carriage return at its end, that of a comment never.
pub fn lengths_are_judged()
    ensures longest { line_kind_of (replicate 1024 97) ≡ Within }
    ensures with_return { line_kind_of (replicate 1024 97 ++ 13 ∷ []) ≡ Within }
    ensures longer { line_kind_of (replicate 1025 97) ≡ TooLong }
    ensures comment { line_kind_of (replicate 1025 35) ≡ PassedOver }
{}

/// Spaces and tabs (9) separate words, and nothing else does. Digits alone say a number, and leading
/// zeros count for nothing.
pub fn words_are_read()
    ensures words { words_of (codes " b1  1" ++ 9 ∷ codes "02 ")
        ≡ codes "b1" ∷ codes "1" ∷ codes "02" ∷ [] }
    ensures commas { words_of (codes "a,1") ≡ codes "a,1" ∷ [] }
    ensures zeros { tile_number (codes "007") ≡ 7 }
    ensures greatest { tile_number (codes "254") ≡ 254 }
    ensures above { tile_number (codes "1000") ≡ 255 }
    ensures sign { tile_number (codes "+3") ≡ 255 }
{}
