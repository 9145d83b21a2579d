//! Digits of four and of five bits: put together, read, two exchanged, and the first that is a
//! given one.

ghost use Rattle.std.specs.Prelude.{ℕ, ◌≡◌, ◌+◌, ◌*◌, ◌/◌, ◌%◌, ◌^◌, ◌<◌, ◌≤◌, All, length};
ghost use Rattle.std.specs.Prelude.{slice_index};
ghost use Rattle.pattern_index.specs.Sparse.{sparse_of};
ghost use Rattle.search_keys.specs.SearchKeys.{IsFirstDigit};

// A 1 as each of 16 digits of four bits, and the highest bit of each.
const SHORT_ONES: u64 = 0x1111_1111_1111_1111;

const SHORT_HIGHS: u64 = 0x8888_8888_8888_8888;

// A 1 as each of 25 digits of five bits, and the highest bit of each.
const LONG_ONES: u128 = 0x1084210842108421084210842108421;

const LONG_HIGHS: u128 = 0x10842108421084210842108421084210;

/// The number that has these digits of four bits, the first as the lowest.
pub(crate) fn short_number(digits: &[u8]) -> u64
    requires few { length digits.now ≤ 16 }
    requires low { All (λ digit. digit < 16) digits.now }
    ensures { result ≡ sparse_of 16 digits.now }
{
    let mut number = 0;
    let mut place = digits.len();
    'places: while place > 0 {
        place -= 1;
        number = number * 16 + digits[place] as u64;
    }
    number
}

/// The number that has these digits of five bits, the first as the lowest.
pub(crate) fn long_number(digits: &[u8]) -> u128
    requires few { length digits.now ≤ 25 }
    requires low { All (λ digit. digit < 32) digits.now }
    ensures { result ≡ sparse_of 32 digits.now }
{
    let mut number = 0;
    let mut place = digits.len();
    'places: while place > 0 {
        place -= 1;
        number = number * 32 + digits[place] as u128;
    }
    number
}

/// Writes the digits of a key of four bits a digit, the lowest first.
pub(crate) fn write_short(key: u64, digits: &mut [u8; 25])
    ensures { (place : ℕ) → place < 16 → slice_index digits.new place ≡ key / 16 ^ place % 16 }
{
    // A loop whose length is known is unrolled.
    let mut rest = key;
    'places: for place in 0..16 {
        digits[place] = (rest % 16) as u8;
        rest /= 16;
    }
}

/// Writes the digits of a key of five bits a digit, the lowest first.
pub(crate) fn write_long(key: u128, digits: &mut [u8; 25])
    ensures { (place : ℕ) → place < 25 → slice_index digits.new place ≡ key / 32 ^ place % 32 }
{
    let mut rest = key;
    'places: for place in 0..25 {
        digits[place] = (rest % 32) as u8;
        rest /= 32;
    }
}

/// The digit at a place of a key of four bits a digit.
#[tactic(auto, using(crate::proofs::ZeroLemmas::short_read))]
pub(crate) fn short_digit(key: u64, place: usize) -> u8
    requires { place < 16 }
    ensures { result ≡ key / 16 ^ place % 16 }
{
    ((key >> (4 * place as u32)) % 16) as u8
}

/// The digits at some places that follow one another, as one number.
#[tactic(auto, using(crate::proofs::ZeroLemmas::short_part))]
pub(crate) fn short_digits(key: u64, first: usize, count: usize) -> usize
    requires first { first < 16 }
    requires few { count < 16 }
    ensures { result ≡ key / 16 ^ first % 16 ^ count }
{
    ((key >> (4 * first as u32)) % (1 << (4 * count as u32))) as usize
}

/// The digit at a place of a key of five bits a digit.
#[tactic(auto, using(crate::proofs::ZeroLemmas::long_read))]
pub(crate) fn long_digit(key: u128, place: usize) -> u8
    requires { place < 25 }
    ensures { result ≡ key / 32 ^ place % 32 }
{
    ((key >> (5 * place as u32)) % 32) as u8
}

/// A digit of four bits at a place.
#[tactic(auto, using(crate::proofs::ZeroLemmas::short_put))]
pub(crate) fn short_digit_at(digit: u64, place: usize) -> u64
    requires place { place < 16 }
    requires fits { digit * 16 ^ place < 2 ^ 64 }
    ensures { result ≡ digit * 16 ^ place }
{
    digit << (4 * place as u32)
}

/// A digit of five bits at a place.
#[tactic(auto, using(crate::proofs::ZeroLemmas::long_put))]
pub(crate) fn long_digit_at(digit: u128, place: usize) -> u128
    requires place { place < 25 }
    requires fits { digit * 32 ^ place < 2 ^ 128 }
    ensures { result ≡ digit * 32 ^ place }
{
    digit << (5 * place as u32)
}

/// A number of four bits a digit after two of its digits change places: `lowest`, which is its
/// lowest digit, and `other`, which is its digit at `place`.
///
/// The number is a search key of a board of at most 16 cells, or the slot of a view of such a
/// board. In both the blank's cell is the lowest digit.
pub fn short_exchanged(key: u64, place: usize, lowest: u64, other: u64) -> u64
    requires place { place < 16 }
    requires stand { other * 16 ^ place + lowest ≤ key }
    requires fits { key + lowest * 16 ^ place + other
        < 2 ^ 64 + (other * 16 ^ place + lowest) }
    ensures { result + (other * 16 ^ place + lowest) ≡ key + lowest * 16 ^ place + other }
{
    let rest = key - short_digit_at(other, place) - lowest;
    rest + short_digit_at(lowest, place) + other
}

/// The same of a search key of five bits a digit.
pub(crate) fn long_exchanged(key: u128, place: usize, lowest: u128, other: u128) -> u128
    requires place { place < 25 }
    requires stand { other * 32 ^ place + lowest ≤ key }
    requires fits { key + lowest * 32 ^ place + other
        < 2 ^ 128 + (other * 32 ^ place + lowest) }
    ensures { result + (other * 32 ^ place + lowest) ≡ key + lowest * 32 ^ place + other }
{
    let rest = key - long_digit_at(other, place) - lowest;
    rest + long_digit_at(lowest, place) + other
}

/// The first place of a digit in a key of four bits a digit.
pub(crate) fn short_place(key: u64, digit: u64) -> u8
    requires low { digit < 16 }
    requires found { (place : ℕ) × (place < 16) × (key / 16 ^ place % 16 ≡ digit) }
    ensures { IsFirstDigit 16 key digit result }
{
    // The digits that are the given one are 0 in this. A subtraction borrows from higher digits
    // alone, so the lowest mark is that of the lowest 0.
    let differences = key ^ (digit * SHORT_ONES);
    let marks = differences.wrapping_sub(SHORT_ONES) & !differences & SHORT_HIGHS;
    (marks.trailing_zeros() / 4) as u8
}

/// The first place of a digit in a key of five bits a digit.
pub(crate) fn long_place(key: u128, digit: u128) -> u8
    requires low { digit < 32 }
    requires found { (place : ℕ) × (place < 25) × (key / 32 ^ place % 32 ≡ digit) }
    ensures { IsFirstDigit 32 key digit result }
{
    // The digits that are the given one are 0 in this. A subtraction borrows from higher digits
    // alone, so the lowest mark is that of the lowest 0.
    let differences = key ^ (digit * LONG_ONES);
    let marks = differences.wrapping_sub(LONG_ONES) & !differences & LONG_HIGHS;
    (marks.trailing_zeros() / 5) as u8
}
