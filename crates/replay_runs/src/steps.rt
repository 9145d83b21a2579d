//! What step a line says.

ghost use Rattle.std.specs.Prelude.{◌≡◌, ◌↔◌, ℕ, IsUtf8, Some};
ghost use Rattle.batch_lines.specs.Words.{words_of};
ghost use Rattle.replay_runs.specs.Steps.{SaysStep, IsNumberWord, SaysCause, IsAlone, IsPaired};

use batch_lines::cut_word;
use outcomes::Want;
use world_model::{HaltCause, Step};

/// The step that a line says, or None where it says none.
///
/// The words of a line are a verb in lower case and one or two numbers of workers, or the number of
/// one and the cause of a halt. A number has one to nine decimal digits.
pub(crate) fn read_step(line: &[u8]) -> Option<Step>
    ensures { (step : Step) → (result ≡ Some step)
        ↔ (IsUtf8 line.now × SaysStep (words_of line.now) step) }
{
    match std::str::from_utf8(line) {
        Ok(text) => step_in(text),
        Err(_) => None,
    }
}

// The step that the words of a text say.
fn step_in(text: &str) -> Option<Step>
    ensures { (step : Step) → (result ≡ Some step) ↔ SaysStep (words_of text.now) step }
{
    let (verb, rest) = cut_word(text);
    let (first, rest) = cut_word(rest);
    let Some(worker) = number_of(first.as_bytes()) else {
        return None;
    };
    let (second, rest) = cut_word(rest);
    if second.is_empty() {
        return alone(verb, worker);
    }
    let (surplus, _) = cut_word(rest);
    if !surplus.is_empty() {
        return None;
    }
    paired(verb, worker, second)
}

// The step that a verb and the number of a worker say.
fn alone(verb: &str, worker: usize) -> Option<Step>
    ensures { (step : Step) → (result ≡ Some step) ↔ IsAlone verb.now worker step }
{
    match verb {
        "expand" => Some(Step::Expand(worker)),
        "settle" => Some(Step::Settle(worker)),
        "draw" => Some(Step::Draw(worker)),
        "announce" => Some(Step::Announce(worker)),
        "grant" => Some(Step::Grant(worker)),
        "rest" => Some(Step::Rest(worker)),
        _ => None,
    }
}

// The step that a verb, the number of a worker and one more word say.
fn paired(verb: &str, worker: usize, word: &str) -> Option<Step>
    ensures { (step : Step) → (result ≡ Some step) ↔ IsPaired verb.now worker word.now step }
{
    if verb == "halt" {
        return Some(Step::Halt(worker, cause_of(word)?));
    }
    let Some(other) = number_of(word.as_bytes()) else {
        return None;
    };
    match verb {
        "send" => Some(Step::Send(worker, other)),
        "deliver" => Some(Step::Deliver(worker, other)),
        _ => None,
    }
}

// The cause of a halt that a word says.
fn cause_of(word: &str) -> Option<HaltCause>
    ensures { (cause : HaltCause) → (result ≡ Some cause) ↔ SaysCause word.now cause }
{
    match word {
        "limit" => Some(HaltCause::Limit),
        "memory" => Some(HaltCause::Memory(Want::Stated)),
        "start" => Some(HaltCause::Start),
        _ => None,
    }
}

// The most digits of a number.
const DIGITS: usize = 9;

// The number that a word of one to nine digits says.
fn number_of(word: &[u8]) -> Option<usize>
    ensures { (n : ℕ) → (result ≡ Some n) ↔ IsNumberWord word.now n }
{
    if word.is_empty() {
        return None;
    }
    if word.len() > DIGITS {
        return None;
    }
    let mut number: usize = 0;
    'digits: for byte in word {
        if !byte.is_ascii_digit() {
            return None;
        }
        number = number * 10 + (*byte - b'0') as usize;
    }
    Some(number)
}
