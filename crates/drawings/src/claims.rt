//! The line of what is claimed.

ghost use Rattle.std.specs.Prelude.{ℕ, ◌≡◌, ◌++◌, OnOk, List, None, Some, length};
ghost use Rattle.board.specs.declared.moves.Move.{Move};
ghost use Rattle.certificate.specs.Certificates.{cost_of, plan_of};
ghost use Rattle.drawings.specs.Drawings.{last_line_text};

use crate::pushes::{push_all, push_number};
use certificate::Claim;
use memory::OutOfMemory;

/// Puts the line at the end of the text.
pub(crate) fn push_claim(text: &mut Vec<u8>, claim: &Claim) -> Result<(), OutOfMemory>
    ensures { OnOk result (text.new.items
        ≡ text.old.items ++ last_line_text (plan_of claim.now) (cost_of claim.now)) }
{
    match claim {
        Claim::Least { cost, plan } => push_least(text, plan.len(), *cost),
        Claim::Bound { bound } => push_bound(text, *bound),
    }
}

// The line of a plan: how many moves it has, and its cost.
fn push_least(text: &mut Vec<u8>, moves: usize, cost: u32) -> Result<(), OutOfMemory>
    ensures { (plan : List Move) → length plan ≡ moves → OnOk result
        (text.new.items ≡ text.old.items ++ last_line_text (Some plan) cost) }
{
    push_all(text, b"moves: ")?;
    push_number(text, moves as u64)?;
    push_all(text, b", cost: ")?;
    push_number(text, cost as u64)?;
    push_all(text, b" (claimed to be least)\n")
}

// The line of a bound.
fn push_bound(text: &mut Vec<u8>, bound: u32) -> Result<(), OutOfMemory>
    ensures { OnOk result (text.new.items ≡ text.old.items ++ last_line_text None bound) }
{
    push_all(text, b"bound: ")?;
    push_number(text, bound as u64)?;
    push_all(text, b" (claimed: no plan costs less)\n")
}
