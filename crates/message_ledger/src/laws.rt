//! What counting by whole numbers asks of a caller, and which books it allows.

ghost use Rattle.std.specs.Prelude.{ℕ, ◌↔◌, ◌≤◌};
ghost use Rattle.outcomes.specs.declared.outcome.Want.{Want};

use crate::counting::Counting;
use crate::plain::Plain;

/// A share is one of those that a sum counts exactly where its amount is at most the sum.
pub fn shares_are_within_the_sum()
    ensures { (sum amount : ℕ) → ⟦<Plain as Counting>⟧.counts sum amount ↔ amount ≤ sum }
{}

/// A book may have any limit, any number of workers may share it, and any want may stop it.
pub fn every_book_is_allowed()
    ensures limit { (limit : ℕ) → ⟦<Plain as Counting>⟧.allows_limit limit }
    ensures workers { (workers : ℕ) → ⟦<Plain as Counting>⟧.allows_workers workers }
    ensures want { (want : Want) → ⟦<Plain as Counting>⟧.allows_want want }
{}
