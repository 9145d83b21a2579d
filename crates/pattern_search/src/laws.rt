//! The laws of the definitions: each is the contract of a function that does nothing.

ghost use Rattle.std.specs.Prelude.{◌≡◌};
ghost use Rattle.pattern_search.specs.Searches.{ValuesAreDetermined};

use crate::finding::NO_VALUE;

/// `NO_VALUE` is the greatest number of 16 bits.
pub fn no_value_is_greatest()
    ensures { NO_VALUE ≡ u16.MAX }
{}

/// A view has one value.
#[tactic(auto, using(crate::proofs::SearchLemmas::one_value))]
pub fn values_are_determined()
    ensures { ValuesAreDetermined }
{}
