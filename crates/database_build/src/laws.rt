//! The laws of the definitions: each is the contract of a function that does nothing.

ghost use Rattle.std.specs.Prelude.{◌≡◌, ◌^◌};
ghost use Rattle.database_build.specs.Laws.{ValuesArePotentials, PotentialsAreLowerBounds};
ghost use Rattle.database_build.specs.Laws.{ValuesAreReached, FoldedValuesAreLow};
ghost use Rattle.database_build.specs.Laws.{FoldedValuesAreReached};
ghost use Rattle.database_build.specs.Laws.{PlacesAreFew, FoldedValuesAreDetermined, FramesFitAll};
ghost use Rattle.database_build.specs.Laws.{FormsAreDetermined, FormsDiffer, WordsAreNeeded};

use crate::entries::MOST_SLOTS;
use crate::folding::{MOST_PLACES, PLACES_A_VALUE};

/// A group has at most as many sparse places as six tiles on a board of 4 by 4, or its folded
/// tables are not kept by them.
pub fn most_places_are_those_of_six_tiles()
    ensures { MOST_PLACES ≡ 16 ^ 6 }
{}

/// Nor are they where it has more than four for each of its values.
pub fn places_a_value_are_four()
    ensures value { PLACES_A_VALUE ≡ 4 }
    ensures few { PlacesAreFew }
{}

/// The values of a built table are a potential: they are consistent.
pub fn values_are_potentials()
    ensures { ValuesArePotentials }
{}

/// A view with a value has a plan of this cost.
pub fn values_are_reached()
    ensures { ValuesAreReached }
{}

/// Tables are kept by slot up to 2^25 slots.
pub fn most_slots_are_a_power_of_two()
    ensures { MOST_SLOTS ≡ 2 ^ 25 }
{}

/// A potential is admissible: never above the cost of a view plan to the goal's view.
pub fn potentials_are_lower_bounds()
    ensures { PotentialsAreLowerBounds }
{}

/// A folded value is never above the value of a view that shows the tiles on the same cells, and it
/// is that of one of them; a view has one.
pub fn folded_values_are_least()
    ensures low { FoldedValuesAreLow }
    ensures reached { FoldedValuesAreReached }
    ensures one { FoldedValuesAreDetermined }
{}

/// Values are kept best in one form: by rank, as bytes, or as words. Folded values are kept as
/// words only where some value needs one.
#[tactic(auto, using(crate::proofs::EntryLemmas::one_form, crate::proofs::EntryLemmas::small_places))]
pub fn forms_are_determined()
    ensures best { FormsAreDetermined }
    ensures differ { FormsDiffer }
    ensures words { WordsAreNeeded }
{}

/// A frame that fits a group fits each other one of its shape with as many tiles.
pub fn frames_fit_all()
    ensures { FramesFitAll }
{}
