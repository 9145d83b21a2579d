//! The laws of the definitions: each is the contract of a function that does nothing.

ghost use Rattle.pattern_graph.specs.Placements.{PlacesWithoutViews};

/// A sparse place has no view exactly where two of its digits are the same.
pub fn places_without_views()
    ensures { PlacesWithoutViews }
{}
