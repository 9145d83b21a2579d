//! The laws of drawings, and worked rows: each is the contract of a function that does nothing.

ghost use Rattle.drawings.specs.Laws.{BandsAreWhole, DrawingsAreDetermined, FilesSayTheClaim};
ghost use Rattle.drawings.specs.Worked.{PlansAreDrawn, BoundsAreDrawn};
ghost use Rattle.drawings.specs.Worked.{OblongPlansAreDrawn, NumbersFit};

/// The bands have each picture once, in order.
#[tactic(auto, using(crate::proofs::TextLemmas::bands_whole))]
pub fn bands_are_whole()
    ensures { BandsAreWhole }
{}

/// The texts of a plan of two moves, and of a bound.
pub fn texts_are_these()
    ensures plan { PlansAreDrawn }
    ensures bound { BoundsAreDrawn }
{}

/// A certificate has one drawing as text. A file has the line of what is claimed.
pub fn drawings_are_determined()
    ensures texts { DrawingsAreDetermined }
    ensures files { FilesSayTheClaim }
{}

/// The text of a plan of one move on a board of 3 by 4, and numbers of several digits.
pub fn oblong_texts_are_these()
    ensures plan { OblongPlansAreDrawn }
    ensures numbers { NumbersFit }
{}
