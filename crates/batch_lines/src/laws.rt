//! The laws of the definitions: each is the contract of a function that does no more than it says.

ghost use Rattle.batch_lines.specs.Laws.{EndsTakeNothing, LinesAreNumbered};
ghost use Rattle.batch_lines.specs.Laws.{LinesAreLostToFailures, LostBytesHaveNoFeed};
ghost use Rattle.std.specs.Prelude.{◌≡◌, ◌↔◌, IsTrue};

use crate::lines::{Line, LineKind};
use crate::words::EntryFault;

/// At the end a reader has taken as many lines and bytes as before.
#[tactic(auto, using(crate::proofs::LawLemmas::ends))]
pub fn ends_take_nothing()
    ensures { EndsTakeNothing }
{}

/// The first line of what is left is answered, by the number of the lines that were taken.
#[tactic(auto, using(crate::proofs::LawLemmas::numbered))]
pub fn lines_are_numbered()
    ensures { LinesAreNumbered }
{}

/// A line of an input within the limit is lost only where the source has failed.
#[tactic(auto, using(crate::proofs::LawLemmas::lost))]
pub fn lines_are_lost_to_failures()
    ensures { LinesAreLostToFailures }
{}

/// Where a line of an input within the limit is lost, no line feed was taken.
#[tactic(auto, using(crate::proofs::LawLemmas::no_feed))]
pub fn lost_bytes_have_no_feed()
    ensures { LostBytesHaveNoFeed }
{}

/// `==` answers whether two kinds of lines are the same.
pub fn kinds_are_compared(a: LineKind, b: LineKind) -> bool
    ensures { IsTrue result ↔ (a ≡ b) }
{
    a == b
}

/// `==` answers whether two lines are the same, with the same number and the same kind.
pub fn lines_are_compared(a: Line, b: Line) -> bool
    ensures { IsTrue result ↔ (a ≡ b) }
{
    a == b
}

/// `==` answers whether two faults of lines are the same, with the same places.
pub fn faults_are_compared(a: EntryFault, b: EntryFault) -> bool
    ensures { IsTrue result ↔ (a ≡ b) }
{
    a == b
}
