//! The laws of open lists, which are contracts of functions that do nothing.

ghost use Rattle.std.specs.Prelude.{◌≡◌, ◌+◌, ◌*◌};
ghost use Rattle.open_buckets.specs.Laws.{TheNextIsTaken, TheLastPutIsTaken};
ghost use Rattle.open_buckets.specs.Laws.{TheNextWasThere, NoneCostsMore, TheBroughtIsLast, NoneIsLost};
ghost use Rattle.open_buckets.specs.Laws.{NoneIsBrought, TheNextHasTheLeastF, AllAreInOrder};
ghost use Rattle.open_buckets.specs.Laws.{NoneIsLostInOrder, OnePlaceIsGivenBack};

use crate::open::GREATEST_F;

/// The entry that is taken is the one that was looked at.
pub fn the_next_is_taken<K: Copy>()
    ensures { TheNextIsTaken K }
{}

/// What is taken where an entry was put is that entry, and then all entries are as before it, and
/// no place is lost.
pub fn the_last_put_is_taken<K: Copy>()
    ensures taken { TheLastPutIsTaken K }
    ensures place { OnePlaceIsGivenBack K }
{}

/// Where the entries at an f were put in order, the next one is one of them, and none costs more.
pub fn the_dearest_is_next<K: Copy>()
    ensures there { TheNextWasThere K }
    ensures greatest { NoneCostsMore K }
    ensures order { AllAreInOrder K }
    ensures same { NoneIsLostInOrder K }
{}

/// An entry that was made the last one at its f is the last one there, and no entry or place is
/// lost.
pub fn the_brought_is_last<K: Copy>()
    ensures last { TheBroughtIsLast K }
    ensures same { NoneIsLost K }
    ensures none { NoneIsBrought K }
{}

/// The least f is that of the entry that is taken next; where there is none, no entry is next.
pub fn the_next_has_the_least_f<K: Copy>()
    ensures { TheNextHasTheLeastF K }
{}

/// The greatest f is a cost of 1,048,320, a move of weight 255, and 24 values of 65,535.
pub fn the_greatest_f()
    ensures { GREATEST_F ≡ 1048320 + 255 + 24 * 65535 }
{}
