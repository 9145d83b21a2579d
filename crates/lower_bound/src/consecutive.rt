//! Groups of consecutive tiles.

ghost use Rattle.std.specs.Prelude.{◌↔◌, IsTrue};
ghost use Rattle.lower_bound.specs.Consecutive.{AreConsecutive, HasConsecutiveGroups};

use pattern_index::Partition;

// The most cells where a digit of a slot is one of a search key.
const MOST_CELLS: usize = 16;

// Whether slots of a partition's groups are digits of search keys.
pub(crate) fn has_consecutive_groups(partition: &Partition) -> bool
    ensures { IsTrue result ↔ HasConsecutiveGroups partition.now }
{
    if partition.shape().cells() > MOST_CELLS {
        return false;
    }
    let groups = partition.groups();
    'groups: for place in 0..groups.len() {
        let follow = are_consecutive(groups[place].tiles());
        if !follow {
            return false;
        }
    }
    true
}

// Whether tiles follow one another, from the first on.
fn are_consecutive(tiles: &[u8]) -> bool
    ensures { IsTrue result ↔ AreConsecutive tiles.now }
{
    'tiles: for place in 0..tiles.len() {
        let follows = tiles[place] as usize == tiles[0] as usize + place;
        if !follows {
            return false;
        }
    }
    true
}
