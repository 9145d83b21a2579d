//! The group that has a tile.

ghost use Rattle.std.specs.Prelude.{◌↔◌, Contains, IsTrue};
ghost use Rattle.lower_bound.specs.ByTile.{IsGroupWith, AreGroupsByTile};

use pattern_index::Group;

// For each number that may be a tile, the place of the group that has it, or the count of groups
// where none has.
pub(crate) fn find_groups_by_tile(groups: &[Group]) -> [usize; 25]
    ensures { AreGroupsByTile groups.now result }
{
    let mut by_tile = [0; 25];
    'numbers: for number in 0..25 {
        by_tile[number] = find_group_with(groups, number as u8);
    }
    by_tile
}

// The place of the first group that has a tile, or the count of groups where none has.
fn find_group_with(groups: &[Group], tile: u8) -> usize
    ensures { IsGroupWith groups.now tile result }
{
    'groups: for place in 0..groups.len() {
        if has_tile(&groups[place], tile) {
            return place;
        }
    }
    groups.len()
}

// Whether a tile is one of a group's.
fn has_tile(group: &Group, tile: u8) -> bool
    ensures { IsTrue result ↔ Contains group.now.tiles tile }
{
    group.tiles().contains(&tile)
}
