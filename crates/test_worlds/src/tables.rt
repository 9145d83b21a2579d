//! The tables that guide the search.

ghost use Rattle.std.specs.Prelude.{◌≡◌, All, IfSome};
ghost use Rattle.database_build.specs.Tables.{value_in, IsPotential};
ghost use Rattle.lower_bound.specs.Tables.{ArePotentials};

use board::{Board, Shape, Weights};
use database_build::{Table, build, is_potential};
use lower_bound::Bound;
use pattern_index::{Group, Partition};
use std::alloc::Global;

/// The bound of these groups by built tables. None where the groups make no partition, a table is
/// no potential, or memory is refused.
pub fn bound_of(alloc: Global, goal: &Board, weights: &Weights, lists: &[&[u8]]) -> Option<Bound>
    requires { weights.now.grid ≡ goal.now.grid }
    ensures sides { IfSome result (λ bound. bound.split.grid ≡ goal.now.grid) }
    ensures potentials { IfSome result (λ bound. ArePotentials weights.now goal.now bound) }
{
    let shape = goal.shape();
    let groups = groups_of(alloc, shape, lists)?;
    let mut tables = Vec::new(alloc);
    'tables: for tiles in lists {
        let table = table_of(alloc, goal, weights, tiles)?;
        tables.push(table).ok()?;
    }
    let partition = Partition::new(shape, groups).ok()?;
    let Ok(bound) = Bound::new(partition, tables) else {
        return None;
    };
    Some(bound)
}

/// Groups of these tiles. None where one of them is no group, or memory is refused.
pub fn groups_of(alloc: Global, shape: Shape, lists: &[&[u8]]) -> Option<Vec<Group>>
    ensures { IfSome result (λ groups. All (λ g. g.grid ≡ shape) groups.items) }
{
    let mut groups = Vec::new(alloc);
    'groups: for tiles in lists {
        groups.push(group_of(shape, tiles)?).ok()?;
    }
    Some(groups)
}

// The group of these tiles.
fn group_of(shape: Shape, tiles: &[u8]) -> Option<Group>
    ensures { IfSome result (λ g. g.grid ≡ shape) }
{
    Group::new(shape, tiles).ok()
}

// The table of the group of these tiles.
fn table_of(alloc: Global, goal: &Board, weights: &Weights, tiles: &[u8]) -> Option<Table>
    requires { weights.now.grid ≡ goal.now.grid }
    ensures { IfSome result
        (λ table. IsPotential weights.now table.selection.tiles goal.now (value_in table)) }
{
    let group = Group::new(goal.shape(), tiles).ok()?;
    let table = build(alloc, &group, goal, weights).ok()?;
    if !is_potential(&table, &group, goal, weights) {
        return None;
    }
    Some(table)
}
