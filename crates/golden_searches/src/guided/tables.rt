//! Partitions of tiles, and the tables of their groups.

ghost use Rattle.std.specs.Prelude.{◌≡◌, IfSome};
ghost use Rattle.batch_runs.specs.Setups.{Guides};

use board::{Board, Shape, Weights};
use lower_bound::Bound;
use pattern_index::Partition;
use std::alloc::Global;
use std::thread::Threads;
use table_sets::{build_bound, build_folded_bound};
use test_worlds::groups_of;

// The most groups of a partition.
const MOST_GROUPS: u64 = 3;

/// The groups of each partition of a shape's tiles into at most three groups, and those of the
/// partition of no group. None where memory was refused.
pub fn partitions_of(alloc: Global, shape: Shape) -> Option<Vec<Vec<Vec<u8>>>> {
    let mut partitions = Vec::new(alloc);
    partitions.push(Vec::new(alloc)).ok()?;
    let mut numbers = 1u64;
    for _ in 1..shape.cells() {
        numbers = numbers.saturating_mul(MOST_GROUPS);
    }
    for number in 0..numbers {
        let groups = groups_by(alloc, shape, number)?;
        if !groups.is_empty() {
            partitions.push(groups).ok()?;
        }
    }
    Some(partitions)
}

// The tiles of each group, where the digits of a number to the base 3 say for each tile the number
// of its group. So that each partition is met once, there is no group where these are not numbered
// in the order of their first tiles.
fn groups_by(alloc: Global, shape: Shape, number: u64) -> Option<Vec<Vec<u8>>> {
    let mut groups: Vec<Vec<u8>> = Vec::new(alloc);
    let mut left = number;
    for tile in 1..shape.cells() {
        let place = (left % MOST_GROUPS) as usize;
        left /= MOST_GROUPS;
        if place > groups.len() {
            return Some(Vec::new(alloc));
        }
        if place == groups.len() {
            groups.push(Vec::new(alloc)).ok()?;
        }
        groups.get_mut(place)?.push(tile as u8).ok()?;
    }
    Some(groups)
}

/// The bound by tables that are built for these groups, or None where they make no partition, or
/// memory was refused.
pub fn bound_of<R: Threads + Sync>(
    rt: &R,
    alloc: Global,
    goal: &Board,
    weights: &Weights,
    lists: &[&[u8]],
) -> Option<Bound>
    requires { weights.now.grid ≡ goal.now.grid }
    ensures { IfSome result (λ bound. Guides goal.now weights.now bound) }
{
    guide_of(rt, alloc, goal, weights, lists, false)
}

/// The same, folded where that is asked.
pub fn guide_of<R: Threads + Sync>(
    rt: &R,
    alloc: Global,
    goal: &Board,
    weights: &Weights,
    lists: &[&[u8]],
    fold: bool,
) -> Option<Bound>
    requires { weights.now.grid ≡ goal.now.grid }
    ensures { IfSome result (λ bound. Guides goal.now weights.now bound) }
{
    let shape = goal.shape();
    let groups = groups_of(alloc, shape, lists)?;
    let partition = Partition::new(shape, groups).ok()?;
    if fold {
        return build_folded_bound(rt, alloc, partition, goal, weights).ok();
    }
    build_bound(rt, alloc, partition, goal, weights).ok()
}
