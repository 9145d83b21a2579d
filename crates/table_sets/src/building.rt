//! Tables are built, group by group or side by side, and are kept whole or folded.

ghost use Rattle.std.specs.Prelude.{◌≡◌, ◌<◌, ◌≤◌, All, length, sum_by, IfOk, IsSome};
ghost use Rattle.std.specs.Prelude.{MatchOption, map, Some, Ok};
ghost use Rattle.pattern_index.specs.Groups.{size_of};
ghost use Rattle.lower_bound.specs.Tables.{ArePotentials};
ghost use Rattle.table_sets.specs.Built.{AreBuilt, AreBuiltFolded, AreEach, IsEachAt, FitAll};

use crate::group_tables::{GroupTable, shared_frames};
use board::{Board, Weights};
use database_build::{Folded, Table};
use lower_bound::Bound;
use memory::{OutOfMemory, push, with_capacity};
use pattern_index::{Group, Partition};
use rayon::prelude::*;
use std::alloc::Global;
use std::thread::Threads;

/// From this number of views on, tables are built by several threads. Fewer views take too little
/// time to pay for the threads and for the memory of several searches at once.
const PARALLEL_VIEWS: usize = 1_000_000;

/// Where a thread leaves what it built, or that memory was refused for it. None before.
type Place<T> = Option<Result<T, OutOfMemory>>;

/// The bound of these groups by tables that are built for this goal and these weights: a table for
/// each group, in the order of the groups, with the value of each of its views. So its sums are
/// admissible.
///
/// Where the groups have a million views or more in all, the tables are built side by side, by as
/// many threads as there are processors, else one after the other. They are the same either way.
/// An error is answered only where memory was refused for one of them.
pub fn build_bound(
    rt: &(impl Threads + Sync),
    alloc: Global,
    groups: Partition,
    goal: &Board,
    weights: &Weights,
) -> Result<Bound, OutOfMemory>
    requires goal { goal.now.grid ≡ groups.grid }
    requires weights { weights.now.grid ≡ groups.grid }
    ensures built { IfOk result (AreBuilt groups weights.now goal.now) }
    ensures potentials { IfOk result (ArePotentials weights.now goal.now) }
{
    // The clauses of these calls say what holds of every partition and of every board.
    let _ = groups.shape();
    let _ = goal.shape();
    let tables: Vec<Table> = build_each(rt, alloc, groups.groups(), goal, weights)?;
    Ok(Bound::new(groups, tables).unwrap())
}

/// The same bound, folded: for each group, in their order, a folded table, folded from the table
/// with the value of each of the group's views. So its sums are admissible, though they are not
/// consistent.
///
/// No whole table is made. Besides the folded ones there is what the search of a group needs, for
/// each thread.
pub fn build_folded_bound(
    rt: &(impl Threads + Sync),
    alloc: Global,
    groups: Partition,
    goal: &Board,
    weights: &Weights,
) -> Result<Bound, OutOfMemory>
    requires goal { goal.now.grid ≡ groups.grid }
    requires weights { weights.now.grid ≡ groups.grid }
    ensures built { IfOk result (AreBuiltFolded groups weights.now goal.now) }
    ensures potentials { IfOk result (ArePotentials weights.now goal.now) }
{
    let _ = groups.shape();
    let _ = goal.shape();
    let folds: Vec<Folded> = build_each(rt, alloc, groups.groups(), goal, weights)?;
    Ok(Bound::of_folded(groups, folds).unwrap())
}

// A table for each of these groups, in their order.
fn build_each<T: GroupTable + Send>(
    rt: &(impl Threads + Sync),
    alloc: Global,
    groups: &[Group],
    goal: &Board,
    weights: &Weights,
) -> Result<Vec<T>, OutOfMemory>
    requires few { length groups.now ≤ 24 }
    requires fit { FitAll groups.now weights.now goal.now }
    ensures { IfOk result
        (λ tables. AreEach (T.is_true weights.now goal.now) groups.now tables.items) }
{
    if count_views(groups) < PARALLEL_VIEWS {
        return build_one_after_the_other(alloc, groups, goal, weights);
    }
    build_side_by_side(rt, alloc, groups, goal, weights)
}

// How many views the groups have in all.
fn count_views(groups: &[Group]) -> usize
    requires { length groups.now ≤ 24 }
    ensures { result ≡ sum_by size_of groups.now }
{
    let mut views = 0;
    'groups: for group in groups {
        views += group.size();
    }
    views
}

// The tables, built by this thread.
fn build_one_after_the_other<T: GroupTable>(
    alloc: Global,
    groups: &[Group],
    goal: &Board,
    weights: &Weights,
) -> Result<Vec<T>, OutOfMemory>
    requires { FitAll groups.now weights.now goal.now }
    ensures { IfOk result
        (λ tables. AreEach (T.is_true weights.now goal.now) groups.now tables.items) }
{
    let frames = shared_frames(alloc, groups)?;
    let mut tables = Vec::new(alloc);
    'groups: for group in groups {
        let table = T::build_for(alloc, &frames, group, goal, weights)?;
        push(&mut tables, table)?;
    }
    Ok(tables)
}

// The tables, built by a thread for each processor, or for each group where these are fewer.
fn build_side_by_side<T: GroupTable + Send>(
    rt: &(impl Threads + Sync),
    alloc: Global,
    groups: &[Group],
    goal: &Board,
    weights: &Weights,
) -> Result<Vec<T>, OutOfMemory>
    requires few { length groups.now ≤ 24 }
    requires fit { FitAll groups.now weights.now goal.now }
    ensures { IfOk result
        (λ tables. AreEach (T.is_true weights.now goal.now) groups.now tables.items) }
{
    let frames = shared_frames(alloc, groups)?;
    let mut places = empty_places(alloc, groups.len())?;
    par_for_each_mut(
        rt,
        places.as_mut_slice(),
        |i: usize, place: &mut Place<T>|
            requires within { i < length groups.now }
            requires fit { FitAll groups.now weights.now goal.now }
            ensures { MatchOption place.new ⊥ (λ built. IfOk built
                (IsEachAt (T.is_true weights.entry.now goal.entry.now) groups.entry.now i)) }
        {
            *place = Some(T::build_for(alloc, &frames, &groups[i], goal, weights));
        },
    );
    take_tables(alloc, places)
}

// This many places where nothing is built yet.
fn empty_places<T: Drop>(alloc: Global, count: usize) -> Result<Vec<Place<T>>, OutOfMemory>
    requires { count ≤ 24 }
    ensures { IfOk result (λ places. length places.items ≡ count) }
{
    let mut places = with_capacity(alloc, count)?;
    'places: for _ in 0..count {
        push(&mut places, None)?;
    }
    Ok(places)
}

// The tables that were built at their places, or that memory was refused for one.
fn take_tables<T: Drop>(alloc: Global, places: Vec<Place<T>>) -> Result<Vec<T>, OutOfMemory>
    requires { All IsSome places.items }
    ensures { IfOk result (λ tables. places.items ≡ map (λ table. Some (Ok table)) tables.items) }
{
    let mut tables = Vec::new(alloc);
    'places: for place in places {
        let table = place.unwrap()?;
        push(&mut tables, table)?;
    }
    Ok(tables)
}
