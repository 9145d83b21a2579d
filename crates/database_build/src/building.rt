//! Tables are built by a search from the goal's view on.

ghost use Rattle.std.specs.Prelude.{◌≡◌, IfOk};
ghost use Rattle.database_build.specs.Tables.{HoldsValues};
ghost use Rattle.pattern_graph.specs.Frames.{FitsGroup};
ghost use Rattle.pattern_search.specs.Searches.{IsBuildTask};
ghost use Rattle.database_build.specs.Folds.{IsTrueFold};

use crate::entries::{keep_least, keep_values};
use crate::folding::Folded;
use crate::least::fold_nodes;
use crate::table::Table;
use board::{Board, Weights};
use memory::OutOfMemory;
use pattern_graph::Frame;
use pattern_index::Group;
use pattern_search::find_values;
use std::alloc::Global;

/// The table of the value of each view of the group for this goal. A value is the smaller of
/// `NO_VALUE` and the least cost of a view plan to the goal's view (Korf, Felner 2002). Values are
/// kept by rank where the group has more than 2^25 slots; else by slot, as bytes if all of them
/// fit. The error is `OutOfMemory`.
pub fn build(
    alloc: Global,
    group: &Group,
    goal: &Board,
    weights: &Weights,
) -> Result<Table, OutOfMemory>
    requires grid { goal.now.grid ≡ group.now.grid }
    requires weights { weights.now.grid ≡ group.now.grid }
    ensures group { IfOk result (λ t. t.selection ≡ group.now) }
    ensures values { IfOk result (λ t. HoldsValues t weights.now goal.now) }
{
    let frame = Frame::new(alloc, group)?;
    build_of(alloc, frame, group, goal, weights)
}

/// The same, in a frame that is made already.
pub fn build_in(
    alloc: Global,
    frame: &Frame,
    group: &Group,
    goal: &Board,
    weights: &Weights,
) -> Result<Table, OutOfMemory>
    requires fits { FitsGroup frame.now group.now }
    requires grid { goal.now.grid ≡ group.now.grid }
    requires weights { weights.now.grid ≡ group.now.grid }
    ensures group { IfOk result (λ t. t.selection ≡ group.now) }
    ensures values { IfOk result (λ t. HoldsValues t weights.now goal.now) }
{
    let frame = frame.copy(alloc)?;
    build_of(alloc, frame, group, goal, weights)
}

// The same, in a frame of its own.
#[tactic(auto, using(crate::proofs::EntryLemmas::table_built))]
fn build_of(
    alloc: Global,
    frame: Frame,
    group: &Group,
    goal: &Board,
    weights: &Weights,
) -> Result<Table, OutOfMemory>
    requires { IsBuildTask frame group.now goal.now weights.now }
    ensures group { IfOk result (λ t. t.selection ≡ group.now) }
    ensures values { IfOk result (λ t. HoldsValues t weights.now goal.now) }
{
    let found = find_values(alloc, frame, group, goal, weights)?;
    let entries = keep_values(alloc, group, &found.regions, &found.values)?;
    Ok(Table::of_group(group, entries))
}

/// That table, folded (`fold`), without the whole one: the values of nodes are folded at once.
pub fn build_folded(
    alloc: Global,
    group: &Group,
    goal: &Board,
    weights: &Weights,
) -> Result<Folded, OutOfMemory>
    requires grid { goal.now.grid ≡ group.now.grid }
    requires weights { weights.now.grid ≡ group.now.grid }
    ensures group { IfOk result (λ fold. fold.selection ≡ group.now) }
    ensures values { IfOk result (IsTrueFold weights.now goal.now) }
{
    let frame = Frame::new(alloc, group)?;
    fold_of(alloc, frame, group, goal, weights)
}

/// The same, in a frame that is made already.
pub fn build_folded_in(
    alloc: Global,
    frame: &Frame,
    group: &Group,
    goal: &Board,
    weights: &Weights,
) -> Result<Folded, OutOfMemory>
    requires fits { FitsGroup frame.now group.now }
    requires grid { goal.now.grid ≡ group.now.grid }
    requires weights { weights.now.grid ≡ group.now.grid }
    ensures group { IfOk result (λ fold. fold.selection ≡ group.now) }
    ensures values { IfOk result (IsTrueFold weights.now goal.now) }
{
    let frame = frame.copy(alloc)?;
    fold_of(alloc, frame, group, goal, weights)
}

// The same, in a frame of its own.
fn fold_of(
    alloc: Global,
    frame: Frame,
    group: &Group,
    goal: &Board,
    weights: &Weights,
) -> Result<Folded, OutOfMemory>
    requires { IsBuildTask frame group.now goal.now weights.now }
    ensures group { IfOk result (λ fold. fold.selection ≡ group.now) }
    ensures values { IfOk result (IsTrueFold weights.now goal.now) }
{
    let found = find_values(alloc, frame, group, goal, weights)?;
    let least = fold_nodes(alloc, group, &found.regions, &found.values)?;
    let entries = keep_least(alloc, group, &least)?;
    Ok(Folded::of_group(group, entries))
}
