//! Tables that are built and folded, and partitions that are copied.

use super::{Answer, whole_if};
use batch_runs::Setup;
use board::{Board, Shape, Weights};
use database_build::{Folded, NO_VALUE, Table, build, fold};
use lower_bound::{Bound, TableList};
use memory::{copy_of, push};
use pattern_index::{Group, Partition};
use std::alloc::Global;
use std::thread::Threads;
use table_sets::{build_bound, build_folded_bound};

// The values of tile 3 of 2 by 2 at face cost, by rank.
static TILE_THREE: [u16; 12] = [3, 3, 0, 6, 3, 0, 6, 3, 0, 6, 3, 3];

// The same of tiles 1 and 2.
static TILES_ONE_AND_TWO: [u16; 24] = [
    0, NO_VALUE, NO_VALUE, 4, 5, NO_VALUE, 1, NO_VALUE, NO_VALUE, 4, 3, NO_VALUE, NO_VALUE, 3, 2,
    NO_VALUE, NO_VALUE, 5, NO_VALUE, 1, 2, NO_VALUE, NO_VALUE, 6,
];

/// Makes the call of this name, or answers None where it is none of these.
pub fn call(rt: &(impl Threads + AllocGlobal + Sync), name: &str) -> Option<Answer> {
    match name {
        "partition" => Some(copy_partition(rt.alloc())),
        "table" => Some(build_tables(rt.alloc())),
        "fold" => Some(fold_table(rt.alloc())),
        "fold-bound" => Some(fold_bound(rt.alloc())),
        "fold-setup" => Some(fold_setup(rt)),
        "folded" => Some(build_folds(rt)),
        _ => None,
    }
}

// Builds two tables of 2 by 2 at face cost: that of tile 3, and that of tiles 1 and 2, whose
// weights differ.
fn build_tables(alloc: Global) -> Answer {
    match build_table(alloc, &[3], TILE_THREE.as_slice()) {
        Answer::Whole => build_table(alloc, &[1, 2], TILES_ONE_AND_TWO.as_slice()),
        other => other,
    }
}

// Builds the table of these tiles of 2 by 2 at face cost, which has these values.
fn build_table(alloc: Global, tiles: &[u8], values: &[u16]) -> Answer {
    match Group::new(Shape::new(2, 2).unwrap(), tiles) {
        Ok(group) => build_of(alloc, &group, values),
        Err(_) => Answer::Wrong("no group"),
    }
}

// Builds the table of this group.
fn build_of(alloc: Global, group: &Group, values: &[u16]) -> Answer {
    let goal = Board::goal(group.shape());
    match build(alloc, group, &goal, &Weights::face(group.shape())) {
        Ok(table) => whole_if(has_values(&table, values), "other values"),
        Err(_) => Answer::Refused,
    }
}

// Whether a table has these values, by rank.
fn has_values(table: &Table, values: &[u16]) -> bool {
    if values.len() != table.group().size() {
        return false;
    }
    for rank in 0..values.len() {
        if table.entry(rank) != values[rank] {
            return false;
        }
    }
    true
}

// Whether a folded table has these values, by the places of its tiles.
fn has_folds(folded: &Folded, values: &[u16]) -> bool {
    if values.len() != folded.size() {
        return false;
    }
    for place in 0..values.len() {
        if folded.entry(place) != values[place] {
            return false;
        }
    }
    true
}

// Folds a table of tile 1 of 2 by 2. Where its values find no memory, there is none to fold.
fn fold_table(alloc: Global) -> Answer {
    match table_of_one(alloc) {
        Ok(table) => fold_it(alloc, table),
        Err(answer) => answer,
    }
}

fn fold_it(alloc: Global, table: Table) -> Answer {
    match fold(alloc, table) {
        Ok(folded) => whole_if(has_folds(&folded, &[3, 0, 2, 1]), "other folded values"),
        Err(_) => Answer::Refused,
    }
}

// The table of tile 1, or what is answered where there is none.
fn table_of_one(alloc: Global) -> Result<Table, Answer> {
    let Ok(group) = Group::new(Shape::new(2, 2).unwrap(), &[1]) else {
        return Err(Answer::Wrong("no group"));
    };
    let Ok(values) = copy_of(alloc, &[9, 2, 7, 6, 5, 4, 3, 8, 1, 12, 0, 10]) else {
        return Err(Answer::Refused);
    };
    match Table::from_values(&group, values) {
        Ok(table) => Ok(table),
        Err(_) => Err(Answer::Wrong("no table")),
    }
}

// Copies a partition of one group. Where the list of its groups finds no memory, there is none to
// copy.
fn copy_partition(alloc: Global) -> Answer {
    match partition_of_one(alloc) {
        Ok(partition) => copy_it(alloc, &partition),
        Err(answer) => answer,
    }
}

fn copy_it(alloc: Global, partition: &Partition) -> Answer {
    match partition.copy(alloc) {
        Ok(copy) => whole_if(copy.groups() == partition.groups(), "other groups"),
        Err(_) => Answer::Refused,
    }
}

// The partition of tile 3 of 2 by 2, or what is answered where there is none.
fn partition_of_one(alloc: Global) -> Result<Partition, Answer> {
    let shape = Shape::new(2, 2).unwrap();
    let Ok(group) = Group::new(shape, &[3]) else {
        return Err(Answer::Wrong("no group"));
    };
    let mut groups = Vec::new(alloc);
    if groups.push(group).is_err() {
        return Err(Answer::Refused);
    }
    match Partition::new(shape, groups) {
        Ok(partition) => Ok(partition),
        Err(_) => Err(Answer::Wrong("no partition")),
    }
}

// Builds folded tables of tiles 1 and 3 of 2 by 2, each a group of its own, at face cost.
fn build_folds(rt: &(impl Threads + AllocGlobal + Sync)) -> Answer {
    match singles_of(rt.alloc()) {
        Some(groups) => build_folds_of(rt, groups),
        None => Answer::Refused,
    }
}

// Builds the folded tables of these groups.
fn build_folds_of(rt: &(impl Threads + AllocGlobal + Sync), groups: Partition) -> Answer {
    let shape = groups.shape();
    match build_folded_bound(
        rt,
        rt.alloc(),
        groups,
        &Board::goal(shape),
        &Weights::face(shape),
    ) {
        Ok(bound) => whole_if(holds_folds_of_singles(&bound), "other folded tables"),
        Err(_) => Answer::Refused,
    }
}

// Folds the tables of a bound, those of tiles 1 and 3 of 2 by 2 at face cost. Where they find no
// memory, there are none to fold.
fn fold_bound(alloc: Global) -> Answer {
    let Some(bound) = bound_of_singles(alloc) else {
        return Answer::Refused;
    };
    match bound.folded(alloc) {
        Ok(folded) => whole_if(holds_folds_of_singles(&folded), "other folded tables"),
        Err(_) => Answer::Refused,
    }
}

// Folds the tables of a setup, those of the same tiles. Where they find no memory, there are none
// to fold.
fn fold_setup(rt: &(impl Threads + AllocGlobal + Sync)) -> Answer {
    match setup_of_singles(rt) {
        Some(setup) => fold_its_tables(rt.alloc(), setup),
        None => Answer::Refused,
    }
}

fn fold_its_tables(alloc: Global, setup: Setup) -> Answer {
    match setup.folded(alloc) {
        Ok(folded) => whole_if(
            holds_folds_of_singles(folded.tables()),
            "other folded tables",
        ),
        Err(_) => Answer::Refused,
    }
}

// The setup of these tables for face cost, or None where they find no memory.
fn setup_of_singles(rt: &(impl Threads + AllocGlobal + Sync)) -> Option<Setup> {
    setup_of(rt, singles_of(rt.alloc())?)
}

// The setup of the tables of these groups for face cost, or None where they find no memory.
fn setup_of(rt: &(impl Threads + AllocGlobal + Sync), groups: Partition) -> Option<Setup> {
    let goal = Board::goal(groups.shape());
    let weights = Weights::face(groups.shape());
    match build_bound(rt, rt.alloc(), groups, &goal, &weights) {
        Ok(bound) => Some(Setup::new(rt.alloc(), goal, weights).bound(bound)),
        Err(_) => None,
    }
}

// The groups of tiles 1 and 3 of 2 by 2, or None where they find no memory.
fn singles_of(alloc: Global) -> Option<Partition> {
    let shape = Shape::new(2, 2).unwrap();
    let first = Group::new(shape, &[1]).ok()?;
    let second = Group::new(shape, &[3]).ok()?;
    let groups = copy_of(alloc, &[first, second]).ok()?;
    Partition::new(shape, groups).ok()
}

// The bound of these groups by whole tables for face cost, or None where they find no memory.
fn bound_of_singles(alloc: Global) -> Option<Bound> {
    let partition = singles_of(alloc)?;
    let tables = tables_of(alloc, &partition)?;
    Bound::new(partition, tables).ok()
}

// The tables of a partition's groups for face cost, or None where they find no memory.
fn tables_of(alloc: Global, partition: &Partition) -> Option<Vec<Table>> {
    let mut tables = Vec::new(alloc);
    for group in partition.groups() {
        if !push_table(alloc, &mut tables, group) {
            return None;
        }
    }
    Some(tables)
}

// Builds a group's table, and answers whether it found memory.
fn push_table(alloc: Global, tables: &mut Vec<Table>, group: &Group) -> bool {
    let goal = Board::goal(group.shape());
    match build(alloc, group, &goal, &Weights::face(group.shape())) {
        Ok(table) => push(tables, table).is_ok(),
        Err(_) => false,
    }
}

// Whether a bound has the folded tables of tiles 1 and 3 for face cost.
fn holds_folds_of_singles(bound: &Bound) -> bool {
    match bound.tables() {
        TableList::Whole(_) => false,
        TableList::Folded(folds) => {
            folds.len() == 2
                && has_folds(&folds[0], &[1, 0, 2, 1])
                && has_folds(&folds[1], &[6, 3, 3, 0])
        }
    }
}
