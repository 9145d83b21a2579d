//! The tables of the groups where none are named.

ghost use Rattle.std.specs.Prelude.{◌≡◌, IfSome};

use batch_lines::default_groups;
use board::{Board, Shape, Weights};
use database_build::{Folded, Table};
use lower_bound::{Bound, TableList};
use std::alloc::Global;
use std::test::Fail;
use std::thread::Threads;
use table_sets::{build_bound, build_folded_bound};

// All values added, as a plain search by other means gave them. The tables of 3 by 3 are
// built one after the other, those of 3 by 4 have 1,330,692 views and are built side by side.
#[test]
fn values_of_all_views(rt: HostRuntime) -> Result<(), Fail> {
    let alloc = rt.alloc();
    let three = Shape::new(3, 3)?;
    let four = Shape::new(3, 4)?;
    let rows = [
        (Weights::unit(three), [147_308, 142_010, 0]),
        (Weights::face(three), [358_802, 909_974, 0]),
        (Weights::unit(four), [8_973_222, 8_391_306, 330]),
        (Weights::face(four), [25_659_994, 66_328_908, 3_630]),
    ];
    for (weights, wanted) in rows {
        assert_eq!(rt; sums_of_tables(&rt, alloc, &weights), Some(wanted));
    }
    Ok(())
}

// All values of each whole table of the default groups added. None where there are no such tables.
fn sums_of_tables<R: Threads + Sync>(rt: &R, alloc: Global, weights: &Weights) -> Option<[u64; 3]> {
    let shape = weights.shape();
    let groups = default_groups(alloc, shape).ok()?;
    let bound = build_bound(rt, alloc, groups, &Board::goal(shape), weights).ok()?;
    let TableList::Whole(tables) = bound.tables() else {
        return None;
    };
    let mut sums = [0; 3];
    for (sum, table) in sums.iter_mut().zip(tables) {
        *sum = sum_of_table(table);
    }
    Some(sums)
}

fn sum_of_table(table: &Table) -> u64 {
    let mut sum: u64 = 0;
    for rank in 0..table.group().size() {
        sum = sum.wrapping_add(u64::from(table.entry(rank)));
    }
    sum
}

fn sum_of_fold(fold: &Folded) -> u64 {
    let mut sum: u64 = 0;
    for place in 0..fold.size() {
        sum = sum.wrapping_add(u64::from(fold.entry(place)));
    }
    sum
}

// Whether two folded tables are of one group and have the same values.
fn are_alike(fold: &Folded, other: &Folded) -> bool {
    if fold.group() != other.group() || fold.size() != other.size() {
        return false;
    }
    for place in 0..fold.size() {
        if fold.entry(place) != other.entry(place) {
            return false;
        }
    }
    true
}

// The folded tables of a bound, where it holds such.
fn folded_tables(bound: &Bound) -> Option<&[Folded]> {
    match bound.tables() {
        TableList::Whole(_) => None,
        TableList::Folded(folds) => Some(folds),
    }
}

// Whether two bounds hold folded tables alone, of the same groups and with the same values.
fn are_folded_alike(one: &Bound, other: &Bound) -> bool {
    let (Some(folds), Some(others)) = (folded_tables(one), folded_tables(other)) else {
        return false;
    };
    for i in 0..one.partition().groups().len() {
        if one.table(i).is_some() {
            return false;
        }
    }
    folds.len() == others.len()
        && folds
            .iter()
            .zip(others)
            .all(|(fold, other)| are_alike(fold, other))
}

// What folded tables of the default groups say of a board, all values of each added, and whether
// those that are built whole and then folded are the same. None where memory was refused.
fn fold_groups<R: Threads + Sync>(
    rt: &R,
    alloc: Global,
    weights: &Weights,
    board: &Board,
) -> Option<(u32, [u64; 3], bool)>
    requires { weights.now.grid ≡ board.now.grid }
{
    let goal = Board::goal(board.shape());
    let folded = folded_at_once(rt, alloc, &goal, weights)?;
    let mut sums = [0; 3];
    for (sum, fold) in sums.iter_mut().zip(folded_tables(&folded)?) {
        *sum = sum_of_fold(fold);
    }
    let later = folded_later(rt, alloc, &goal, weights)?;
    let are_alike = are_folded_alike(&folded, &later);
    Some((folded.of(board), sums, are_alike))
}

// The bound by folded tables of the default groups.
fn folded_at_once<R: Threads + Sync>(
    rt: &R,
    alloc: Global,
    goal: &Board,
    weights: &Weights,
) -> Option<Bound>
    requires { weights.now.grid ≡ goal.now.grid }
    ensures { IfSome result (λ bound. bound.split.grid ≡ goal.now.grid) }
{
    let groups = default_groups(alloc, goal.shape()).ok()?;
    build_folded_bound(rt, alloc, groups, goal, weights).ok()
}

// The same, built whole and then folded.
fn folded_later<R: Threads + Sync>(
    rt: &R,
    alloc: Global,
    goal: &Board,
    weights: &Weights,
) -> Option<Bound>
    requires { weights.now.grid ≡ goal.now.grid }
{
    let groups = default_groups(alloc, goal.shape()).ok()?;
    let whole = build_bound(rt, alloc, groups, goal, weights).ok()?;
    whole.folded(alloc).ok()
}

// The sum of a board, and all folded values added, as a plain search by other means gave them.
#[test]
fn folded_tables_of_all_groups(rt: HostRuntime) -> Result<(), Fail> {
    let alloc = rt.alloc();
    let three = Shape::new(3, 3)?;
    let four = Shape::new(3, 4)?;
    let far = Board::from_tiles(three, &[8, 0, 6, 5, 4, 7, 2, 3, 1])?;
    let at_unit_cost = fold_groups(&rt, alloc, &Weights::unit(three), &far);
    assert_eq!(rt; at_unit_cost, Some((29, [28_440, 27_528, 0], true)));
    let at_face_cost = fold_groups(&rt, alloc, &Weights::face(three), &far);
    assert_eq!(rt; at_face_cost, Some((123, [68_998, 176_854, 0], true)));
    let side_by_side = fold_groups(&rt, alloc, &Weights::face(four), &Board::goal(four));
    assert_eq!(rt; side_by_side, Some((0, [3_592_944, 9_298_278, 330], true)));
    Ok(())
}
