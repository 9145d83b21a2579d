//! What tables say before a tile goes to the blank's cell, and after it.

ghost use Rattle.std.specs.Prelude.{◌≡◌, ◌-◌, ◌+◌, ◌*◌, ◌<◌, ◌≤◌, length, sum_by, All, IfSome};
ghost use Rattle.std.specs.Prelude.{IfNone};
ghost use Rattle.pattern_index.specs.Views.{view_at, exchanged};
ghost use Rattle.database_build.specs.Tables.{value_in};
ghost use Rattle.lower_bound.specs.Folded.{value_by};
ghost use Rattle.lower_bound.specs.Slides.{IsUntold, SeesBoth, SeesView};

use crate::bound::GREATEST_SUM;
use database_build::{Folded, NO_VALUE, Table};
use pattern_index::exchange;

// Adds what tables say of a board, by the cell of each number.
pub(crate) fn sum_whole(tables: &[Table], cells: &[u8; 25]) -> u32
    requires few { length tables.now ≤ 24 }
    requires views { All (λ table. SeesView cells.now table.selection) tables.now }
    ensures value { result
        ≡ sum_by (λ table. value_in table (view_at table.selection.tiles cells.now)) tables.now }
    ensures high { result ≤ NO_VALUE * length tables.now }
{
    let mut sum = 0;
    'tables: for table in tables {
        sum += u32::from(table.value_at(cells));
    }
    sum
}

// Adds what folded tables say of a board, by the cell of each number.
pub(crate) fn sum_folded(folds: &[Folded], cells: &[u8; 25]) -> u32
    requires few { length folds.now ≤ 24 }
    requires views { All (λ fold. SeesView cells.now fold.selection) folds.now }
    ensures value { result ≡ sum_by (value_by cells.now) folds.now }
    ensures high { result ≤ NO_VALUE * length folds.now }
{
    let mut sum = 0;
    'tables: for fold in folds {
        sum += u32::from(fold.value_at(cells));
    }
    sum
}

// A sum that includes a table's value, with that value replaced by the one after a slide.
pub(crate) fn whole_after(table: &Table, sum: u32, cells: &[u8; 25], tile: u8) -> u32
    requires views { SeesBoth cells.now tile table.now.selection }
    requires sum { value_in table.now (view_at table.now.selection.tiles cells.now) ≤ sum }
    requires low { sum ≤ GREATEST_SUM }
    ensures value { result
        ≡ sum - value_in table.now (view_at table.now.selection.tiles cells.now)
        + value_in table.now (view_at table.now.selection.tiles (exchanged cells.now tile)) }
    ensures high { result ≤ sum + NO_VALUE }
{
    let (was, is) = table.values_at(cells, tile);
    sum - u32::from(was) + u32::from(is)
}

// The same of a folded table.
pub(crate) fn folded_after(fold: &Folded, sum: u32, cells: &[u8; 25], tile: u8) -> u32
    requires views { SeesBoth cells.now tile fold.now.selection }
    requires sum { value_by cells.now fold.now ≤ sum }
    requires low { sum ≤ GREATEST_SUM }
    ensures value { result ≡ sum - value_by cells.now fold.now
        + value_by (exchanged cells.now tile) fold.now }
    ensures high { result ≤ sum + NO_VALUE }
{
    let (was, is) = match told_values(fold, cells, tile) {
        Some(told) => told,
        None => read_values(fold, cells, tile),
    };
    sum - u32::from(was) + u32::from(is)
}

// What a folded table says before a slide and after it, each found with one read. None where one is
// `NO_VALUE`, or where the table has too many sparse places.
fn told_values(fold: &Folded, cells: &[u8; 25], tile: u8) -> Option<(u16, u16)>
    requires { SeesBoth cells.now tile fold.now.selection }
    ensures some { IfSome result
        (λ told. told ≡ (value_by cells.now fold.now, value_by (exchanged cells.now tile) fold.now)) }
    ensures high { IfSome result (λ told. told.1 ≤ NO_VALUE) }
    ensures none { IfNone result (IsUntold cells.now (exchanged cells.now tile) fold.now) }
{
    let before = fold.group().sparse_place_at(cells);
    let Some(was) = fold.sparse_value(before) else {
        return None;
    };
    let stride = fold.stride(tile);
    let after = before + cells[0] as usize * stride - cells[tile as usize] as usize * stride;
    let Some(is) = fold.sparse_value(after) else {
        return None;
    };
    Some((was, is))
}

// The same, always.
fn read_values(fold: &Folded, cells: &[u8; 25], tile: u8) -> (u16, u16)
    requires { SeesBoth cells.now tile fold.now.selection }
    ensures value { result
        ≡ (value_by cells.now fold.now, value_by (exchanged cells.now tile) fold.now) }
    ensures high { result.1 ≤ NO_VALUE }
{
    let mut after = *cells;
    exchange(&mut after, tile);
    (fold.value_at(cells), fold.value_at(&after))
}
