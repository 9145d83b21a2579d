//! The test for a potential.

ghost use Rattle.std.specs.Prelude.{◌≡◌, ◌↔◌, ◌<◌, IsTrue};
ghost use Rattle.pattern_index.specs.Views.{IsView, view_of};
ghost use Rattle.pattern_index.specs.Groups.{size_of, abstraction_of, view_successor};
ghost use Rattle.database_build.specs.Tables.{value_in, IsPotential, FallsTo, FallsSlowlyAt};

use crate::table::Table;
use board::{Board, Move, Weights};
use pattern_index::{Group, View};

/// Whether the table is one of this group, and its values are a potential: the goal's view has 0,
/// and no view move lowers the value by more than its cost. Such a heuristic is called consistent.
pub fn is_potential(table: &Table, group: &Group, goal: &Board, weights: &Weights) -> bool
    requires grid { goal.now.grid ≡ group.now.grid }
    requires weights { weights.now.grid ≡ group.now.grid }
    ensures { IsTrue result ↔ (table.now.selection ≡ group.now)
        × IsPotential weights.now group.now.tiles goal.now (value_in table.now) }
{
    if table.group() != group {
        return false;
    }
    falls_home(table, goal, weights)
}

// Whether the values of a table are a potential.
fn falls_home(table: &Table, goal: &Board, weights: &Weights) -> bool
    requires grid { goal.now.grid ≡ table.now.selection.grid }
    requires weights { weights.now.grid ≡ table.now.selection.grid }
    ensures { IsTrue result
        ↔ IsPotential weights.now table.now.selection.tiles goal.now (value_in table.now) }
{
    if !is_zero_at_goal(table, goal) {
        return false;
    }
    let size = table.group().size();
    for rank in 0..size {
        if !falls_slowly(table, weights, rank) {
            return false;
        }
    }
    true
}

// Whether the goal's view has 0.
fn is_zero_at_goal(table: &Table, goal: &Board) -> bool
    requires { goal.now.grid ≡ table.now.selection.grid }
    ensures { IsTrue result
        ↔ (value_in table.now (view_of table.now.selection.tiles goal.now) ≡ 0) }
{
    let view = table.group().view(goal);
    table.value(&view) == 0
}

// Whether no move from the view of a rank lowers its value by more than it costs.
fn falls_slowly(table: &Table, weights: &Weights, rank: usize) -> bool
    requires weights { weights.now.grid ≡ table.now.selection.grid }
    requires inside { rank < size_of table.now.selection }
    ensures { IsTrue result ↔ FallsSlowlyAt table.now weights.now rank }
{
    let view = table.group().unrank(rank);
    let value = table.value(&view);
    'moves: for direction in Move::ALL {
        if !falls_to(table, weights, &view, value, direction) {
            return false;
        }
    }
    true
}

// Whether a value is no more than the cost of a move and the value that it leads to.
fn falls_to(table: &Table, weights: &Weights, view: &View, value: u16, direction: Move) -> bool
    requires weights { weights.now.grid ≡ table.now.selection.grid }
    requires view { IsView table.now.selection.grid table.now.selection.tiles view.now }
    ensures { IsTrue result ↔ FallsTo table.now value
        (view_successor (abstraction_of table.now.selection weights.now) view.now direction) }
{
    let Some(moved) = table.group().step(view, direction, weights) else {
        return true;
    };
    value as u32 <= moved.1 + table.value(&moved.0) as u32
}
