//! The least value of each placement of a group's tiles: by their set of cells, and then by their
//! order.

ghost use Rattle.std.specs.Prelude.{ℕ, List, ◌≡◌, ◌≢◌, ◌<◌, AllPairs, IfOk, OnOk};
ghost use Rattle.std.specs.Prelude.{length, map, min, replicate, slice_index};
ghost use Rattle.pattern_index.specs.Laws.{factorial};
ghost use Rattle.pattern_index.specs.Groups.{IsGroup};
ghost use Rattle.pattern_index.specs.Views.{ViewModel, IsView};
ghost use Rattle.database_build.specs.Folds.{IsFoldedValue, AreLeastAdded, IsLeastNode};
ghost use Rattle.database_build.specs.Folds.{AreLeastNodes, AreLeastOf};
ghost use Rattle.pattern_graph.specs.Orders.{order_of, AreIndices};
ghost use Rattle.pattern_graph.specs.Placements.{AreMarkedCells, AreSetOrders, AreNodesWith};
ghost use Rattle.pattern_graph.specs.Regions.{IsPlaced};
ghost use Rattle.pattern_graph.specs.Sets.{set_place};
ghost use Rattle.pattern_graph.specs.Graphs.{AreNodesOf};

use crate::table::Table;
use memory::{OutOfMemory, filled, push, with_capacity};
use pattern_graph::{Choices, Regions, factorial, find_positions, mark_cells, place_tiles};
use pattern_index::Group;
use pattern_search::NO_VALUE;
use std::alloc::Global;

// The least value of the nodes of each placement.
pub(crate) fn fold_nodes(
    alloc: Global,
    group: &Group,
    regions: &Regions,
    nodes: &[u16],
) -> Result<Vec<u16>, OutOfMemory>
    requires nodes { AreNodesOf group.now.grid (length group.now.tiles) regions.now nodes.now }
    ensures { IfOk result (λ least. AreLeastNodes regions.now nodes.now least.items) }
{
    let sets = regions.choices.count(regions.shape.cells(), regions.count);
    let orders = factorial(regions.count);
    let mut least = filled(alloc, NO_VALUE, group.folded_size())?;
    'sets: for set in 0..sets {
        lower_set(
            regions,
            set,
            nodes,
            &mut least[set * orders..set * orders + orders],
        );
    }
    Ok(least)
}

// Lowers the values of a set's placements, by order, to those of its nodes.
fn lower_set(regions: &Regions, set: usize, nodes: &[u16], row: &mut [u16])
    requires nodes { AreNodesWith set regions.now nodes.now }
    requires row { row.old ≡ replicate (factorial regions.now.count) NO_VALUE }
    ensures size { length row.new ≡ factorial regions.now.count }
    ensures least { (cells : List ℕ) → IsPlaced regions.now.shape regions.now.count cells
        → set_place cells ≡ set
        → IsLeastNode regions.now nodes.now cells (slice_index row.new (order_of cells)) }
{
    let cells = regions.shape.cells();
    let count = regions.count;
    let mut list = [0; 9];
    regions.choices.write_set(cells, set, &mut list[..count]);
    let marks = mark_cells(&list[..count]);
    let orders = row.len();
    'blanks: for blank in 0..cells {
        if marks[blank] {
            continue;
        }
        let first = regions.numbers[set * cells + blank] as usize * orders;
        lower_row(&nodes[first..first + orders], row);
    }
}

// Lowers values to others where they are more.
fn lower_row(others: &[u16], row: &mut [u16])
    requires { length others.now ≡ length row.old }
    ensures size { length row.new ≡ length row.old }
    ensures values { (place : ℕ) → place < length row.old
        → slice_index row.new place
        ≡ min (slice_index row.old place) (slice_index others.now place) }
{
    'places: for place in 0..row.len() {
        row[place] = row[place].min(others[place]);
    }
}

// The least value that a table has of each placement.
pub(crate) fn fold_table(alloc: Global, table: &Table) -> Result<Vec<u16>, OutOfMemory>
    ensures { IfOk result (λ least. AreLeastOf table.now least.items) }
{
    let choices = Choices::new();
    let group = table.group();
    let cells = group.shape().cells();
    let count = group.tiles().len();
    let positions = find_positions(alloc, count)?;
    let mut least = with_capacity(alloc, group.folded_size())?;
    'sets: for set in 0..choices.count(cells, count) {
        let mut list = [0; 9];
        choices.write_set(cells, set, &mut list[..count]);
        add_orders(table, &list[..count], &positions, &mut least)?;
    }
    Ok(least)
}

// Puts the least values of the placements of tiles on these cells at the end, by their orders.
fn add_orders(
    table: &Table,
    cells: &[u8],
    positions: &[u8],
    least: &mut Vec<u16>,
) -> Result<(), OutOfMemory>
    requires group { IsGroup table.now.selection }
    requires cells { AreSetOrders table.now.selection cells.now positions.now }
    ensures { OnOk result (AreLeastAdded table.now cells.now least.old.items least.new.items) }
{
    let count = cells.len();
    let marks = mark_cells(cells);
    'orders: for order in 0..factorial(count) {
        let mut placed = [0; 9];
        place_tiles(
            cells,
            &positions[order * count..order * count + count],
            &mut placed[..count],
        );
        push(least, least_value(table, &placed[..count], &marks))?;
    }
    Ok(())
}

// The least value that a table has of the views with the tiles on these cells, wherever the blank
// is.
fn least_value(table: &Table, cells: &[u8], marks: &[bool; 25]) -> u16
    requires { AreMarkedCells table.now.selection.grid (length table.now.selection.tiles) cells.now
        marks.now }
    ensures { (v : ViewModel) → IsView table.now.selection.grid table.now.selection.tiles v
        → v.cells ≡ cells.now → IsFoldedValue table.now v result }
{
    let mut numbers = [0; 25];
    put_cells(table.group().tiles(), cells, &mut numbers);
    let mut least = NO_VALUE;
    'blanks: for blank in 0..table.group().shape().cells() {
        if marks[blank] {
            continue;
        }
        numbers[0] = blank as u8;
        least = least.min(table.value_at(&numbers));
    }
    least
}

// Writes the cell of each tile.
fn put_cells(tiles: &[u8], cells: &[u8], numbers: &mut [u8; 25])
    requires tiles { AreIndices 25 tiles.now cells.now }
    requires different { AllPairs (λ x y. x ≢ y) tiles.now }
    ensures { map (slice_index numbers.new) tiles.now ≡ cells.now }
{
    'tiles: for place in 0..tiles.len() {
        numbers[tiles[place] as usize] = cells[place];
    }
}
