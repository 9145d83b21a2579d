//! Values of views, by slot.

ghost use Rattle.std.specs.Prelude.{suc, ◌≡◌, ◌+◌, ◌≤◌, ◌^◌, ◌++◌, IfOk, OnOk, length, map};
ghost use Rattle.std.specs.Prelude.{slice_index};
ghost use Rattle.pattern_index.specs.Laws.{factorial};
ghost use Rattle.pattern_index.specs.Sparse.{digit_base, sparse_size_of};
ghost use Rattle.pattern_graph.specs.Orders.{IsOrderOf, order_of, positions_at, AreIndices};
ghost use Rattle.pattern_graph.specs.Placements.{AreMarkedCells, IsOnePerPlacement, AreAllWritten};
ghost use Rattle.pattern_graph.specs.Placements.{AreWritten};
ghost use Rattle.pattern_graph.specs.Placements.{AreOrdersFilled, ArePositions, AreSetOrders};
ghost use Rattle.pattern_graph.specs.Placements.{AreAllFilled};
ghost use Rattle.pattern_graph.specs.Placements.{AreSetsFilled, AreNodesWith};
ghost use Rattle.pattern_graph.specs.Sets.{set_place};
ghost use Rattle.pattern_graph.specs.Graphs.{AreNodesOf};

use crate::orders::{factorial, write_positions};
use crate::regions::Regions;
use crate::rows::mark_cells;
use crate::sets::Choices;
use memory::{OutOfMemory, push};
use pattern_index::{Group, digit_base, sparse_place};
use std::alloc::Global;

/// The positions of all tiles in each order of `count` tiles, 0 to 9. A tile's position is the
/// number of tiles on smaller cells. There are `count` for each order, one order after another. The
/// error is `OutOfMemory`.
pub fn find_positions(alloc: Global, count: usize) -> Result<Vec<u8>, OutOfMemory>
    requires { count ≤ 9 }
    ensures { IfOk result (λ all. ArePositions count all.items) }
{
    let mut all = Vec::new(alloc);
    'orders: for order in 0..factorial(count) {
        add_positions(count, order, &mut all)?;
    }
    Ok(all)
}

// Puts the positions of all tiles in an order at the end.
#[tactic(auto, using(crate::proofs::SlotLemmas::pushed_position, crate::proofs::SlotLemmas::position_read, crate::proofs::SlotLemmas::pushed_all))]
fn add_positions(count: usize, order: usize, all: &mut Vec<u8>) -> Result<(), OutOfMemory>
    requires { IsOrderOf count order }
    ensures { OnOk result (all.new.items ≡ all.old.items ++ positions_at count order) }
{
    let mut positions = [0; 9];
    write_positions(order, &mut positions[..count]);
    'tiles: for tile in 0..count {
        push(all, positions[tile])?;
    }
    Ok(())
}

/// Writes at the slot of each view what its node has in `nodes`. `positions` are those of
/// `find_positions`.
pub fn write_slots<T: Copy>(regions: &Regions, positions: &[u8], nodes: &[T], slots: &mut [T])
    requires positions { ArePositions regions.now.count positions.now }
    requires nodes { AreNodesOf regions.now.shape regions.now.count regions.now nodes.now }
    requires slots { length slots.old ≡ digit_base regions.now.shape ^ suc regions.now.count }
    ensures { AreAllFilled regions.now nodes.now slots.new }
{
    let sets = regions.choices.count(regions.shape.cells(), regions.count);
    'sets: for set in 0..sets {
        write_set(regions, positions, set, nodes, slots);
    }
}

// The same for the views with tiles on the cells of a set, where it is done for the sets before
// it.
fn write_set<T: Copy>(regions: &Regions, positions: &[u8], set: usize, nodes: &[T], slots: &mut [T])
    requires positions { ArePositions regions.now.count positions.now }
    requires nodes { AreNodesWith set regions.now nodes.now }
    requires filled { AreSetsFilled regions.now nodes.now set slots.old }
    ensures { AreSetsFilled regions.now nodes.now (set + 1) slots.new }
{
    let count = regions.count;
    let mut cells = [0; 9];
    regions
        .choices
        .write_set(regions.shape.cells(), set, &mut cells[..count]);
    let marks = mark_cells(&cells[..count]);
    'orders: for order in 0..factorial(count) {
        let mut placed = [0; 9];
        place_tiles(
            &cells[..count],
            &positions[order * count..order * count + count],
            &mut placed[..count],
        );
        write_blanks(regions, &placed[..count], set, order, &marks, nodes, slots);
    }
}

/// Writes the cell of each tile, by its position among the cells.
pub fn place_tiles(cells: &[u8], positions: &[u8], placed: &mut [u8])
    requires { AreIndices (length cells.now) positions.now placed.old }
    ensures { placed.new ≡ map (slice_index cells.now) positions.now }
{
    'tiles: for tile in 0..placed.len() {
        placed[tile] = cells[positions[tile] as usize];
    }
}

// The same for the views with the tiles on these cells, where it is done for the placements before.
fn write_blanks<T: Copy>(
    regions: &Regions,
    cells: &[u8],
    set: usize,
    order: usize,
    marks: &[bool; 25],
    nodes: &[T],
    slots: &mut [T],
)
    requires cells { AreMarkedCells regions.now.shape regions.now.count cells.now marks.now }
    requires set { set ≡ set_place cells.now }
    requires order { order ≡ order_of cells.now }
    requires nodes { AreNodesOf regions.now.shape regions.now.count regions.now nodes.now }
    requires filled { AreOrdersFilled regions.now nodes.now set order slots.old }
    ensures { AreOrdersFilled regions.now nodes.now set (order + 1) slots.new }
{
    let count = regions.shape.cells();
    let base = digit_base(regions.shape);
    let first = base * sparse_place(base, cells);
    let orders = factorial(cells.len());
    'blanks: for blank in 0..count {
        if marks[blank] {
            continue;
        }
        let region = regions.numbers[set * count + blank] as usize;
        slots[first + blank] = nodes[region * orders + order];
    }
}

/// Writes at the sparse place of each placement of a group's tiles what it has in `least`, which is
/// by set and order. `positions` are those of `find_positions`.
pub fn write_places<T: Copy>(group: &Group, positions: &[u8], least: &[T], places: &mut [T])
    requires positions { ArePositions (length group.now.tiles) positions.now }
    requires least { IsOnePerPlacement group.now least.now }
    requires places { length places.old ≡ sparse_size_of group.now }
    ensures { AreAllWritten group.now least.now places.old places.new }
{
    let choices = Choices::new();
    let cells = group.shape().cells();
    let count = group.tiles().len();
    let orders = factorial(count);
    'sets: for set in 0..choices.count(cells, count) {
        let mut list = [0; 9];
        choices.write_set(cells, set, &mut list[..count]);
        let row = &least[set * orders..set * orders + orders];
        write_orders(group, &list[..count], positions, row, places);
    }
}

// The same for the placements of tiles on these cells, by their orders.
fn write_orders<T: Copy>(group: &Group, cells: &[u8], positions: &[u8], row: &[T], places: &mut [T])
    requires cells { AreSetOrders group.now cells.now positions.now }
    requires row { length row.now ≡ factorial (length group.now.tiles) }
    requires places { length places.old ≡ sparse_size_of group.now }
    ensures { AreWritten group.now cells.now row.now places.old places.new }
{
    let count = cells.len();
    let base = group.shape().cells();
    'orders: for order in 0..row.len() {
        let mut placed = [0; 9];
        place_tiles(
            cells,
            &positions[order * count..order * count + count],
            &mut placed[..count],
        );
        places[sparse_place(base, &placed[..count])] = row[order];
    }
}
