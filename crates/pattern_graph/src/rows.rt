//! Values of views, by rank.

ghost use Rattle.std.specs.Prelude.{suc, [], ◌≡◌, ◌-◌, ◌<◌, ◌++◌, ◌∷◌};
ghost use Rattle.std.specs.Prelude.{length, take, IfOk, OnOk, Contains};
ghost use Rattle.board.specs.Shapes.{cell_count};
ghost use Rattle.pattern_index.specs.Laws.{factorial};
ghost use Rattle.pattern_index.specs.Ranks.{IsListing};
ghost use Rattle.pattern_index.specs.Groups.{size_of, folded_size_of};
ghost use Rattle.pattern_graph.specs.Sets.{AreMarksOf, set_place};
ghost use Rattle.pattern_graph.specs.Regions.{AreGroupRegions, IsRegions};
ghost use Rattle.pattern_graph.specs.Graphs.{AreNodesOf, node_count};
ghost use Rattle.pattern_graph.specs.Placements.{AreLarger, IsRowAppended, node_value};
ghost use Rattle.pattern_graph.specs.Placements.{IsOnePerPlacement, AreNodeValues};
ghost use Rattle.pattern_graph.specs.Placements.{ArePlaceValues};

use crate::orders::{factorial, order_of};
use crate::regions::{Regions, stands_on};
use crate::sets::Choices;
use memory::{OutOfMemory, push, with_capacity};
use pattern_index::{Group, list_cells};
use std::alloc::Global;

/// The values of a group's views, one for each by rank. `nodes` has one value for each node, by its
/// number, and `orders` is how many orders the group's tiles have. The error is `OutOfMemory`.
pub fn rank_values(
    alloc: Global,
    group: &Group,
    regions: &Regions,
    orders: usize,
    nodes: &[u16],
) -> Result<Vec<u16>, OutOfMemory>
    requires orders { orders ≡ factorial (length group.now.tiles) }
    requires nodes { AreNodesOf group.now.grid (length group.now.tiles) regions.now nodes.now }
    ensures size { IfOk result (λ values. length values.items ≡ size_of group.now) }
    ensures values { IfOk result (λ all. AreNodeValues group.now regions.now nodes.now all.items) }
{
    let larger = find_larger(alloc, regions)?;
    let mut values = with_capacity(alloc, group.size())?;
    let cells = regions.shape.cells();
    let count = regions.count;
    let mut list = [0; 9];
    'rows: for row in 0..group.folded_size() {
        list_cells(cells, row, &mut list[..count]);
        let blank = list[0];
        add_row(
            regions,
            &larger,
            orders,
            nodes,
            blank,
            &list[1..count],
            &mut values,
        )?;
    }
    Ok(values)
}

// Puts the values of a row at the end. All its views have the blank and all tiles but the last on
// these cells.
fn add_row(
    regions: &Regions,
    larger: &[u32],
    orders: usize,
    nodes: &[u16],
    blank: u8,
    others: &[u8],
    values: &mut Vec<u16>,
) -> Result<(), OutOfMemory>
    requires regions { AreGroupRegions regions.now }
    requires larger { AreLarger regions.now larger.now }
    requires orders { orders ≡ factorial regions.now.count }
    requires nodes { length nodes.now ≡ node_count regions.now }
    requires listing { IsListing (cell_count regions.now.shape) (blank ∷ others.now) }
    requires count { suc (length others.now) ≡ regions.now.count }
    ensures { OnOk result (IsRowAppended (blank ∷ others.now)
        (λ z. node_value regions.now nodes.now (blank ∷ (others.now ++ z ∷ [])))
        values.old.items (cell_count regions.now.shape) values.new.items) }
{
    let count = regions.shape.cells();
    let unit = factorial(others.len());
    let set = regions.choices.place(others);
    let marks = mark_cells(others);
    let mut order = order_of(others);
    'cells: for cell in 0..count {
        if marks[cell] {
            order += unit;
            continue;
        }
        if cell as u8 == blank {
            continue;
        }
        let whole = larger[set * count + cell] as usize;
        let region = regions.numbers[whole * count + blank as usize] as usize;
        push(values, nodes[region * orders + order])?;
    }
    Ok(())
}

/// The least values of a group's placements, one for each by place. `least` has one for each, by its
/// set of cells and then by its order. The error is `OutOfMemory`.
pub fn rank_least(alloc: Global, group: &Group, least: &[u16]) -> Result<Vec<u16>, OutOfMemory>
    requires { IsOnePerPlacement group.now least.now }
    ensures size { IfOk result (λ values. length values.items ≡ folded_size_of group.now) }
    ensures values { IfOk result (λ all. ArePlaceValues group.now least.now all.items) }
{
    let choices = Choices::new();
    let cells = group.shape().cells();
    let count = group.tiles().len();
    let orders = factorial(count);
    let mut values = with_capacity(alloc, group.folded_size())?;
    let mut list = [0; 9];
    'places: for place in 0..group.folded_size() {
        list_cells(cells, place, &mut list[..count]);
        let set = choices.place(&list[..count]);
        let order = order_of(&list[..count]);
        push(&mut values, least[set * orders + order])?;
    }
    Ok(values)
}

/// Marks the cells of a list of different cells.
pub fn mark_cells(cells: &[u8]) -> [bool; 25]
    requires { IsListing 25 cells.now }
    ensures size { length result ≡ 25 }
    ensures marks { AreMarksOf cells.now result }
{
    let mut marks = [false; 25];
    'cells: for cell in cells {
        marks[*cell as usize] = true;
    }
    marks
}

// For each set of one cell less, and each cell that it doesn't have, the place of the set with that
// cell.
fn find_larger(alloc: Global, regions: &Regions) -> Result<Vec<u32>, OutOfMemory>
    requires { IsRegions regions.now.shape regions.now.count regions.now }
    ensures { IfOk result (λ larger. AreLarger regions.now larger.items) }
{
    let mut larger = Vec::new(alloc);
    let count = regions.shape.cells();
    let last = regions.count - 1;
    let sets = regions.choices.count(count, last);
    let mut cells = [0; 9];
    'sets: for set in 0..sets {
        regions.choices.write_set(count, set, &mut cells[..last]);
        'cells: for cell in 0..count {
            let place = place_with(regions, &cells, cell as u8);
            push(&mut larger, place)?;
        }
    }
    Ok(larger)
}

// The place of a set with one cell more; any number where the set has that cell.
fn place_with(regions: &Regions, cells: &[u8; 9], cell: u8) -> u32
    requires regions { IsRegions regions.now.shape regions.now.count regions.now }
    requires listing { IsListing (cell_count regions.now.shape) (take (regions.now.count - 1) cells.now) }
    requires cell { cell < cell_count regions.now.shape }
    ensures { ¬ Contains (take (regions.now.count - 1) cells.now) cell
        → result ≡ set_place (take (regions.now.count - 1) cells.now ++ cell ∷ []) }
{
    let last = regions.count - 1;
    if stands_on(&cells[..last], cell as usize) {
        return 0;
    }
    let mut all = *cells;
    all[last] = cell;
    regions.choices.place(&all[..last + 1]) as u32
}
