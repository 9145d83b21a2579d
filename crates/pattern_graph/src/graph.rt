//! The graph that a search goes over: the nodes of a group's views, and the edges between them.

ghost use Rattle.std.specs.Prelude.{ℕ, ◌≡◌, ◌<◌, ◌≤◌, length, slice_index, map};
ghost use Rattle.pattern_index.specs.Views.{IsView, view_of};
ghost use Rattle.pattern_index.specs.Groups.{IsGroup};
ghost use Rattle.pattern_graph.specs.Regions.{IsRegions};
ghost use Rattle.pattern_graph.specs.Graphs.{AreSomeCosts, node_in, node_count, AreWeightsOf};
ghost use Rattle.pattern_graph.specs.Graphs.{IsGraphOf};
ghost use Rattle.pattern_graph.specs.Graphs.{IsSoundGraph};
ghost use Rattle.pattern_graph.specs.Frames.{FitsGroup};
ghost use Rattle.pattern_graph.specs.Orders.{AreIndices};

use crate::edges::Edges;
use crate::frame::Frame;
use crate::orders::{Orders, order_of};
use crate::regions::Regions;
use board::{Board, Weights};
use pattern_index::{Group, cells_of};

/// The nodes of a group's views and the edges between them. A node is a region with an order. Its
/// number is the region's times the number of orders, plus the order.
#[derive(Drop)]
pub struct Graph {
    /// The regions of the blank's cells.
    pub regions: Regions,
    /// The edges between the regions.
    pub edges: Edges,
    /// The orders of the tiles.
    pub orders: Orders,
    /// What it costs to move each tile, by its place among the group's; 0 behind them.
    pub costs: [u8; 9],
}

impl Graph {
    /// The graph of a group, in a frame that fits it.
    pub fn new(frame: Frame, group: &Group, weights: &Weights) -> Self
        requires fits { FitsGroup frame group.now }
        requires weights { weights.now.grid ≡ group.now.grid }
        ensures graph { IsGraphOf group.now weights.now result }
        ensures sound { IsSoundGraph result }
        ensures costs { (place : ℕ) → place < length group.now.tiles
            → 1 ≤ slice_index result.costs place }
        ensures behind { (place : ℕ) → length group.now.tiles ≤ place
            → slice_index result.costs place ≡ 0 }
    {
        Graph {
            regions: frame.regions,
            edges: frame.edges,
            orders: frame.orders,
            costs: costs_of(group, weights),
        }
    }

    /// The node of what a group sees of a board.
    pub fn node_of(&self, group: &Group, board: &Board) -> usize
        requires grid { board.now.grid ≡ group.now.grid }
        requires regions { IsRegions group.now.grid (length group.now.tiles) self.now.regions }
        requires sound { IsSoundGraph self.now }
        ensures value { result ≡ node_in self.now.regions (view_of group.now.tiles board.now) }
        ensures view { IsView group.now.grid group.now.tiles (view_of group.now.tiles board.now) }
        ensures below { result < node_count self.now.regions }
    {
        let numbers = cells_of(board);
        let mut cells = [0; 9];
        let count = group.tiles().len();
        pick_cells(&numbers, group.tiles(), &mut cells[..count]);
        let region = self.regions.region(&cells[..count], numbers[0]);
        region * self.orders.size() + order_of(&cells[..count])
    }
}

// What it costs to move each tile of a group, by its place among them.
fn costs_of(group: &Group, weights: &Weights) -> [u8; 9]
    requires { weights.now.grid ≡ group.now.grid }
    ensures group { IsGroup group.now }
    ensures length { length result ≡ 9 }
    ensures costs { AreWeightsOf weights.now group.now.tiles result }
    ensures some { AreSomeCosts group.now.tiles result }
    ensures behind { (place : ℕ) → length group.now.tiles ≤ place → slice_index result place ≡ 0 }
{
    let mut costs = [0; 9];
    let tiles = group.tiles();
    'tiles: for place in 0..tiles.len() {
        costs[place] = weights.of(tiles[place]) as u8;
    }
    costs
}

// Writes the cell of each tile.
#[tactic(auto, using(std::proofs::lemmas::List::take_more_set, std::proofs::lemmas::List::map_more))]
fn pick_cells(numbers: &[u8; 25], tiles: &[u8], cells: &mut [u8])
    requires { AreIndices 25 tiles.now cells.old }
    ensures { cells.new ≡ map (slice_index numbers.now) tiles.now }
{
    'tiles: for place in 0..tiles.len() {
        cells[place] = numbers[tiles[place] as usize];
    }
}
