//! The search for the values of nodes where each tile costs the same: layer by layer, since all nodes
//! that are found in a layer have one value.

ghost use Rattle.std.specs.Prelude.{ℕ, suc, ◌≡◌, ◌+◌, ◌*◌, ◌/◌, ◌<◌, ◌≤◌, length, slice_index};
ghost use Rattle.std.specs.Prelude.{IfOk};
ghost use Rattle.pattern_index.specs.Laws.{factorial};
ghost use Rattle.pattern_index.specs.declared.group.TheConstants.{MAX_SIZE};
ghost use Rattle.pattern_graph.specs.Graphs.{IsOrders, IsSoundGraph};
ghost use Rattle.pattern_search.specs.Searches.{AreFoundFrom, HasPositions, IsStart};
ghost use Rattle.pattern_search.specs.Layers.{IsIn, IsUnion, AreBelow, AreLayers, IsAtStart, IsLed};
ghost use Rattle.pattern_search.specs.Layers.{IsMovedFrom};
ghost use Rattle.pattern_search.specs.Layers.{IsWritten, HasPassed, IsWordPassed, IsRegionPassed};
ghost use Rattle.pattern_search.specs.Layers.{IsLayerPassed};
ghost use Rattle.pattern_search.specs.Layers.{AreLayersWith, IsSetOf, Has, IsNodeSet};

use crate::finding::{Found, NO_VALUE};
use memory::{OutOfMemory, filled};
use pattern_graph::{Edge, Graph, Orders};
use std::alloc::Global;

// Some of the nodes of a graph: for each region the orders of its nodes in the set, as the bits of
// some words.
#[derive(Drop)]
struct NodeSet {
    // How many words each region has.
    width: usize,
    words: Vec<u64>,
}

impl NodeSet {
    // The empty set, for this count of regions and of orders of each.
    fn none(alloc: Global, regions: usize, orders: usize) -> Result<Self, OutOfMemory>
        requires some { 0 < orders }
        requires few { regions * orders ≤ MAX_SIZE }
        ensures set { IfOk result (IsNodeSet regions orders) }
        ensures none { IfOk result (λ set. (region : ℕ) (order : ℕ) → ¬ Has set region order) }
    {
        let width = orders.div_ceil(64);
        let words = filled(alloc, 0, regions * width)?;
        Ok(NodeSet { width, words })
    }

    // How many words each region has.
    fn width(&self) -> usize
        ensures { result ≡ self.now.width }
    {
        self.width
    }

    // Which of 64 orders of a region are in the set, as bits.
    fn word(&self, region: usize, place: usize) -> u64
        requires { region * self.now.width + place < length self.now.words.items }
        ensures { result ≡ slice_index self.now.words.items (region * self.now.width + place) }
    {
        self.words[region * self.width + place]
    }

    // Inserts those of 64 orders of a region whose bits are set.
    fn insert_all(&mut self, region: usize, place: usize, bits: u64)
        requires place { place < self.old.width }
        requires inside { region * self.old.width + place < length self.old.words.items }
        ensures { IsUnion (λ r order. (r ≡ region) × IsIn place bits order) self.old self.new }
    {
        self.words[region * self.width + place] |= bits;
    }

    // Inserts an order of a region.
    fn insert(&mut self, region: usize, order: usize)
        requires place { order / 64 < self.old.width }
        requires inside { region * self.old.width + order / 64 < length self.old.words.items }
        ensures { IsUnion (λ r other. (r ≡ region) × (other ≡ order)) self.old self.new }
    {
        self.words[region * self.width + order / 64] |= 1 << (order % 64) as u32;
    }
}

// The values of nodes as far as they are found, the nodes that have one, and those of this layer
// and of the next one. A node of a layer may have a value already.
#[derive(Drop)]
pub(crate) struct Layers {
    graph: Graph,
    values: Vec<u16>,
    seen: NodeSet,
    now: NodeSet,
    next: NodeSet,
}

impl Layers {
    // No node has a value, and one is in this layer.
    fn new(alloc: Global, graph: Graph, start: usize) -> Result<Self, OutOfMemory>
        requires { IsStart graph start }
        ensures { IfOk result (IsAtStart graph start) }
    {
        let regions = graph.regions.homes.len();
        let orders = graph.orders.size();
        let values = filled(alloc, NO_VALUE, regions * orders)?;
        let seen = NodeSet::none(alloc, regions, orders)?;
        let mut now = NodeSet::none(alloc, regions, orders)?;
        let next = NodeSet::none(alloc, regions, orders)?;
        now.insert(start / orders, start % orders);
        Ok(Layers {
            graph,
            values,
            seen,
            now,
            next,
        })
    }

    // Writes the value of each node of this layer that has none, and puts the nodes to which edges
    // lead from there into the next layer. Answers whether there were such nodes.
    fn pass_layer(&mut self, cost: u16) -> bool
        requires { AreLayers self.old }
        ensures { HasPassed (IsLayerPassed cost (length self.old.graph.regions.homes.items)) result
            self.old self.new }
    {
        let mut any = false;
        'regions: for region in 0..self.graph.regions.homes.len() {
            let is_passed = self.pass_region(region, cost);
            any = any | is_passed;
        }
        any
    }

    // The same for the nodes of a region.
    fn pass_region(&mut self, region: usize, cost: u16) -> bool
        requires { AreLayersWith region self.old }
        ensures { HasPassed (IsRegionPassed region cost self.old.now.width) result self.old self.new }
    {
        let mut any = false;
        'words: for place in 0..self.now.width() {
            let is_passed = self.pass_word(region, place, cost);
            any = any | is_passed;
        }
        any
    }

    // The same for 64 orders of a region.
    fn pass_word(&mut self, region: usize, place: usize, cost: u16) -> bool
        requires layers { AreLayersWith region self.old }
        requires place { place < self.old.now.width }
        ensures { HasPassed (IsWordPassed region place cost) result self.old self.new }
    {
        let fresh = self.now.word(region, place) & !self.seen.word(region, place);
        if fresh == 0 {
            return false;
        }
        let first = region * self.graph.orders.size() + 64 * place;
        write_values(&mut self.values, first, fresh, cost);
        self.seen.insert_all(region, place, fresh);
        insert_next(&self.graph, region, place, fresh, &mut self.next);
        true
    }
}

// Writes a cost at each place whose bit is set, from the first on.
fn write_values(values: &mut [u16], first: usize, bits: u64, cost: u16)
    requires { (bit : ℕ) → IsIn 0 bits bit → first + bit < length values.old }
    ensures { IsWritten first bits cost values.old values.new }
{
    let mut left = bits;
    'bits: while left != 0 {
        let bit = left.trailing_zeros() as usize;
        left &= left - 1;
        values[first + bit] = cost;
    }
}

// Inserts the nodes to which edges lead from those of 64 orders of a region whose bits are set.
fn insert_next(graph: &Graph, region: usize, place: usize, bits: u64, next: &mut NodeSet)
    requires sound { IsSoundGraph graph.now }
    requires region { region < length graph.now.regions.homes.items }
    requires place { place < next.old.width }
    requires bits { AreBelow (factorial graph.now.regions.count) place bits }
    requires next { IsSetOf graph.now next.old }
    ensures union { IsUnion (IsLed graph.now region place bits) next.old next.new }
    ensures next { IsSetOf graph.now next.new }
{
    let first = graph.edges.starts[region] as usize;
    let end = graph.edges.starts[region + 1] as usize;
    'edges: for at in first..end {
        let edge = graph.edges.edges[at];
        if edge.from == edge.to {
            next.insert_all(edge.region as usize, place, bits);
        } else {
            insert_moved(&graph.orders, &edge, place, bits, next);
        }
    }
}

// Inserts the nodes to which an edge leads from those of 64 orders whose bits are set.
fn insert_moved(orders: &Orders, edge: &Edge, place: usize, bits: u64, next: &mut NodeSet)
    requires orders { IsOrders orders.now.count orders.now }
    requires positions { HasPositions orders.now.count edge.now }
    requires bits { AreBelow (factorial orders.now.count) place bits }
    requires width { factorial orders.now.count ≤ 64 * next.old.width }
    requires inside { suc edge.now.region * next.old.width ≤ length next.old.words.items }
    ensures { IsUnion (λ region order. (region ≡ edge.now.region)
        × IsMovedFrom orders.now.count edge.now place bits order) next.old next.new }
{
    let mut left = bits;
    'bits: while left != 0 {
        let order = 64 * place + left.trailing_zeros() as usize;
        left &= left - 1;
        let moved = orders.moved(order, edge.from as usize, edge.to as usize);
        next.insert(edge.region as usize, moved);
    }
}

// The values of nodes, where it costs the same to move each tile.
pub(crate) fn find_by_layers(
    alloc: Global,
    graph: Graph,
    start: usize,
    weight: u8,
) -> Result<Found, OutOfMemory>
    requires start { IsStart graph start }
    requires some { 1 ≤ weight }
    requires same { (place : ℕ) → place < graph.regions.count
        → slice_index graph.costs place ≡ weight }
    ensures { IfOk result (AreFoundFrom graph start) }
{
    let mut layers = Layers::new(alloc, graph, start)?;
    let mut cost = 0;
    let mut any = true;
    'layers: while any && cost < NO_VALUE as usize {
        any = layers.pass_layer(cost as u16);
        std::mem::swap(&mut layers.now, &mut layers.next);
        cost += weight as usize;
    }
    let graph = layers.graph;
    Ok(Found {
        regions: graph.regions,
        values: layers.values,
    })
}
