//! The search for the values of nodes by buckets of cost: backwards from the goal's node, since each
//! view move can be taken back at the same cost.

ghost use Rattle.std.specs.Prelude.{◌≡◌, ◌<◌, ◌≤◌, ◌^◌, length, slice_index, IfOk, OnOk};
ghost use Rattle.std.specs.Prelude.{MatchOption};
ghost use Rattle.board.specs.Boards.{BoardModel};
ghost use Rattle.board.specs.Weights.{WeightsModel};
ghost use Rattle.pattern_index.specs.Laws.{factorial};
ghost use Rattle.pattern_index.specs.Groups.{GroupModel};
ghost use Rattle.pattern_graph.specs.Graphs.{node_count, IsSoundGraph, target};
ghost use Rattle.pattern_search.specs.Searches.{IsStart, IsSought, IsFit, IsFresh, IsLowered};
ghost use Rattle.pattern_search.specs.Searches.{AreFoundFrom, IsPassed};
ghost use Rattle.pattern_search.specs.Searches.{HasPositions, IsVisited, IsGrown, IsPut, IsTaken};
ghost use Rattle.pattern_search.specs.Searches.{waiting_count};

use crate::finding::{Found, NO_VALUE};
use memory::{OutOfMemory, filled, push};
use pattern_graph::{Edge, Graph};
use std::alloc::Global;

// The values of nodes as far as they are found, and the open list: nodes in buckets of cost.
#[derive(Drop)]
pub(crate) struct Search {
    alloc: Global,
    graph: Graph,
    values: Vec<u16>,
    buckets: Vec<Vec<u32>>,
}

impl Search {
    // A search that has found nothing.
    fn new(alloc: Global, graph: Graph) -> Result<Self, OutOfMemory>
        requires { IsSoundGraph graph }
        ensures { IfOk result (IsFresh graph) }
    {
        let count = graph.regions.homes.len() * graph.orders.size();
        Ok(Search {
            alloc,
            graph,
            values: filled(alloc, NO_VALUE, count)?,
            buckets: Vec::new(alloc),
        })
    }

    // Lowers the nodes to which edges lead from one, unless its value has become another than the
    // cost at which it waited.
    fn visit(&mut self, node: usize, cost: usize) -> Result<(), OutOfMemory>
        requires fits { IsFit self.old }
        requires inside { node < node_count self.old.graph.regions }
        ensures { OnOk result (IsVisited node cost self.old self.new) }
    {
        if self.values[node] as usize != cost {
            return Ok(());
        }
        // (Numbers of 32 bits are divided in less time.)
        let size = self.graph.orders.size() as u32;
        let region = (node as u32 / size) as usize;
        let order = (node as u32 % size) as usize;
        let first = self.graph.edges.starts[region] as usize;
        let end = self.graph.edges.starts[region + 1] as usize;
        'edges: for at in first..end {
            let edge = self.graph.edges.edges[at];
            self.pass(&edge, order, cost)?;
        }
        Ok(())
    }

    // Lowers the node to which an edge leads from one of this order, if its value is more. Most edges
    // lower nothing, so the value is compared before the call.
    fn pass(&mut self, edge: &Edge, order: usize, cost: usize) -> Result<(), OutOfMemory>
        requires fits { IsFit self.old }
        requires order { order < factorial self.old.graph.regions.count }
        requires positions { HasPositions self.old.graph.regions.count edge.now }
        requires inside { target self.old.graph order edge.now < node_count self.old.graph.regions }
        requires cost { cost ≤ NO_VALUE }
        ensures { OnOk result (IsPassed order cost edge.now self.old self.new) }
    {
        let tile = self.graph.orders.tile(order, edge.from as usize);
        let moved = self
            .graph
            .orders
            .moved(order, edge.from as usize, edge.to as usize);
        let node = edge.region as usize * self.graph.orders.size() + moved;
        let total = cost + self.graph.costs[tile] as usize;
        if self.values[node] as usize <= total {
            return Ok(());
        }
        self.lower(node, total)
    }

    // Lowers the value of a node to a cost that is less, and lets the node wait in that bucket.
    fn lower(&mut self, node: usize, cost: usize) -> Result<(), OutOfMemory>
        requires inside { node < length self.old.values.items }
        requires small { node < 2 ^ 32 }
        requires less { cost < slice_index self.old.values.items node }
        requires fits { cost < NO_VALUE }
        ensures { OnOk result (IsLowered node cost self.old self.new) }
    {
        grow(self.alloc, &mut self.buckets, cost)?;
        put(&mut self.buckets, cost, node as u32)?;
        self.values[node] = cost as u16;
        Ok(())
    }
}

// The values of nodes, which are lowered from a node on until nothing waits. Buckets are taken in
// rising order of cost, so most nodes are expanded once.
pub(crate) fn find_by_buckets(
    alloc: Global,
    graph: Graph,
    start: usize,
) -> Result<Found, OutOfMemory>
    requires start { IsStart graph start }
    requires sought { (selection : GroupModel) × (rule : WeightsModel) × (goal : BoardModel)
        × IsSought selection rule goal graph start }
    ensures { IfOk result (AreFoundFrom graph start) }
{
    let mut search = Search::new(alloc, graph)?;
    search.lower(start, 0)?;
    let mut cost = 0;
    'costs: while cost < search.buckets.len() {
        'nodes: while let Some(node) = take(&mut search.buckets, cost) {
            search.visit(node as usize, cost)?;
        }
        release(alloc, &mut search.buckets, cost);
        cost += 1;
    }
    let graph = search.graph;
    Ok(Found {
        regions: graph.regions,
        values: search.values,
    })
}

// Makes the buckets up to that of a cost.
fn grow(alloc: Global, buckets: &mut Vec<Vec<u32>>, cost: usize) -> Result<(), OutOfMemory>
    requires { cost < NO_VALUE }
    ensures grown { OnOk result (IsGrown buckets.old.items buckets.new.items) }
    ensures there { OnOk result (cost < length buckets.new.items) }
    ensures few { OnOk result
        (length buckets.old.items ≤ NO_VALUE → length buckets.new.items ≤ NO_VALUE) }
{
    'costs: while buckets.len() <= cost {
        push(buckets, Vec::new(alloc))?;
    }
    Ok(())
}

// Lets a rank wait in the bucket of a cost.
fn put(buckets: &mut Vec<Vec<u32>>, cost: usize, rank: u32) -> Result<(), OutOfMemory>
    requires { cost < length buckets.old.items }
    ensures { OnOk result (IsPut cost rank buckets.old.items buckets.new.items) }
{
    push(&mut buckets[cost], rank)?;
    Ok(())
}

// Takes a rank out of the bucket of a cost.
fn take(buckets: &mut Vec<Vec<u32>>, cost: usize) -> Option<u32>
    requires { cost < length buckets.old.items }
    ensures { MatchOption result
        ((waiting_count buckets.old.items cost ≡ 0) × (buckets.new.items ≡ buckets.old.items))
        (λ rank. IsTaken cost rank buckets.old.items buckets.new.items) }
{
    let left = buckets[cost].len();
    if left == 0 {
        return None;
    }
    buckets[cost].pop()
}

// Gives back the memory of a bucket in which nothing waits.
fn release(alloc: Global, buckets: &mut Vec<Vec<u32>>, cost: usize)
    requires inside { cost < length buckets.old.items }
    requires empty { waiting_count buckets.old.items cost ≡ 0 }
    ensures same { IsGrown buckets.old.items buckets.new.items }
    ensures length { length buckets.new.items ≡ length buckets.old.items }
{
    buckets[cost] = Vec::new(alloc);
}
