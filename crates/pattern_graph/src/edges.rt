//! Edges between regions: the moves of tiles.

ghost use Rattle.std.specs.Prelude.{ℕ, ◌≡◌, ◌*◌, ◌<◌, length, take};
ghost use Rattle.std.specs.Prelude.{slice_index, IfOk, OnOk, MatchOption};
ghost use Rattle.pattern_graph.specs.Orders.{below};
ghost use Rattle.pattern_graph.specs.Regions.{AreCellsApart, AreEdges, AreGroupRegions, IsEdgeOf};
ghost use Rattle.pattern_graph.specs.Edges.{AreSetCells, IsStep, IsStepEdge, HasFound};
ghost use Rattle.pattern_graph.specs.Edges.{AreEdgesAdded};

use crate::orders::count_below;
use crate::regions::{Regions, stands_on};
use board::Move;
use memory::{OutOfMemory, copy_of, push};
use std::alloc::Global;

/// A tile of the group goes to the blank's cell. Positions are counted from 0, at most 8.
#[derive(Clone, Copy)]
pub struct Edge {
    /// The tile's position before that: the number of other tiles of the group on smaller cells.
    pub from: u8,
    /// Its position after that.
    pub to: u8,
    /// The region that the blank is in after that.
    pub region: u32,
}

/// The edges of all regions.
#[derive(Drop)]
pub struct Edges {
    /// Where the edges of each region begin in `edges`, and behind these where the last ones end.
    pub starts: Vec<u32>,
    /// The edges, region by region.
    pub edges: Vec<Edge>,
}

impl Edges {
    // The edges between these regions.
    pub(crate) fn new(alloc: Global, regions: &Regions) -> Result<Self, OutOfMemory>
        requires regions { AreGroupRegions regions.now }
        ensures { IfOk result (AreEdges regions.now) }
    {
        let mut edges = Edges {
            starts: Vec::new(alloc),
            edges: Vec::new(alloc),
        };
        'regions: for region in 0..regions.homes.len() {
            let start = edges.edges.len() as u32;
            push(&mut edges.starts, start)?;
            add_region(&mut edges.edges, regions, region)?;
        }
        let end = edges.edges.len() as u32;
        push(&mut edges.starts, end)?;
        Ok(edges)
    }

    // A copy.
    pub(crate) fn copy(&self, alloc: Global) -> Result<Self, OutOfMemory>
        ensures starts { IfOk result (λ copy. copy.starts.items ≡ self.now.starts.items) }
        ensures edges { IfOk result (λ copy. copy.edges.items ≡ self.now.edges.items) }
    {
        Ok(Edges {
            starts: copy_of(alloc, &self.starts)?,
            edges: copy_of(alloc, &self.edges)?,
        })
    }
}

// Adds the edges of a region.
fn add_region(edges: &mut Vec<Edge>, regions: &Regions, region: usize) -> Result<(), OutOfMemory>
    requires regions { AreGroupRegions regions.now }
    requires inside { region < length regions.now.homes.items }
    ensures { OnOk result (AreEdgesAdded regions.now region edges.old.items edges.new.items) }
{
    let set = regions.homes[region].set as usize;
    let mut cells = [0; 9];
    regions
        .choices
        .write_set(regions.shape.cells(), set, &mut cells[..regions.count]);
    add_edges(edges, regions, region, set, &cells)
}

// Adds the edges of a region, whose set has these cells.
fn add_edges(
    edges: &mut Vec<Edge>,
    regions: &Regions,
    region: usize,
    set: usize,
    cells: &[u8; 9],
) -> Result<(), OutOfMemory>
    requires { AreSetCells regions.now set cells.now }
    ensures { OnOk result (HasFound regions.now (take regions.now.count cells.now) region
        (regions.now.count * 4) edges.old.items edges.new.items) }
{
    'tiles: for tile in 0..regions.count {
        'moves: for direction in Move::ALL {
            if let Some(edge) = find_edge(regions, region, set, cells, tile, direction) {
                push(edges, edge)?;
            }
        }
    }
    Ok(())
}

// The edge of a tile of a region's set in a direction, if it leads to a free cell of the region.
fn find_edge(
    regions: &Regions,
    region: usize,
    set: usize,
    cells: &[u8; 9],
    tile: usize,
    direction: Move,
) -> Option<Edge>
    requires set { AreSetCells regions.now set cells.now }
    requires tile { tile < regions.now.count }
    ensures { MatchOption result
        ((to : ℕ) → ¬ IsStep regions.now (take regions.now.count cells.now) region
        (slice_index cells.now tile) direction to)
        (IsStepEdge regions.now (take regions.now.count cells.now) region
        (slice_index cells.now tile) direction) }
{
    let Some(to) = regions.shape.neighbour(cells[tile] as usize, direction) else {
        return None;
    };
    if regions.numbers[set * regions.shape.cells() + to] as usize != region {
        return None;
    }
    if stands_on(&cells[..regions.count], to) {
        return None;
    }
    Some(edge_to(regions, cells, tile, to))
}

// The edge of a tile that goes to a free cell.
fn edge_to(regions: &Regions, cells: &[u8; 9], tile: usize, to: usize) -> Edge
    requires regions { AreGroupRegions regions.now }
    requires apart { AreCellsApart regions.now.shape regions.now.count
        (take regions.now.count cells.now) to }
    requires tile { tile < regions.now.count }
    requires rising { below (slice_index cells.now tile) (take regions.now.count cells.now) ≡ tile }
    ensures { IsEdgeOf regions.now (take regions.now.count cells.now)
        (slice_index cells.now tile) to result }
{
    let mut moved = *cells;
    moved[tile] = to as u8;
    let place = count_below(&moved[..regions.count], to as u8);
    let region = regions.region(&moved[..regions.count], cells[tile]);
    Edge {
        from: tile as u8,
        to: place as u8,
        region: region as u32,
    }
}
