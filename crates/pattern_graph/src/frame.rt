//! What the tables of all groups of as many tiles have in common.

ghost use Rattle.std.specs.Prelude.{◌≡◌, ◌↔◌, IfOk, IsTrue};
ghost use Rattle.pattern_graph.specs.Frames.{FitsGroup};

use crate::edges::Edges;
use crate::orders::Orders;
use crate::regions::Regions;
use memory::OutOfMemory;
use pattern_index::Group;
use std::alloc::Global;
use std::marker::Model;

/// What the tables of all groups of as many tiles have in common: the regions of the blank's cells,
/// the edges between them, and the orders of the tiles.
#[derive(Drop)]
pub struct Frame {
    pub(crate) regions: Regions,
    pub(crate) edges: Edges,
    pub(crate) orders: Orders,
}

impl Model for Frame {
    ghost use Rattle.pattern_graph.specs.Frames.{FrameModel, IsFrame, size_of_frame};

    ghost Value = { FrameModel };

    ghost view = { size_of_frame };

    ghost invariant = { IsFrame };
}

impl Frame {
    /// The frame of a group, and of all others of its shape with as many tiles. The error is
    /// `OutOfMemory`.
    pub fn new(alloc: Global, group: &Group) -> Result<Self, OutOfMemory>
        ensures { IfOk result (λ frame. FitsGroup frame group.now) }
    {
        let count = group.tiles().len();
        let regions = Regions::new(alloc, group.shape(), count)?;
        let edges = Edges::new(alloc, &regions)?;
        let orders = Orders::new(alloc, count)?;
        Ok(Frame {
            regions,
            edges,
            orders,
        })
    }

    /// Whether the group has the frame's shape and number of tiles.
    pub fn fits(&self, group: &Group) -> bool
        ensures { IsTrue result ↔ FitsGroup self.now group.now }
    {
        self.regions.shape == group.shape() && self.regions.count == group.tiles().len()
    }

    /// A copy of the frame. The error is `OutOfMemory`.
    pub fn copy(&self, alloc: Global) -> Result<Self, OutOfMemory>
        ensures { IfOk result (λ frame. frame ≡ self.now) }
    {
        Ok(Frame {
            regions: self.regions.copy(alloc)?,
            edges: self.edges.copy(alloc)?,
            orders: self.orders.copy(alloc)?,
        })
    }
}
