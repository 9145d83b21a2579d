//! Partitions: disjoint groups, no two with a tile in common.

ghost use Rattle.std.specs.Prelude.{◌≡◌, ◌↔◌, ◌<◌, ◌≤◌, length, All, IsOk, IsErrOf, IfOk, IsTrue};
ghost use Rattle.pattern_index.specs.Groups.{IsGroup};
ghost use Rattle.pattern_index.specs.Partitions.{PartitionModel, IsPartition, IsPartitionFault};
ghost use Rattle.pattern_index.specs.Partitions.{AreApart, ShareNoTile};
ghost use Rattle.pattern_index.specs.declared.faults.PartitionFault.{PartitionFault};

use crate::faults::PartitionFault;
use crate::group::Group;
use board::Shape;
use memory::{OutOfMemory, copy_of};
use std::alloc::Global;
use std::marker::Model;

/// At most 24 groups of one shape, no two with a tile in common. There may be none.
#[derive(Debug, Drop)]
pub struct Partition {
    shape: Shape,
    groups: Vec<Group>,
}

impl Model for Partition {
    ghost use Rattle.pattern_index.specs.Partitions.{PartitionModel, IsPartition};

    ghost Value = { PartitionModel };

    ghost view = { λ p. record { grid = p.shape; groups = p.groups.items } };

    ghost invariant = { λ p. IsPartition (record { grid = p.shape; groups = p.groups.items }) };
}

impl Partition {
    /// The partition of these groups, which are of this shape, or its fault: E10 where there are
    /// more than 24, else E9 where two share a tile.
    pub fn new(shape: Shape, groups: Vec<Group>) -> Result<Self, PartitionFault>
        requires { All (λ g. g.grid ≡ shape) groups.items }
        ensures accepted { IsOk result ↔ (length groups.items ≤ 24) × AreApart groups.items }
        ensures value { IfOk result (λ p. p ≡ record { grid = shape; groups = groups.items }) }
        ensures fault { (fault : PartitionFault) →
            IsErrOf result fault ↔ IsPartitionFault groups.items fault }
    {
        if groups.len() > 24 {
            return Err(PartitionFault::TooManyGroups);
        }
        if !are_apart(&groups) {
            return Err(PartitionFault::SharedTile);
        }
        Ok(Partition { shape, groups })
    }

    /// The shape of its groups.
    pub fn shape(&self) -> Shape
        ensures value { result ≡ self.now.grid }
        ensures partition { IsPartition self.now }
    {
        self.shape
    }

    /// Its groups, in the order in which they were given.
    pub fn groups(&self) -> &[Group]
        ensures { result.now ≡ self.now.groups }
    {
        &self.groups
    }

    /// An equal partition.
    pub fn copy(&self, alloc: Global) -> Result<Self, OutOfMemory>
        ensures { IfOk result (λ p. p ≡ self.now) }
    {
        let groups = copy_of(alloc, self.groups.as_slice())?;
        Ok(Partition {
            shape: self.shape,
            groups,
        })
    }
}

// Whether no two groups share a tile.
fn are_apart(groups: &[Group]) -> bool
    ensures apart { IsTrue result ↔ AreApart groups.now }
    ensures groups { IsTrue result → All (λ g. IsGroup g) groups.now }
{
    'groups: for i in 0..groups.len() {
        let group = groups[i];
        if !is_apart(&groups[..i], group.tiles()) {
            return false;
        }
    }
    true
}

/// Whether none of these groups has one of these tiles.
pub fn is_apart(groups: &[Group], tiles: &[u8]) -> bool
    ensures { IsTrue result ↔ All (λ g. ShareNoTile g.tiles tiles.now) groups.now }
{
    'groups: for i in 0..groups.len() {
        let group = groups[i];
        if !share_no_tile(group.tiles(), tiles) {
            return false;
        }
    }
    true
}

// Whether no tile is in both lists.
fn share_no_tile(xs: &[u8], ys: &[u8]) -> bool
    ensures { IsTrue result ↔ ShareNoTile xs.now ys.now }
{
    'tiles: for i in 0..xs.len() {
        if ys.contains(&xs[i]) {
            return false;
        }
    }
    true
}
