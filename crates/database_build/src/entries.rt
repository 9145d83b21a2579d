//! What a table keeps of the views of its group: their values by rank, or by slot.

ghost use Rattle.std.specs.Prelude.{replicate, ◌≡◌, ◌↔◌, ◌<◌, ◌≤◌, ◌^◌, IfOk, IsTrue};
ghost use Rattle.std.specs.Prelude.{length, map, min};
ghost use Rattle.pattern_index.specs.Sparse.{slot_count_of, sparse_size_of};
ghost use Rattle.database_build.specs.Entries.{AreSmall, HasEntries, IsKeptBest, values_in};
ghost use Rattle.database_build.specs.Entries.{HasFewPlaces, HasLeast};
ghost use Rattle.database_build.specs.Entries.{least_in, most_places};
ghost use Rattle.pattern_graph.specs.Graphs.{AreNodesOf};
ghost use Rattle.pattern_graph.specs.Placements.{AreAllFilled, IsOnePerPlacement, AreNodeValues};
ghost use Rattle.pattern_graph.specs.Placements.{ArePlaceValues};
ghost use Rattle.pattern_graph.specs.Placements.{AreAllWritten};

use crate::folding::{MOST_PLACES, PLACES_A_VALUE};
use memory::{OutOfMemory, filled, push, with_capacity};
use pattern_graph::{
    Regions, factorial, find_positions, rank_least, rank_values, write_places, write_slots,
};
use pattern_index::Group;
use pattern_search::NO_VALUE;
use std::alloc::Global;

// The most slots of a group whose tables are kept by slot, 2^25.
pub(crate) const MOST_SLOTS: usize = 33_554_432;

// What a table keeps.
#[derive(Debug, Drop)]
pub(crate) enum Entries {
    // The values of views, by rank.
    Ranked(Vec<u16>),
    // By slot, as bytes: 255 encodes `NO_VALUE`.
    Bytes(Vec<u8>),
    // By slot.
    Words(Vec<u16>),
}

// The values of a group's views, where those of nodes are given: by slot where there are not too
// many slots, and as bytes where each fits one.
pub(crate) fn keep_values(
    alloc: Global,
    group: &Group,
    regions: &Regions,
    nodes: &[u16],
) -> Result<Entries, OutOfMemory>
    requires nodes { AreNodesOf group.now.grid (length group.now.tiles) regions.now nodes.now }
    ensures entries { IfOk result (HasEntries group.now) }
    ensures values { IfOk result
        (λ e. AreNodeValues group.now regions.now nodes.now (values_in group.now e)) }
    ensures best { IfOk result (IsKeptBest (slot_count_of group.now ≤ MOST_SLOTS) nodes.now) }
{
    if group.slot_count() > MOST_SLOTS {
        let orders = factorial(group.tiles().len());
        let values = rank_values(alloc, group, regions, orders, nodes)?;
        return Ok(Entries::Ranked(values));
    }
    if !are_small(nodes) {
        let words = fill_slots(alloc, group, regions, nodes, NO_VALUE)?;
        return Ok(Entries::Words(words));
    }
    let narrow = narrow_all(alloc, nodes)?;
    let bytes = fill_slots(alloc, group, regions, &narrow, u8::MAX)?;
    Ok(Entries::Bytes(bytes))
}

// The slots of views, each with what the view's node has in `nodes`.
fn fill_slots<T: Copy>(
    alloc: Global,
    group: &Group,
    regions: &Regions,
    nodes: &[T],
    filler: T,
) -> Result<Vec<T>, OutOfMemory>
    requires nodes { AreNodesOf group.now.grid (length group.now.tiles) regions.now nodes.now }
    requires few { slot_count_of group.now ≤ MOST_SLOTS }
    ensures { IfOk result (λ slots. AreAllFilled regions.now nodes.now slots.items) }
{
    let positions = find_positions(alloc, regions.count)?;
    let mut slots = filled(alloc, filler, group.slot_count())?;
    write_slots(regions, &positions, nodes, &mut slots);
    Ok(slots)
}

// What a folded table of a group keeps, where the least value of each placement of its tiles is
// given: by sparse place where there are not too many, and as bytes where each value fits one.
pub(crate) fn keep_least(
    alloc: Global,
    group: &Group,
    least: &[u16],
) -> Result<Entries, OutOfMemory>
    requires { IsOnePerPlacement group.now least.now }
    ensures entries { IfOk result (HasLeast group.now) }
    ensures values { IfOk result (λ e. ArePlaceValues group.now least.now (least_in group.now e)) }
    ensures best { IfOk result (IsKeptBest (HasFewPlaces group.now) least.now) }
{
    if has_many_places(group) {
        let values = rank_least(alloc, group, least)?;
        return Ok(Entries::Ranked(values));
    }
    if !are_small(least) {
        let words = fill_places(alloc, group, least, NO_VALUE)?;
        return Ok(Entries::Words(words));
    }
    let narrow = narrow_all(alloc, least)?;
    let bytes = fill_places(alloc, group, &narrow, u8::MAX)?;
    Ok(Entries::Bytes(bytes))
}

// Whether a group has too many sparse places for its folded tables to be kept by them.
fn has_many_places(group: &Group) -> bool
    ensures { IsTrue result ↔ (most_places group.now < sparse_size_of group.now) }
{
    group.sparse_size() > MOST_PLACES.min(PLACES_A_VALUE * group.folded_size())
}

// The sparse places of placements, each with what the placement has in `least`.
fn fill_places<T: Copy>(
    alloc: Global,
    group: &Group,
    least: &[T],
    filler: T,
) -> Result<Vec<T>, OutOfMemory>
    requires few { HasFewPlaces group.now }
    requires least { IsOnePerPlacement group.now least.now }
    ensures { IfOk result (λ places. AreAllWritten group.now least.now
        (replicate (sparse_size_of group.now) filler) places.items) }
{
    let positions = find_positions(alloc, group.tiles().len())?;
    let mut places = filled(alloc, filler, group.sparse_size())?;
    write_places(group, &positions, least, &mut places);
    Ok(places)
}

// Whether a byte can encode each value.
fn are_small(values: &[u16]) -> bool
    ensures { IsTrue result ↔ AreSmall values.now }
{
    'values: for value in values {
        if *value >= 255 && *value != NO_VALUE {
            return false;
        }
    }
    true
}

// The bytes that encode values.
fn narrow_all(alloc: Global, values: &[u16]) -> Result<Vec<u8>, OutOfMemory>
    requires { length values.now ≤ 2 ^ 27 }
    ensures { IfOk result (λ bytes. bytes.items ≡ map (λ value. min value 255) values.now) }
{
    let mut bytes = with_capacity(alloc, values.len())?;
    'values: for value in values {
        push(&mut bytes, (*value).min(255) as u8)?;
    }
    Ok(bytes)
}
