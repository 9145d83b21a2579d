//! Groups of tiles are read from a source.

ghost use Rattle.std.specs.Prelude.{◌≡◌, ◌↔◌, ◌≤◌, [], false, IsSome, IfSome};
ghost use Rattle.board.specs.Shapes.{IsShape};
ghost use Rattle.byte_streams.specs.Streams.{change};
ghost use Rattle.certificate.specs.Fields.{IsNextGroup, SpellsTiles, SpellsGroup, SpellsGroups};
ghost use Rattle.certificate.specs.Fields.{SpellsAllGroups};
ghost use Rattle.certificate.specs.Readings.{tiles, group, groups, all_groups};
ghost use Rattle.certificate.specs.Sources.{ReadsField};

use crate::faults::{FormatFault, ReadFault};
use crate::fields::{fill, read_byte};
use board::Shape;
use byte_streams::Source;
use memory::reserve;
use pattern_index::{Group, Partition, is_apart};
use std::alloc::Global;

// The number of groups, and the groups.
pub(crate) fn read_all_groups<S: Source>(
    alloc: Global,
    source: &mut S,
    shape: Shape,
) -> Result<Partition, ReadFault>
    requires { IsShape shape }
    ensures { ReadsField (all_groups shape) (SpellsAllGroups shape)
        (change S.state source.old source.new) result }
{
    let count = read_byte(source, 0, 24)?;
    let groups = read_groups(alloc, source, shape, count)?;
    Ok(Partition::new(shape, groups).unwrap())
}

// `count` groups that share no tile with one another. The place of each is made while it is due, so
// that no refusal of memory hides a fault.
fn read_groups<S: Source>(
    alloc: Global,
    source: &mut S,
    shape: Shape,
    count: u8,
) -> Result<Vec<Group>, ReadFault>
    requires shape { IsShape shape }
    requires fine { (S.state source.old).has_failed ≡ false }
    ensures { ReadsField (groups shape [] count) (λ read. SpellsGroups shape [] count read.items)
        (change S.state source.old source.new) result }
{
    let mut read = Vec::new(alloc);
    'groups: for _ in 0..count {
        if let Err(refused) = reserve(&mut read, 1) {
            return Err(ReadFault::NoMemory(refused));
        }
        let group = read_group(source, shape, &read)?;
        read.push_reserved(group);
    }
    Ok(read)
}

// The number of its tiles, and the tiles, which are in none of the groups before it.
fn read_group<S: Source>(source: &mut S, shape: Shape, before: &[Group]) -> Result<Group, ReadFault>
    requires { IsShape shape }
    ensures { ReadsField (group shape before.now) (SpellsGroup shape before.now)
        (change S.state source.old source.new) result }
{
    let count = read_byte(source, 1, 24)?;
    read_tiles(source, shape, before, count)
}

// The group of the next `count` tiles, which are in none of the groups before it.
fn read_tiles<S: Source>(
    source: &mut S,
    shape: Shape,
    before: &[Group],
    count: u8,
) -> Result<Group, ReadFault>
    requires shape { IsShape shape }
    requires some { 1 ≤ count }
    requires few { count ≤ 24 }
    ensures { ReadsField (tiles shape before.now count) (SpellsTiles shape before.now count)
        (change S.state source.old source.new) result }
{
    let mut text = [0; 24];
    let numbers = &mut text[..count as usize];
    fill(source, numbers)?;
    match next_group(shape, before, numbers) {
        Some(group) => Ok(group),
        None => Err(ReadFault::Format(FormatFault::OutOfRange)),
    }
}

// The group of these tiles, where they rise and are in none of the groups before it.
fn next_group(shape: Shape, before: &[Group], tiles: &[u8]) -> Option<Group>
    ensures accepted { IsSome result
        ↔ IsNextGroup shape before.now (record { grid = shape; tiles = tiles.now }) }
    ensures value { IfSome result (λ g. g ≡ record { grid = shape; tiles = tiles.now }) }
{
    let Ok(group) = Group::new(shape, tiles) else {
        return None;
    };
    if group.tiles() != tiles {
        return None;
    }
    if !is_apart(before, tiles) {
        return None;
    }
    Some(group)
}
