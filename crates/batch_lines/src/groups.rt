//! Groups that texts say.

ghost use Rattle.std.specs.Prelude.{◌≡◌, ◌↔◌, IfOk, IfErr, IsErrOf, take};
ghost use Rattle.pattern_index.specs.Faults.{IsFirstGroupFault};
ghost use Rattle.pattern_index.specs.declared.faults.GroupFault.{GroupFault};
ghost use Rattle.batch_lines.specs.Texts.{group_texts, group_numbers, IsGroupOf, AreGroupsOf};
ghost use Rattle.batch_lines.specs.GroupFaults.{IsFirstGroupsFault};

use crate::group_faults::GroupsFault;
use crate::option_words::numbers_in;
use arrayvec::ArrayVec;
use board::Shape;
use memory::push;
use pattern_index::{Group, GroupFault, Partition};
use std::alloc::Global;

/// The partition that a text says, as `--groups` takes it: `none`, or groups with slashes between,
/// each of tiles with commas between. Else the answer is the first fault.
///
/// The first group from the left that has a fault has one of these:
///
/// - E5: it has no word.
/// - E6: a word is no tile.
/// - E7: the tile of a word is that of a word before it.
/// - E8: it has too many views.
///
/// The first faulty word of a group decides between E6 and E7, and both come before E8. Where no
/// group has a fault, E10 says that there are too many groups, and else E9 that two share a tile.
/// Memory may be refused for a group, where no text up to its own has a fault.
#[tactic(auto, using(crate::proofs::TextLemmas::groups_fit))]
pub fn read_groups(alloc: Global, shape: Shape, text: &str) -> Result<Partition, GroupsFault>
    ensures groups { IfOk result
        (λ p. (p.grid ≡ shape) × AreGroupsOf shape (group_texts text.now) p.groups) }
    ensures fault { IfErr result (IsFirstGroupsFault shape (group_texts text.now)) }
{
    let groups = match groups_in(alloc, shape, text) {
        Ok(groups) => groups,
        Err(fault) => return Err(fault),
    };
    match Partition::new(shape, groups) {
        Ok(partition) => Ok(partition),
        Err(fault) => Err(GroupsFault::NoPartition(fault)),
    }
}

// The groups of a text, or the first fault of one.
fn groups_in(alloc: Global, shape: Shape, text: &str) -> Result<Vec<Group>, GroupsFault>
    ensures groups { IfOk result (λ groups. AreGroupsOf shape (group_texts text.now) groups.items) }
    ensures fault { IfErr result (IsFirstGroupsFault shape (group_texts text.now)) }
{
    let mut groups = Vec::new(alloc);
    if text == "none" {
        return Ok(groups);
    }
    'groups: for piece in text.split('/') {
        let group = match read_group(shape, piece) {
            Ok(group) => group,
            Err(fault) => return Err(GroupsFault::NoGroup(fault)),
        };
        if let Err(refused) = push(&mut groups, group) {
            return Err(GroupsFault::Memory(refused));
        }
    }
    Ok(groups)
}

// The group of a text, or its first fault.
fn read_group(shape: Shape, text: &str) -> Result<Group, GroupFault>
    ensures group { IfOk result (IsGroupOf shape text.now) }
    ensures fault { (fault : GroupFault) → IsErrOf result fault
        ↔ IsFirstGroupFault shape (group_numbers text.now) fault }
{
    // The last clause needs that the shape is one. The contract of this call says so.
    let _ = shape.cells();
    let numbers = group_numbers_in(text);
    Group::new(shape, numbers.as_slice())
}

// The numbers that the words of a group say.
fn group_numbers_in(text: &str) -> ArrayVec<u8, 26>
    ensures { result.items ≡ take 26 (group_numbers text.now) }
{
    if text.is_empty() {
        return ArrayVec::new();
    }
    numbers_in(text)
}
