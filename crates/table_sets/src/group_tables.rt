//! What may be kept of a group's table: the table itself, or what it was folded to.

ghost use Rattle.std.specs.Prelude.{◌≡◌, All, IfNone, IfOk, IfSome};
ghost use Rattle.board.specs.Boards.{BoardModel};
ghost use Rattle.board.specs.Weights.{WeightsModel};
ghost use Rattle.pattern_index.specs.Groups.{GroupModel};
ghost use Rattle.pattern_graph.specs.Frames.{FitsGroup};

use board::{Board, Weights};
use database_build::{Folded, Frame, Table, build, build_folded, build_folded_in, build_in};
use memory::{OutOfMemory, push};
use pattern_index::Group;
use std::alloc::Global;

// A table of a group, whole or folded.
pub(crate) trait GroupTable: Drop {
    ghost is_true: { WeightsModel → BoardModel → GroupModel → Self → Type 0 };

    // The table of a group for a goal and weights, in one of these frames where one fits it.
    fn build_for(
        alloc: Global,
        frames: &[Frame],
        group: &Group,
        goal: &Board,
        weights: &Weights,
    ) -> Result<Self, OutOfMemory>
        requires grid { goal.now.grid ≡ group.now.grid }
        requires weights { weights.now.grid ≡ group.now.grid }
        ensures { IfOk result (is_true weights.now goal.now group.now) };
}

impl GroupTable for Table {
    ghost use Rattle.table_sets.specs.Built.{IsTrueTable};

    ghost is_true = { λ rule goal group table. IsTrueTable rule goal group table };

    fn build_for(
        alloc: Global,
        frames: &[Frame],
        group: &Group,
        goal: &Board,
        weights: &Weights,
    ) -> Result<Table, OutOfMemory> {
        let Some(frame) = frame_of(frames, group) else {
            return build(alloc, group, goal, weights);
        };
        build_in(alloc, frame, group, goal, weights)
    }
}

impl GroupTable for Folded {
    ghost use Rattle.table_sets.specs.Built.{IsTrueFoldOf};

    ghost is_true = { λ rule goal group fold. IsTrueFoldOf rule goal group fold };

    fn build_for(
        alloc: Global,
        frames: &[Frame],
        group: &Group,
        goal: &Board,
        weights: &Weights,
    ) -> Result<Folded, OutOfMemory> {
        let Some(frame) = frame_of(frames, group) else {
            return build_folded(alloc, group, goal, weights);
        };
        build_folded_in(alloc, frame, group, goal, weights)
    }
}

// One of these frames that fits a group.
fn frame_of<'a>(frames: &'a [Frame], group: &Group) -> Option<&'a Frame>
    ensures fits { IfSome result (λ frame. FitsGroup frame.now group.now) }
    ensures none { IfNone result (All (λ frame. ¬ FitsGroup frame group.now) frames.now) }
{
    'frames: for frame in frames {
        if frame.fits(group) {
            return Some(frame);
        }
    }
    None
}

// A frame for each size that several of these groups have.
pub(crate) fn shared_frames(alloc: Global, groups: &[Group]) -> Result<Vec<Frame>, OutOfMemory> {
    let mut frames = Vec::new(alloc);
    'groups: for place in 0..groups.len() {
        let group = &groups[place];
        if frame_of(&frames, group).is_none() && is_shared(&groups[place + 1..], group) {
            push(&mut frames, Frame::new(alloc, group)?)?;
        }
    }
    Ok(frames)
}

// Whether another of these groups has as many tiles.
fn is_shared(groups: &[Group], group: &Group) -> bool {
    'groups: for other in groups {
        if other.tiles().len() == group.tiles().len() {
            return true;
        }
    }
    false
}
