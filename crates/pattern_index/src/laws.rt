//! The laws of the definitions: each is the contract of a function that does nothing.

ghost use Rattle.std.specs.Prelude.{◌≡◌, ◌^◌, ◌↔◌, IsTrue};
ghost use Rattle.pattern_index.specs.Laws.{WaysAreFactorials, RanksAreBelow, RanksDiffer};
ghost use Rattle.pattern_index.specs.Laws.{RanksFill, RanksAreInOrder, GroupsAreSmall};
ghost use Rattle.pattern_index.specs.Laws.{ViewRanksAreBelow, ViewRanksDiffer, ViewRanksFill};
ghost use Rattle.pattern_index.specs.Laws.{PlacesAreBelow, PlacesDiffer};
ghost use Rattle.pattern_index.specs.Laws.{SparsePlacesAreBelow, SparsePlacesDiffer};
ghost use Rattle.pattern_index.specs.Laws.{SparsePlacesMove};
ghost use Rattle.pattern_index.specs.Laws.{SlotsAreBelow, SlotsAreCounted, SlotsAreDigits};
ghost use Rattle.pattern_index.specs.Laws.{SlotsDiffer};
ghost use Rattle.pattern_index.specs.Laws.{BoardsHaveViews, MovesAreViewMoves};
ghost use Rattle.pattern_index.specs.Laws.{SuccessorsAreViewMoves, ViewMovesKeepViews};
ghost use Rattle.pattern_index.specs.Laws.{ViewMovesAreTakenBack};
ghost use Rattle.pattern_index.specs.Laws.{ViewMovesAreDetermined, ViewPlansAreDetermined};
ghost use Rattle.pattern_index.specs.Laws.{TilesAreInOneGroup};

use crate::faults::{GroupFault, PartitionFault};
use crate::group::MAX_SIZE;

/// The ways to list different cells are a quotient of factorials.
#[tactic(auto, using(crate::proofs::GroupLemmas::ways_quotient))]
pub fn ways_are_factorials()
    ensures { WaysAreFactorials }
{}

/// A rank is a place in lexicographic order: the ranks of lists of one length are the numbers below
/// the count of ways, no two lists share one, and the earlier list has the smaller one.
pub fn ranks_are_places()
    ensures below { RanksAreBelow }
    ensures differ { RanksDiffer }
    ensures fill { RanksFill }
    ensures order { RanksAreInOrder }
{}

/// A group has 2^26 views at most, and 9 tiles at most.
#[tactic(auto, using(crate::proofs::GroupLemmas::groups_small))]
pub fn groups_are_small()
    ensures views { MAX_SIZE ≡ 2 ^ 26 }
    ensures tiles { GroupsAreSmall }
{}

/// The ranks of a group's views are the numbers below its size, and no two views share one.
#[tactic(auto, using(crate::proofs::GroupLemmas::groups_small, crate::proofs::SightLemmas::sight_below, crate::proofs::SightLemmas::sight_from_rank, crate::proofs::SightLemmas::sight_at))]
pub fn views_are_ranked()
    ensures below { ViewRanksAreBelow }
    ensures differ { ViewRanksDiffer }
    ensures fill { ViewRanksFill }
{}

/// The place of a view is below the group's folded size, and views share one exactly where they
/// show the tiles on the same cells.
#[tactic(auto, using(crate::proofs::PlaceLemmas::place_below, crate::proofs::PlaceLemmas::same_cells))]
pub fn places_are_ranked()
    ensures below { PlacesAreBelow }
    ensures differ { PlacesDiffer }
{}

/// The sparse place of a view is below the group's sparse size, views share one exactly where they
/// show the tiles on the same cells, and a tile that moves changes it by its stride a cell.
pub fn sparse_places_are_numbers()
    ensures below { SparsePlacesAreBelow }
    ensures differ { SparsePlacesDiffer }
    ensures moved { SparsePlacesMove }
{}

/// The slot of a view has its cells as digits, it is below the count of slots, and no two views
/// share one.
#[tactic(auto, using(crate::proofs::SparseLemmas::slot_below, crate::proofs::SparseLemmas::slots_differ))]
pub fn views_have_slots()
    ensures digits { SlotsAreDigits }
    ensures count { SlotsAreCounted }
    ensures below { SlotsAreBelow }
    ensures differ { SlotsDiffer }
{}

/// What a group sees of a board, its abstraction, is a view.
#[tactic(auto, using(crate::proofs::ViewMoveLemmas::board_view))]
pub fn boards_have_views()
    ensures { BoardsHaveViews }
{}

/// A move of a board is a view move of what each group sees, at the move's cost where the tile
/// moved is the group's, else at 0.
pub fn moves_are_view_moves()
    ensures { MovesAreViewMoves }
{}

/// What is computed of a view's move is what it does, both ways.
pub fn successors_are_view_moves()
    ensures { SuccessorsAreViewMoves }
{}

/// A view's move leads to a view, and the opposite move takes it back at the same cost.
pub fn view_moves_are_taken_back()
    ensures views { ViewMovesKeepViews }
    ensures back { ViewMovesAreTakenBack }
{}

/// A view's move, and a view plan, leads to one view, at one cost.
#[tactic(auto, using(crate::proofs::ViewMoveLemmas::one_view_move, crate::proofs::ViewMoveLemmas::one_view_end))]
pub fn view_plans_are_determined()
    ensures moves { ViewMovesAreDetermined }
    ensures plans { ViewPlansAreDetermined }
{}

/// Groups are apart exactly where each tile is in one of them at most.
pub fn tiles_are_in_one_group()
    ensures { TilesAreInOneGroup }
{}

/// `==` answers whether two faults of groups are the same.
pub fn faults_of_groups_are_compared(a: GroupFault, b: GroupFault) -> bool
    ensures { IsTrue result ↔ (a ≡ b) }
{
    a == b
}

/// `==` answers whether two faults of partitions are the same.
pub fn faults_of_partitions_are_compared(a: PartitionFault, b: PartitionFault) -> bool
    ensures { IsTrue result ↔ (a ≡ b) }
{
    a == b
}
