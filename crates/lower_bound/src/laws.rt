//! The laws of sums: each is the contract of a function that does nothing.

ghost use Rattle.std.specs.Prelude.{◌≡◌, ◌*◌, ◌↔◌, IsTrue};
ghost use Rattle.lower_bound.specs.Laws.{SumsAreLowerBounds, TablesAreLowerBounds};
ghost use Rattle.lower_bound.specs.Laws.{PotentialsMakeBounds, WholeTablesAreBounds};
ghost use Rattle.lower_bound.specs.Laws.{FoldedSumsAreLowerBounds, MovesMoveOneTile, ValuesAddUp};
ghost use Rattle.lower_bound.specs.Laws.{ATileHasOneGroup, ListedTablesAreOneEach};
ghost use Rattle.lower_bound.specs.Laws.{FoldedBoundsSayNoMore, FoldedBoundsKeepGroups};
ghost use Rattle.lower_bound.specs.Laws.{FoldedBoundsAreTables};
ghost use Rattle.lower_bound.specs.Laws.{MovesChangeOneValue};
ghost use Rattle.lower_bound.specs.Laws.{BothAreToldOrNot};

use crate::bound::GREATEST_SUM;
use crate::faults::PatternFault;
use database_build::NO_VALUE;

/// The greatest sum is that of 24 values, as many as a partition may have groups.
pub fn greatest_sum_is_of_24_values()
    ensures { GREATEST_SUM ≡ 24 * NO_VALUE }
{}

/// A sum of potentials of groups that share no tile is admissible: never above the cost of a plan.
/// Whole tables that are potentials make such a sum.
pub fn sums_are_lower_bounds()
    ensures parts { SumsAreLowerBounds }
    ensures whole { WholeTablesAreBounds }
    ensures tables { TablesAreLowerBounds }
{}

/// Nothing else is asked of potentials whose sum is a bound.
pub fn potentials_make_bounds()
    ensures { PotentialsMakeBounds }
{}

/// So is a sum of folded values, where each table was folded from a potential.
pub fn folded_sums_are_lower_bounds()
    ensures { FoldedSumsAreLowerBounds }
{}

/// A bound whose tables were folded has one for each of the same groups, and says no more of a
/// board than it said before.
#[tactic(auto, using(crate::proofs::PartLemmas::folded_no_more, crate::proofs::PartLemmas::keep_groups, crate::proofs::PartLemmas::folded_are_tables))]
pub fn folded_bounds_say_no_more()
    ensures values { FoldedBoundsSayNoMore }
    ensures groups { FoldedBoundsKeepGroups }
    ensures tables { FoldedBoundsAreTables }
{}

/// The tables that a bound gives out are one for each of its groups, in the order of the groups.
#[tactic(auto, using(crate::proofs::PartLemmas::listed_each))]
pub fn listed_tables_are_one_each()
    ensures { ListedTablesAreOneEach }
{}

/// A move moves one tile: each other tile keeps its cell.
pub fn moves_move_one_tile()
    ensures { MovesMoveOneTile }
{}

/// The values of a board, added up, are its sum.
pub fn values_add_up()
    ensures { ValuesAddUp }
{}

/// Where no two groups share a tile, at most one has a tile, and it is at the tile's place. Where
/// none has it, the place is behind the last group.
pub fn a_tile_has_one_group()
    ensures { ATileHasOneGroup }
{}

/// Where whole tables are potentials, a move changes the value of one group at most: that of the
/// tile that moves. With folded tables it does so whatever they hold.
pub fn moves_change_one_value()
    ensures { MovesChangeOneValue }
{}

/// A folded table has both values and tells them by sparse place; or one is missing, or the table
/// has too many sparse places.
pub fn both_are_told_or_not()
    ensures { BothAreToldOrNot }
{}

/// `==` answers whether two faults are the same.
pub fn faults_are_compared(a: PatternFault, b: PatternFault) -> bool
    ensures { IsTrue result ↔ (a ≡ b) }
{
    a == b
}
