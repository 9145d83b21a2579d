//! Worked rows that the definitions meet: each is the contract of a function that does nothing.

ghost use Rattle.pattern_index.specs.Worked.{ViewRanks, ViewSlots, GroupSizes, OblongView};
ghost use Rattle.pattern_index.specs.Worked.{FourViewMoves, OneViewPlan};

/// The ranks of six views.
#[tactic(auto, unfolding(crate::specs::Ranks::ways, crate::specs::Ranks::rank_after, crate::specs::Ranks::rank_of))]
pub fn view_ranks()
    ensures { ViewRanks }
{}

/// The slots of four views, and how many two groups have.
#[tactic(auto, unfolding(crate::specs::Sparse::sparse_of))]
pub fn view_slots()
    ensures { ViewSlots }
{}

/// The sizes of five groups, and the greatest size between them.
#[tactic(auto, unfolding(crate::specs::Ranks::ways))]
pub fn group_sizes()
    ensures { GroupSizes }
{}

/// What two tiles see of a board of 2 by 3.
pub fn oblong_view()
    ensures { OblongView }
{}

/// What each of the four moves makes of a view.
pub fn four_view_moves()
    ensures { FourViewMoves }
{}

/// A view plan of four moves, and what it costs.
pub fn one_view_plan()
    ensures { OneViewPlan }
{}
