//! The laws of texts of goals, of costs and of groups, and of groups where none are named: each is
//! the contract of a function that does nothing.

ghost use Rattle.batch_lines.specs.OptionLaws.{GoalsAreDetermined, GoalsHaveNoFault};
ghost use Rattle.batch_lines.specs.OptionLaws.{CostsAreDetermined, CostsHaveNoFault};
ghost use Rattle.batch_lines.specs.OptionLaws.{CostFaultsAreDetermined};
ghost use Rattle.batch_lines.specs.OptionLaws.{PartitionsHaveNoFault, FaultsAreDetermined};
ghost use Rattle.batch_lines.specs.OptionLaws.{DefaultsHaveEachTile};
ghost use Rattle.batch_lines.specs.OptionLaws.{MemoryIsRefusedForGroups};

/// A text says one goal at most, and one that says a goal has no fault.
#[tactic(auto, using(crate::proofs::TextLemmas::one_goal, crate::proofs::TextLemmas::no_goal_fault))]
pub fn goals_say_one_thing()
    ensures goals { GoalsAreDetermined }
    ensures none { GoalsHaveNoFault }
{}

/// A text says one rule of costs at most; one that says costs has no fault, and no text has two
/// first faults.
pub fn costs_say_one_thing()
    ensures costs { CostsAreDetermined }
    ensures none { CostsHaveNoFault }
    ensures faults { CostFaultsAreDetermined }
{}

/// Texts that say a partition have no fault, and no texts have two first faults. Neither law counts
/// a refusal of memory.
#[tactic(auto, using(crate::proofs::OptionLawLemmas::no_groups_fault, crate::proofs::OptionLawLemmas::one_groups_fault))]
pub fn texts_say_one_thing()
    ensures partitions { PartitionsHaveNoFault }
    ensures faults { FaultsAreDetermined }
{}

/// No refusal of memory hides the fault of the first group, and `none` takes no memory.
#[tactic(auto, using(crate::proofs::OptionLawLemmas::for_groups))]
pub fn memory_is_refused_for_groups()
    ensures { MemoryIsRefusedForGroups }
{}

/// Where no groups are named, they have each tile once, in rising order.
#[tactic(auto, using(crate::proofs::OptionLawLemmas::each_tile))]
pub fn defaults_have_each_tile()
    ensures { DefaultsHaveEachTile }
{}
