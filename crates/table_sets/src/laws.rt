//! The laws of built tables: each is the contract of a function that does nothing.

ghost use Rattle.table_sets.specs.Laws.{SumsAreDetermined, FoldedSumsAreDetermined};
ghost use Rattle.table_sets.specs.Laws.{FoldedSumsAreNoGreater};

use pattern_search::laws::values_are_determined;

/// Tables of the same groups, for the same goal and weights, give each board the same sum: it
/// makes no difference how they were built.
pub fn sums_are_determined()
    ensures { SumsAreDetermined }
{
    values_are_determined();
}

/// So do folded tables, however they were built and folded.
pub fn folded_sums_are_determined()
    ensures { FoldedSumsAreDetermined }
{
    values_are_determined();
}

/// No board's sum by folded tables is greater than its sum by whole ones of the same groups.
pub fn folded_sums_are_no_greater()
    ensures { FoldedSumsAreNoGreater }
{
    values_are_determined();
}
