//! The laws of refusals: each is the contract of a function that does no more than it says.

ghost use Rattle.std.specs.Prelude.{◌≡◌, ◌↔◌, IsTrue};
ghost use Rattle.certificate_check.specs.Laws.{IllegalMovesAreRefusedFirst};
ghost use Rattle.certificate_check.specs.Laws.{OtherEndsAreRefusedFirst, OtherCostsAreRefusedFirst};
ghost use Rattle.certificate_check.specs.Laws.{FoldedTablesAreRefused};
ghost use Rattle.certificate_check.specs.Laws.{TablesOfAnotherShapeAreRefused};
ghost use Rattle.certificate_check.specs.Laws.{ProvedWithWholeTables, ProvedHasNoCause};
ghost use Rattle.certificate_check.specs.Laws.{NoCauseIsProved, RowsAreJudgedLast};

use crate::refusals::Refusal;

/// `==` answers whether two refusals are the same, with the same places and the same move.
pub fn refusals_are_compared(a: Refusal, b: Refusal) -> bool
    ensures { IsTrue result ↔ (a ≡ b) }
{
    a == b
}

/// A claimed plan is judged before all else: by its first illegal move (C1), else by the board
/// where it ends (C2), else by its cost (C3).
pub fn plans_are_judged_first()
    ensures illegal { IllegalMovesAreRefusedFirst }
    ensures end { OtherEndsAreRefusedFirst }
    ensures cost { OtherCostsAreRefusedFirst }
{}

/// Folded tables are refused by C4 at the first place, whatever they were folded from, where the
/// plan leads, if one is claimed. So are tables of another shape than the certificate's groups.
pub fn folded_tables_are_refused()
    ensures folded { FoldedTablesAreRefused }
    ensures shape { TablesOfAnotherShapeAreRefused }
{}

/// Rows are judged behind the plan and the tables: by the start (C5), else by the goal's row (C6),
/// else by the first board that is left open (C7).
#[tactic(auto, using(crate::proofs::RefusalLemmas::rows_judged_last))]
pub fn rows_are_judged_last()
    ensures { RowsAreJudgedLast }
{}

/// A certificate is proved with whole tables only, and where there is no cause to refuse it, and
/// only there.
pub fn proved_certificates_are_not_refused()
    ensures whole { ProvedWithWholeTables }
    ensures none { ProvedHasNoCause }
    ensures all { NoCauseIsProved }
{}
