//! The laws of reports: each is the contract of a function that does nothing.

ghost use Rattle.batch_runs.specs.ReportLaws.{ReportsAreLines, ReportsAreRead, ReportsSayOneThing};
ghost use Rattle.batch_runs.specs.ReportLaws.{OutcomesAreTold, OutcomesAreToldAlike, RefusalsAreTold};
ghost use Rattle.batch_runs.specs.ReportLaws.{CostsAreTold, BoundsAreTold, CodesAreTold};

/// A report has one line feed, its last byte.
#[tactic(auto, using(crate::proofs::TextLemmas::text_other))]
pub fn reports_are_lines()
    ensures { ReportsAreLines }
{}

/// The line of a report, read as JSON, is the value that it was made of.
#[tactic(auto, using(crate::proofs::ReadLemmas::report_read))]
pub fn reports_are_read()
    ensures { ReportsAreRead }
{}

/// Equal texts are reports of equal values.
#[tactic(auto, using(crate::proofs::ReadLemmas::one_thing))]
pub fn reports_say_one_thing()
    ensures { ReportsSayOneThing }
{}

/// Two outcomes have equal reports only where they are the same, except how memory ran out. Such
/// outcomes have equal reports.
pub fn outcomes_are_told()
    ensures told { OutcomesAreTold }
    ensures alike { OutcomesAreToldAlike }
{}

/// A refused line's report is that of no other code and number.
#[tactic(auto, using(crate::proofs::ReadLemmas::refusal_told))]
pub fn refusals_are_told()
    ensures { RefusalsAreTold }
{}

/// A certificate's report is that of no other cost, bound, or code.
#[tactic(auto, using(crate::proofs::ReadLemmas::cost_told, crate::proofs::ReadLemmas::bound_told, crate::proofs::ReadLemmas::code_told))]
pub fn certificates_are_told()
    ensures costs { CostsAreTold }
    ensures bounds { BoundsAreTold }
    ensures codes { CodesAreTold }
{}
