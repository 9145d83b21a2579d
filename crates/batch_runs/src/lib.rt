//! The lines of an input, each answered: what a batch is, what its lines have in common, how it is
//! run with any solver, and the reports as JSON.
//!
//! - `run_lines` runs over all lines with any `Solver`; `Rules` (from the trait `Ruled`) say what
//!   it may answer. The crate uses none that searches.
//! - Each report is written and flushed before the next line is taken (`send_report`).
//! - `solve_ahead` may solve boards ahead: it sees the bytes that the source holds, takes none, and
//!   its endings are used for their own boards alone (`take_ready`).
//! - Each ending has `Stats` beside it (`Solved`). `observe` hands them to the solver when the line
//!   is answered; `stats_text` makes the line of `--stats`.
//! - `Setup` has what all lines share: goal, weights, tables, limit, workers, spread. Its type
//!   keeps `Guides`: the tables are potentials for goal and weights. Without groups the sums are 0.
//! - Clauses: `reports` (`ReportsLines`, for any rules), `truth` (`IsTrueRun`, for truthful rules),
//!   `flushed`. The truth follows from the first without the code.
//! - `outcome_report`, `refused_report` and the three reports of certificates make JSON by
//!   `serde_json`, member by member. `specs/Reports.antt` defines the text,
//!   `specs/ReportReadings.antt` what it says to a JSON reader; the laws join the two. `NoReport`
//!   says that there was no memory for a report.
//! - Start with `specs/Batches.antt`, `specs/Setups.antt`, or from above `specs/Headline.antt`,
//!   then `src/batch.rt`.
#![tactic(auto)]

mod answering;
mod batch;
mod faults;
mod finding;
pub mod laws;
mod report;
pub mod report_laws;
mod setup;
mod stats;

pub use answering::{Ruled, Solver};
pub use batch::{Summary, run_lines, send_report};
pub use faults::LinesFault;
pub use finding::find_line;
pub use report::{
    NoReport, accepted_bound_report, accepted_report, outcome_report, refused_certificate_report,
    refused_report,
};
pub use setup::{Setup, SpreadKind};
pub use stats::{Solved, Stats, stats_text};
