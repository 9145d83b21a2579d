//! The library of the program `tilesolve`: boards in, reports or a certificate out, certificates
//! checked, drawn and upgraded, and runs replayed step by step.
//!
//! - The program as a library: `run_program` over any streams; `run_with_progress` also has a
//!   watch, and `WhereAsked` passes on only what the arguments ask for. The crate re-exports the
//!   public names of the crates below.
//! - `command_for` makes a `Command` of a `Request`: its tables are built before input is read.
//!   `Runner` has what commands run with. A flush follows each run; the first fault of the two
//!   decides (`after_flush`).
//! - `Ending` is how the program ends, with contracts for status and message; `BatchFault` is the
//!   sum of the runs' faults.
//! - `RunsProgram` is the contract: `EndsBy` says how it ends, `IsTrueBy` that what is written is
//!   true, field `batch` the same for no arguments (`IsTrue`). `HandsBy` says of a watch that it
//!   took figures for each report, where they were asked for.
//! - Start with `specs/Headline.antt`, `specs/Programs.antt`, then `src/program.rt`,
//!   `src/runner.rt`.
#![tactic(auto)]

mod commands;
mod endings;
mod faults;
pub mod laws;
mod program;
mod progress;
mod runner;
mod setups;

pub use batch_lines::{
    Entry, EntryFault, INPUT_LIMIT, LINE_LIMIT, Line, LineKind, LineReader, read_entry,
};
pub use batch_runs::{
    LinesFault, NoReport, Ruled, Setup, Solved, Solver, SpreadKind, Stats, Summary,
    accepted_bound_report, accepted_report, outcome_report, refused_certificate_report,
    refused_report, run_lines, stats_text,
};
pub use certificate_runs::{
    CertifyFault, CheckFault, ProofRuled, Prover, UpgradeFault, certify_first, run_check, run_show,
    run_upgrade,
};
pub use command_line::NoRequest;
pub use drawings::Style;
pub use endings::Ending;
pub use faults::BatchFault;
pub use hda_run::{Free, Gate, Kind, World};
pub use outcomes::{Cause, Outcome, SolveFault, Want, Why};
pub use owners::Spread;
pub use program::{run_program, run_with_progress};
pub use replay_runs::{Opener, Run, replay_lines, run_replay};
pub use setup_runs::{Watch, run_batch, run_cert};
