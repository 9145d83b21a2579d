//! What a search answers, and why.
//!
//! - `Outcome`, `Ending`, `Why`, `Cause` with their words, and `SolveFault` with its code.
//! - An `Ending` is an `Outcome` without rows. Reports need none, and rows take memory and time;
//!   that they exist is part of `EndAnswers`.
//! - `specs/Outcomes.antt` says when an outcome answers a task (`Answers`), `specs/Endings.antt`
//!   when an ending does (`EndAnswers`).
//! - A bound lacks rows only where memory was refused; then it has no plan either (`StandsAlone`).
//! - `IsTrueBound` limits a bound by the greatest cost and any bound on sums, so each bound fits a
//!   certificate.
//! - Laws: outcomes of one task agree; rows prove a bound (`rows_prove_bounds`); rows can be left
//!   out (`rows_can_be_left`).
#![tactic(auto)]

mod faults;
pub mod laws;
mod outcome;

pub use faults::SolveFault;
pub use outcome::{Cause, Ending, Outcome, Want, Why};
