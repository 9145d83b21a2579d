//! Runs by threads whose answers are checked: a plan is called least only where the checker accepts
//! its certificate.
//!
//! - `solve_checked` answers as `solve` and shows `check` the certificate of each optimal outcome;
//!   a refusal is V4. The program does not call it.
//! - The certificate names the groups of the job's tables, so tables of other groups or folded ones
//!   are refused by C4.
//! - The copy of the groups is made before the run; if it was refused, an optimal outcome becomes a
//!   bound without plan and rows.
//! - V4 never comes with tables as good as the job's (`AreAsGood`).
//! - Start with `specs/Certificates.antt`, `specs/Checked.antt`, then `src/solving.rt`.
#![tactic(auto)]

mod checking;
mod faults;
pub mod laws;
mod solving;

pub use faults::CheckedFault;
pub use solving::solve_checked;
