//! Runs that write, check, upgrade and draw certificates: a line in and a certificate out, a
//! certificate in and a verdict out, or the same in version 2, or a drawing of its plan.
//!
//! - `certify_first` answers the first line that is not passed over, by any `Prover`, which gives
//!   outcomes with rows (`ProofRules`). The reply is made before the sink is touched.
//! - `certify` makes a certificate of a plan, and of a bound with rows; anything else becomes a
//!   report.
//! - `run_check` reads, builds tables, judges by `check_fit`, or `check_fit_parallel` from
//!   `PARALLEL_ROWS` rows on, and writes one line. It does not flush.
//! - `run_upgrade` writes a certificate again in version 2.
//! - `run_show` draws a certificate whose plan leads, else writes the line of its first fault
//!   (`drawings`). It does not flush.
//! - `IsCertificateOf` holds for any tables built for the groups: their sums are nowhere below
//!   those of the search (`CertifyLemmas`).
//! - Start with `specs/Checking.antt`, `specs/Rules.antt`, `specs/Certifying.antt`, or from above
//!   `specs/Headline.antt`.
#![tactic(auto)]

mod certifying;
mod checking;
mod faults;
pub mod laws;
mod showing;
mod upgrading;

pub use certifying::{ProofRuled, Prover, certify_first};
pub use checking::run_check;
pub use faults::{CertifyFault, CheckFault, UpgradeFault};
pub use showing::run_show;
pub use upgrading::run_upgrade;
