//! Certificates that the checker is shown.

ghost use Rattle.std.specs.Prelude.{◌↔◌, IsOk, IfOk, IfErr, IsSome};
ghost use Rattle.certificate.specs.Certificates.{IsCertificate, statement_of, plan_of};
ghost use Rattle.certificate_check.specs.Refusals.{IsProved, IsFirstRefusal};
ghost use Rattle.checked_runs.specs.Certificates.{IsPartOf};

use board::{Board, Move};
use certificate::{Certificate, Claim, Parts};
use certificate_check::{Refusal, check};
use lower_bound::Bound;

/// A plan, its cost, and rows that prove that it is least.
#[derive(Drop)]
pub(crate) struct Proved {
    pub(crate) cost: u32,
    pub(crate) plan: Vec<Move>,
    pub(crate) rows: Vec<(Board, u32)>,
}

/// Has the certificate of these fields checked, and gives the plan back where it is accepted.
pub(crate) fn accepted(parts: Parts, tables: &Bound) -> Result<Proved, Refusal>
    requires certificate { IsCertificate (statement_of parts) }
    requires plan { IsSome (plan_of parts.claim) }
    ensures accepted { IsOk result ↔ IsProved (statement_of parts) tables.now }
    ensures same { IfOk result (IsPartOf (statement_of parts)) }
    ensures refused { IfErr result (IsFirstRefusal (statement_of parts) tables.now) }
{
    let certificate = Certificate::new(parts).unwrap();
    match check(&certificate, tables) {
        Ok(()) => Ok(plan_in(certificate.into_parts())),
        Err(refusal) => Err(refusal),
    }
}

// The plan that these fields claim, with its rows.
fn plan_in(parts: Parts) -> Proved
    requires { IsSome (plan_of parts.claim) }
    ensures { IsPartOf (statement_of parts) result }
{
    let Parts { claim, rows, .. } = parts;
    match claim {
        Claim::Least { cost, plan } => Proved { cost, plan, rows },
        Claim::Bound { .. } => unreachable!(),
    }
}
