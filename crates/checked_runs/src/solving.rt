//! Jobs that several workers solve, and whose plans are checked.

ghost use Rattle.std.specs.Prelude.{◌≡◌, ◌↔◌, Ok, IfOk, IsErrOf};
ghost use Rattle.board.specs.Classes.{SameClass};
ghost use Rattle.outcomes.specs.Outcomes.{Answers};
ghost use Rattle.outcomes.specs.declared.outcome.Outcome.TheVariants.{Unsolvable};
ghost use Rattle.outcomes.specs.declared.outcome.Why.TheVariants.{Parity};
ghost use Rattle.hda_run.specs.Jobs.{task_in};
ghost use Rattle.hda_run.specs.Worlds.{IsWorkerCount};
ghost use Rattle.hda_run.specs.WholeRuns.{HasWholeRun};
ghost use Rattle.certificate_check.specs.declared.refusals.Refusal.{Refusal};
ghost use Rattle.checked_runs.specs.Certificates.{AreAsGood};
ghost use Rattle.checked_runs.specs.Checked.{IsProvedWith, IsCheckedRun, IsRefusedRun};

use crate::checking::{Proved, accepted};
use crate::faults::CheckedFault;
use board::laws::{keys_are_in_order, plans_keep_the_class};
use certificate::{Claim, Parts, Version};
use hda_run::{Gate, Job};
use lower_bound::Bound;
use outcomes::{Cause, Outcome, Want};
use owners::Spread;
use std::alloc::Global;
use std::sync::Wait;
use std::thread::Threads;
use thread_runs::solve;

/// Solves a job by several workers, as `solve` does, and answers a plan of least cost only where
/// the checker accepts its certificate with these tables.
///
/// The certificate names the groups of the job's own tables. The checker refuses folded tables, so
/// a job that these guide is to be checked with whole ones, such as those that its own were folded
/// from. Where memory was refused for the copy of the groups, the cost is answered as a bound,
/// without the plan and its rows.
///
/// Faults:
///
/// - V2: the workers are not from 1 to `WORKER_LIMIT`.
/// - V3: memory was refused for the world of one worker.
/// - V4: the checker refused the certificate, which it never does with tables that are as good as
///   the job's.
pub fn solve_checked<'a, R: Threads + Wait + Sync, S: Spread + Sync, G: Gate + Sync>(
    rt: &R,
    alloc: Global,
    job: Job<'a>,
    workers: usize,
    spread: &'a S,
    gate: &G,
    tables: &Bound,
) -> Result<Outcome, CheckedFault>
    ensures count { IsErrOf result CheckedFault.WorkerCount ↔ (¬ IsWorkerCount workers) }
    ensures parity { IsWorkerCount workers → (result ≡ Ok (Unsolvable Parity))
        ↔ (¬ SameClass job.entry.start job.entry.goal) }
    ensures run { SameClass job.entry.start job.entry.goal
        → IfOk result (IsCheckedRun S.owner_of job.entry spread.now workers) }
    ensures answers { IfOk result (Answers (task_in job.entry)) }
    ensures kept { IfOk result HasWholeRun }
    ensures accepted { IfOk result (IsProvedWith job.entry tables.now) }
    ensures refused { (refusal : Refusal) → IsErrOf result (CheckedFault.Refused refusal)
        → IsRefusedRun S.owner_of job.entry spread.now workers tables.now refusal }
    ensures sure { AreAsGood job.entry tables.now
        → (refusal : Refusal) → ¬ IsErrOf result (CheckedFault.Refused refusal) }
{
    // By this law no plan leads from a board to another class.
    plans_keep_the_class();
    // By this law the order of the rows, which is by key, is that of their lists of tiles.
    keys_are_in_order();
    let start = *job.start();
    let goal = *job.goal();
    let costs = *job.weights();
    // The run takes the job, so the groups are copied before it.
    let groups = job.bound().partition().copy(alloc);
    let outcome = match solve(rt, alloc, job, workers, spread, gate) {
        Ok(outcome) => outcome,
        Err(fault) => return Err(CheckedFault::from(fault)),
    };
    let (cost, plan, rows) = match outcome {
        Outcome::Optimal { cost, plan, rows } => (cost, plan, rows),
        other => return Ok(other),
    };
    let groups = match groups {
        Ok(groups) => groups,
        Err(refused) => {
            return Ok(Outcome::Bounded {
                bound: cost,
                best: None,
                cause: Cause::Memory(Want::Refused(refused)),
                rows: None,
            });
        }
    };
    let parts = Parts {
        version: Version::Two,
        shape: costs.shape(),
        costs,
        groups,
        start,
        goal,
        claim: Claim::Least { cost, plan },
        rows,
    };
    match accepted(parts, tables) {
        Ok(Proved { cost, plan, rows }) => Ok(Outcome::Optimal { cost, plan, rows }),
        Err(refusal) => Err(CheckedFault::Refused(refusal)),
    }
}
