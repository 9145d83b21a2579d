//! Runs by threads, each over two ledgers of its own.

ghost use Rattle.std.specs.Prelude.{◌≡◌, ◌+◌, ◌^◌, IfOk};
ghost use Rattle.thread_runs.specs.Threads.{IsFoundByThreads};
ghost use Rattle.thread_runs.specs.Ledgers.{AreBlanksOf};

use crate::outcome::outcome_of_joined;
use crate::teams::run_team;
use hda_run::Gate;
use message_ledger::Capped;
use owners::Spread;
use std::alloc::Global;
use std::marker::Brand;
use std::sync::Wait;
use std::sync::ledger::{Blank, Ledger};
use std::thread::Threads;
use thread_parts::{NoMemory, Search};
use world_ends::Reading;

/// Two new ledgers, which have no types of their own yet: that of the credit, and that of what is
/// granted.
#[derive(Drop)]
pub(crate) struct Blanks {
    pub(crate) credit: Blank,
    pub(crate) grants: Blank,
}

/// What is found of a search by as many threads as it has workers, in this reading. None exactly
/// where the world of their joined workers is not kept. The error is that memory was refused for
/// what threads begin or end with.
pub fn run_by_threads<A: Reading, R: Threads + Wait + Sync, S: Spread + Sync, G: Gate + Sync>(
    rt: &R,
    alloc: Global,
    search: &Search<'_, S>,
    gate: &G,
) -> Result<Option<A::Answer>, NoMemory>
    ensures { IfOk result (IsFoundByThreads A.gives S.owner_of search.now.job
        search.now.owners.now search.now.workers) }
{
    let blanks = Blanks {
        credit: Blank::new(u64::MAX),
        grants: Blank::new(search.workers as u64),
    };
    run_over::<A, R, S, G, Brand, Brand>(rt, alloc, search, gate, blanks)
}

// The same over these ledgers. That of what is granted knows the limit.
fn run_over<
    A: Reading,
    R: Threads + Wait + Sync,
    S: Spread + Sync,
    G: Gate + Sync,
    L: Ledger + Send + Sync,
    M: Capped + Send + Sync,
>(
    rt: &R,
    alloc: Global,
    search: &Search<'_, S>,
    gate: &G,
    blanks: Blanks,
) -> Result<Option<A::Answer>, NoMemory>
    requires blanks { AreBlanksOf L.name L.parts M.name M.parts blanks }
    requires credit { L.parts + 1 ≡ 2 ^ 64 }
    requires count { search.now.workers ≡ M.parts }
    requires limit { search.now.job.limit ≡ M.limit }
    ensures { IfOk result (IsFoundByThreads A.gives S.owner_of search.now.job
        search.now.owners.now M.parts) }
{
    let team = run_team::<R, S, G, L, M>(rt, alloc, search, gate, blanks)?;
    match outcome_of_joined::<A, S, L, M>(alloc, search, team) {
        Ok(found) => Ok(found),
        Err(refused) => Err(NoMemory::List(refused)),
    }
}
