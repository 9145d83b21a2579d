//! Threads that were joined after a run.

ghost use Rattle.std.specs.Prelude.{◌≡◌, ◌+◌, ◌^◌, IfOk};
ghost use Rattle.thread_runs.specs.Threads.{IsJoint};
ghost use Rattle.thread_runs.specs.Ledgers.{AreBlanksOf};

use crate::ledgers::Blanks;
use crate::opening::{Funds, open_parts};
use crate::team::Team;
use hda_run::Gate;
use message_ledger::{Capped, Credit, Grants, Shares};
use owners::Spread;
use quiescence::Book;
use std::alloc::Global;
use std::sync::ledger::Ledger;
use std::sync::{Mutex, Wait};
use std::thread::Threads;
use thread_parts::{NoMemory, Search, open_rings};
use thread_work::{Signs, Site, run_all};

/// Searches with a thread for each worker, over two new ledgers, and returns what is left once all
/// were joined. The error is that memory was refused for what they begin with.
pub(crate) fn run_team<
    'a,
    R: Threads + Wait + Sync,
    S: Spread + Sync,
    G: Gate + Sync,
    L: Ledger + Send + Sync,
    M: Capped + Send + Sync,
>(
    rt: &R,
    alloc: Global,
    search: &'a Search<'a, S>,
    gate: &G,
    blanks: Blanks,
) -> Result<Team<'a, S, L, M>, NoMemory>
    requires blanks { AreBlanksOf L.name L.parts M.name M.parts blanks }
    requires credit { L.parts + 1 ≡ 2 ^ 64 }
    requires count { search.now.workers ≡ M.parts }
    requires limit { search.now.job.limit ≡ M.limit }
    ensures { IfOk result (λ team. IsJoint search.now.job search.now.owners.now M.parts
        team.parts.items) }
{
    let Blanks {
        credit: credit_blank,
        grants: grants_blank,
    } = blanks;
    let (credit, seed) = Credit::<Shares<L, M>>::shared(credit_blank);
    let (grants, tickets) = Grants::<Shares<L, M>>::shared(grants_blank);
    let rings = open_rings(alloc, search.workers)?;
    let mut funds = Funds {
        credit,
        seed,
        tickets,
    };
    let parts = match open_parts(alloc, search, rings, &mut funds) {
        Ok(parts) => parts,
        Err(refused) => return Err(NoMemory::List(refused)),
    };
    let Funds {
        credit,
        tickets,
        ..
    } = funds;
    let book = Book::new(credit, grants, search.job.limit(), search.workers);
    let book = Mutex::new(book);
    let signs = Signs::new();
    let site = Site {
        rt,
        alloc,
        gate,
        signs: &signs,
        book: &book,
    };
    let parts = run_all(&site, parts);
    Ok(Team {
        parts,
        book: book.into_inner(),
        tickets,
    })
}
