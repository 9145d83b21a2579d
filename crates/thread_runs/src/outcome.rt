//! The outcome of a run by threads.

ghost use Rattle.std.specs.Prelude.{◌≡◌, IfOk};
ghost use Rattle.world_model.specs.Books.{BookState};
ghost use Rattle.world_model.specs.Worlds.{WorldState};
ghost use Rattle.world_ends.specs.Parts.{states_of};
ghost use Rattle.thread_runs.specs.Threads.{IsJoint};
ghost use Rattle.thread_runs.specs.Threads.{IsFoundByThreads, IsFoundWithBook, GivesIfKept};
ghost use Rattle.thread_runs.specs.Worlds.{IsWorldOf};

use crate::apart::Joined;
use crate::counting::count_expanded;
use crate::looks::is_kept;
use crate::lowest::lowest_in_rows;
use crate::team::Team;
use crate::world::join_world;
use hda_run::asked_in;
use memory::OutOfMemory;
use message_ledger::{Capped, Tokens};
use owners::Spread;
use quiescence::Book;
use std::alloc::Global;
use std::sync::ledger::Ledger;
use thread_parts::{Receiver, Search};
use worker_core::Worker;
use world_ends::{Reading, Snapshot, read};
use world_model::Stop;

/// The outcome of a run whose threads were all joined. None exactly where the world that their
/// parts make is not kept: a thread could not be started, or the book says what the workers do not
/// bear out. The error is that memory was refused for taking the parts apart. The contract says it
/// of some world of joined workers that has the team's book, since contracts don't see into sealed
/// parts; `outcome_if_kept` says it of each world that these parts make.
pub fn outcome_of_joined<A: Reading, S: Spread, L: Ledger + Send + Sync, M: Capped + Send + Sync>(
    alloc: Global,
    search: &Search<'_, S>,
    team: Team<'_, S, L, M>,
) -> Result<Option<A::Answer>, OutOfMemory>
    requires count { search.now.workers ≡ M.parts }
    requires limit { search.now.job.limit ≡ M.limit }
    requires joint { IsJoint search.now.job search.now.owners.now M.parts team.parts.items }
    ensures found { IfOk result (IsFoundByThreads A.gives S.owner_of search.now.job
        search.now.owners.now M.parts) }
    ensures book { IfOk result (IsFoundWithBook A.gives S.owner_of search.now.job
        search.now.owners.now M.parts team.entry.book) }
{
    let Team {
        parts,
        mut book,
        tickets,
    } = team;
    let joined = join_world(alloc, &mut book, parts)?;
    let Joined {
        mut workers,
        ins,
        ..
    } = joined;
    let found = outcome_if_kept::<A, _, _>(alloc, search, &book, &mut workers, ins);
    let _ = book.stop();
    count_expanded::<L, M>(tickets, book.into_grants(), workers);
    Ok(found)
}

// What workers and what is left in their rings give, exactly where their world is kept.
fn outcome_if_kept<A: Reading, C: Tokens, S: Spread>(
    alloc: Global,
    search: &Search<'_, S>,
    book: &Book<C>,
    workers: &mut [Worker<C>],
    ins: Vec<Vec<Receiver<C>>>,
) -> Option<A::Answer>
    requires count { search.now.workers ≡ C.workers }
    requires limit { search.now.job.limit ≡ C.limit }
    requires world { (w : WorldState) × IsWorldOf S.owner_of search.now.job
        search.now.owners.now C.workers book.now workers.old ins.items w }
    ensures given { (w : WorldState) → IsWorldOf S.owner_of search.now.job
        search.now.owners.now C.workers book.now workers.old ins.items w
        → GivesIfKept A.gives w result }
    ensures same { states_of workers.new ≡ states_of workers.old }
{
    if !is_kept(search, book, workers) {
        return None;
    }
    let stop = book.stop();
    Some(outcome_with::<A, _, _>(alloc, search, stop, workers, ins))
}

// The same, whether it is kept or not.
fn outcome_with<A: Reading, C: Tokens, S: Spread>(
    alloc: Global,
    search: &Search<'_, S>,
    stop: Option<Stop>,
    workers: &mut [Worker<C>],
    ins: Vec<Vec<Receiver<C>>>,
) -> A::Answer
    requires { (book : BookState) × (w : WorldState) × IsWorldOf S.owner_of search.now.job
        search.now.owners.now C.workers book workers.old ins.items w }
    ensures given { (book : BookState) (w : WorldState) → IsWorldOf S.owner_of search.now.job
        search.now.owners.now C.workers book workers.old ins.items w
        → book.stop ≡ stop → A.gives w result }
    ensures same { states_of workers.new ≡ states_of workers.old }
{
    let lanes = lowest_in_rows(search.job.bound(), ins, None);
    let asked = asked_in(&search.job);
    read::<A, C, S>(
        alloc,
        &asked,
        search.owners,
        workers,
        Snapshot { lanes, stop },
    )
}
