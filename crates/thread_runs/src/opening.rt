//! The parts with which a run begins.

ghost use Rattle.std.specs.Prelude.{◌≡◌, ◌+◌, ◌<◌, ◌≤◌, IfOk};
ghost use Rattle.thread_parts.specs.Rings.{AreNew};
ghost use Rattle.thread_runs.specs.Threads.{IsJoint};

use memory::OutOfMemory;
use message_ledger::{Capped, Credit, Purse, Shares, Tickets};
use owners::Spread;
use std::alloc::Global;
use std::sync::ledger::Ledger;
use thread_parts::{Ends, Means, Rings, Sealed, Search, open_part, take_row};

/// What workers begin with: the credit, the purse that has its 1, and a ticket for each of them.
#[derive(Drop)]
pub(crate) struct Funds<L: Ledger + Send + Sync, M: Capped + Send + Sync> {
    pub(crate) credit: Credit<Shares<L, M>>,
    pub(crate) seed: Purse<Shares<L, M>>,
    pub(crate) tickets: Tickets<M>,
}

/// What each worker begins with: its ends of the rings, an allowance by a ticket of its own, and a
/// purse; that of the start's owner has the 1 of the seed.
pub(crate) fn open_parts<'a, S: Spread, L: Ledger + Send + Sync, M: Capped + Send + Sync>(
    alloc: Global,
    search: &'a Search<'a, S>,
    rings: Rings<Shares<L, M>>,
    funds: &mut Funds<L, M>,
) -> Result<Vec<Sealed<'a, S, Shares<L, M>>>, OutOfMemory>
    requires count { search.now.workers ≡ M.parts }
    requires tickets { funds.old.tickets ≡ search.now.workers }
    requires seed { 0 < funds.old.seed }
    requires rings { AreNew search.now.workers rings.outs.items rings.ins.items }
    ensures joint { IfOk result (λ parts. IsJoint search.now.job search.now.owners.now
        search.now.workers parts.items) }
    ensures taken { IfOk result (λ parts. funds.new.tickets ≡ 0) }
{
    let Rings { mut outs, mut ins } = rings;
    let owner = search.owners.owner(search.job.start(), search.workers);
    let mut parts = memory::with_capacity(alloc, search.workers)?;
    'workers: for me in 0..search.workers {
        let to_each = take_row(alloc, &mut outs, me);
        let from_each = take_row(alloc, &mut ins, me);
        let ends = Ends {
            outs: to_each,
            ins: from_each,
        };
        let means = means_for(me, owner, funds);
        let part = open_part(alloc, search, me, ends, means)?;
        parts.push_reserved(part);
    }
    Ok(parts)
}

// What one worker begins with: the start's owner has the 1 of the seed, each other an empty purse.
fn means_for<L: Ledger + Send + Sync, M: Capped + Send + Sync>(
    me: usize,
    owner: usize,
    funds: &mut Funds<L, M>,
) -> Means<Shares<L, M>>
    requires seed { me ≤ owner → 0 < funds.old.seed }
    requires ticket { 0 < funds.old.tickets }
    ensures mine { owner ≡ me → 0 < result.purse }
    ensures later { me < owner → 0 < funds.new.seed }
    ensures left { funds.new.tickets + 1 ≡ funds.old.tickets }
{
    let allowance = funds.tickets.take::<L>();
    let purse = if me == owner {
        funds.seed.split_one()
    } else {
        funds.credit.empty_purse()
    };
    Means { purse, allowance }
}
