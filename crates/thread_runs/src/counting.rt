//! What joined workers have expanded of what was granted.

ghost use Rattle.std.specs.Prelude.{◌≡◌, ◌+◌, ◌*◌, ◌≤◌, length, sum_by};
ghost use Rattle.message_ledger.specs.Spending.{spent};
ghost use Rattle.world_model.specs.declared.limits.TheConstants.{GREATEST_GRANT};
ghost use Rattle.world_ends.specs.Parts.{states_of};

use message_ledger::{Allowance, Capped, Gathered, Grants, Shares, Tickets};
use std::sync::ledger::Ledger;
use worker_core::Worker;

/// How many boards the workers have expanded, where each has its ticket. What was granted is that,
/// and what each worker may still expand: at most one grant for each.
pub(crate) fn count_expanded<L: Ledger + Send + Sync, M: Capped + Send + Sync>(
    tickets: Tickets<M>,
    grants: Grants<Shares<L, M>>,
    workers: Vec<Worker<Shares<L, M>>>,
) -> u64
    requires taken { tickets ≡ 0 }
    requires whole { length workers.items ≡ M.parts }
    ensures sum { result ≡ sum_by (λ worker. worker.expansions) (states_of workers.items) }
    ensures whole { grants ≡ sum_by (λ worker. worker.allowance + worker.expansions)
        (states_of workers.items) }
    ensures within { result ≤ grants }
    ensures spent { grants ≤ result + GREATEST_GRANT * length workers.items }
{
    let mut grants = grants;
    let mut gathered = tickets.gather();
    let mut expanded = 0;
    'workers: for worker in workers {
        expanded += count_one::<L, M>(&mut gathered, &mut grants, worker.into_allowance());
    }
    gathered.audit(&mut grants);
    expanded
}

// Puts a worker's ticket to the others, and answers how many boards were expanded by it.
fn count_one<L: Ledger + Send + Sync, M: Capped + Send + Sync>(
    gathered: &mut Gathered<M>,
    grants: &mut Grants<Shares<L, M>>,
    allowance: Allowance<Shares<L, M>>,
) -> u64
    ensures tickets { gathered.new.tickets ≡ gathered.old.tickets + 1 }
    ensures amount { gathered.new.amount ≡ gathered.old.amount + allowance.granted }
    ensures bound { gathered.new.amount ≤ grants.old }
    ensures grants { grants.new ≡ grants.old }
    ensures sum { result ≡ spent allowance }
    ensures spent { (allowance.granted ≡ allowance.left + result)
        × (allowance.left ≤ GREATEST_GRANT) }
{
    let _ = allowance.left();
    let expanded = allowance.spent();
    gathered.add(allowance);
    gathered.audit(grants);
    expanded
}
