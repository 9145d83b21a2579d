//! The step that takes an item in.

ghost use Rattle.std.specs.Prelude.{◌≡◌, ◌≤◌, OnOk, OnErr, IsTrue, IsFalse};
ghost use Rattle.std.specs.FinMap as map;
ghost use Rattle.board.specs.declared.costs.TheConstants.{GREATEST_COST};
ghost use Rattle.board.specs.Boards.{BoardModel};
ghost use Rattle.open_buckets.specs.declared.open.TheConstants.{GREATEST_F};
ghost use Rattle.search_lists.specs.Lists.{HasMoreRoom};
ghost use Rattle.world_model.specs.Knowledge.{is_news, relaxation};
ghost use Rattle.world_model.specs.Turns.{turn, refusal_in};
ghost use Rattle.worker_core.specs.Contexts.{role_from};
ghost use Rattle.worker_core.specs.Serving.{StayInOrder, KeepsInOrder};
ghost use Rattle.worker_core.specs.Settling.{IsForeign, IsOwn, SettleOrDrop, HasPlaceAt};
ghost use Rattle.worker_core.specs.Settling.{LacksPlaceFor, LacksPlaceForLast};
ghost use Rattle.worker_core.specs.Workers.{IfMemoryRefused, state_of};

use crate::context::Context;
use crate::worker::Worker;
use board::GREATEST_COST;
use memory::OutOfMemory;
use message_ledger::Counting;
use owners::Spread;
use search_lists::{Met, SearchLists};
use std::alloc::Global;
use world_model::{Item, Refusal};

impl<C: Counting> Worker<C> {
    /// Takes the last held item out, and relaxes its board. A foreign item is dropped: its board
    /// has other sides than the goal, another worker owns it, or its cost is above
    /// `GREATEST_COST`. Refusals: S13 nothing is held, S8 memory was refused, which happens only
    /// where there was no place for the board.
    pub fn settle<S: Spread>(
        &mut self,
        alloc: Global,
        context: &Context<'_, S>,
    ) -> Result<(), Refusal>
        ensures step { (start : BoardModel) → SettleOrDrop (role_from S.owner_of start context.now)
            (turn (state_of self.old) (refusal_in result) (state_of self.new)) }
        ensures refused { IfMemoryRefused result (LacksPlaceForLast context.now
            self.old.held.items self.old.lists) }
        ensures keeps { KeepsInOrder context.now self.old self.new }
    {
        let Some(item) = self.held.last() else {
            return Err(Refusal::NothingThere);
        };
        if is_foreign(context, item) {
            self.held.pop();
            return Ok(());
        }
        if let Err(refused) = relax_item(&mut self.lists, alloc, context, item) {
            return Err(Refusal::Memory(refused));
        }
        self.held.pop();
        Ok(())
    }

    /// Relaxes a board, as the start before the first step. It is refused only where there was no
    /// place for the board, and nothing has changed then.
    pub fn meet<S: Spread>(
        &mut self,
        alloc: Global,
        context: &Context<'_, S>,
        item: &Item,
    ) -> Result<(), OutOfMemory>
        requires board { item.now.board.grid ≡ context.now.goal.grid }
        requires cost { item.now.cost ≤ GREATEST_COST }
        ensures ok { OnOk result (state_of self.new ≡ record (state_of self.old) {
          known = relaxation (state_of self.old).known item.now;
        }) }
        ensures err { OnErr result (state_of self.new ≡ state_of self.old) }
        ensures refused { OnErr result (LacksPlaceFor context.now item.now self.old.lists) }
        ensures keeps { KeepsInOrder context.now self.old self.new }
    {
        relax_item(&mut self.lists, alloc, context, item)
    }
}

// Whether an item is foreign. One worker alone owns all boards.
fn is_foreign<S: Spread>(context: &Context<'_, S>, item: &Item) -> bool
    ensures yes { IsTrue result → (start : BoardModel)
        → IsForeign (role_from S.owner_of start context.now) item.now }
    ensures no { IsFalse result → (start : BoardModel)
        → IsOwn (role_from S.owner_of start context.now) item.now }
{
    if item.board.shape() != context.goal.shape() {
        return true;
    }
    if item.cost > GREATEST_COST {
        return true;
    }
    if context.workers == 1 {
        return false;
    }
    context.owners.owner_by_key(&item.board, context.workers) != context.me
}

// Relaxes the board of an item. All memory is taken before the first change, and is refused only
// where the board's cost is news and there was no place for it.
fn relax_item<S: Spread>(
    lists: &mut SearchLists,
    alloc: Global,
    context: &Context<'_, S>,
    item: &Item,
) -> Result<(), OutOfMemory>
    requires board { item.now.board.grid ≡ context.now.goal.grid }
    requires cost { item.now.cost ≤ GREATEST_COST }
    ensures ok { OnOk result (lists.new.closed.known ≡ relaxation lists.old.closed.known item.now) }
    ensures err { OnErr result (lists.new.closed.known ≡ lists.old.closed.known) }
    ensures refused { OnErr result (LacksPlaceFor context.now item.now lists.old) }
    ensures lists { StayInOrder context.now lists.old lists.new }
{
    let key = item.board.key();
    if !brings_news(lists, key, item.cost) {
        return Ok(());
    }
    let met = Met {
        key,
        cost: item.cost,
        via: item.via,
        f: item.cost + context.bound.of_keyed(&item.board),
    };
    make_place(lists, alloc, met.f)?;
    lists.relax(context.goal.key(), met);
    Ok(())
}

// Whether a cost of a board is news. Finding what is known of it is much cheaper than its sum.
fn brings_news(lists: &SearchLists, key: u128, cost: u32) -> bool
    ensures { result ≡ is_news (map.get lists.now.closed.known key) cost }
{
    match lists.get(key) {
        Some(known) => cost < known.cost,
        None => true,
    }
}

// Makes a place for one board more, which waits at an f. It is refused only where there was none.
fn make_place(lists: &mut SearchLists, alloc: Global, f: u32) -> Result<(), OutOfMemory>
    requires { f ≤ GREATEST_F }
    ensures made { OnOk result (HasPlaceAt f lists.new) }
    ensures refused { OnErr result (¬ HasPlaceAt f lists.old) }
    ensures same { HasMoreRoom lists.old lists.new }
{
    lists.reserve_boards(alloc, 1)?;
    lists.reserve_places(alloc, f, 1)
}
