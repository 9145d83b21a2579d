//! A worker.

ghost use Rattle.std.specs.Prelude.{◌≡◌, ◌<◌, ◌≤◌, ◌+◌, IfOk, length};
ghost use Rattle.message_ledger.specs.Spending.{spent};
ghost use Rattle.world_model.specs.declared.limits.TheConstants.{PACKET_LIMIT, WORKER_LIMIT};
ghost use Rattle.world_model.specs.Costs.{limit_of};
ghost use Rattle.world_model.specs.Workers.{packet_for};
ghost use Rattle.search_lists.specs.Lists.{empty_lists, HasMoreRoom};
ghost use Rattle.worker_core.specs.Workers.{state_of, BeginsWith};

use crate::packets::{Items, new_packets};
use arrayvec::ArrayVec;
use incumbent::Best;
use memory::OutOfMemory;
use message_ledger::{Allowance, Counting, Purse};
use search_lists::SearchLists;
use std::alloc::Global;
use world_model::{Item, WORKER_LIMIT};

/// One worker: what it knows, holds and may do. Its steps leave it as it was where they are
/// refused.
#[derive(Drop)]
pub struct Worker<C: Counting> {
    /// The boards that it knows, and which of them are open.
    pub(crate) lists: SearchLists,
    /// What is left of the packet that it took in last.
    pub(crate) held: Items,
    /// For each worker what is to be sent to it next.
    pub(crate) unsent: Vec<Items>,
    pub(crate) purse: Purse<C>,
    pub(crate) allowance: Allowance<C>,
    /// Its copy of the best cost.
    pub(crate) best: Best,
}

impl<C: Counting> Worker<C> {
    /// One of `workers` workers. It knows nothing and holds nothing.
    pub fn new(
        alloc: Global,
        workers: usize,
        purse: Purse<C>,
        allowance: Allowance<C>,
    ) -> Result<Self, OutOfMemory>
        requires { workers ≤ WORKER_LIMIT }
        ensures { IfOk result (BeginsWith workers purse allowance empty_lists) }
    {
        Worker::with_lists(alloc, workers, purse, allowance, SearchLists::new(alloc))
    }

    /// One of `workers` workers with these lists. They know nothing, but may have memory from a
    /// search before.
    pub fn with_lists(
        alloc: Global,
        workers: usize,
        purse: Purse<C>,
        allowance: Allowance<C>,
        lists: SearchLists,
    ) -> Result<Self, OutOfMemory>
        requires few { workers ≤ WORKER_LIMIT }
        requires empty { HasMoreRoom empty_lists lists }
        ensures { IfOk result (BeginsWith workers purse allowance lists) }
    {
        let unsent = new_packets(alloc, workers)?;
        Ok(Worker {
            lists,
            held: ArrayVec::new(),
            unsent,
            purse,
            allowance,
            best: Best::new(),
        })
    }

    /// The boards that it knows, without it.
    pub fn into_lists(self) -> SearchLists
        ensures { result ≡ self.lists }
    {
        self.lists
    }

    /// How many workers there are.
    pub fn workers(&self) -> usize
        ensures { result ≡ length self.now.unsent.items }
    {
        self.unsent.len()
    }

    /// The boards that it knows.
    pub fn lists(&self) -> &SearchLists
        ensures { result.now ≡ self.now.lists }
    {
        &self.lists
    }

    /// Lets it put what waits at its least f in order of cost once more before it takes the next
    /// board, so that one of the greatest cost comes first. Boards that are put there later are
    /// taken before those. Nothing changes that contracts speak of.
    pub fn order_anew(&mut self)
        ensures { self.new ≡ self.old }
    {
        self.lists.order_anew();
    }

    /// The items that it holds.
    pub fn held(&self) -> &[Item]
        ensures { result.now ≡ (state_of self.now).held }
    {
        self.held.as_slice()
    }

    /// What is to be sent to worker `to` next.
    #[tactic(auto, using(crate::proofs::GuideLemmas::packet_for_read))]
    pub fn unsent(&self, to: usize) -> &[Item]
        requires { to < length self.now.unsent.items }
        ensures value { result.now ≡ packet_for (state_of self.now) to }
        ensures few { length result.now ≤ PACKET_LIMIT }
    {
        self.unsent[to].as_slice()
    }

    /// What it has of the credit.
    pub fn purse(&self) -> u64
        ensures { result ≡ (state_of self.now).purse }
    {
        self.purse.amount()
    }

    /// How many boards it may still expand.
    pub fn allowance(&self) -> u32
        ensures value { result ≡ (state_of self.now).allowance }
        ensures counted { self.now.allowance.left + spent self.now.allowance
            ≡ self.now.allowance.granted }
    {
        self.allowance.left()
    }

    /// How many boards it has expanded.
    pub fn expansions(&self) -> u64
        ensures { result ≡ (state_of self.now).expansions }
    {
        self.allowance.spent()
    }

    /// Its copy of the best cost.
    pub fn best(&self) -> Best
        ensures { result ≡ (state_of self.now).best }
    {
        self.best
    }

    /// A board with this cost plus sum, or a greater one, is not expanded by this worker.
    pub fn limit(&self) -> u32
        ensures { result ≡ limit_of (state_of self.now).best }
    {
        self.best.limit()
    }
}
