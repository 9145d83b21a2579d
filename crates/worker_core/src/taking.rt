//! How a worker takes what the moves from a board offer.

ghost use Rattle.std.specs.Prelude.{◌≡◌, ◌≢◌, ◌<◌, ◌≤◌, ◌∷◌, ◌++◌, [], List, Option, Some, IfSome};
ghost use Rattle.std.specs.Prelude.{length};
ghost use Rattle.std.specs.Prelude.{ℕ, slice_set, slice_index_or};
ghost use Rattle.board.specs.Boards.{BoardModel, IsBoard};
ghost use Rattle.outcomes.specs.Outcomes.{Task};
ghost use Rattle.owners.specs.declared.offer.Offer.{Offer};
ghost use Rattle.owners.specs.Offers.{IsOffered};
ghost use Rattle.search_lists.specs.Orders.{Guide};
ghost use Rattle.world_model.specs.declared.limits.TheConstants.{PACKET_LIMIT};
ghost use Rattle.world_model.specs.declared.parts.Item.{Item};
ghost use Rattle.world_model.specs.Workers.{Role};
ghost use Rattle.worker_core.specs.Expanding.{IsReady, stock, AddsUpBy, taken};
ghost use Rattle.worker_core.specs.Roles.{IsGuided};
ghost use Rattle.worker_core.specs.Workers.{state_of, packets_of};

use crate::context::Context;
use crate::packets::Items;
use crate::worker::Worker;
use board::Move;
use message_ledger::Counting;
use owners::{Offer, Spread};
use search_keys::KeyedBoard;
use search_lists::Met;
use world_model::Item;

impl<C: Counting> Worker<C> {
    // Takes what a move offers: relaxes the worker's own board, and puts another's at the end of
    // the packet for its owner.
    pub(crate) fn take<S: Spread>(&mut self, context: &Context<'_, S>, via: Move, offer: &Offer)
        requires { (rest : List (Option Offer)) × IsReady context.now.me context.now.goal.grid
            (stock self.old.lists (packets_of self.old.unsent.items)) (Some offer.now ∷ rest) }
        ensures ready { (rest : List (Option Offer)) → IsReady context.now.me context.now.goal.grid
            (stock self.old.lists (packets_of self.old.unsent.items)) (Some offer.now ∷ rest)
            → IsReady context.now.me context.now.goal.grid
            (stock self.new.lists (packets_of self.new.unsent.items)) rest }
        ensures state { (role : Role) (sum : BoardModel → ℕ) (item : Option Item)
            → role.me ≡ context.now.me → IsOffered sum role.owner item (Some offer.now)
            → IfSome item (λ i. IsBoard i.board × (i.board.grid ≡ context.now.goal.grid))
            → IfSome item (λ i. i.via ≡ via)
            → state_of self.new ≡ taken role (state_of self.old) item }
        ensures allowance { self.new.allowance ≡ self.old.allowance }
        ensures guided { (task : Task) (guide : Guide) → task.goal ≡ context.now.goal
            → AddsUpBy guide offer.now
            → IsGuided task guide self.old.lists → IsGuided task guide self.new.lists }
        ensures workers { length self.new.unsent.items ≡ length self.old.unsent.items }
    {
        if offer.owner == context.me {
            self.lists.relax(context.goal.key(), met_by(*offer, via));
            return;
        }
        let item = Item {
            board: KeyedBoard::of_key(context.goal.shape(), offer.key),
            cost: offer.cost,
            via,
        };
        put_item(&mut self.unsent, offer.owner, item);
    }
}

// What a move offers, as a board that was met.
fn met_by(offer: Offer, via: Move) -> Met
    ensures key { result.key ≡ offer.key }
    ensures cost { result.cost ≡ offer.cost }
    ensures via { result.via ≡ via }
    ensures f { result.f ≡ offer.f }
{
    Met {
        key: offer.key,
        cost: offer.cost,
        via,
        f: offer.f,
    }
}

// Puts an item at the end of the packet for one worker.
#[tactic(auto, using(crate::proofs::GuideLemmas::packet_replaced))]
fn put_item(packets: &mut Vec<Items>, to: usize, item: Item)
    requires there { to < length packets.old.items }
    requires room { length (slice_index_or (packets_of packets.old.items) to []) < PACKET_LIMIT }
    ensures { packets_of packets.new.items ≡ slice_set (packets_of packets.old.items) to
        (slice_index_or (packets_of packets.old.items) to [] ++ item ∷ []) }
{
    packets[to].push(item);
}
