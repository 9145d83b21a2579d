//! The step that expands a board.

ghost use Rattle.std.specs.Prelude.{ℕ, ◌≡◌, ◌<◌, ◌≤◌, ◌+◌, length, IfSome};
ghost use Rattle.std.specs.Prelude.{◌≢◌, Option};
ghost use Rattle.std.specs.FinMap as map;
ghost use Rattle.search_keys.specs.SearchKeys.{search_key};
ghost use Rattle.board.specs.Boards.{BoardModel, IsBoard};
ghost use Rattle.closed_table.specs.Tables.{table_closure};
ghost use Rattle.open_buckets.specs.OpenLists.{places_at};
ghost use Rattle.open_buckets.specs.declared.open.TheConstants.{GREATEST_F};
ghost use Rattle.owners.specs.Offers.{item_by, AreOffered, OfEach};
ghost use Rattle.outcomes.specs.Outcomes.{Task};
ghost use Rattle.successor_sums.specs.Unpacked.{but};
ghost use Rattle.search_lists.specs.Orders.{Guide, IsInOrder, IsFirst};
ghost use Rattle.world_model.specs.declared.parts.Item.{Item};
ghost use Rattle.world_model.specs.declared.parts.Known.{Known};
ghost use Rattle.world_model.specs.Expansions.{expansion_by, moves_but};
ghost use Rattle.world_model.specs.Turns.{turn, refusal_in};
ghost use Rattle.world_model.specs.Workers.{Role, KnowsAs};
ghost use Rattle.worker_core.specs.Ahead.{AreFoundAhead, terms_of};
ghost use Rattle.worker_core.specs.Contexts.{role_from};
ghost use Rattle.worker_core.specs.Expanding.{IsReady, stock, AddsUpBy, all_taken, in_turn};
ghost use Rattle.worker_core.specs.Expanding.{left_out_by, ExpandStepFor, HasPlaces, HasAllPlaces};
ghost use Rattle.worker_core.specs.Expanding.{MakesRoom};
ghost use Rattle.worker_core.specs.Expanding.{LacksPlacesToExpand};
ghost use Rattle.worker_core.specs.Roles.{IsGuided};
ghost use Rattle.worker_core.specs.Serving.{Serves, KeepsServing};
ghost use Rattle.worker_core.specs.Workers.{IfMemoryRefused, state_of, packets_of};

use crate::ahead::Ahead;
use crate::context::Context;
use crate::worker::Worker;
use board::Move;
use memory::OutOfMemory;
use message_ledger::{Allowance, Counting};
use owners::{Offer, Spread, has_room};
use search_lists::{Next, SearchLists};
use std::alloc::Global;
use successor_sums::{ByMoves, MOVES};
use world_model::Refusal;

/// The successors of a board that an expansion takes.
#[derive(Clone, Copy, Debug, PartialEq, Eq)]
pub enum Successors {
    /// Those by all moves.
    All,
    /// Those by all moves but the one back, to the board before the last move, where the board's
    /// cost is above 0. The worker that made that cost known knows the board before.
    Onward,
}

impl<C: Counting> Worker<C> {
    /// Expands a board of least cost plus sum: relaxes the successors that this worker owns, and
    /// puts the others into the packets for their owners. Refusals: S1 no board may be expanded
    /// below the limit, S2 no allowance is left, S3 a packet has no room, S8 memory was refused,
    /// which happens only where there were too few places for the successors.
    pub fn expand<S: Spread>(
        &mut self,
        alloc: Global,
        context: &Context<'_, S>,
        ahead: &mut Ahead,
        successors: Successors,
    ) -> Result<(), Refusal>
        requires serves { Serves context.now self.old }
        requires ahead { AreFoundAhead S.owner_of (terms_of context.now) ahead.old }
        ensures step { (start : BoardModel)
            → ExpandStepFor successors (role_from S.owner_of start context.now)
            (turn (state_of self.old) (refusal_in result) (state_of self.new)) }
        ensures refused { IfMemoryRefused result ((start : BoardModel)
            → LacksPlacesToExpand successors (role_from S.owner_of start context.now)
            (state_of self.old) self.old.lists) }
        ensures keeps { KeepsServing context.now self.old self.new }
        ensures ahead { AreFoundAhead S.owner_of (terms_of context.now) ahead.new }
    {
        let Some(next) = self.lists.next(self.best.limit()) else {
            return Err(Refusal::NothingBelowLimit);
        };
        if self.allowance.left() == 0 {
            return Err(Refusal::NoAllowance);
        }
        let place = ahead.find(&mut self.lists, context, next, successors);
        let offers = ahead.offers(place);
        if !has_room(&self.unsent, context.me, offers) {
            return Err(Refusal::NoRoom);
        }
        if let Err(refused) = make_places(&mut self.lists, alloc, context.me, offers) {
            return Err(Refusal::Memory(refused));
        }
        self.expand_next(context, next, offers);
        Ok(())
    }

    // Closes a board, which counts as an expansion, and takes what its moves offer.
    fn expand_next<S: Spread>(
        &mut self,
        context: &Context<'_, S>,
        next: Next,
        offers: &ByMoves<Offer>,
    )
        requires first { IsFirst self.old.lists next }
        requires allowed { 0 < self.old.allowance.left }
        requires granted { self.old.allowance.left ≤ self.old.allowance.granted }
        requires ready { IsReady context.now.me context.now.goal.grid (stock self.old.lists
            (packets_of self.old.unsent.items)) (in_turn offers.now) }
        ensures state { (role : Role) (sum : BoardModel → ℕ) (b : BoardModel) (known : Known)
            (left_out : Option Move) → role.me ≡ context.now.me → IsBoard b
            → b.grid ≡ context.now.goal.grid
            → search_key b ≡ next.key → KnowsAs (state_of self.old) b known
            → AreOffered sum role.owner (but left_out (item_by role.task.rule b known.cost)) offers.now
            → state_of self.new
            ≡ expansion_by (moves_but left_out) role (state_of self.old) b known }
        ensures guided { (task : Task) (guide : Guide) → task.goal ≡ context.now.goal
            → OfEach (AddsUpBy guide) offers.now
            → IsGuided task guide self.old.lists → IsGuided task guide self.new.lists }
        ensures workers { length self.new.unsent.items ≡ length self.old.unsent.items }
        ensures granted { self.new.allowance.granted ≡ self.old.allowance.granted }
    {
        close_next(&mut self.lists, &mut self.allowance, next);
        self.take_all(context, offers);
    }

    // Takes what the moves offer, in their order.
    fn take_all<S: Spread>(&mut self, context: &Context<'_, S>, offers: &ByMoves<Offer>)
        requires { IsReady context.now.me context.now.goal.grid (stock self.old.lists
            (packets_of self.old.unsent.items)) (in_turn offers.now) }
        ensures state { (role : Role) (sum : BoardModel → ℕ) (items : Move → Option Item)
            → role.me ≡ context.now.me → AreOffered sum role.owner items offers.now
            → ((m : Move) → IfSome (items m) (λ i. IsBoard i.board
            × (i.board.grid ≡ context.now.goal.grid)))
            → ((m : Move) → IfSome (items m) (λ i. i.via ≡ m))
            → state_of self.new ≡ all_taken role (state_of self.old) items }
        ensures guided { (task : Task) (guide : Guide) → task.goal ≡ context.now.goal
            → OfEach (AddsUpBy guide) offers.now
            → IsGuided task guide self.old.lists → IsGuided task guide self.new.lists }
        ensures workers { length self.new.unsent.items ≡ length self.old.unsent.items }
        ensures allowance { self.new.allowance ≡ self.old.allowance }
    {
        'offers: for place in 0..offers.len() {
            let (via, offer) = offers.entry(place);
            self.take(context, via, &offer);
        }
    }
}

// The move from a board that is left out: the one back, where that is asked for and the cost of
// the board is above 0.
pub(crate) fn move_left_out(next: Next, successors: Successors) -> Option<Move>
    ensures { (known : Known) → known.cost ≡ next.cost → known.via ≡ next.via
        → result ≡ left_out_by successors known }
{
    if successors == Successors::All {
        return None;
    }
    if next.cost == 0 {
        return None;
    }
    Some(next.via.undo())
}

// Closes the board that is next, which takes 1 of the allowance.
fn close_next<C: Counting>(lists: &mut SearchLists, allowance: &mut Allowance<C>, next: Next)
    requires first { IsFirst lists.old next }
    requires allowed { 0 < allowance.old.left }
    ensures closed { lists.new.closed ≡ table_closure lists.old.closed next.key
        (map.get lists.old.closed.known next.key) }
    ensures places { (h : ℕ) → places_at lists.old.waiting h ≤ places_at lists.new.waiting h }
    ensures order { (guide : Guide) → IsInOrder guide lists.old → IsInOrder guide lists.new }
    ensures granted { allowance.new.granted ≡ allowance.old.granted }
    ensures left { allowance.new.left + 1 ≡ allowance.old.left }
{
    lists.close(next);
    allowance.spend();
}

// Makes places for as many boards more as there are moves, and for as many at the f of each that
// this worker owns: several may have the same. It is refused only where some of these are missing,
// and where none is, nothing changes. At any other f no place is made.
fn make_places(
    lists: &mut SearchLists,
    alloc: Global,
    me: usize,
    offers: &ByMoves<Offer>,
) -> Result<(), OutOfMemory>
    requires { OfEach (λ offer. offer.f ≤ GREATEST_F) offers.now }
    ensures makes { MakesRoom (λ made. HasAllPlaces me made offers.now) result lists.old lists.new }
    ensures others { (h : ℕ) → OfEach (λ offer. offer.owner ≡ me → offer.f ≢ h) offers.now
        → places_at lists.new.waiting h ≡ places_at lists.old.waiting h }
{
    lists.reserve_boards(alloc, MOVES)?;
    'offers: for place in 0..offers.len() {
        let (_, offer) = offers.entry(place);
        make_places_at(lists, alloc, me, &offer)?;
    }
    Ok(())
}

// Makes as many places as there are moves at the f of what is offered, where this worker owns it
// and there are fewer, and none at another f.
fn make_places_at(
    lists: &mut SearchLists,
    alloc: Global,
    me: usize,
    offer: &Offer,
) -> Result<(), OutOfMemory>
    requires { offer.now.f ≤ GREATEST_F }
    ensures makes { MakesRoom (λ made. HasPlaces me made offer.now) result lists.old lists.new }
    ensures other { offer.now.owner ≢ me → lists.new ≡ lists.old }
    ensures others { (h : ℕ) → h ≢ offer.now.f
        → places_at lists.new.waiting h ≡ places_at lists.old.waiting h }
    ensures boards { lists.new.closed ≡ lists.old.closed }
{
    if offer.owner != me || lists.has_places(offer.f, MOVES) {
        return Ok(());
    }
    lists.reserve_places(alloc, offer.f, MOVES)
}
