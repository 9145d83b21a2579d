//! What the moves of boards that are taken together offer, found before they are expanded.

ghost use Rattle.std.specs.Prelude.{ℕ, ◌≡◌, ◌≤◌, ◌<◌, All, Some, Option, length, slice_get};
ghost use Rattle.std.specs.Prelude.{IfSome, IsTrue};
ghost use Rattle.board.specs.Boards.{BoardModel};
ghost use Rattle.board.specs.declared.costs.TheConstants.{GREATEST_EXPANDED_COST};
ghost use Rattle.board.specs.declared.moves.Move.{Move};
ghost use Rattle.owners.specs.Offers.{Offers};
ghost use Rattle.owners.specs.Terms.{TermsModel};
ghost use Rattle.search_lists.specs.Orders.{Guide, IsWaiting};
ghost use Rattle.world_model.specs.declared.parts.Known.{Known};
ghost use Rattle.worker_core.specs.Ahead.{AreOffersOf, IsFoundAhead, IsOf, AreFoundAhead, AreAt, IsThere};
ghost use Rattle.worker_core.specs.Ahead.{AddsUpAs, terms_of};
ghost use Rattle.worker_core.specs.Contexts.{task_from};
ghost use Rattle.worker_core.specs.Expanding.{left_out_by};
ghost use Rattle.worker_core.specs.Roles.{IsGuided};

use crate::context::Context;
use crate::expanding::{Successors, move_left_out};
use board::Move;
use owners::{Offer, Origin, Spread, Terms, no_offers, offers_of};
use search_keys::KeyedBoard;
use search_lists::{BATCH, BOARDS_IN_CACHE, Next, SearchLists};
use std::alloc::Global;
use successor_sums::ByMoves;

/// What the moves from a board offer, with what it was found for.
#[derive(Drop)]
pub struct Found {
    /// The board, by its key.
    pub(crate) key: u128,
    /// What it costs to reach it.
    pub(crate) cost: u32,
    /// The move that is left out.
    pub(crate) left_out: Option<Move>,
    pub(crate) offers: ByMoves<Offer>,
}

/// What the moves from boards that are taken together offer, so that the reads of memory for one
/// overlap with those for another. Workers of one search may share it.
#[derive(Drop)]
pub struct Ahead {
    // What the moves from one board offer, where few boards are known.
    pub(crate) one: ByMoves<Offer>,
    // For the boards that are taken together. Nothing in a search that never knows many.
    pub(crate) batch: Vec<Found>,
    // From where on the next board is looked for.
    pub(crate) turn: usize,
}

impl Ahead {
    /// Nothing was found yet.
    pub fn new<S: Spread>(alloc: Global) -> Self
        ensures { (terms : TermsModel S) → AreFoundAhead S.owner_of terms result }
    {
        Ahead {
            one: no_offers(),
            batch: Vec::new(alloc),
            turn: 0,
        }
    }

    /// Finds what the moves from the next board offer, and answers where it is. Where many boards
    /// are known, it is found for the boards that are taken together, and what is known of their
    /// successors is read ahead.
    #[inline(always)]
    pub(crate) fn find<S: Spread>(
        &mut self,
        lists: &mut SearchLists,
        context: &Context<'_, S>,
        next: Next,
        successors: Successors,
    ) -> Option<usize>
        requires found { AreFoundAhead S.owner_of (terms_of context.now) self.old }
        requires waits { IsWaiting lists.old next }
        requires low { next.f ≤ GREATEST_EXPANDED_COST }
        requires guided { (start : BoardModel) × (guide : Guide)
            × IsGuided (task_from start context.now) guide lists.old }
        ensures found { AreFoundAhead S.owner_of (terms_of context.now) self.new }
        ensures lists { lists.new ≡ lists.old }
        ensures there { IsThere self.new result }
        ensures offers { (left_out : Option Move)
            × ((known : Known) → known.cost ≡ next.cost → known.via ≡ next.via
            → left_out ≡ left_out_by successors known)
            × ((offers : Offers) → AreAt self.new result offers
            → AreOffersOf S.owner_of (terms_of context.now) next.key next.cost left_out offers) }
    {
        let left_out = move_left_out(next, successors);
        if lists.len() < BOARDS_IN_CACHE {
            write_offers(context, next, left_out, &mut self.one);
            return None;
        }
        if let Some(place) = place_of(&self.batch, self.turn, next, left_out) {
            self.turn = place.saturating_add(1);
            return Some(place);
        }
        fill(&mut self.batch, lists, context, next, successors);
        if self.batch.is_empty() {
            write_offers(context, next, left_out, &mut self.one);
            return None;
        }
        write_found(context, next, left_out, &mut self.batch[0]);
        read_ahead(lists, context.me, &self.batch[0].offers);
        self.turn = 1;
        Some(0)
    }

    /// What was found, by its place.
    #[inline(always)]
    pub(crate) fn offers(&self, place: Option<usize>) -> &ByMoves<Offer>
        requires { IsThere self.now place }
        ensures { AreAt self.now place result.now }
    {
        let Some(place) = place else {
            return &self.one;
        };
        &self.batch[place].offers
    }
}

// Where the offers of a board are, from a place on.
#[inline(always)]
fn place_of(batch: &[Found], from: usize, next: Next, left_out: Option<Move>) -> Option<usize>
    ensures { IfSome result (λ place. (found : Found) × (slice_get batch.now place ≡ Some found)
        × IsOf next.key next.cost left_out found) }
{
    'places: for place in from..batch.len() {
        if is_of(&batch[place], next, left_out) {
            return Some(place);
        }
    }
    None
}

// Whether it was found for this board, at its cost, with this move left out.
#[inline(always)]
fn is_of(found: &Found, next: Next, left_out: Option<Move>) -> bool
    ensures { IsTrue result → IsOf next.key next.cost left_out found.now }
{
    found.key == next.key && found.cost == next.cost && found.left_out == left_out
}

// Finds what the moves from the boards offer that are taken together with the next one, for which
// the first place is left. Reads ahead what is known of their successors.
#[inline(never)]
fn fill<S: Spread>(
    batch: &mut Vec<Found>,
    lists: &mut SearchLists,
    context: &Context<'_, S>,
    next: Next,
    successors: Successors,
)
    requires found { All (IsFoundAhead S.owner_of (terms_of context.now)) batch.old.items }
    requires waits { IsWaiting lists.old next }
    requires low { next.f ≤ GREATEST_EXPANDED_COST }
    requires guided { (start : BoardModel) × (guide : Guide)
        × IsGuided (task_from start context.now) guide lists.old }
    ensures found { All (IsFoundAhead S.owner_of (terms_of context.now)) batch.new.items }
    ensures lists { lists.new ≡ lists.old }
{
    make_batch(batch, context, next, successors);
    let count = write_upcoming(batch, lists, context, next.f, successors);
    read_all(batch, count, lists, context.me);
}

// Makes places for all boards that are taken together, where there is memory. A new place first has
// what the moves from the next board offer.
fn make_batch<S: Spread>(
    batch: &mut Vec<Found>,
    context: &Context<'_, S>,
    next: Next,
    successors: Successors,
)
    requires found { All (IsFoundAhead S.owner_of (terms_of context.now)) batch.old.items }
    requires adds { AddsUpAs context.now next }
    ensures { All (IsFoundAhead S.owner_of (terms_of context.now)) batch.new.items }
{
    'places: while batch.len() < BATCH {
        let mut found = Found {
            key: next.key,
            cost: next.cost,
            left_out: None,
            offers: no_offers(),
        };
        write_found(context, next, move_left_out(next, successors), &mut found);
        if memory::push(batch, found).is_err() {
            return;
        }
    }
}

// Finds what the moves from the boards offer that come next at this f. Answers how many places are
// written, with the first one, which is left as it is.
fn write_upcoming<S: Spread>(
    batch: &mut Vec<Found>,
    lists: &SearchLists,
    context: &Context<'_, S>,
    f: u32,
    successors: Successors,
) -> usize
    requires found { All (IsFoundAhead S.owner_of (terms_of context.now)) batch.old.items }
    requires low { f ≤ GREATEST_EXPANDED_COST }
    requires guided { (start : BoardModel) × (guide : Guide)
        × IsGuided (task_from start context.now) guide lists.now }
    ensures { All (IsFoundAhead S.owner_of (terms_of context.now)) batch.new.items }
{
    let mut count = 1;
    'places: while count < batch.len() {
        let Some(next) = lists.upcoming(count - 1) else {
            return count;
        };
        if next.f != f {
            return count;
        }
        let left_out = move_left_out(next, successors);
        write_found(context, next, left_out, &mut batch[count]);
        count += 1;
    }
    count
}

// Reads ahead what is known of the boards that are offered in the first places but the very first,
// where this worker owns them.
fn read_all(batch: &[Found], count: usize, lists: &mut SearchLists, me: usize)
    ensures { lists.new ≡ lists.old }
{
    'places: for place in 1..count.min(batch.len()) {
        read_ahead(lists, me, &batch[place].offers);
    }
}

// Reads ahead what is read of the boards that this worker owns, so that the reads of memory
// overlap.
fn read_ahead(lists: &mut SearchLists, me: usize, offers: &ByMoves<Offer>)
    ensures { lists.new ≡ lists.old }
{
    'offers: for place in 0..offers.len() {
        let (_, offer) = offers.entry(place);
        if offer.owner == me {
            lists.read_ahead(offer.key);
        }
    }
}

// Finds what the moves from a board offer.
#[inline(always)]
fn write_found<S: Spread>(
    context: &Context<'_, S>,
    next: Next,
    left_out: Option<Move>,
    found: &mut Found,
)
    requires { AddsUpAs context.now next }
    ensures found { IsFoundAhead S.owner_of (terms_of context.now) found.new }
    ensures of { IsOf next.key next.cost left_out found.new }
{
    found.key = next.key;
    found.cost = next.cost;
    found.left_out = left_out;
    write_offers(context, next, left_out, &mut found.offers);
}

// Writes what the moves from a board offer.
#[inline(always)]
fn write_offers<S: Spread>(
    context: &Context<'_, S>,
    next: Next,
    left_out: Option<Move>,
    offers: &mut ByMoves<Offer>,
)
    requires { AddsUpAs context.now next }
    ensures { AreOffersOf S.owner_of (terms_of context.now) next.key next.cost left_out offers.new }
{
    let board = KeyedBoard::of_key(context.goal.shape(), next.key);
    let origin = Origin {
        board: &board,
        cost: next.cost,
        sum: next.f - next.cost,
    };
    let terms = Terms {
        weights: context.weights,
        bound: context.bound,
        owners: context.owners,
        workers: context.workers,
    };
    offers_of(&origin, &terms, left_out, offers);
}
