//! Known boards, and the places of those that wait to be expanded.

ghost use Rattle.std.specs.Prelude.{◌≡◌, ◌≢◌, ◌⊎◌, ◌↔◌, ◌<◌, ◌≤◌, ◌+◌, ◌^◌, ℕ, None, Some, OnOk};
ghost use Rattle.std.specs.Prelude.{OnErr};
ghost use Rattle.std.specs.Prelude.{false, true, length, max, slice_index, slice_get, IfSome};
ghost use Rattle.std.specs.Prelude.{IfNone, MatchOption, IsTrue, IsFalse};
ghost use Rattle.std.specs.FinMap as map;
ghost use Rattle.closed_table.specs.Tables.{IsTable, empty_table, table_relaxation, table_closure};
ghost use Rattle.closed_table.specs.declared.table.Relaxed.TheVariants.{Kept};
ghost use Rattle.open_buckets.specs.declared.open.TheConstants.{GREATEST_F};
ghost use Rattle.open_buckets.specs.OpenLists.{places_at, NothingWaits, IsLeastF, IsNextEntry};
ghost use Rattle.open_buckets.specs.OpenLists.{TakesEntry, PutsEntry};
ghost use Rattle.world_model.specs.Knowledge.{is_news};
ghost use Rattle.search_lists.specs.declared.lists.TheConstants.{ROOM_AT_ONCE};
ghost use Rattle.search_lists.specs.Lists.{empty_lists, both, AreKnown, HasMoreRoom, HasEntriesOf};
ghost use Rattle.search_lists.specs.Orders.{Guide, IsInOrder, NoneBelow, IsFloorOfLists, IsFirst};
ghost use Rattle.search_lists.specs.Orders.{IsLeastOpen, AddsUp, IsWaiting};

use board::Move;
use closed_table::{Closed, Relaxed};
use memory::OutOfMemory;
use open_buckets::Open;
use open_buckets::laws::the_next_is_taken;
use std::alloc::Global;
use std::marker::Model;
use world_model::Known;

// For how many boards places are made at once, where there is memory.
const ROOM_AT_ONCE: usize = 64;

/// The most boards of one f that are taken together, so that the reads of memory for one overlap
/// with those for another.
pub const BATCH: usize = 16;

/// With fewer known boards the lists fit the processor's caches: reading ahead, and taking boards
/// together, gains nothing.
pub const BOARDS_IN_CACHE: usize = 1 << 12;

/// A board that was met at a cost by a last move.
#[derive(Clone, Copy, Debug)]
pub struct Met {
    pub key: u128,
    pub cost: u32,
    pub via: Move,
    /// The cost plus the board's sum.
    pub f: u32,
}

/// An open board of least cost plus sum.
#[derive(Clone, Copy, Debug)]
pub struct Next {
    /// Its place among the known boards, in order of arrival.
    pub place: u32,
    pub key: u128,
    pub cost: u32,
    /// The last move to it.
    pub via: Move,
    /// The cost plus the board's sum.
    pub f: u32,
}

// The entries at an f that are taken together, each in its turn: this many from a place downwards.
#[derive(Clone, Copy)]
struct Batch {
    f: u32,
    place: usize,
    left: usize,
}

// No entries that are taken together.
const NO_BATCH: Batch = Batch {
    f: 0,
    place: 0,
    left: 0,
};

/// The known boards, and which of them wait to be expanded, by cost plus sum.
#[derive(Drop)]
pub struct SearchLists {
    closed: Closed,
    open: Open<u32>,
    // The greatest f whose entries were put in order of cost since the start, or since `order_anew`
    // or `clear`, and 0 where there is none. The entries at f 0 all cost 0, so they are in order.
    ordered: u32,
    // Whether a goal was met, which is worth a look then.
    goal_met: bool,
    // What is taken together. No contract speaks of it.
    batch: Batch,
}

impl Model for SearchLists {
    ghost use Rattle.search_lists.specs.Lists.{SearchListsModel, AreKnown, lists_code};

    ghost Value = { SearchListsModel };

    ghost coded = { lists_code };

    ghost view = { λ s. record { closed = s.closed; waiting = s.«open» } };

    ghost invariant = { λ s. AreKnown (record { closed = s.closed; waiting = s.«open» }) };
}

impl SearchLists {
    /// No board is known.
    pub fn new(alloc: Global) -> Self
        ensures { result ≡ empty_lists }
    {
        SearchLists {
            closed: Closed::new(alloc),
            open: Open::new(alloc),
            ordered: 0,
            goal_met: false,
            batch: NO_BATCH,
        }
    }

    /// Forgets all boards, and the places that were promised for them. The memory stays, so that
    /// another search needs no more until it is larger.
    pub fn clear(&mut self)
        ensures empty { HasMoreRoom empty_lists self.new }
        ensures boards { self.new.closed ≡ empty_table }
        ensures places { (h : ℕ) → places_at self.old.waiting h ≤ places_at self.new.waiting h }
    {
        self.closed.clear();
        self.open.clear();
        self.ordered = 0;
        self.goal_met = false;
        self.batch = NO_BATCH;
    }

    /// How many boards are known.
    pub fn len(&self) -> usize
        ensures len { result ≡ length self.now.closed.keys }
        ensures table { IsTable self.now.closed }
    {
        self.closed.len()
    }

    /// What is known of the board with this key.
    pub fn get(&self, key: u128) -> Option<Known>
        ensures { result ≡ map.get self.now.closed.known key }
    {
        self.closed.get(key)
    }

    /// The key that came at a place in order of arrival, and what is known of its board.
    pub fn at(&self, place: usize) -> (u128, Known)
        requires { place < length self.now.closed.keys }
        ensures key { result.0 ≡ slice_index self.now.closed.keys place }
        ensures known { map.get self.now.closed.known result.0 ≡ Some result.1 }
    {
        self.closed.at(place)
    }

    /// Makes places for this many boards that are not known yet, and for some more where there is
    /// memory, up to ROOM_AT_ONCE. It is refused only where there were fewer, and nothing has
    /// changed then. What waits, and the places for it, stay as they are.
    pub fn reserve_boards(&mut self, alloc: Global, count: usize) -> Result<(), OutOfMemory>
        ensures ok { OnOk result (count ≤ self.new.closed.room) }
        ensures err { OnErr result (self.new ≡ self.old) }
        ensures refused { OnErr result (self.old.closed.room < count) }
        ensures enough { count ≤ self.old.closed.room → self.new ≡ self.old }
        ensures few { self.new.closed.room ≤ max self.old.closed.room (max count ROOM_AT_ONCE) }
        ensures waiting { self.new.waiting ≡ self.old.waiting }
        ensures same { HasMoreRoom self.old self.new }
    {
        if count <= self.closed.room() {
            return Ok(());
        }
        if let Ok(()) = self.closed.reserve(alloc, count.max(ROOM_AT_ONCE)) {
            return Ok(());
        }
        self.closed.reserve(alloc, count)?;
        Ok(())
    }

    /// Whether there are places for this many boards that wait at an f.
    pub fn has_places(&self, f: u32, count: usize) -> bool
        ensures { IsTrue result ↔ (count ≤ places_at self.now.waiting f) }
    {
        self.open.has_places(f, count)
    }

    /// Makes places for this many entries at an f. It is refused only where there were fewer, and
    /// where there were as many nothing changes. Whether it succeeds or not, what is known and what
    /// waits stays, and no place is made at another f.
    pub fn reserve_places(&mut self, alloc: Global, f: u32, count: usize) -> Result<(), OutOfMemory>
        requires within { f ≤ GREATEST_F }
        requires modest { count ≤ 2 ^ 27 }
        ensures ok { OnOk result (count ≤ places_at self.new.waiting f) }
        ensures refused { OnErr result (places_at self.old.waiting f < count) }
        ensures enough { count ≤ places_at self.old.waiting f → self.new ≡ self.old }
        ensures others { (h : ℕ) → h ≢ f
            → places_at self.new.waiting h ≡ places_at self.old.waiting h }
        ensures boards { self.new.closed ≡ self.old.closed }
        ensures same { HasMoreRoom self.old self.new }
    {
        self.open.reserve(alloc, f, count)
    }

    /// Relaxes a board, and lets it wait where its cost is news, unless it is the goal.
    #[inline(always)]
    pub fn relax(&mut self, goal: u128, met: Met)
        requires room { map.get self.old.closed.known met.key ≡ None → 0 < self.old.closed.room }
        requires place { 0 < places_at self.old.waiting met.f }
        ensures closed { self.new.closed
            ≡ table_relaxation self.old.closed met.key met.cost met.via }
        ensures still { (is_news (map.get self.old.closed.known met.key) met.cost ≡ false)
            ⊎ (met.key ≡ goal) → self.new.waiting ≡ self.old.waiting }
        ensures put { is_news (map.get self.old.closed.known met.key) met.cost ≡ true
            → met.key ≢ goal → (place : ℕ) × (slice_get self.new.closed.keys place ≡ Some met.key)
            × PutsEntry met.f (place, met.cost) self.old.waiting self.new.waiting }
        ensures places { (h : ℕ) → places_at self.old.waiting h
            ≤ places_at self.new.waiting h + 1 }
        ensures order { (guide : Guide) → guide.goal ≡ goal → AddsUp guide met
            → IsInOrder guide self.old → IsInOrder guide self.new }
    {
        let is_goal = met.key == goal;
        self.goal_met |= is_goal;
        let (relaxed, place) = self.closed.relax(met.key, met.cost, met.via);
        if is_goal {
            return;
        }
        if is_kept(relaxed) {
            return;
        }
        self.open.put(met.f, place, met.cost);
    }

    /// Whether a goal was met by `relax` since the start or since `clear`. No more than a hint: no
    /// contract speaks of it.
    pub fn has_met_goal(&self) -> bool {
        self.goal_met
    }

    /// An open board of least cost plus sum, where that is below a limit. Entries that are out of
    /// date go out.
    #[inline(always)]
    pub fn next(&mut self, below: u32) -> Option<Next>
        ensures closed { self.new.closed ≡ self.old.closed }
        ensures places { (h : ℕ) → places_at self.old.waiting h ≤ places_at self.new.waiting h }
        ensures order { (guide : Guide) → IsInOrder guide self.old → IsInOrder guide self.new }
        ensures none { IfNone result ((guide : Guide) → IsInOrder guide self.old
            → NoneBelow guide self.old.closed below) }
        ensures first { IfSome result (IsFirst self.new) }
        ensures below { IfSome result (λ next. next.f < below) }
        ensures least { IfSome result (λ next. (guide : Guide) → IsInOrder guide self.old
            → IsLeastOpen guide self.old.closed next) }
    {
        let Some(next) = next_open(
            &self.closed,
            &mut self.open,
            &mut self.ordered,
            &mut self.batch,
            below,
        ) else {
            return None;
        };
        Some(next)
    }

    /// The least cost plus sum of an open board. Entries that are out of date go out.
    pub fn floor(&mut self) -> Option<u32>
        ensures closed { self.new.closed ≡ self.old.closed }
        ensures places { (h : ℕ) → places_at self.old.waiting h ≤ places_at self.new.waiting h }
        ensures order { (guide : Guide) → IsInOrder guide self.old → IsInOrder guide self.new }
        ensures floor { (guide : Guide) → IsInOrder guide self.old
            → IsFloorOfLists guide self.old.closed result }
    {
        let Some(next) = self.next(u32::MAX) else {
            return None;
        };
        Some(next.f)
    }

    /// The least f of all entries, also of those out of date: no open board has a lower cost plus
    /// sum. None where nothing waits.
    pub fn least(&self) -> Option<u32>
        ensures least { IsLeastF self.now.waiting result }
        ensures bound { IfSome result (λ f. (guide : Guide) → IsInOrder guide self.now
            → NoneBelow guide self.now.closed f) }
    {
        self.open.lowest()
    }

    /// Closes the board that was answered last by `next`, and takes it out of what waits.
    pub fn close(&mut self, next: Next)
        requires { IsFirst self.old next }
        ensures taken { TakesEntry next.f (next.place, next.cost) self.old.waiting self.new.waiting }
        ensures closed { self.new.closed ≡ table_closure self.old.closed next.key
            (map.get self.old.closed.known next.key) }
        ensures places { (h : ℕ) → places_at self.old.waiting h ≤ places_at self.new.waiting h }
        ensures order { (guide : Guide) → IsInOrder guide self.old → IsInOrder guide self.new }
    {
        let first = Waiting {
            f: next.f,
            place: next.place,
            cost: next.cost,
        };
        take_first(&mut self.open, first);
        self.closed.mark_expanded_at(next.place as usize);
    }

    /// Lets the next call of `next` put the entries of the least f in order of cost, also where
    /// entries of this f or of a greater one were put in order before. Those that take turns then
    /// are chosen anew. Nothing changes that contracts speak of.
    pub fn order_anew(&mut self)
        ensures { self.new ≡ self.old }
    {
        self.ordered = 0;
        self.batch.left = 0;
    }

    /// One of the boards that are taken together with the one that `next` answered last, by how many
    /// of these come before it. None where there are no more. No more than a hint: the board may be
    /// closed already, or have another cost.
    #[inline(always)]
    pub fn upcoming(&self, before: usize) -> Option<Next>
        ensures { IfSome result (IsWaiting self.now) }
    {
        if before >= self.batch.left {
            return None;
        }
        let index = self.batch.place.saturating_sub(before + 1);
        let Some((place, cost)) = self.open.entry_at(self.batch.f, index) else {
            return None;
        };
        let (key, known) = self.closed.at(place as usize);
        Some(Next {
            place,
            key,
            cost,
            via: known.via,
            f: self.batch.f,
        })
    }

    /// Reads ahead what `relax` will read of a key. It changes nothing.
    #[inline(always)]
    pub fn read_ahead(&mut self, key: u128)
        ensures { self.new ≡ self.old }
    {
        self.closed.read_ahead(key);
    }
}

// Whether the cost was no news.
fn is_kept(relaxed: Relaxed) -> bool
    ensures { IsTrue result ↔ (relaxed ≡ Kept) }
{
    matches!(relaxed, Relaxed::Kept)
}

// An open board of least cost plus sum, where that is below a limit. What is out of date goes out.
#[inline(always)]
fn next_open(
    closed: &Closed,
    waiting: &mut Open<u32>,
    ordered: &mut u32,
    batch: &mut Batch,
    below: u32,
) -> Option<Next>
    requires { AreKnown (both closed.now waiting.old) }
    ensures known { AreKnown (both closed.now waiting.new) }
    ensures places { (h : ℕ) → places_at waiting.old h ≤ places_at waiting.new h }
    ensures order { (guide : Guide) → IsInOrder guide (both closed.now waiting.old)
        → IsInOrder guide (both closed.now waiting.new) }
    ensures none { IfNone result (NothingWaits waiting.new below) }
    ensures first { IfSome result (IsFirst (both closed.now waiting.new)) }
    ensures below { IfSome result (λ next. next.f < below) }
{
    let together = if closed.len() < BOARDS_IN_CACHE {
        1
    } else {
        BATCH
    };
    'entries: while let Some(first) = first_waiting(waiting, ordered, batch, together, below) {
        let (key, known) = closed.at(first.place as usize);
        if is_current(known, first.cost) {
            return Some(Next {
                place: first.place,
                key,
                cost: first.cost,
                via: known.via,
                f: first.f,
            });
        }
        take_first(waiting, first);
    }
    None
}

// Whether an entry with this cost is of a board that is known so.
fn is_current(known: Known, cost: u32) -> bool
    ensures yes { IsTrue result → (known.expanded ≡ false) × (known.cost ≡ cost) }
    ensures no { IsFalse result → known.expanded ≡ false → known.cost ≢ cost }
{
    !known.expanded && known.cost == cost
}

// An entry of the open list, at its f.
#[derive(Clone, Copy)]
struct Waiting {
    f: u32,
    place: u32,
    cost: u32,
}

// What waits next, where its f is below a limit. Up to `together` entries at one f take turns.
#[inline(always)]
fn first_waiting(
    waiting: &mut Open<u32>,
    ordered: &mut u32,
    batch: &mut Batch,
    together: usize,
    below: u32,
) -> Option<Waiting>
    ensures same { HasEntriesOf waiting.old waiting.new }
    ensures next { MatchOption result (NothingWaits waiting.new below)
        (λ first. (first.f < below) × IsNextEntry first.f (first.place, first.cost) waiting.new) }
{
    let Some(f) = lowest_in_order(waiting, ordered) else {
        return None;
    };
    if f >= below {
        return None;
    }
    bring_turn(waiting, batch, together, f);
    let Some((place, cost)) = waiting.last_at(f) else {
        unreachable!()
    };
    Some(Waiting { f, place, cost })
}

// The least f of all entries. Where it is greater than `ordered`, its entries are put in order of
// cost, so that one of the greatest is the last: of boards of one f, that of the greatest cost has
// the least sum.
#[inline(always)]
fn lowest_in_order(waiting: &mut Open<u32>, ordered: &mut u32) -> Option<u32>
    ensures same { HasEntriesOf waiting.old waiting.new }
    ensures lowest { IsLeastF waiting.new result }
{
    let Some(f) = waiting.lowest() else {
        return None;
    };
    if *ordered < f {
        waiting.sort_at(f);
        *ordered = f;
    }
    Some(f)
}

// Puts the entry at f whose turn it is last there. Where none is left, or f is another one, the last
// entries at f, up to `together`, are the next ones that take turns.
#[inline(always)]
fn bring_turn(waiting: &mut Open<u32>, batch: &mut Batch, together: usize, f: u32)
    ensures same { HasEntriesOf waiting.old waiting.new }
    ensures lowest { IsLeastF waiting.old (Some f) → IsLeastF waiting.new (Some f) }
{
    if together <= 1 {
        return;
    }
    if batch.left == 0 || batch.f != f {
        let count = waiting.count_at(f);
        batch.f = f;
        batch.place = count;
        batch.left = count.min(together);
    }
    batch.left = batch.left.saturating_sub(1);
    batch.place = batch.place.saturating_sub(1);
    waiting.bring_last(f, batch.place);
}

// Takes out what waits next.
fn take_first(waiting: &mut Open<u32>, first: Waiting)
    requires first { IsNextEntry first.f (first.place, first.cost) waiting.old }
    requires within { first.f + 1 < 2 ^ 32 }
    ensures { TakesEntry first.f (first.place, first.cost) waiting.old waiting.new }
{
    the_next_is_taken::<u32>();
    let Some(_) = waiting.take_lowest(first.f + 1) else {
        unreachable!()
    };
}
