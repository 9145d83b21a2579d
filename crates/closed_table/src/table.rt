//! Known boards in pages, with the chains by which their keys are found.

ghost use Rattle.std.specs.Prelude.{◌≡◌, ◌<◌, None, Some, OnOk, OnErr, IsSome, length, max};
ghost use Rattle.std.specs.Prelude.{slice_get, slice_index};
ghost use Rattle.std.specs.FinMap as map;
ghost use Rattle.closed_table.specs.Tables.{empty_table, IsTable, relaxation_answer};
ghost use Rattle.closed_table.specs.Tables.{table_relaxation, table_closure};

use crate::index::{self, Index, NO_BUCKET, Slot};
use board::Move;
use memory::{OutOfMemory, Pages};
use std::alloc::Global;
use std::marker::Model;
use world_model::Known;

// What pages hold where nothing was put yet.
const NO_SLOT: Slot = Slot {
    high: 0,
    low: 0,
    cost: 0,
    via: Move::U,
    expanded: false,
};

/// What became of a board that was met at a cost.
#[derive(Clone, Copy, Debug)]
pub enum Relaxed {
    /// It was absent and is there now, not expanded.
    New,
    /// It was there at a greater cost. It has this one and this last move now, and is not expanded.
    Lower,
    /// It was there at this cost or a lower one, and is unchanged.
    Kept,
}

/// Known boards, by their keys.
///
/// They are in pages, in order of arrival, and belong to chains by the hashes of their keys. 127
/// chains are made with the first board. From 508 boards on one more is added with each fourth
/// board and takes its boards from one other chain: no page is ever copied.
#[derive(Drop)]
pub struct Closed {
    index: Index,
    // Places that are made and promised.
    room: usize,
    // What was read ahead. It is never used.
    ahead: u32,
}

impl Model for Closed {
    ghost use Rattle.closed_table.specs.Tables.{ClosedModel, closed_code};
    ghost use Rattle.closed_table.specs.Storage.{table_of, IsSoundTable};

    ghost Value = { ClosedModel };

    ghost coded = { closed_code };

    ghost view = { table_of };

    ghost invariant = { IsSoundTable };
}

impl Closed {
    /// No board is known.
    pub fn new(alloc: Global) -> Self
        ensures { result ≡ empty_table }
    {
        Closed {
            index: Index {
                slots: Pages::new(alloc),
                links: Pages::new(alloc),
                buckets: Pages::new(alloc),
                len: 0,
                bits: 0,
                ahead: 0,
            },
            room: 0,
            ahead: 0,
        }
    }

    /// How many boards are known.
    pub fn len(&self) -> usize
        ensures len { result ≡ length self.now.keys }
        ensures table { IsTable self.now }
    {
        self.index.len
    }

    /// What is known of the board with this key.
    pub fn get(&self, key: u128) -> Option<Known>
        ensures { result ≡ map.get self.now.known key }
    {
        let Some(place) = index::find(&self.index, key, index::hash(key)) else {
            return None;
        };
        let slot = self.index.slots.get(place);
        Some(Known {
            cost: slot.cost,
            expanded: slot.expanded,
            via: slot.via,
        })
    }

    /// The key that came at a place in order of arrival, and what is known of its board.
    pub fn at(&self, place: usize) -> (u128, Known)
        requires { place < length self.now.keys }
        ensures key { result.0 ≡ slice_index self.now.keys place }
        ensures known { map.get self.now.known result.0 ≡ Some result.1 }
    {
        let slot = self.index.slots.get(place);
        (
            index::key_of(slot),
            Known {
                cost: slot.cost,
                expanded: slot.expanded,
                via: slot.via,
            },
        )
    }

    /// For how many new keys there are places.
    pub fn room(&self) -> usize
        ensures { result ≡ self.now.room }
    {
        self.room
    }

    /// Makes places for this many new keys. Memory is refused only where there were fewer places,
    /// and then the table is as it was.
    pub fn reserve(&mut self, alloc: Global, count: usize) -> Result<(), OutOfMemory>
        ensures ok { OnOk result (self.new ≡ record self.old { room = max self.old.room count }) }
        ensures err { OnErr result (self.new ≡ self.old) }
        ensures refused { OnErr result (self.old.room < count) }
    {
        if count <= self.room {
            return Ok(());
        }
        let len = self.index.len;
        index::grow_to(&mut self.index.slots, alloc, len, count, NO_SLOT)?;
        index::grow_to(&mut self.index.links, alloc, len, count, 0)?;
        let chains = index::chain_count_of(len + count);
        index::grow_to(&mut self.index.buckets, alloc, 0, chains, NO_BUCKET)?;
        self.room = count;
        Ok(())
    }

    /// Forgets all boards, and the places that were promised. The pages stay, so that the next
    /// boards need no memory until there are more of them.
    pub fn clear(&mut self)
        ensures { self.new ≡ empty_table }
    {
        index::clear_first_buckets(&mut self.index.buckets);
        self.index.len = 0;
        self.index.bits = 0;
        self.room = 0;
    }

    /// Reads ahead what `relax` will read of a key, so that its reads of memory overlap with
    /// others. It changes nothing.
    #[inline(always)]
    pub fn read_ahead(&mut self, key: u128)
        ensures { self.new ≡ self.old }
    {
        self.ahead ^= index::read_ahead(&self.index, key);
    }

    /// Takes a board that was met at a cost by a last move: it is put in where it was absent or
    /// known at a greater cost, and is not expanded then. Answers the key's place too.
    #[inline(always)]
    pub fn relax(&mut self, key: u128, cost: u32, via: Move) -> (Relaxed, u32)
        requires { map.get self.old.known key ≡ None → 0 < self.old.room }
        ensures answer { result.0 ≡ relaxation_answer (map.get self.old.known key) cost }
        ensures place { slice_get self.new.keys result.1 ≡ Some key }
        ensures table { self.new ≡ table_relaxation self.old key cost via }
    {
        let hash = index::hash(key);
        let chain = index::chain_in(&self.index, hash);
        let Some(place) = index::find_in(&self.index, chain, key, hash) else {
            let place = self.index.len as u32;
            index::add(&mut self.index, chain, key, hash, cost, via);
            self.room -= 1;
            return (Relaxed::New, place);
        };
        let slot = self.index.slots.at(place);
        if slot.cost <= cost {
            return (Relaxed::Kept, place as u32);
        }
        let slot = self.index.slots.at_mut(place);
        slot.cost = cost;
        slot.via = via;
        slot.expanded = false;
        (Relaxed::Lower, place as u32)
    }

    /// Marks a known board as expanded.
    pub fn mark_expanded(&mut self, key: u128)
        requires { IsSome (map.get self.old.known key) }
        ensures { self.new ≡ table_closure self.old key (map.get self.old.known key) }
    {
        let Some(place) = index::find(&self.index, key, index::hash(key)) else {
            unreachable!()
        };
        let slot = self.index.slots.at_mut(place);
        slot.expanded = true;
    }

    /// Marks the known board at a place as expanded, without a search.
    pub fn mark_expanded_at(&mut self, place: usize)
        requires { place < length self.old.keys }
        ensures { self.new ≡ table_closure self.old (slice_index self.old.keys place)
            (map.get self.old.known (slice_index self.old.keys place)) }
    {
        let marked = self.index.slots.at_mut(place);
        marked.expanded = true;
    }
}
