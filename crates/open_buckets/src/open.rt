//! Entries in buckets, and a cursor to the lowest of them.

ghost use Rattle.std.specs.Prelude.{◌≡◌, ◌≢◌, ◌<◌, ◌≤◌, ◌+◌, ◌^◌, ℕ, OnOk, OnErr, MatchOption};
ghost use Rattle.std.specs.Prelude.{IsTrue, ◌↔◌, [], length, slice_get};
ghost use Rattle.std.specs.Prelude.{vec_len, vec_capacity};
ghost use Rattle.open_buckets.specs.OpenLists.{empty_list, entries_at, places_at, NothingWaits};
ghost use Rattle.open_buckets.specs.OpenLists.{PutsEntry, TakesEntry, Sorts, IsLeastF};
ghost use Rattle.open_buckets.specs.OpenLists.{BringsLast, IsLastAt};

use memory::OutOfMemory;
use std::alloc::Global;
use std::marker::Model;

/// The greatest cost plus sum of a board: the greatest cost that a plan is followed to, 1,048,320,
/// a move of weight 255 more, and a sum of 24 times 65,535.
pub const GREATEST_F: u32 = 2_621_415;

// The least number of entries for which places are made, where a bucket grows.
const PLACES_AT_ONCE: usize = 32;

/// Entries by f, the cost of a board plus its sum. Each is a key, or whatever else identifies the
/// board, and the cost.
///
/// There is a bucket for each f up to the greatest reserved, and a cursor that is never above the
/// least f of all entries.
#[derive(Drop)]
pub struct Open<K> {
    buckets: Vec<Vec<(K, u32)>>,
    cursor: usize,
}

impl<K> Model for Open<K> {
    ghost use Rattle.open_buckets.specs.OpenLists.{OpenModel};
    ghost use Rattle.open_buckets.specs.Buckets.{list_of, AreSoundBuckets};

    ghost Value = { OpenModel K };

    ghost view = { λ o. list_of o.buckets.items };

    ghost invariant = { λ o. AreSoundBuckets o.buckets.items o.cursor };
}

// Makes places for this many more items. Where the list has to grow, it is for PLACES_AT_ONCE at
// least, and for just this many where memory for those is refused; else it stays as it is.
fn make_places<T>(items: &mut Vec<T>, count: usize) -> Result<(), OutOfMemory>
    requires modest { count ≤ 2 ^ 27 }
    ensures items { items.new.items ≡ items.old.items }
    ensures ok { OnOk result (vec_len items.new + count ≤ vec_capacity items.new) }
    ensures capacity { vec_capacity items.old ≤ vec_capacity items.new }
    ensures full { OnErr result (vec_capacity items.old < vec_len items.old + count) }
    ensures enough { vec_len items.old + count ≤ vec_capacity items.old → items.new ≡ items.old }
{
    if count <= items.capacity() - items.len() {
        return Ok(());
    }
    if let Ok(()) = memory::reserve(items, count.max(PLACES_AT_ONCE)) {
        return Ok(());
    }
    memory::reserve(items, count)
}

impl<K: Copy> Open<K> {
    /// Nothing waits.
    pub fn new(alloc: Global) -> Self
        ensures { result ≡ empty_list }
    {
        Open {
            buckets: Vec::new(alloc),
            cursor: 0,
        }
    }

    /// Makes places for this many entries at an f, and for some more where its bucket grows and
    /// memory is given. It is refused only where there were fewer, and where there were as many
    /// nothing changes. Whether it succeeds or not, all entries stay, no place is lost, and none is
    /// made at another f.
    pub fn reserve(&mut self, alloc: Global, f: u32, count: usize) -> Result<(), OutOfMemory>
        requires within { f ≤ GREATEST_F }
        requires modest { count ≤ 2 ^ 27 }
        ensures ok { OnOk result (count ≤ places_at self.new f) }
        ensures refused { OnErr result (places_at self.old f < count) }
        ensures entries { (h : ℕ) → entries_at self.new h ≡ entries_at self.old h }
        ensures places { (h : ℕ) → places_at self.old h ≤ places_at self.new h }
        ensures enough { count ≤ places_at self.old f → self.new ≡ self.old }
        ensures others { (h : ℕ) → h ≢ f → places_at self.new h ≡ places_at self.old h }
    {
        if count == 0 {
            return Ok(());
        }
        let place = f as usize;
        if place >= self.buckets.len() {
            let more = place - self.buckets.len() + 1;
            make_places(&mut self.buckets, more)?;
        }
        'buckets: while self.buckets.len() <= place {
            memory::push(&mut self.buckets, Vec::new(alloc))?;
        }
        let bucket = &mut self.buckets[place];
        make_places(bucket, count)
    }

    /// Whether there are places for this many entries at an f.
    pub fn has_places(&self, f: u32, count: usize) -> bool
        ensures { IsTrue result ↔ (count ≤ places_at self.now f) }
    {
        let place = f as usize;
        if place >= self.buckets.len() {
            return count == 0;
        }
        let bucket = &self.buckets[place];
        count <= bucket.capacity() - bucket.len()
    }

    /// Adds an entry at an f that has a place.
    pub fn put(&mut self, f: u32, key: K, g: u32)
        requires { 0 < places_at self.old f }
        ensures { PutsEntry f (key, g) self.old self.new }
    {
        let place = f as usize;
        let bucket = &mut self.buckets[place];
        if memory::push(bucket, (key, g)).is_err() {
            unreachable!()
        }
        if place < self.cursor {
            self.cursor = place;
        }
    }

    /// Takes out all entries. Their places stay for others.
    pub fn clear(&mut self)
        ensures entries { (h : ℕ) → entries_at self.new h ≡ [] }
        ensures places { (h : ℕ) → places_at self.old h ≤ places_at self.new h }
    {
        'buckets: while self.cursor < self.buckets.len() {
            self.buckets[self.cursor].clear();
            self.cursor += 1;
        }
    }

    /// Puts the entries at an f in order of their costs, so that one of the greatest cost is taken
    /// there next.
    pub fn sort_at(&mut self, f: u32)
        ensures { Sorts f self.old self.new }
    {
        let place = f as usize;
        if place < self.buckets.len() {
            let bucket = &mut self.buckets[place];
            bucket.sort_unstable_by_key(|entry| entry.1);
        }
    }

    /// How many entries there are at an f.
    pub fn count_at(&self, f: u32) -> usize
        ensures { result ≡ length (entries_at self.now f) }
    {
        let place = f as usize;
        if place >= self.buckets.len() {
            return 0;
        }
        self.buckets[place].len()
    }

    /// The entry at an f with this many before it there; None where there are no more.
    pub fn entry_at(&self, f: u32, before: usize) -> Option<(K, u32)>
        ensures { result ≡ slice_get (entries_at self.now f) before }
    {
        let place = f as usize;
        if place >= self.buckets.len() {
            return None;
        }
        let bucket = &self.buckets[place];
        if before >= bucket.len() {
            return None;
        }
        Some(bucket[before])
    }

    /// The entry at an f that `take_lowest` takes there first; None where there is none.
    #[inline(always)]
    pub fn last_at(&self, f: u32) -> Option<(K, u32)>
        ensures { MatchOption result (entries_at self.now f ≡ [])
            (λ entry. IsLastAt f entry self.now) }
    {
        let place = f as usize;
        if place >= self.buckets.len() {
            return None;
        }
        let bucket = &self.buckets[place];
        if bucket.is_empty() {
            return None;
        }
        Some(bucket[bucket.len() - 1])
    }

    /// Exchanges the entry at an f with this many before it there, and the last one there. Where
    /// there are no more, nothing changes.
    pub fn bring_last(&mut self, f: u32, before: usize)
        ensures { BringsLast f before self.old self.new }
    {
        let place = f as usize;
        if place < self.buckets.len() {
            let bucket = &mut self.buckets[place];
            let count = bucket.len();
            if before < count {
                bucket.swap(before, count - 1);
            }
        }
    }

    /// Takes out the next entry, which has the least f of all, where that f is below a limit. Its
    /// place stays for another one.
    pub fn take_lowest(&mut self, below: u32) -> Option<(K, u32)>
        ensures { MatchOption result ((self.new ≡ self.old) × NothingWaits self.old below)
            (λ entry. (f : ℕ) × (f < below) × TakesEntry f entry self.old self.new) }
    {
        let limit = below as usize;
        'cursor: while self.cursor < limit {
            if self.cursor >= self.buckets.len() {
                return None;
            }
            let bucket = &mut self.buckets[self.cursor];
            if let Some(entry) = bucket.pop() {
                return Some(entry);
            }
            self.cursor += 1;
        }
        None
    }

    /// The least f of all entries.
    pub fn lowest(&self) -> Option<u32>
        ensures { IsLeastF self.now result }
    {
        let mut place = self.cursor;
        'places: while place < self.buckets.len() {
            if !self.buckets[place].is_empty() {
                return Some(place as u32);
            }
            place += 1;
        }
        None
    }
}
