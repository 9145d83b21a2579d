//! A list in pages, to which a page is added without moving the others.

ghost use Rattle.std.specs.Prelude.{◌≡◌, ◌++◌, ◌<◌, ◌≤◌, ◌^◌, [], length, OnOk, OnErr};
ghost use Rattle.std.specs.Prelude.{slice_set, slice_index_or, replicate};
ghost use Rattle.std.specs.Borrow.{sem};
ghost use Rattle.memory.specs.Lends.{lends_item};

use crate::{OutOfMemory, filled, push};
use std::alloc::Global;
use std::marker::Model;
use std::vec::Vec;

/// How many items a page has.
pub const PAGE_LENGTH: usize = 1024;

/// The most pages. They have 2^32 items, so a place fits 32 bits.
const PAGE_LIMIT: usize = 4_194_304;

/// A list in pages. Adding a page moves none of the others.
#[derive(Drop)]
pub struct Pages<T> {
    pages: Vec<Vec<T>>,
}

impl<T> Model for Pages<T> {
    ghost use Rattle.std.specs.Prelude.{List};
    ghost use Rattle.memory.specs.Pages.{items_of, ArePages};

    ghost Value = { List T };

    ghost view = { λ p. items_of p.pages.items };

    ghost invariant = { λ p. ArePages p.pages.items };
}

impl<T: Copy> Pages<T> {
    /// No page.
    pub fn new(alloc: Global) -> Self
        ensures { result ≡ [] }
    {
        Pages {
            pages: Vec::new(alloc),
        }
    }

    /// How many items there are.
    pub fn len(&self) -> usize
        ensures len { result ≡ length self.now }
        ensures few { result ≤ 2 ^ 32 }
    {
        self.pages.len() * PAGE_LENGTH
    }

    /// The item at a place.
    pub fn get(&self, place: usize) -> T
        requires { place < length self.now }
        ensures { result ≡ slice_index_or self.now place result }
    {
        *self.at(place)
    }

    /// The item at a place, to read.
    pub fn at(&self, place: usize) -> &T
        requires { place < length self.now }
        ensures { result.now ≡ slice_index_or self.now place result.now }
    {
        let page = &self.pages[place / PAGE_LENGTH];
        &page[place % PAGE_LENGTH]
    }

    /// The item at a place, to write to.
    pub fn at_mut(&mut self, place: usize) -> &mut T
        requires { place < length self.old }
        ensures* writes_back { sem 𝓛 (lends_item T.row self.entry place result) }
        ensures value { result.now ≡ slice_index_or self.old place result.now }
    {
        let page = &mut self.pages[place / PAGE_LENGTH];
        &mut page[place % PAGE_LENGTH]
    }

    /// Puts an item at a place.
    pub fn set(&mut self, place: usize, item: T)
        requires { place < length self.old }
        ensures { self.new ≡ slice_set self.old place item }
    {
        *self.at_mut(place) = item;
    }

    /// Adds a page of this item. Where there are `PAGE_LIMIT` pages already, with 2^32 items, this
    /// answers `OutOfMemory` too.
    pub fn grow(&mut self, alloc: Global, item: T) -> Result<(), OutOfMemory>
        ensures ok { OnOk result (self.new ≡ self.old ++ replicate PAGE_LENGTH item) }
        ensures err { OnErr result (self.new ≡ self.old) }
    {
        if self.pages.len() >= PAGE_LIMIT {
            return Err(OutOfMemory { seal: () });
        }
        let page = filled(alloc, item, PAGE_LENGTH)?;
        push(&mut self.pages, page)?;
        Ok(())
    }
}
