//! Tables: a number for each view of a group.

ghost use Rattle.std.specs.Prelude.{ℕ, ◌≡◌, ◌≢◌, ◌↔◌, ◌<◌, ◌≤◌, length, slice_index, IsOk, IsErrOf};
ghost use Rattle.std.specs.Prelude.{IfOk};
ghost use Rattle.pattern_index.specs.Views.{IsView, ViewModel, view_at, exchanged};
ghost use Rattle.pattern_index.specs.Groups.{rank_in, size_of};
ghost use Rattle.pattern_index.specs.Sparse.{digit_base, slot_in};
ghost use Rattle.database_build.specs.Entries.{HasEntries, values_in, widened};
ghost use Rattle.database_build.specs.Tables.{value_in};
ghost use Rattle.database_build.specs.declared.faults.TableFault.{TableFault};

use crate::entries::Entries;
use crate::faults::TableFault;
use pattern_index::{Group, View, digit_base, exchange};
use pattern_search::NO_VALUE;
use std::marker::Model;

/// A number for each view of a group.
#[derive(Debug, Drop)]
pub struct Table {
    group: Group,
    entries: Entries,
}

impl Model for Table {
    ghost use Rattle.database_build.specs.Tables.{TableModel};
    ghost use Rattle.database_build.specs.Entries.{HasEntries, values_in};

    ghost Value = { TableModel };

    ghost view = { λ t. record { selection = t.group; values = values_in t.group t.entries } };

    ghost invariant = { λ t. HasEntries t.group t.entries };
}

impl Table {
    // The table of a group with these entries.
    pub(crate) fn of_group(group: &Group, entries: Entries) -> Self
        requires { HasEntries group.now entries }
        ensures { result ≡ record { selection = group.now; values = values_in group.now entries } }
    {
        Table {
            group: *group,
            entries,
        }
    }

    /// The table of these values, which it keeps by rank; or E11 where there aren't as many as the
    /// group has views.
    pub fn from_values(group: &Group, values: Vec<u16>) -> Result<Self, TableFault>
        ensures accepted { IsOk result ↔ (length values.items ≡ size_of group.now) }
        ensures value { IfOk result
            (λ t. t ≡ record { selection = group.now; values = values.items }) }
        ensures fault { (fault : TableFault) → IsErrOf result fault
            ↔ ((fault ≡ TableFault.WrongCount) × (length values.items ≢ size_of group.now)) }
    {
        if values.len() != group.size() {
            return Err(TableFault::WrongCount);
        }
        Ok(Table::of_group(group, Entries::Ranked(values)))
    }

    /// Its group, which has as many views as the table has values.
    #[tactic(auto, using(crate::proofs::EntryLemmas::table_size))]
    pub fn group(&self) -> &Group
        ensures value { result.now ≡ self.now.selection }
        ensures size { length self.now.values ≡ size_of self.now.selection }
        ensures high { (rank : ℕ) → slice_index self.now.values rank ≤ NO_VALUE }
    {
        self.tell_values();
        &self.group
    }

    /// The value of a view.
    #[tactic(auto, using(crate::proofs::EntryLemmas::byte_read, crate::proofs::EntryLemmas::word_read))]
    pub fn value(&self, view: &View) -> u16
        requires { IsView self.now.selection.grid self.now.selection.tiles view.now }
        ensures { result ≡ value_in self.now view.now }
    {
        match &self.entries {
            Entries::Ranked(values) => values[self.group.rank(view)],
            Entries::Bytes(bytes) => widened(bytes[self.group.slot(view)]),
            Entries::Words(words) => words[self.group.slot(view)],
        }
    }

    /// The value of what its group sees of a board, by the cell of each of the board's numbers
    /// (`cells_of`): as `value` of the view, without making one.
    pub fn value_at(&self, cells: &[u8; 25]) -> u16
        requires { IsView self.now.selection.grid self.now.selection.tiles
            (view_at self.now.selection.tiles cells.now) }
        ensures { result ≡ value_in self.now (view_at self.now.selection.tiles cells.now) }
    {
        match &self.entries {
            Entries::Ranked(values) => values[self.group.rank_at(cells)],
            Entries::Bytes(bytes) => widened(bytes[self.group.slot_at(cells)]),
            Entries::Words(words) => words[self.group.slot_at(cells)],
        }
    }

    /// The values of what its group sees of a board before and after the blank and a tile change
    /// places, by the cell of each of the board's numbers (`cells_of`).
    pub fn values_at(&self, cells: &[u8; 25], tile: u8) -> (u16, u16)
        requires tile { tile < 25 }
        requires before { IsView self.now.selection.grid self.now.selection.tiles
            (view_at self.now.selection.tiles cells.now) }
        requires after { IsView self.now.selection.grid self.now.selection.tiles
            (view_at self.now.selection.tiles (exchanged cells.now tile)) }
        ensures before { result.0
            ≡ value_in self.now (view_at self.now.selection.tiles cells.now) }
        ensures after { result.1
            ≡ value_in self.now (view_at self.now.selection.tiles (exchanged cells.now tile)) }
    {
        match &self.entries {
            Entries::Ranked(values) => {
                let mut after = *cells;
                exchange(&mut after, tile);
                (
                    values[self.group.rank_at(cells)],
                    values[self.group.rank_at(&after)],
                )
            }
            Entries::Bytes(bytes) => {
                let (before, after) = self.group.slots_at(cells, tile);
                (widened(bytes[before]), widened(bytes[after]))
            }
            Entries::Words(words) => {
                let (before, after) = self.group.slots_at(cells, tile);
                (words[before], words[after])
            }
        }
    }

    /// The value of the view with a slot, found with one read unless it keeps its values by rank.
    #[inline(always)]
    pub fn slot_value(&self, slot: usize) -> u16
        requires { (v : ViewModel) × IsView self.now.selection.grid self.now.selection.tiles v
            × (slot_in self.now.selection.grid v ≡ slot) }
        ensures { (v : ViewModel) → IsView self.now.selection.grid self.now.selection.tiles v
            → slot_in self.now.selection.grid v ≡ slot → result ≡ value_in self.now v }
    {
        match &self.entries {
            Entries::Ranked(values) => values[rank_of_slot(&self.group, slot)],
            Entries::Bytes(bytes) => widened(bytes[slot]),
            Entries::Words(words) => words[slot],
        }
    }

    /// The value of the view with a rank.
    pub fn entry(&self, rank: usize) -> u16
        requires { rank < size_of self.now.selection }
        ensures { result ≡ slice_index self.now.values rank }
    {
        self.value(&self.group.unrank(rank))
    }

    // Each value is at most `NO_VALUE`.
    fn tell_values(&self)
        ensures { (rank : ℕ) → slice_index self.now.values rank ≤ NO_VALUE }
    {
        match &self.entries {
            Entries::Ranked(values) => tell_words(values),
            Entries::Bytes(bytes) => tell_bytes(bytes),
            Entries::Words(words) => tell_words(words),
        }
    }
}

// The rank of the view with a slot, whose digits are the cells of the blank and of the tiles.
#[inline(never)]
fn rank_of_slot(group: &Group, slot: usize) -> usize
    requires { (v : ViewModel) × IsView group.now.grid group.now.tiles v
        × (slot_in group.now.grid v ≡ slot) }
    ensures value { (v : ViewModel) → IsView group.now.grid group.now.tiles v
        → slot_in group.now.grid v ≡ slot → result ≡ rank_in group.now.grid v }
    ensures below { result < size_of group.now }
{
    // A division by a known number takes less time.
    match digit_base(group.shape()) {
        16 => rank_of_digits(16, group, slot),
        base => rank_of_digits(base, group, slot),
    }
}

// The same, where this is the base of the digits.
#[inline(always)]
fn rank_of_digits(base: usize, group: &Group, slot: usize) -> usize
    requires base { base ≡ digit_base group.now.grid }
    requires view { (v : ViewModel) × IsView group.now.grid group.now.tiles v
        × (slot_in group.now.grid v ≡ slot) }
    ensures value { (v : ViewModel) → IsView group.now.grid group.now.tiles v
        → slot_in group.now.grid v ≡ slot → result ≡ rank_in group.now.grid v }
    ensures below { result < size_of group.now }
{
    let tiles = group.tiles();
    let mut cells = [0; 25];
    cells[0] = (slot % base) as u8;
    let mut rest = slot / base;
    'tiles: for place in 0..tiles.len() {
        cells[tiles[place] as usize] = (rest % base) as u8;
        rest /= base;
    }
    group.rank_at(&cells)
}

// The value that a byte encodes.
pub(crate) fn widened(byte: u8) -> u16
    ensures { result ≡ widened byte }
{
    if byte == u8::MAX {
        NO_VALUE
    } else {
        u16::from(byte)
    }
}

// Numbers of 16 bits are at most the greatest value.
pub(crate) fn tell_words(words: &[u16])
    ensures { (place : ℕ) → slice_index words.now place ≤ NO_VALUE }
{
    let _ = words;
}

// So are bytes.
pub(crate) fn tell_bytes(bytes: &[u8])
    ensures { (place : ℕ) → slice_index bytes.now place ≤ NO_VALUE }
{
    let _ = bytes;
}
