//! Folded tables: those without the blank.

ghost use Rattle.std.specs.Prelude.{ℕ, ◌≡◌, ◌⊎◌, ◌<◌, ◌≤◌, ◌↔◌, length, slice_index};
ghost use Rattle.std.specs.Prelude.{Contains, IfNone, IfOk, IfSome, IsTrue, None};
ghost use Rattle.board.specs.Shapes.{cell_count};
ghost use Rattle.pattern_index.specs.Views.{IsView, ViewModel, view_at};
ghost use Rattle.pattern_index.specs.Groups.{IsGroup, folded_size_of};
ghost use Rattle.pattern_index.specs.Sparse.{sparse_in, sparse_size_of, stride_of};
ghost use Rattle.database_build.specs.Folds.{IsFoldOf, folded_in};
ghost use Rattle.pattern_graph.specs.Sets.{AreMarksOf};
ghost use Rattle.database_build.specs.Entries.{AreStridesOf, HasLeast, least_in, most_places};
ghost use Rattle.database_build.specs.Entries.{sparse_of_place};
ghost use Rattle.pattern_graph.specs.Placements.{HasNoView};

use crate::entries::{Entries, keep_least};
use crate::least::fold_table;
use crate::table::{Table, tell_bytes, tell_words, widened};
use memory::OutOfMemory;
use pattern_index::{Group, View, list_cells, sparse_place};
use pattern_search::NO_VALUE;
use std::alloc::Global;
use std::marker::Model;

/// The most sparse places of a group whose folded tables are kept by them: as many as six tiles
/// have on 16 cells.
pub const MOST_PLACES: usize = 16_777_216;

/// How many sparse places such a group has for each of its values at most.
pub const PLACES_A_VALUE: usize = 4;

/// For each way to place a group's tiles, the least value of the views that show them so.
#[derive(Debug, Drop)]
pub struct Folded {
    group: Group,
    entries: Entries,
    // Whether each number is a tile of the group.
    marks: [bool; 25],
    // The stride of each number that may be a tile.
    strides: [usize; 25],
}

impl Model for Folded {
    ghost use Rattle.database_build.specs.Folds.{FoldedModel};
    ghost use Rattle.pattern_graph.specs.Sets.{AreMarksOf};
    ghost use Rattle.database_build.specs.Entries.{AreStridesOf, HasLeast, least_in};
    ghost use Rattle.pattern_index.specs.Groups.{IsGroup};

    ghost Value = { FoldedModel };

    ghost view = { λ t. record { selection = t.group; least = least_in t.group t.entries } };

    ghost invariant = { λ t. IsGroup t.group × HasLeast t.group t.entries
        × AreMarksOf t.group.tiles t.marks × AreStridesOf t.group t.strides };
}

impl Folded {
    // The folded table of a group with these entries.
    pub(crate) fn of_group(group: &Group, entries: Entries) -> Self
        requires { HasLeast group.now entries }
        ensures { result ≡ record { selection = group.now; least = least_in group.now entries } }
    {
        let marks = mark_tiles(group);
        let strides = find_strides(group);
        Folded {
            group: *group,
            entries,
            marks,
            strides,
        }
    }

    /// Its group.
    #[tactic(auto, using(crate::proofs::FoldLemmas::fold_size))]
    pub fn group(&self) -> &Group
        ensures value { result.now ≡ self.now.selection }
        ensures size { length self.now.least ≡ folded_size_of self.now.selection }
        ensures high { (place : ℕ) → slice_index self.now.least place ≤ NO_VALUE }
    {
        self.tell_values();
        &self.group
    }

    /// The folded value of a view: the least value of the views that show the tiles on these cells.
    pub fn value(&self, view: &View) -> u16
        requires { IsView self.now.selection.grid self.now.selection.tiles view.now }
        ensures { result ≡ folded_in self.now view.now }
    {
        match &self.entries {
            Entries::Ranked(least) => least[self.group.place(view)],
            Entries::Bytes(bytes) => widened(bytes[self.group.sparse_place(view)]),
            Entries::Words(words) => words[self.group.sparse_place(view)],
        }
    }

    /// The folded value of what its group sees of a board, by the cell of each of the board's
    /// numbers (`cells_of`): as `value` of the view, without making one.
    pub fn value_at(&self, cells: &[u8; 25]) -> u16
        requires { IsView self.now.selection.grid self.now.selection.tiles
            (view_at self.now.selection.tiles cells.now) }
        ensures { result ≡ folded_in self.now (view_at self.now.selection.tiles cells.now) }
    {
        match &self.entries {
            Entries::Ranked(least) => least[self.group.place_at(cells)],
            Entries::Bytes(bytes) => widened(bytes[self.group.sparse_place_at(cells)]),
            Entries::Words(words) => words[self.group.sparse_place_at(cells)],
        }
    }

    /// The folded value of the views with a sparse place, found with one read. None where it is
    /// `NO_VALUE`, or where the group has too many sparse places: `value` tells it then.
    pub fn sparse_value(&self, sparse: usize) -> Option<u16>
        ensures some { IfSome result (λ value. (v : ViewModel)
            → IsView self.now.selection.grid self.now.selection.tiles v
            → sparse_in self.now.selection.grid v ≡ sparse → value ≡ folded_in self.now v) }
        ensures none { IfNone result ((v : ViewModel)
            → IsView self.now.selection.grid self.now.selection.tiles v
            → sparse_in self.now.selection.grid v ≡ sparse
            → (folded_in self.now v ≡ NO_VALUE)
            ⊎ (most_places self.now.selection < sparse_size_of self.now.selection)) }
        ensures high { IfSome result (λ value. value < NO_VALUE) }
        ensures others { HasNoView self.now.selection sparse → result ≡ None }
        ensures past { sparse_size_of self.now.selection ≤ sparse → result ≡ None }
    {
        let value = match &self.entries {
            Entries::Ranked(_) => return None,
            Entries::Bytes(bytes) => widened(*bytes.get(sparse)?),
            Entries::Words(words) => *words.get(sparse)?,
        };
        if value == NO_VALUE {
            return None;
        }
        Some(value)
    }

    /// The stride of a number in its sparse places, 0 for one that is no tile of its group's. It is
    /// looked up.
    pub fn stride(&self, tile: u8) -> usize
        requires { tile < 25 }
        ensures value { result
            ≡ stride_of (cell_count self.now.selection.grid) self.now.selection.tiles tile }
        ensures group { IsGroup self.now.selection }
    {
        self.strides[tile as usize]
    }

    /// The value of the views whose tiles have a place.
    pub fn entry(&self, place: usize) -> u16
        requires { place < folded_size_of self.now.selection }
        ensures { result ≡ slice_index self.now.least place }
    {
        match &self.entries {
            Entries::Ranked(least) => least[place],
            Entries::Bytes(bytes) => widened(bytes[sparse_at(&self.group, place)]),
            Entries::Words(words) => words[sparse_at(&self.group, place)],
        }
    }

    /// Whether a tile is one of its group's. It is looked up, in no more time where the group has
    /// more tiles.
    pub fn has_tile(&self, tile: u8) -> bool
        ensures has { IsTrue result ↔ Contains self.now.selection.tiles tile }
        ensures group { IsGroup self.now.selection }
    {
        match self.marks.get(tile as usize) {
            Some(is_marked) => *is_marked,
            None => false,
        }
    }

    /// How many values it has: N! / (N - k)! for k tiles and N cells.
    #[tactic(auto, using(crate::proofs::FoldLemmas::fold_size))]
    pub fn size(&self) -> usize
        ensures value { result ≡ folded_size_of self.now.selection }
        ensures values { result ≡ length self.now.least }
    {
        self.group.folded_size()
    }

    // Each value is at most `NO_VALUE`.
    fn tell_values(&self)
        ensures { (place : ℕ) → slice_index self.now.least place ≤ NO_VALUE }
    {
        match &self.entries {
            Entries::Ranked(least) => tell_words(least),
            Entries::Bytes(bytes) => tell_bytes(bytes),
            Entries::Words(words) => tell_words(words),
        }
    }
}

/// The folded table: for each way to place the tiles, the least value over the blank's cells (Korf,
/// Felner 2002).
pub fn fold(alloc: Global, table: Table) -> Result<Folded, OutOfMemory>
    ensures { IfOk result (IsFoldOf table) }
{
    let group = *table.group();
    let least = fold_table(alloc, &table)?;
    let entries = keep_least(alloc, &group, &least)?;
    Ok(Folded::of_group(&group, entries))
}

// The sparse place of the views with a place.
fn sparse_at(group: &Group, place: usize) -> usize
    requires { place < folded_size_of group.now }
    ensures value { result ≡ sparse_of_place group.now place }
    ensures below { result < sparse_size_of group.now }
{
    let cells = group.shape().cells();
    let mut list = [0; 9];
    let list = &mut list[..group.tiles().len()];
    list_cells(cells, place, list);
    sparse_place(cells, list)
}

// The strides of the numbers in a group's sparse places.
fn find_strides(group: &Group) -> [usize; 25]
    ensures { AreStridesOf group.now result }
{
    let mut strides = [0; 25];
    'numbers: for number in 0..25 {
        strides[number] = group.stride(number as u8);
    }
    strides
}

// Marks the tiles of a group among the numbers.
fn mark_tiles(group: &Group) -> [bool; 25]
    ensures marks { AreMarksOf group.now.tiles result }
    ensures group { IsGroup group.now }
{
    let tiles = group.tiles();
    let mut marks = [false; 25];
    'numbers: for number in 0..25 {
        marks[number] = is_among(tiles, number as u8);
    }
    marks
}

// Whether a number is one of the tiles.
fn is_among(tiles: &[u8], number: u8) -> bool
    ensures { IsTrue result ↔ Contains tiles.now number }
{
    tiles.contains(&number)
}
