//! Owners by a hash of the board, of all tiles or of some.

ghost use Rattle.std.specs.Prelude.{◌≡◌, ◌<◌, ◌≤◌, ℕ, slice_index, length};
ghost use Rattle.board.specs.Boards.{BoardModel};
ghost use Rattle.board.specs.Shapes.{cell_count};
ghost use Rattle.owners.specs.Owners.{hash_by, word};
ghost use Rattle.owners.specs.Slides.{IsMoved};
ghost use Rattle.search_keys.specs.SearchKeys.{HasSearchKey};

use crate::spread::{Moved, Spread, worker_of};
use board::{Board, Shape};
use rand_core::SeedableRng;
use rand_core::utils::NextWord;
use rand_xoshiro::SplitMix64;
use search_keys::KeyedBoard;
use std::marker::Model;

// As many words as boards of 5 by 5 need: one for each of 24 tiles on each of 25 cells.
const WORD_COUNT: usize = 600;

/// By the exclusive or of one word for each tile and its cell (Zobrist 1970). The words are those
/// of `SplitMix64` from eight zero bytes on, tile by tile from 1 on, and for each tile cell by
/// cell.
#[derive(Debug, Drop)]
pub struct Zobrist {
    // Those of a smaller board are the first of these.
    words: [u64; 600],
}

impl Model for Zobrist {
    ghost use Rattle.std.specs.Prelude.{⊤};
    ghost use Rattle.owners.specs.Owners.{AreWords};

    ghost Value = { ⊤ };

    ghost view = { λ z. tt };

    ghost invariant = { λ z. AreWords z.words };
}

impl Zobrist {
    /// The words for boards of a shape.
    pub fn new(_shape: Shape) -> Self {
        let mut words = [0; 600];
        fill(&mut words);
        Zobrist { words }
    }
}

// Writes the first words of the generator.
fn fill(words: &mut [u64])
    ensures words { (k : ℕ) → k < length words.old → slice_index words.new k ≡ word k }
    ensures length { length words.new ≡ length words.old }
{
    let mut generator = SplitMix64::from_seed([0; 8]);
    'words: for k in 0..words.len() {
        words[k] = generator.next_word();
    }
}

/// By the words of every fourth tile alone, from tile 1 on (abstract Zobrist hashing, Jinnai and
/// Fukunaga 2017). The other tiles' moves lead to boards of the same worker.
#[derive(Debug, Drop)]
pub struct Abstract {
    zobrist: Zobrist,
}

impl Abstract {
    /// The words for boards of a shape.
    pub fn new(shape: Shape) -> Self {
        Abstract {
            zobrist: Zobrist::new(shape),
        }
    }
}

// A word for each tile and its cell, on boards of a number of cells.
trait Words {
    ghost word_on: { ℕ → ℕ → ℕ → ℕ };

    // The word of a tile on a cell of a board of `cells` cells.
    fn word(&self, cells: usize, tile: u8, cell: usize) -> u64
        requires few { cells ≤ 25 }
        requires some { 0 < tile }
        requires tile { tile < cells }
        requires cell { cell < cells }
        ensures { result ≡ word_on cells tile cell };

    // The blank has none.
    ghost none_of_the_blank: { (cells cell : ℕ) → word_on cells 0 cell ≡ 0 };
}

impl Words for Zobrist {
    ghost use Rattle.std.specs.Prelude.{refl};
    ghost use Rattle.owners.specs.Owners.{word_on};

    ghost word_on = { word_on };

    ghost none_of_the_blank = { λ cells cell. refl };

    fn word(&self, cells: usize, tile: u8, cell: usize) -> u64 {
        self.words[(tile as usize - 1) * cells + cell]
    }
}

impl Words for Abstract {
    ghost use Rattle.std.specs.Prelude.{refl};
    ghost use Rattle.owners.specs.Owners.{abstract_word_on};

    ghost word_on = { abstract_word_on };

    ghost none_of_the_blank = { λ cells cell. refl };

    fn word(&self, cells: usize, tile: u8, cell: usize) -> u64 {
        if tile % 4 != 1 {
            return 0;
        }
        self.zobrist.word(cells, tile, cell)
    }
}

// The hash of a board, by these words.
fn hash_board<W: Words>(words: &W, board: &KeyedBoard) -> u64
    ensures { result ≡ hash_by (W.word_on (cell_count board.now.grid)) 0 board.now.tiles }
{
    let cells = board.shape().cells();
    let mut hash = 0;
    'tiles: for tile in 1..cells {
        hash ^= words.word(cells, tile as u8, board.cell(tile as u8));
    }
    hash
}

// The hash of the board after a slide, by that of the board before it.
fn hash_after<W: Words>(words: &W, before: u64, moved: Moved) -> u64
    requires { (b : BoardModel) × IsMoved b moved
        × (before ≡ hash_by (W.word_on (cell_count b.grid)) 0 b.tiles) }
    ensures { (b : BoardModel) → HasSearchKey moved.shape moved.key b
        → result ≡ hash_by (W.word_on (cell_count b.grid)) 0 b.tiles }
{
    let cells = moved.shape.cells();
    let there = words.word(cells, moved.slide.tile, moved.slide.to);
    let here = words.word(cells, moved.slide.tile, moved.slide.from);
    before ^ there ^ here
}

impl Spread for Zobrist {
    ghost use Rattle.std.specs.Prelude.{Some};
    ghost use Rattle.owners.specs.Owners.{hash_of};
    ghost use Rattle.owners.specs.Owners.{owner_by_hash, owner_by_hash-lt};

    ghost owner_of = { λ z. owner_by_hash };

    ghost hash_of = { λ z b. Some (hash_of b) };

    ghost owners_are_workers = { λ z. owner_by_hash-lt };

    fn owner(&self, board: &Board, workers: usize) -> usize {
        self.owner_by_key(&KeyedBoard::new(board), workers)
    }

    fn owner_by_key(&self, board: &KeyedBoard, workers: usize) -> usize {
        worker_of(hash_board(self, board), workers)
    }

    fn hash(&self, board: &KeyedBoard) -> Option<u64> {
        Some(hash_board(self, board))
    }

    fn owner_after(&self, hash: Option<u64>, moved: Moved, workers: usize) -> usize {
        worker_of(hash_after(self, hash.unwrap(), moved), workers)
    }
}

impl Spread for Abstract {
    ghost use Rattle.std.specs.Prelude.{Some};
    ghost use Rattle.owners.specs.Owners.{abstract_hash_of};
    ghost use Rattle.owners.specs.Owners.{owner_by_abstract_hash, owner_by_abstract_hash-lt};

    ghost owner_of = { λ a. owner_by_abstract_hash };

    ghost hash_of = { λ a b. Some (abstract_hash_of b) };

    ghost owners_are_workers = { λ a. owner_by_abstract_hash-lt };

    fn owner(&self, board: &Board, workers: usize) -> usize {
        self.owner_by_key(&KeyedBoard::new(board), workers)
    }

    fn owner_by_key(&self, keyed: &KeyedBoard, workers: usize) -> usize {
        worker_of(hash_board(self, keyed), workers)
    }

    fn hash(&self, keyed: &KeyedBoard) -> Option<u64> {
        Some(hash_board(self, keyed))
    }

    fn owner_after(&self, before: Option<u64>, moved: Moved, workers: usize) -> usize {
        worker_of(hash_after(self, before.unwrap(), moved), workers)
    }
}
