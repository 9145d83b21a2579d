//! Ways to divide boards among workers.

ghost use Rattle.std.specs.Prelude.{◌≡◌, ◌<◌, ◌%◌, ℕ, Option, None};
ghost use Rattle.board.specs.Boards.{BoardModel};
ghost use Rattle.search_keys.specs.SearchKeys.{HasSearchKey};
ghost use Rattle.owners.specs.Owners.{AreWorkers};
ghost use Rattle.owners.specs.Slides.{IsMoved};

use board::{Board, Shape};
use search_keys::KeyedBoard;

/// A tile that moves onto the blank's cell.
#[derive(Clone, Copy, Debug)]
pub struct Slide {
    pub tile: u8,
    /// The cell of the tile.
    pub from: usize,
    /// The cell of the blank.
    pub to: usize,
}

/// The board to which a slide leads.
#[derive(Clone, Copy, Debug)]
pub struct Moved {
    pub shape: Shape,
    /// The search key of the board after the slide.
    pub key: u128,
    pub slide: Slide,
}

/// A way to divide boards among workers. The owner of a board depends on the spread, the number of
/// workers and the board alone. To write one, give `owner` with its ghost member and the law, and a
/// `hash` that answers None. A spread that finds a successor's owner faster from the hash of the
/// board before gives `hash_of`, `hash` and `owner_after`. One that finds it faster from the slide
/// alone gives `owner_after`, and None as the hash.
pub trait Spread {
    /// The owner of a board among a number of workers, which are numbered from 0.
    ghost owner_of: { Self → ℕ → BoardModel → ℕ };

    /// The hash of a board, from a spread that has hashes; from one that has none, None.
    ghost hash_of: { Self → BoardModel → Option ℕ } = { λ s b. None };

    /// The worker that owns a board, of `workers` workers.
    fn owner(&self, board: &Board, workers: usize) -> usize
        requires { 0 < workers }
        ensures value { result ≡ owner_of self.now workers board.now }
        ensures within { result < workers };

    /// The worker that owns a board known by its search key, of `workers` workers: as `owner`
    /// answers. The default makes the board for `owner`; a spread that reads its owners from the
    /// key overrides it.
    fn owner_by_key(&self, board: &KeyedBoard, workers: usize) -> usize
        requires { 0 < workers }
        ensures value { result ≡ owner_of self.now workers board.now }
        ensures within { result < workers }
    {
        self.owner(&board.board(), workers)
    }

    /// The hash of a board, as `owner_after` takes it of the board before a slide. None means that
    /// the spread has no hashes: its `owner_after` finds the owner without one.
    fn hash(&self, board: &KeyedBoard) -> Option<u64>
        ensures { result ≡ hash_of self.now board.now };

    /// The worker that owns the board after a slide, of `workers` workers. It is given what `hash`
    /// answers for the board before the slide.
    fn owner_after(&self, hash: Option<u64>, moved: Moved, workers: usize) -> usize
        requires some { 0 < workers }
        requires moved { (b : BoardModel) × IsMoved b moved × (hash ≡ hash_of self.now b) }
        ensures { (b : BoardModel) → HasSearchKey moved.shape moved.key b
            → result ≡ owner_of self.now workers b }
    {
        let _ = hash;
        let board = KeyedBoard::of_key(moved.shape, moved.key);
        self.owner_by_key(&board, workers)
    }

    /// Each board's owner is one of the workers.
    ghost owners_are_workers: { AreWorkers owner_of };
}

/// The worker, of `workers` workers, that owns what has this hash: its remainder. To divide by a
/// number that the compiler knows is much faster, so common numbers of workers have arms of their
/// own.
pub fn worker_of(hash: u64, workers: usize) -> usize
    requires { 0 < workers }
    ensures value { result ≡ hash % workers }
    ensures within { result < workers }
{
    match workers {
        2 => (hash % 2) as usize,
        3 => (hash % 3) as usize,
        4 => (hash % 4) as usize,
        6 => (hash % 6) as usize,
        8 => (hash % 8) as usize,
        12 => (hash % 12) as usize,
        16 => (hash % 16) as usize,
        _ => (hash % workers as u64) as usize,
    }
}

/// By the cell of the blank.
#[derive(Clone, Copy, Debug)]
pub struct ByBlank;

impl Spread for ByBlank {
    ghost use Rattle.owners.specs.Owners.{owner_by_blank, owner_by_blank-lt};

    ghost owner_of = { λ s. owner_by_blank };

    ghost owners_are_workers = { λ s. owner_by_blank-lt };

    fn owner(&self, board: &Board, workers: usize) -> usize {
        worker_of(board.blank() as u64, workers)
    }

    fn owner_by_key(&self, keyed: &KeyedBoard, workers: usize) -> usize {
        worker_of(keyed.blank() as u64, workers)
    }

    // The slide says where the blank goes: no hash is needed.
    fn hash(&self, _board: &KeyedBoard) -> Option<u64> {
        None
    }

    fn owner_after(&self, _hash: Option<u64>, moved: Moved, workers: usize) -> usize {
        worker_of(moved.slide.from as u64, workers)
    }
}
