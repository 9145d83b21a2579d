//! Successors of a board, as they go to their owners.

ghost use Rattle.std.specs.Prelude.{◌≡◌, ◌<◌, Some};
ghost use Rattle.board.specs.declared.moves.Move.{Move};
ghost use Rattle.board.specs.Neighbours.{neighbour};
ghost use Rattle.board.specs.Boards.{BoardModel, blank_of};
ghost use Rattle.lower_bound.specs.Bounds.{sum_of};
ghost use Rattle.lower_bound.specs.Tables.{parts_of};
ghost use Rattle.search_keys.specs.SearchKeys.{HasSearchKey};
ghost use Rattle.successor_sums.specs.Unpacked.{but};
ghost use Rattle.owners.specs.Slides.{IsMoved};
ghost use Rattle.owners.specs.Offers.{item_by, IsOffered, AreOffered, OfEach};
ghost use Rattle.owners.specs.Offers.{IsWithin};
ghost use Rattle.owners.specs.Terms.{AreFoundBy, Fits, IsReadFor, owners_by};

use crate::spread::{Moved, Slide, Spread};
use crate::terms::{Origin, Terms};
use board::Move;
use lower_bound::Reading;
use search_keys::KeyedBoard;
use successor_sums::{ByMoves, find_exits};

/// What a move from a board offers: a successor, by its key. (`ByMoves` has the move: here it would
/// leave padding, which is copied byte by byte.)
#[derive(Clone, Copy, Debug)]
pub struct Offer {
    pub key: u128,
    /// What it costs to reach it.
    pub cost: u32,
    /// The cost plus the sum.
    pub f: u32,
    /// The worker that owns it.
    pub owner: usize,
}

// What unused places of a list of offers hold.
const NO_OFFER: Offer = Offer {
    key: 0,
    cost: 0,
    f: 0,
    owner: 0,
};

/// Nothing is offered.
pub fn no_offers() -> ByMoves<Offer>
    ensures { OfEach (λ offer. ⊥) result }
{
    ByMoves::nothing(NO_OFFER)
}

// How the owners of a board's successors are found.
#[derive(Clone, Copy)]
enum OwnersBy {
    // There is one worker, which owns all boards.
    OneWorker,
    // The spread is asked, which is given the board's hash where it has hashes.
    Spread(Option<u64>),
}

/// Writes what the moves from a board offer, except a move that is left out, if any is.
#[inline(always)]
pub fn offers_of<S: Spread>(
    origin: &Origin<'_>,
    terms: &Terms<'_, S>,
    left_out: Option<Move>,
    offers: &mut ByMoves<Offer>,
)
    requires { Fits terms.now origin.now }
    ensures offered { AreOffered (sum_of (parts_of terms.now.tables))
        (S.owner_of terms.now.owners terms.now.workers)
        (but left_out (item_by terms.now.rule origin.now.board origin.now.cost)) offers.new }
    ensures within { OfEach
        (IsWithin origin.now.board.grid origin.now.cost terms.now.workers) offers.new }
{
    let board = origin.board;
    let mut exits = ByMoves::nothing(0);
    find_exits(board.shape(), board.blank(), left_out, &mut exits);
    let reading = terms.bound.read(board);
    let owners_by = owners_by(board, terms.owners, terms.workers);
    offers.clear();
    'exits: for place in 0..exits.len() {
        let (direction, to) = exits.entry(place);
        let offer = offer_by(origin, terms, &reading, owners_by, to);
        offers.put_if(direction, offer, true);
    }
}

// How the owners of a board's successors are found.
fn owners_by<S: Spread>(board: &KeyedBoard, owners: &S, workers: usize) -> OwnersBy
    ensures { result ≡ owners_by (S.hash_of owners.now) workers board.now }
{
    if workers == 1 {
        return OwnersBy::OneWorker;
    }
    OwnersBy::Spread(owners.hash(board))
}

// What is offered by the move that takes the blank to a cell.
#[inline(always)]
fn offer_by<S: Spread>(
    origin: &Origin<'_>,
    terms: &Terms<'_, S>,
    reading: &Reading,
    owners_by: OwnersBy,
    to: usize,
) -> Offer
    requires read { IsReadFor S.hash_of terms.now origin.now reading.now owners_by }
    requires beside { (m : Move)
        × (neighbour origin.now.board.grid m (blank_of origin.now.board) ≡ Some to) }
    ensures offered { (m : Move)
        → neighbour origin.now.board.grid m (blank_of origin.now.board) ≡ Some to
        → IsOffered (sum_of (parts_of terms.now.tables))
        (S.owner_of terms.now.owners terms.now.workers)
        (item_by terms.now.rule origin.now.board origin.now.cost m) (Some result) }
    ensures within { IsWithin origin.now.board.grid origin.now.cost terms.now.workers result }
{
    let slid = origin.board.slide(to);
    let cost = origin.cost + terms.weights.of(slid.tile);
    let sum = terms.bound.sum_after_move(origin.sum, reading, slid.tile);
    let moved = Moved {
        shape: origin.board.shape(),
        key: slid.key,
        slide: Slide {
            tile: slid.tile,
            from: to,
            to: origin.board.blank(),
        },
    };
    Offer {
        key: slid.key,
        cost,
        f: cost + sum,
        owner: owner_after(terms, owners_by, moved),
    }
}

// The owner of the board after a slide.
fn owner_after<S: Spread>(terms: &Terms<'_, S>, owners_by: OwnersBy, moved: Moved) -> usize
    requires { (b : BoardModel) × IsMoved b moved × AreFoundBy S.hash_of terms.now b owners_by }
    ensures value { (b : BoardModel) → HasSearchKey moved.shape moved.key b
        → result ≡ S.owner_of terms.now.owners terms.now.workers b }
    ensures within { result < terms.now.workers }
{
    match owners_by {
        OwnersBy::OneWorker => 0,
        OwnersBy::Spread(hash) => terms.owners.owner_after(hash, moved, terms.workers),
    }
}
