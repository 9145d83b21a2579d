//! What the successors of rows leave open.

ghost use Rattle.std.specs.Prelude.{◌≡◌, ◌<◌, ◌≤◌, ◌↔◌, ℕ, length};
ghost use Rattle.std.specs.Prelude.{IsTrue, IsNone, IfSome};
ghost use Rattle.std.specs.List.Sorted.{IsPartitionPoint};
ghost use Rattle.board.specs.declared.moves.Move.{Move};
ghost use Rattle.board.specs.Boards.{BoardModel};
ghost use Rattle.board.specs.Equality.{number_of};
ghost use Rattle.board.specs.Keys.{key_of};
ghost use Rattle.board.specs.Rows.{HasRow};
ghost use Rattle.board.specs.declared.costs.TheConstants.{GREATEST_COST};
ghost use Rattle.lower_bound.specs.Tables.{BoundModel};
ghost use Rattle.lower_bound.specs.declared.bound.TheConstants.{GREATEST_SUM};
ghost use Rattle.certificate.specs.Certificates.{IsCertificate, IsBoardOf};
ghost use Rattle.certificate_check.specs.Refusals.{LeavesOpen, LeavesOpenAt, IsFirstOpen};
ghost use Rattle.certificate_check.specs.Refusals.{AreClosed};
ghost use Rattle.certificate_check.specs.Lookups.{IsTold};

use crate::lookups::first_from;
use board::Move;
use certificate::Certificate;
use lower_bound::Bound;
use successor_sums::{Successor, UnpackedBoard};

// How far from a row the rows of its successors are, by the cell of its blank and the move: about
// as far as from the last such row, since rows that are near one another are of boards alike. These
// are guesses, on which no proof rests.
type Distances = [usize; 4 * 25];

// The first open successor of a row from a place on, where the rows before it leave no board open:
// the place of the row, and the move.
pub(crate) fn find_open(
    certificate: &Certificate,
    bound: &Bound,
    from: usize,
) -> Option<(usize, Move)>
    requires certificate { IsCertificate certificate.now }
    requires shape { bound.now.split.grid ≡ certificate.now.grid }
    requires before { AreClosed certificate.now bound.now 0 from }
    ensures first { IfSome result (λ found.
        IsFirstOpen certificate.now bound.now found.0 found.1) }
    ensures none { IsNone result → (place : ℕ) (m : Move) →
        ¬ LeavesOpenAt certificate.now bound.now place m }
{
    let mut distances = [0; 4 * 25];
    'rows: for place in from..certificate.rows().len() {
        if let Some(direction) = open_move(certificate, bound, place, &mut distances) {
            return Some((place, direction));
        }
    }
    None
}

// Whether the rows from a place on and below another leave no board open.
pub(crate) fn are_closed(certificate: &Certificate, bound: &Bound, from: usize, end: usize) -> bool
    requires certificate { IsCertificate certificate.now }
    requires shape { bound.now.split.grid ≡ certificate.now.grid }
    requires within { end ≤ length certificate.now.rows }
    ensures { IsTrue result ↔ AreClosed certificate.now bound.now from end }
{
    let mut distances = [0; 4 * 25];
    'rows: for place in from..end {
        if open_move(certificate, bound, place, &mut distances).is_some() {
            return false;
        }
    }
    true
}

// The first move from a row to an open board.
fn open_move(
    certificate: &Certificate,
    bound: &Bound,
    place: usize,
    distances: &mut Distances,
) -> Option<Move>
    requires certificate { IsCertificate certificate.now }
    requires shape { bound.now.split.grid ≡ certificate.now.grid }
    requires within { place < length certificate.now.rows }
    ensures leaves { IfSome result (LeavesOpenAt certificate.now bound.now place) }
    ensures first { IfSome result (λ m. (m' : Move) →
        number_of m' < number_of m → ¬ LeavesOpenAt certificate.now bound.now place m') }
    ensures none { IsNone result → (m : Move) →
        ¬ LeavesOpenAt certificate.now bound.now place m }
{
    let row = &certificate.rows()[place];
    let board = UnpackedBoard::new(&row.0);
    let told = board.successors(&certificate.costs(), bound);
    let first = board.blank() * 4;
    'moves: for (number, direction) in Move::ALL.iter().enumerate() {
        let distance = &mut distances[first + number];
        if leaves_open(certificate, place, row.1, &told[number], distance) {
            return Some(*direction);
        }
    }
    None
}

// Whether a move leaves a board open (`LeavesOpen`), by what is known of the board that it leads
// to. The sum of such a board and the cost of going there are together below the stated cost, and
// the board has no row with at most the cost of going there.
fn leaves_open(
    certificate: &Certificate,
    place: usize,
    reached: u32,
    told: &Option<Successor>,
    distance: &mut usize,
) -> bool
    requires certificate { IsCertificate certificate.now }
    requires low { reached ≤ GREATEST_COST }
    requires costs { IfSome told.now (λ s. s.cost ≤ 255) }
    requires sums { IfSome told.now (λ s. s.sum ≤ GREATEST_SUM) }
    ensures { (tables : BoundModel) (b : BoardModel) (m : Move) → IsBoardOf certificate.now.grid b →
        IsTold certificate.now.costs tables b m told.now →
        IsTrue result ↔ LeavesOpen certificate.now tables (b, reached) m }
{
    let Some(next) = told else {
        return false;
    };
    let cost = reached + next.cost;
    if next.sum + cost >= certificate.cost() {
        return false;
    }
    let at = first_from(certificate.rows(), next.key, place.wrapping_add(*distance));
    *distance = at.wrapping_sub(place);
    !has_row_at(certificate, at, next.key, cost)
}

// Whether the board with a key has a row with at most this cost. `at` is the first place from which
// on no row's key is below that key.
fn has_row_at(certificate: &Certificate, at: usize, key: u128, cost: u32) -> bool
    requires certificate { IsCertificate certificate.now }
    requires at { IsPartitionPoint (λ row. key_of row.0 < key) (λ row. key ≤ key_of row.0)
        certificate.now.rows at }
    ensures { (b : BoardModel) → IsBoardOf certificate.now.grid b → key_of b ≡ key →
        IsTrue result ↔ HasRow certificate.now.rows b cost }
{
    let rows = certificate.rows();
    if at >= rows.len() {
        return false;
    }
    let row = &rows[at];
    row.0.key() == key && row.1 <= cost
}
