//! The rows of a certificate, which are looked up by halves.

ghost use Rattle.std.specs.Prelude.{◌≡◌, ◌<◌, ◌≤◌, ◌⊎◌, ◌↔◌, ℕ, length};
ghost use Rattle.std.specs.Prelude.{IsTrue, IfSome, Some};
ghost use Rattle.board.specs.Rows.{HasRow};
ghost use Rattle.certificate.specs.Certificates.{IsCertificate, IsBoardOf};
ghost use Rattle.certificate_check.specs.Refusals.{HasRowAt, sum_in};

use crate::lookups::first_between;
use board::Board;
use certificate::Certificate;
use lower_bound::Bound;

// The place of a board's row, if it has one.
pub(crate) fn find_row(certificate: &Certificate, board: &Board) -> Option<usize>
    requires certificate { IsCertificate certificate.now }
    requires board { IsBoardOf certificate.now.grid board.now }
    ensures found { (place : ℕ) → (result ≡ Some place) ↔ HasRowAt certificate.now board.now place }
    ensures within { IfSome result (λ place. place < length certificate.now.rows) }
{
    let rows = certificate.rows();
    let place = first_between(rows, board.key(), 0, rows.len());
    if place < rows.len() && rows[place].0 == *board {
        Some(place)
    } else {
        None
    }
}

// Whether a board has a row with at most this cost.
fn has_row(certificate: &Certificate, board: &Board, cost: u32) -> bool
    requires certificate { IsCertificate certificate.now }
    requires board { IsBoardOf certificate.now.grid board.now }
    ensures { IsTrue result ↔ HasRow certificate.now.rows board.now cost }
{
    match find_row(certificate, board) {
        Some(place) => certificate.rows()[place].1 <= cost,
        None => false,
    }
}

// Whether the start has a row at 0, or needs none, since its sum is the stated cost or more.
pub(crate) fn is_start_proved(certificate: &Certificate, bound: &Bound) -> bool
    requires certificate { IsCertificate certificate.now }
    requires shape { bound.now.split.grid ≡ certificate.now.grid }
    ensures { IsTrue result
        ↔ (HasRow certificate.now.rows certificate.now.start 0
        ⊎ (certificate.now.cost ≤ sum_in bound.now certificate.now.start)) }
{
    let start = certificate.start();
    certificate.cost() <= bound.of(&start) || has_row(certificate, &start, 0)
}
