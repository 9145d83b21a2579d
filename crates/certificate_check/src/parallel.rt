//! The search for the first open successor, by several threads.

ghost use Rattle.std.specs.Prelude.{◌≡◌, ◌*◌, ◌≤◌, ◌↔◌, ℕ, length, false, IsTrue, IsNone, IfSome};
ghost use Rattle.board.specs.declared.moves.Move.{Move};
ghost use Rattle.certificate.specs.Certificates.{IsCertificate};
ghost use Rattle.certificate_check.specs.Refusals.{LeavesOpenAt, IsFirstOpen, AreClosed};
ghost use Rattle.certificate_check.specs.Refusals.{IsClosedBlock};

use crate::successors::{are_closed, find_open};
use board::Move;
use certificate::Certificate;
use lower_bound::Bound;
use rayon::prelude::*;
use std::sync::atomic::{AtomicU64, Ordering};
use std::thread::Threads;

// How many rows one call in a thread looks at. They are few enough to keep all threads busy, and
// enough that the calls cost nothing beside the rows.
const BLOCK_ROWS: usize = 4_096;

// The first open successor of a row, as `find_open` finds it. Threads look at blocks of rows.
// `find_open` goes on from the first block that isn't known to leave no board open.
pub(crate) fn find_open_parallel(
    rt: &(impl Threads + Sync),
    certificate: &Certificate,
    bound: &Bound,
) -> Option<(usize, Move)>
    requires certificate { IsCertificate certificate.now }
    requires shape { bound.now.split.grid ≡ certificate.now.grid }
    ensures first { IfSome result (λ found.
        IsFirstOpen certificate.now bound.now found.0 found.1) }
    ensures none { IsNone result → (place : ℕ) (m : Move) →
        ¬ LeavesOpenAt certificate.now bound.now place m }
{
    let from = closed_up_to(rt, certificate, bound);
    find_open(certificate, bound, from)
}

// A place below which the rows leave no board open: that of the first block that isn't known to
// leave none, or the count of the rows.
fn closed_up_to(rt: &(impl Threads + Sync), certificate: &Certificate, bound: &Bound) -> usize
    requires certificate { IsCertificate certificate.now }
    requires shape { bound.now.split.grid ≡ certificate.now.grid }
    ensures { AreClosed certificate.now bound.now 0 result }
{
    let count = certificate.rows().len();
    let open_block = AtomicU64::new(u64::MAX);
    // The last block may have no row.
    let blocks = 0..count / BLOCK_ROWS + 1;
    let found = blocks.into_par_iter().with_min_len(1).find_first(
        rt,
        |block: &usize| -> bool
            requires certificate { IsCertificate certificate.now }
            requires shape { bound.now.split.grid ≡ certificate.now.grid }
            requires within { block.now * BLOCK_ROWS ≤ length certificate.now.rows }
            ensures { result ≡ false
                → IsClosedBlock certificate.entry.now bound.entry.now block.now }
        { may_be_open(certificate, bound, *block, &open_block) },
    );
    match found {
        Some(block) => block * BLOCK_ROWS,
        None => count,
    }
}

// False only where the rows of a block leave no board open; true says nothing. True is answered
// where they leave one open, and where an earlier block was seen to do so. Then the rows aren't
// looked at, so that checking a certificate that is refused takes no longer than checking one that
// is accepted. The noted block is a hint, on which no proof rests.
fn may_be_open(
    certificate: &Certificate,
    bound: &Bound,
    block: usize,
    open_block: &AtomicU64,
) -> bool
    requires certificate { IsCertificate certificate.now }
    requires shape { bound.now.split.grid ≡ certificate.now.grid }
    requires within { block * BLOCK_ROWS ≤ length certificate.now.rows }
    ensures { result ≡ false → IsClosedBlock certificate.now bound.now block }
{
    if open_block.load(Ordering::Relaxed) < block as u64 {
        return true;
    }
    if is_closed_block(certificate, bound, block) {
        return false;
    }
    let _ = open_block.fetch_min(block as u64, Ordering::Relaxed);
    true
}

// Whether the rows of a block leave no board open.
fn is_closed_block(certificate: &Certificate, bound: &Bound, block: usize) -> bool
    requires certificate { IsCertificate certificate.now }
    requires shape { bound.now.split.grid ≡ certificate.now.grid }
    requires within { block * BLOCK_ROWS ≤ length certificate.now.rows }
    ensures { IsTrue result ↔ IsClosedBlock certificate.now bound.now block }
{
    let from = block * BLOCK_ROWS;
    let count = BLOCK_ROWS.min(certificate.rows().len() - from);
    are_closed(certificate, bound, from, from + count)
}
