//! What becomes of a certificate with one byte changed.

ghost use Rattle.std.specs.Prelude.{◌≡◌};

use crate::weighted::damage;
use crate::weighted::tables::bound_for;
use byte_streams::{ByteSink, ByteSource};
use certificate::{Certificate, ReadFault, read, write};
use certificate_check::check;
use rand_xoshiro::SplitMix64;
use std::alloc::Global;
use test_support::least_costs;

/// What became of changed bytes.
#[derive(Clone, Copy)]
pub enum Fate {
    /// They spell no certificate.
    Unread,
    /// The checker refuses the certificate that they spell.
    Refused,
    /// It accepts it, and its cost is the least.
    Accepted,
    /// It accepts it, and its cost is not the least.
    Wrong,
}

/// What becomes of a certificate when one of its bytes is changed; or None where memory was refused.
pub fn fate_of(alloc: Global, words: &mut SplitMix64, certificate: &Certificate) -> Option<Fate> {
    let mut sink = ByteSink::new(Vec::new(alloc));
    write(&mut sink, certificate).ok()?;
    let mut bytes = sink.into_inner();
    damage(words, bytes.as_mut_slice())?;
    match read(alloc, &mut ByteSource::new(bytes.as_slice())) {
        Ok(other) => judge(alloc, &other),
        Err(ReadFault::Format(_)) => Some(Fate::Unread),
        Err(_) => None,
    }
}

// What the checker says of a certificate, and whether that is right.
fn judge(alloc: Global, certificate: &Certificate) -> Option<Fate> {
    let bound = bound_for(alloc, certificate)?;
    if check(certificate, &bound).is_err() {
        return Some(Fate::Refused);
    }
    if least_of(alloc, certificate)? == Some(certificate.cost()) {
        Some(Fate::Accepted)
    } else {
        Some(Fate::Wrong)
    }
}

// The least cost from the start of a certificate to its goal.
fn least_of(alloc: Global, certificate: &Certificate) -> Option<Option<u32>> {
    let goal = certificate.goal();
    let costs = certificate.costs();
    if costs.shape() != goal.shape() {
        return None;
    }
    let boards = least_costs(alloc, &goal, &costs).ok()?;
    for (board, least) in boards.as_slice() {
        if *board == certificate.start() {
            return Some(*least);
        }
    }
    None
}
