//! Whether packets have room for what is offered to their workers.

ghost use Rattle.std.specs.Prelude.{◌≡◌, ◌≤◌, ◌↔◌, map, IsTrue, Some};
ghost use Rattle.owners.specs.Room.{goes, go, HasRoom};

use crate::offer::Offer;
use arrayvec::ArrayVec;
use successor_sums::ByMoves;
use world_model::{Item, PACKET_LIMIT};

/// Whether each packet of a worker has room for what is offered to others.
pub fn has_room(unsent: &[ArrayVec<Item, PACKET_LIMIT>], me: usize, offers: &ByMoves<Offer>) -> bool
    ensures { IsTrue result ↔ HasRoom me (map (λ v. v.items) unsent.now) offers.now }
{
    if unsent.len() == 1 && me == 0 {
        // One worker sends nothing. Its packet has no more items than fit, and `len` says so.
        let _ = unsent[0].len();
        return true;
    }
    'packets: for to in 0..unsent.len() {
        if unsent[to].len() + count(offers, me, to) > PACKET_LIMIT {
            return false;
        }
    }
    true
}

// How many of the offers go from one worker to another: none from one to itself.
fn count(offers: &ByMoves<Offer>, me: usize, to: usize) -> usize
    ensures value { result ≡ go me to offers.now }
    ensures few { result ≤ 4 }
{
    if to == me {
        return 0;
    }
    let mut count = 0;
    'offers: for place in 0..offers.len() {
        let (_, offer) = offers.entry(place);
        count += count_one(&offer, me, to);
    }
    count
}

// How many items of an offer go from one worker to another: one or none.
fn count_one(offer: &Offer, me: usize, to: usize) -> usize
    ensures value { result ≡ goes me to (Some offer.now) }
    ensures few { result ≤ 1 }
{
    if offer.owner == me || offer.owner != to {
        0
    } else {
        1
    }
}
