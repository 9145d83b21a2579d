//! The rings of a run, once both ends of each are in one thread.

ghost use Rattle.std.specs.Prelude.{ℕ, ◌≡◌, ◌<◌, [], Some, length, vec_len, slice_index_or};
ghost use Rattle.thread_parts.specs.Rings.{out_rings, in_rings, sent_lanes, received_lanes, left_lanes};
ghost use Rattle.thread_parts.specs.Rings.{rings_of_outs, rings_of_ins, sent_rows, received_rows};
ghost use Rattle.thread_parts.specs.Rings.{left_rows, lane_at, ArePaired, IsSameRing, IsLookedAt};
ghost use Rattle.thread_runs.specs.Lanes.{IsTied, AreLookedAt, AreSameEnds};

use message_ledger::Tokens;
use quiescence::Book;
use thread_parts::{Receiver, Sender, tie};
use world_model::Stop;

/// Looks at all rings from both ends: what was received and what is left is what was sent, and
/// where the run is quiet nothing is left.
#[tactic(auto, using(crate::proofs::TakenLemmas::rows))]
pub(crate) fn tie_all<C: Tokens>(
    book: &mut Book<C>,
    outs: &mut Vec<Vec<Sender<C>>>,
    ins: &mut Vec<Vec<Receiver<C>>>,
)
    requires { ArePaired (vec_len ins.old) (rings_of_outs outs.old.items)
        (rings_of_ins ins.old.items) }
    ensures book { book.new ≡ book.old }
    ensures same { AreSameEnds outs.old.items outs.new.items ins.old.items ins.new.items }
    ensures tied { (i j : ℕ) → i < vec_len ins.old → j < vec_len ins.old
        → IsTied (lane_at (sent_rows outs.new.items) i j)
        (lane_at (received_rows ins.new.items) j i) (lane_at (left_rows ins.new.items) j i) }
    ensures quiet { book.old.stop ≡ Some Stop.Quiet → (i j : ℕ) → i < vec_len ins.old
        → j < vec_len ins.old → lane_at (left_rows ins.new.items) j i ≡ [] }
{
    'senders: for i in 0..outs.len() {
        tie_row(book, &mut outs[i], ins, i);
    }
}

// Looks at the rings from worker i to each.
#[tactic(auto, using(crate::proofs::TakenLemmas::rows))]
fn tie_row<C: Tokens>(
    book: &mut Book<C>,
    outs: &mut Vec<Sender<C>>,
    ins: &mut Vec<Vec<Receiver<C>>>,
    i: usize,
)
    requires { (j : ℕ) → j < vec_len ins.old → IsSameRing (out_rings outs.old.items) j
        (slice_index_or (rings_of_ins ins.old.items) j []) i }
    ensures book { book.new ≡ book.old }
    ensures outs { outs.new.items ≡ outs.old.items }
    ensures ins { AreLookedAt i ins.old.items ins.new.items }
    ensures tied { (j : ℕ) → j < vec_len ins.old
        → IsTied (slice_index_or (sent_lanes outs.new.items) j [])
        (lane_at (received_rows ins.new.items) j i) (lane_at (left_rows ins.new.items) j i) }
    ensures quiet { book.old.stop ≡ Some Stop.Quiet → (j : ℕ) → j < vec_len ins.old
        → lane_at (left_rows ins.new.items) j i ≡ [] }
{
    'receivers: for j in 0..ins.len() {
        tie_ring(book, outs, j, &mut ins[j], i);
    }
}

// Looks at one ring.
fn tie_ring<C: Tokens>(
    book: &mut Book<C>,
    outs: &mut Vec<Sender<C>>,
    to: usize,
    ins: &mut Vec<Receiver<C>>,
    from: usize,
)
    requires { IsSameRing (out_rings outs.old.items) to (in_rings ins.old.items) from }
    ensures book { book.new ≡ book.old }
    ensures outs { outs.new.items ≡ outs.old.items }
    ensures ins { IsLookedAt from ins.old.items ins.new.items }
    ensures tied { IsTied (slice_index_or (sent_lanes outs.new.items) to [])
        (slice_index_or (received_lanes ins.new.items) from [])
        (slice_index_or (left_lanes ins.new.items) from []) }
    ensures quiet { book.old.stop ≡ Some Stop.Quiet
        → slice_index_or (left_lanes ins.new.items) from [] ≡ [] }
{
    let left = tie(outs, to, ins, from);
    if left == 0 {
        return;
    }
    let Some(Stop::Quiet) = book.stop() else {
        return;
    };
    refute_packet(book, ins, from);
}

// No packet is left where the run is quiet: its 1 would be within a credit of 0.
fn refute_packet<C: Tokens>(book: &mut Book<C>, ins: &mut Vec<Receiver<C>>, from: usize)
    requires quiet { book.old.stop ≡ Some Stop.Quiet }
    requires there { from < vec_len ins.old }
    requires left { 0 < length (slice_index_or (left_lanes ins.old.items) from []) }
    ensures { ⊥ }
{
    let mut packet = ins[from].pop_left();
    book.audit_packet(&mut packet);
    let _ = book.stop();
    unreachable!();
}
