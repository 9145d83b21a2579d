//! The rings of a run.

ghost use Rattle.std.specs.Prelude.{ℕ, ◌≡◌, ◌≤◌, ◌<◌, ◌∷◌, ◌++◌, [], length, vec_len};
ghost use Rattle.std.specs.Prelude.{IfOk, ◌≢◌, Some, slice_get, slice_index_or};
ghost use Rattle.world_model.specs.declared.limits.TheConstants.{LANE_LIMIT};
ghost use Rattle.thread_parts.specs.Rings.{Ring, out_rings, in_rings, sent_lanes, received_lanes};
ghost use Rattle.thread_parts.specs.Rings.{rings_of_ins, received_rows};
ghost use Rattle.thread_parts.specs.Rings.{lane_at, AreNew, IsRoomBetween, room_of};

use crate::ends::{NoRing, Receiver, Sender, open_ring};
use memory::OutOfMemory;
use message_ledger::Counting;
use std::alloc::Global;
use world_model::LANE_LIMIT;

/// The ends of all rings of a run: `outs[i][j]` and `ins[j][i]` are those of the ring from worker i
/// to worker j.
#[derive(Drop)]
pub struct Rings<C: Counting> {
    pub outs: Vec<Vec<Sender<C>>>,
    pub ins: Vec<Vec<Receiver<C>>>,
}

/// One worker's ends of the rings of a run: `outs[j]` of that to worker j, `ins[j]` of that from
/// it.
#[derive(Drop)]
pub struct Ends<C: Counting> {
    pub outs: Vec<Sender<C>>,
    pub ins: Vec<Receiver<C>>,
}

/// Memory was refused: for a list, or for a ring.
#[derive(Clone, Copy, Debug, PartialEq, Eq)]
pub enum NoMemory {
    List(OutOfMemory),
    Ring(NoRing),
}

/// A ring from each of `n` workers to each.
pub fn open_rings<C: Counting>(alloc: Global, n: usize) -> Result<Rings<C>, NoMemory>
    ensures { IfOk result (λ rings. AreNew n rings.outs.items rings.ins.items) }
{
    let mut ins = match no_receivers(alloc, n) {
        Ok(ins) => ins,
        Err(refused) => return Err(NoMemory::List(refused)),
    };
    let mut outs = Vec::new(alloc);
    'rows: for from in 0..n {
        let row = open_row(alloc, from, &mut ins)?;
        if let Err(refused) = memory::push(&mut outs, row) {
            return Err(NoMemory::List(refused));
        }
    }
    Ok(Rings { outs, ins })
}

/// Takes one row out of its place, where an empty one is left.
#[tactic(auto, using(crate::proofs::GridLemmas::get_other))]
pub fn take_row<T: Drop>(alloc: Global, rows: &mut Vec<Vec<T>>, at: usize) -> Vec<T>
    requires { at < vec_len rows.old }
    ensures row { slice_get rows.old.items at ≡ Some result }
    ensures others { (k : ℕ) → k ≢ at
        → slice_get rows.new.items k ≡ slice_get rows.old.items k }
    ensures len { vec_len rows.new ≡ vec_len rows.old }
{
    std::mem::replace(&mut rows[at], Vec::new(alloc))
}

// An empty list of receivers for each of n workers.
fn no_receivers<C: Counting>(alloc: Global, n: usize) -> Result<Vec<Vec<Receiver<C>>>, OutOfMemory>
    ensures len { IfOk result (λ ins. vec_len ins ≡ n) }
    ensures rings { IfOk result (λ ins. (j : ℕ)
        → slice_index_or (rings_of_ins ins.items) j [] ≡ []) }
    ensures received { IfOk result (λ ins. (j i : ℕ)
        → lane_at (received_rows ins.items) j i ≡ []) }
{
    let mut ins = Vec::new(alloc);
    'workers: for made in 0..n {
        memory::push(&mut ins, Vec::new(alloc))?;
    }
    Ok(ins)
}

// The rings from one worker to each: a receiver goes to the end of each row.
fn open_row<C: Counting>(
    alloc: Global,
    from: usize,
    ins: &mut Vec<Vec<Receiver<C>>>,
) -> Result<Vec<Sender<C>>, NoMemory>
    ensures len { vec_len ins.new ≡ vec_len ins.old }
    ensures outs_len { IfOk result (λ outs. vec_len outs ≡ vec_len ins.old) }
    ensures sent { IfOk result (λ outs. (j : ℕ)
        → slice_index_or (sent_lanes outs.items) j [] ≡ []) }
    ensures received { ((j i : ℕ) → lane_at (received_rows ins.old.items) j i ≡ [])
        → IfOk result (λ outs. (j i : ℕ) → lane_at (received_rows ins.new.items) j i ≡ []) }
    ensures rings { IfOk result (λ outs. (j : ℕ) (d : Ring) → j < vec_len ins.old
        → slice_index_or (rings_of_ins ins.new.items) j []
        ≡ slice_index_or (rings_of_ins ins.old.items) j []
        ++ slice_index_or (out_rings outs.items) j d ∷ []) }
    ensures rooms { IfOk result (λ outs. (j : ℕ) (ring : Ring)
        → slice_get (out_rings outs.items) j ≡ Some ring → IsRoomBetween from j (room_of ring)) }
{
    let mut outs = Vec::new(alloc);
    'workers: for to in 0..ins.len() {
        let sender = add_ring(alloc, room_between(from, to), &mut ins[to])?;
        if let Err(refused) = memory::push(&mut outs, sender) {
            return Err(NoMemory::List(refused));
        }
    }
    Ok(outs)
}

// For how many packets a ring has room. A worker sends nothing to itself.
fn room_between(from: usize, to: usize) -> usize
    ensures room { IsRoomBetween from to result }
    ensures few { result ≤ LANE_LIMIT }
{
    if from == to { 1 } else { LANE_LIMIT }
}

// A ring whose receiver goes to the end of these.
fn add_ring<C: Counting>(
    alloc: Global,
    room: usize,
    ins: &mut Vec<Receiver<C>>,
) -> Result<Sender<C>, NoMemory>
    requires { room ≤ LANE_LIMIT }
    ensures rings { IfOk result (λ sender. in_rings ins.new.items
        ≡ in_rings ins.old.items ++ sender.ring ∷ []) }
    ensures room { IfOk result (λ sender. room_of sender.ring ≡ room) }
    ensures sent { IfOk result (λ sender. sender.sent ≡ []) }
    ensures received { IfOk result (λ sender. received_lanes ins.new.items
        ≡ received_lanes ins.old.items ++ [] ∷ []) }
{
    let (sender, receiver) = match open_ring(alloc, room) {
        Ok(ends) => ends,
        Err(refused) => return Err(NoMemory::Ring(refused)),
    };
    if let Err(refused) = memory::push(ins, receiver) {
        return Err(NoMemory::List(refused));
    }
    Ok(sender)
}
