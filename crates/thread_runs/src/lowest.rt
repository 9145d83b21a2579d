//! The lowest cost plus sum of the items that are left in rings.

ghost use Rattle.std.specs.Prelude.{Contains, Vec};
ghost use Rattle.std.specs.declared.alloc.Global.{Global};
ghost use Rattle.lower_bound.specs.Bounds.{sum_of};
ghost use Rattle.lower_bound.specs.Tables.{parts_of};
ghost use Rattle.thread_parts.specs.Rings.{ReceiverModel};
ghost use Rattle.world_model.specs.Workers.{Packet};
ghost use Rattle.world_ends.specs.Lowest.{IsLeastBeside, AreItemsOn};
ghost use Rattle.thread_runs.specs.Lanes.{IsLeft, IsLeftInRow, IsLeftInRows};

use lower_bound::Bound;
use message_ledger::Counting;
use thread_parts::Receiver;
use world_ends::lowest_of;

/// The least cost plus sum of the items that are left in the rings to all workers, or `lowest`
/// where that is less.
pub(crate) fn lowest_in_rows<C: Counting>(
    bound: &Bound,
    rows: Vec<Vec<Receiver<C>>>,
    lowest: Option<u32>,
) -> Option<u32>
    requires { (row : Vec ReceiverModel Global) (end : ReceiverModel) (packet : Packet)
        → Contains rows.items row → Contains row.items end → Contains end.left packet
        → AreItemsOn bound.now.split.grid packet }
    ensures { IsLeastBeside (IsLeftInRows (sum_of (parts_of bound.now)) rows.items)
        lowest result }
{
    let mut least = lowest;
    'receivers: for row in rows {
        least = lowest_in_row(bound, row, least);
    }
    least
}

// The same of the rings to one worker.
fn lowest_in_row<C: Counting>(
    bound: &Bound,
    row: Vec<Receiver<C>>,
    lowest: Option<u32>,
) -> Option<u32>
    requires { (end : ReceiverModel) (packet : Packet)
        → Contains row.items end → Contains end.left packet
        → AreItemsOn bound.now.split.grid packet }
    ensures { IsLeastBeside (IsLeftInRow (sum_of (parts_of bound.now)) row.items) lowest result }
{
    let mut least = lowest;
    'senders: for receiver in row {
        least = lowest_left(bound, receiver, least);
    }
    least
}

// The same of one ring.
fn lowest_left<C: Counting>(
    bound: &Bound,
    receiver: Receiver<C>,
    lowest: Option<u32>,
) -> Option<u32>
    requires { (packet : Packet) → Contains receiver.left packet
        → AreItemsOn bound.now.split.grid packet }
    ensures { IsLeastBeside (IsLeft (sum_of (parts_of bound.now)) receiver) lowest result }
{
    let mut receiver = receiver;
    let mut least = lowest;
    'packets: for taken in 0..receiver.left() {
        let packet = receiver.pop_left();
        least = lowest_of(bound, packet.items(), least);
    }
    least
}
