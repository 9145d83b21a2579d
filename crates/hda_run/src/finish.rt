//! The end of a run in a world.

ghost use Rattle.std.specs.Prelude.{◌≡◌, ℕ, Contains, Vec, map};
ghost use Rattle.std.specs.declared.alloc.Global.{Global};
ghost use Rattle.lower_bound.specs.Bounds.{sum_of};
ghost use Rattle.lower_bound.specs.Tables.{parts_of};
ghost use Rattle.outcomes.specs.Outcomes.{Answers};
ghost use Rattle.world_model.specs.Outcomes.{IsGiven};
ghost use Rattle.world_model.specs.Workers.{Packet, Lane};
ghost use Rattle.world_ends.specs.Lowest.{IsLeastBeside, IsOfItem, AreItemsOn};
ghost use Rattle.hda_run.specs.Jobs.{task_in};
ghost use Rattle.hda_run.specs.Lanes.{IsOfOne, IsInLane, IsInLanes};
ghost use Rattle.worker_core.specs.Workers.{state_of};
ghost use Rattle.hda_run.specs.Worlds.{world_of, IsLawful, KnowWhatOneKnows};

use crate::job::Job;
use crate::parts::Parts;
use crate::world::World;
use lower_bound::Bound;
use message_ledger::Plain;
use outcomes::Outcome;
use owners::Spread;
use search_lists::SearchLists;
use std::alloc::Global;
use worker_core::{Queue, Worker};
use world_ends::{Asked, Reading, Snapshot, WithRows, lowest_of, read};
use world_model::laws::quiet_is_true;

impl<'a, S: Spread> World<'a, S> {
    /// The outcome that the world gives, at any moment: a plan of least cost with rows that prove
    /// it, the answer that there is no plan, or a bound that no plan undercuts, with rows that prove
    /// it. It takes memory for the plan and the rows alone: none where the goal is unknown, if the
    /// frontier is empty or the bound is the start's sum (`bounds_have_rows` of `world_model`).
    pub fn finish(self, alloc: Global) -> Outcome
        ensures given { IsGiven (world_of S.owner_of self.entry) result }
        ensures answers { Answers (task_in self.entry.job) result }
    {
        self.read::<WithRows>(alloc)
    }

    /// What the world gives at any moment, in a reading.
    pub fn read<A: Reading>(self, alloc: Global) -> A::Answer
        ensures given { A.gives (world_of S.owner_of self.entry) result }
        ensures answers { A.answers (task_in self.entry.job) result }
    {
        self.read_into::<A>(alloc, &mut SearchLists::new(alloc))
    }

    // What the world gives, in a reading. The lists of its last worker are handed out, so that their
    // memory is kept.
    pub(crate) fn read_into<A: Reading>(self, alloc: Global, lists: &mut SearchLists) -> A::Answer
        ensures given { A.gives (world_of S.owner_of self.entry) result }
        ensures answers { A.answers (task_in self.entry.job) result }
        ensures lists { KnowWhatOneKnows (world_of S.owner_of self.entry).workers lists.new }
    {
        A::keep_laws();
        quiet_is_true();
        // By this call the sums are known to be lower bounds.
        let _ = self.parts.job.bound();
        read_parts::<A, S>(alloc, self.parts, lists)
    }
}

// What the parts of a world give. The lists of its last worker are handed out.
fn read_parts<A: Reading, S: Spread>(
    alloc: Global,
    parts: Parts<'_, S>,
    lists: &mut SearchLists,
) -> A::Answer
    requires { IsLawful S.owner_of parts }
    ensures given { A.gives (world_of S.owner_of parts.entry) result }
    ensures lists { KnowWhatOneKnows (world_of S.owner_of parts.entry).workers lists.new }
{
    let Parts {
        job,
        owners,
        workers,
        book,
        lanes,
    } = parts;
    let mut workers = workers;
    let snapshot = Snapshot {
        lanes: lowest_in_lanes(job.bound(), &lanes, None),
        stop: book.stop(),
    };
    let asked = asked_in(&job);
    let answer = read::<A, Plain, S>(alloc, &asked, owners, &mut workers, snapshot);
    hand_out(workers, lists);
    answer
}

// Puts the lists of the last worker in the place of others.
fn hand_out(workers: Vec<Worker<Plain>>, lists: &mut SearchLists)
    ensures { KnowWhatOneKnows (map (λ worker. state_of worker) workers.items) lists.new }
{
    let mut workers = workers;
    if let Some(last) = workers.pop() {
        *lists = last.into_lists();
    }
}

/// What a job asks.
pub fn asked_in<'b>(job: &'b Job<'_>) -> Asked<'b>
    ensures start { result.start ≡ job.now.start }
    ensures goal { result.goal ≡ job.now.goal }
    ensures weights { result.weights ≡ job.now.rule }
    ensures bound { result.bound.now ≡ job.now.tables }
{
    Asked {
        start: *job.start(),
        goal: *job.goal(),
        weights: *job.weights(),
        bound: job.bound(),
    }
}

// The least cost plus sum of the items in lanes, or `lowest` where that is less.
fn lowest_in_lanes(bound: &Bound, lanes: &[Vec<Queue<Plain>>], lowest: Option<u32>) -> Option<u32>
    requires { (to_each : Vec Lane Global) (lane : Lane) (packet : Packet)
        → Contains lanes.now to_each → Contains to_each.items lane → Contains lane packet
        → AreItemsOn bound.now.split.grid packet }
    ensures { IsLeastBeside
        (IsOfOne (λ to_each. IsInLanes (sum_of (parts_of bound.now)) to_each.items) lanes.now)
        lowest result }
{
    let mut least = lowest;
    'senders: for from in 0..lanes.len() {
        least = lowest_to_each(bound, &lanes[from], least);
    }
    least
}

// The same of the lanes from one worker.
fn lowest_to_each(bound: &Bound, lanes: &[Queue<Plain>], lowest: Option<u32>) -> Option<u32>
    requires { (lane : Lane) (packet : Packet) → Contains lanes.now lane → Contains lane packet
        → AreItemsOn bound.now.split.grid packet }
    ensures { IsLeastBeside (IsInLanes (sum_of (parts_of bound.now)) lanes.now) lowest result }
{
    let mut least = lowest;
    'receivers: for to in 0..lanes.len() {
        least = lowest_in_lane(bound, &lanes[to], least);
    }
    least
}

// The same of one lane.
fn lowest_in_lane(bound: &Bound, lane: &Queue<Plain>, lowest: Option<u32>) -> Option<u32>
    requires { (packet : Packet) → Contains lane.now packet
        → AreItemsOn bound.now.split.grid packet }
    ensures { IsLeastBeside (IsInLane (sum_of (parts_of bound.now)) lane.now) lowest result }
{
    let mut least = lowest;
    'packets: for at in 0..lane.len() {
        least = lowest_of(bound, lane.packet(at), least);
    }
    least
}
