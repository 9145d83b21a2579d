//! Jobs that one worker does alone.

ghost use Rattle.std.specs.Prelude.{ℕ, ◌≡◌, ◌≢◌, ◌⊎◌, ◌↔◌, ◌<◌, ◌≤◌, Ok, IfOk, IfErr, length};
ghost use Rattle.std.specs.Prelude.{IsOk, IsTrue, Option, Vec};
ghost use Rattle.std.specs.declared.alloc.Global.{Global};
ghost use Rattle.board.specs.Boards.{BoardModel};
ghost use Rattle.board.specs.Classes.{SameClass};
ghost use Rattle.board.specs.declared.moves.Move.{Move};
ghost use Rattle.outcomes.specs.Outcomes.{Answers};
ghost use Rattle.outcomes.specs.declared.outcome.Cause.{Cause};
ghost use Rattle.outcomes.specs.declared.outcome.Cause.TheVariants.{Cut, Start};
ghost use Rattle.outcomes.specs.declared.outcome.Outcome.TheVariants.{Bounded, Unsolvable};
ghost use Rattle.outcomes.specs.declared.outcome.Why.TheVariants.{Parity};
ghost use Rattle.search_lists.specs.Lists.{empty_lists, HasMoreRoom};
ghost use Rattle.world_model.specs.declared.steps.Refusal.{Refusal};
ghost use Rattle.world_model.specs.declared.steps.Step.{Step};
ghost use Rattle.world_model.specs.Openings.{opening};
ghost use Rattle.world_model.specs.Outcomes.{IsGiven};
ghost use Rattle.world_model.specs.Steps.{Next};
ghost use Rattle.world_model.specs.Turns.{turn, refusal_in};
ghost use Rattle.hda_run.specs.Alone.{IsRunAlone, IsFoundAlone};
ghost use Rattle.hda_run.specs.Answered.{IsAnswered};
ghost use Rattle.hda_run.specs.Jobs.{task_in};
ghost use Rattle.hda_run.specs.Rounds.{IsLone, Reaches, work_left, RefusesStep, IsStuck};
ghost use Rattle.hda_run.specs.Rounds.{IsBoundSoFar, Stops};
ghost use Rattle.open_buckets.specs.OpenLists.{places_at};
ghost use Rattle.hda_run.specs.declared.alone.TheConstants.{KEPT_BOARDS};
ghost use Rattle.hda_run.specs.WholeRuns.{EndsWholeRun, HasWholeRun};
ghost use Rattle.hda_run.specs.Worlds.{world_of, job_of};

use crate::gates::{Gate, kind_of};
use crate::job::Job;
use crate::world::World;
use board::laws::plans_keep_the_class;
use board::same_class;
use memory::OutOfMemory;
use outcomes::{Outcome, Want};
use owners::Spread;
use search_lists::SearchLists;
use std::alloc::Global;
use std::mem::replace;
use world_ends::{Reading, WithRows};
use world_model::{HaltCause, Refusal, Step};

// The most known boards of lists whose memory is kept. They take some 12 MB, and at each f the open
// list keeps the room of the job that needed most there.
const KEPT_BOARDS: usize = 1 << 18;

// Why the worker has no more to do.
#[derive(Clone, Copy)]
enum End {
    // No board may be expanded below the limit of the best cost.
    Quiet,
    // No allowance is left, and none is granted.
    Limit,
    // Memory was refused for an expansion.
    Memory(OutOfMemory),
}

/// Solves a job by one worker, in the calling thread: it expands the boards itself, and waits for
/// nobody. A start that isn't in the goal's class is answered without a search. The error is that
/// memory was refused for the opening world. The outcome says what was refused later.
pub fn solve_one<'a, S: Spread, G: Gate>(
    alloc: Global,
    job: Job<'a>,
    spread: &'a S,
    gate: &G,
) -> Result<Outcome, OutOfMemory>
    ensures parity { (result ≡ Ok (Unsolvable Parity))
        ↔ (¬ SameClass job.entry.start job.entry.goal) }
    ensures run { SameClass job.entry.start job.entry.goal
        → IfOk result (IsFoundAlone IsGiven S.owner_of job.entry spread.now) }
    ensures answers { IfOk result (Answers (task_in job.entry)) }
    ensures kept { IfOk result (λ outcome. (bound : ℕ) (best : Option (ℕ × Vec Move Global))
        (cause : Cause) (rows : Option (Vec (BoardModel × ℕ) Global))
        → outcome ≡ Bounded bound best cause rows → (cause ≢ Cut) × (cause ≢ Start)) }
    ensures whole { IfOk result HasWholeRun }
{
    read_one::<WithRows, S, G>(alloc, job, spread, gate)
}

/// Solves a job by one worker as `solve_one`, and reads the answer without rows or with them. The
/// error: out of memory for the opening world.
pub fn read_one<'a, A: Reading, S: Spread, G: Gate>(
    alloc: Global,
    job: Job<'a>,
    spread: &'a S,
    gate: &G,
) -> Result<A::Answer, OutOfMemory>
    ensures { IsAnswered A.parity (IsFoundAlone A.gives S.owner_of job.entry spread.now)
        A.answers A.end job.entry result }
{
    read_one_over::<A, S, G>(alloc, job, spread, gate, &mut SearchLists::new(alloc))
}

/// Solves a job as `read_one`, over lists whose memory is kept from one job to the next: a job asks
/// for memory only where it needs more than those before. What the lists know is forgotten first.
/// Where they know more than `KEPT_BOARDS` boards afterwards, they are replaced by new ones, so that
/// a hard job doesn't keep its memory.
pub fn read_one_over<'a, A: Reading, S: Spread, G: Gate>(
    alloc: Global,
    job: Job<'a>,
    spread: &'a S,
    gate: &G,
    lists: &mut SearchLists,
) -> Result<A::Answer, OutOfMemory>
    ensures few { (length lists.new.closed.keys ≤ KEPT_BOARDS) ⊎ (lists.new ≡ lists.old) }
    ensures answered { IsAnswered A.parity
        (IsFoundAlone A.gives S.owner_of job.entry spread.now) A.answers A.end job.entry result }
{
    A::keep_laws();
    // By this law no plan leads from a board to another class.
    plans_keep_the_class();
    let _ = job.goal();
    if are_apart(&job) {
        return Ok(A::of_parity());
    }
    search_over::<A, S, G>(alloc, job, spread, gate, lists)
}

/// Solves a job as `read_one`, but searches also where the start isn't in the goal's class.
pub fn search_one<'a, A: Reading, S: Spread, G: Gate>(
    alloc: Global,
    job: Job<'a>,
    spread: &'a S,
    gate: &G,
) -> Result<A::Answer, OutOfMemory>
    ensures run { IfOk result (IsFoundAlone A.gives S.owner_of job.entry spread.now) }
    ensures answers { IfOk result (A.answers (task_in job.entry)) }
    ensures kept { IfOk result (λ answer. EndsWholeRun (A.end answer)) }
{
    search_over::<A, S, G>(alloc, job, spread, gate, &mut SearchLists::new(alloc))
}

// Searches over lists whose memory is kept.
fn search_over<'a, A: Reading, S: Spread, G: Gate>(
    alloc: Global,
    job: Job<'a>,
    spread: &'a S,
    gate: &G,
    lists: &mut SearchLists,
) -> Result<A::Answer, OutOfMemory>
    ensures few { length lists.new.closed.keys ≤ KEPT_BOARDS }
    ensures run { IfOk result (IsFoundAlone A.gives S.owner_of job.entry spread.now) }
    ensures answers { IfOk result (A.answers (task_in job.entry)) }
    ensures kept { IfOk result (λ answer. EndsWholeRun (A.end answer)) }
{
    A::keep_laws();
    let _ = job.goal();
    let empty = take_empty(alloc, lists);
    let opened = World::open(alloc, job, 1, spread, empty)?;
    let world = run_alone(alloc, opened, gate);
    // This call gives what each world keeps.
    let _ = world.workers();
    let answer = world.read_into::<A>(alloc, lists);
    drop_large(alloc, lists);
    Ok(answer)
}

// Takes lists out of their place, where new ones are left, and forgets what they know.
fn take_empty(alloc: Global, lists: &mut SearchLists) -> SearchLists
    ensures empty { HasMoreRoom empty_lists result }
    ensures places { (h : ℕ) → places_at lists.old.waiting h ≤ places_at result.waiting h }
    ensures left { lists.new ≡ empty_lists }
{
    let mut taken = replace(lists, SearchLists::new(alloc));
    taken.clear();
    taken
}

// Replaces lists by new ones where they know more than `KEPT_BOARDS` boards.
fn drop_large(alloc: Global, lists: &mut SearchLists)
    ensures few { length lists.new.closed.keys ≤ KEPT_BOARDS }
    ensures kept { length lists.old.closed.keys ≤ KEPT_BOARDS → lists.new ≡ lists.old }
{
    if lists.len() > KEPT_BOARDS {
        *lists = SearchLists::new(alloc);
    }
}

/// Whether the start isn't in the goal's class.
pub fn are_apart(job: &Job<'_>) -> bool
    ensures { IsTrue result ↔ (¬ SameClass job.now.start job.now.goal) }
{
    !same_class(job.start(), job.goal())
}

// The world in which a run by one worker stops, from its opening world on. This answers no error:
// memory that an expansion lacks is a cause that stops the run.
fn run_alone<'a, S: Spread, G: Gate>(alloc: Global, world: World<'a, S>, gate: &G) -> World<'a, S>
    requires { (via : Move) × (world_of S.owner_of world
        ≡ opening (job_of S.owner_of world.job world.owners.now 1) via) }
    ensures run { IsRunAlone (job_of S.owner_of world.entry.job world.entry.owners.now 1)
        (world_of S.owner_of result) }
    ensures job { result.job ≡ world.entry.job }
{
    let _ = world.job().goal();
    let mut world = world;
    gate.meet(world.worker(0).lists().len());
    let end = go_on(alloc, &mut world, gate);
    stop_for(alloc, &mut world, gate, end);
    world
}

// Lets the worker go on until it has no more to do. Answers why.
fn go_on<S: Spread, G: Gate>(alloc: Global, world: &mut World<'_, S>, gate: &G) -> End
    requires { IsLone (world_of S.owner_of world.old) }
    ensures run { Reaches (world_of S.owner_of world.old) (world_of S.owner_of world.new) }
    ensures stuck { IsStuck (world_of S.owner_of world.new) result }
    ensures job { world.new.job ≡ world.old.job }
{
    'rounds: loop {
        if let Err(end) = round(alloc, world, gate) {
            return end;
        }
    }
}

// The worker expands a board, or is granted expansions where it has no allowance. A goal that
// is met is announced at once, so that boards above its cost are not expanded.
fn round<S: Spread, G: Gate>(alloc: Global, world: &mut World<'_, S>, gate: &G) -> Result<(), End>
    requires { IsLone (world_of S.owner_of world.old) }
    ensures run { Reaches (world_of S.owner_of world.old) (world_of S.owner_of world.new) }
    ensures less { IsOk result
        → work_left (world_of S.owner_of world.new) < work_left (world_of S.owner_of world.old) }
    ensures stuck { IfErr result (IsStuck (world_of S.owner_of world.new)) }
    ensures job { world.new.job ≡ world.old.job }
{
    let known = world.worker(0).lists().len();
    let Err(refusal) = take(alloc, world, gate, Step::Expand(0)) else {
        show_lists(world, gate, known);
        announce_when_met(alloc, world, gate);
        return Ok(());
    };
    match refusal {
        Refusal::NoAllowance => be_granted(alloc, world, gate),
        Refusal::Memory(refused) => Err(End::Memory(refused)),
        // S1: no packet is ever filled, since the worker owns all boards.
        _ => Err(End::Quiet),
    }
}

// Shows the gate what the worker knows after an expansion, before which it knew this many boards.
fn show_lists<S: Spread, G: Gate>(world: &World<'_, S>, gate: &G, known: usize)
    requires { IsLone (world_of S.owner_of world.now) }
{
    let lists = world.worker(0).lists();
    gate.meet(lists.len().saturating_sub(known));
    if gate.wants_bound() {
        gate.show_bound(world, bound_of(world));
    }
}

// A cost that no plan undercuts: the least f of what waits. None where the goal is known, to which
// a plan may cost less than that, or where no board is open.
fn bound_of<S: Spread>(world: &World<'_, S>) -> Option<u32>
    requires { IsLone (world_of S.owner_of world.now) }
    ensures { IsBoundSoFar S.owner_of world.now result }
{
    // This call gives what each world keeps.
    let _ = world.workers();
    let lists = world.worker(0).lists();
    let goal = world.job().keyed_goal().key();
    match lists.get(goal) {
        Some(_) => None,
        None => lists.least(),
    }
}

// The worker is granted expansions.
fn be_granted<S: Spread, G: Gate>(
    alloc: Global,
    world: &mut World<'_, S>,
    gate: &G,
) -> Result<(), End>
    requires lone { IsLone (world_of S.owner_of world.old) }
    requires spent { RefusesStep (world_of S.owner_of world.old) (Step.Expand 0) Refusal.NoAllowance }
    ensures run { Reaches (world_of S.owner_of world.old) (world_of S.owner_of world.new) }
    ensures less { IsOk result
        → work_left (world_of S.owner_of world.new) < work_left (world_of S.owner_of world.old) }
    ensures stuck { IfErr result (IsStuck (world_of S.owner_of world.new)) }
    ensures job { world.new.job ≡ world.old.job }
{
    let Err(_) = take(alloc, world, gate, Step::Grant(0)) else {
        return Ok(());
    };
    Err(End::Limit)
}

// The worker announces the cost of the goal, if it has met it.
fn announce_when_met<S: Spread, G: Gate>(alloc: Global, world: &mut World<'_, S>, gate: &G)
    requires { IsLone (world_of S.owner_of world.old) }
    ensures run { Reaches (world_of S.owner_of world.old) (world_of S.owner_of world.new) }
    ensures same { work_left (world_of S.owner_of world.new)
        ≡ work_left (world_of S.owner_of world.old) }
    ensures job { world.new.job ≡ world.old.job }
{
    if world.worker(0).lists().has_met_goal() {
        let _ = take(alloc, world, gate, Step::Announce(0));
    }
}

// Stops the run, by a rest or a halt.
fn stop_for<S: Spread, G: Gate>(alloc: Global, world: &mut World<'_, S>, gate: &G, end: End)
    requires lone { IsLone (world_of S.owner_of world.old) }
    requires stuck { IsStuck (world_of S.owner_of world.old) end }
    ensures stops { Stops (world_of S.owner_of world.old) (world_of S.owner_of world.new) }
    ensures job { world.new.job ≡ world.old.job }
{
    match end {
        End::Quiet => rest(alloc, world, gate),
        End::Limit => {
            let _ = take(alloc, world, gate, Step::Halt(0, HaltCause::Limit));
        }
        End::Memory(refused) => {
            let cause = HaltCause::Memory(Want::Refused(refused));
            let _ = take(alloc, world, gate, Step::Halt(0, cause));
        }
    }
}

// The worker rests, when it has announced what it knows.
fn rest<S: Spread, G: Gate>(alloc: Global, world: &mut World<'_, S>, gate: &G)
    requires lone { IsLone (world_of S.owner_of world.old) }
    requires stuck { RefusesStep (world_of S.owner_of world.old) (Step.Expand 0)
        Refusal.NothingBelowLimit }
    ensures stops { Stops (world_of S.owner_of world.old) (world_of S.owner_of world.new) }
    ensures job { world.new.job ≡ world.old.job }
{
    let _ = take(alloc, world, gate, Step::Announce(0));
    let _ = take(alloc, world, gate, Step::Rest(0));
}

// Takes a step, and passes the gate where it is accepted.
fn take<S: Spread, G: Gate>(
    alloc: Global,
    world: &mut World<'_, S>,
    gate: &G,
    step: Step,
) -> Result<(), Refusal>
    ensures step { Next step (turn (world_of S.owner_of world.old) (refusal_in result)
        (world_of S.owner_of world.new)) }
    ensures job { world.new.job ≡ world.old.job }
{
    let answer = world.step(alloc, step);
    if answer.is_ok() {
        gate.pass(0, kind_of(step));
    }
    answer
}
