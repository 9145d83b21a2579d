//! What is answered of each board of a small shape, and of boards on a walk, by whole tables and by
//! folded ones.

ghost use Rattle.std.specs.Prelude.{◌≡◌};
ghost use Rattle.batch_runs.specs.Setups.{Guides};

use crate::guided::tables::{bound_of, guide_of, partitions_of};
use crate::problems::{Answer, Problem, answer_of, ending_of};
use board::{Board, Move, Shape, Weights};
use certificate_check::check;
use lower_bound::Bound;
use outcomes::Ending;
use std::alloc::Global;
use std::thread::Threads;
use test_support::least_costs;

// How many boards of the walk are compared, and how many steps lie between two of them.
const BOARDS: u32 = 200;

const STEPS: u32 = 61;

// The groups whose tables guide the search for these.
const WALKED_GROUPS: [&[u8]; 2] = [&[1, 2, 3, 4], &[5, 6, 7, 8]];

/// How many partitions guided the search, how many plans were right and what they cost in all, how
/// many boards were rightly said to have none, and how many answers were wrong.
#[derive(Clone, Copy, Debug)]
pub struct Tally {
    partitions: u64,
    plans: u64,
    costs: u64,
    unsolvable: u64,
    wrong: u64,
}

/// What is answered of all boards of a shape by each partition, whose tables may be folded; or None
/// where memory was refused.
pub fn tally_boards<R: Threads + Sync>(
    rt: &R,
    alloc: Global,
    goal: &Board,
    weights: &Weights,
    fold: bool,
) -> Option<Tally>
    requires { weights.now.grid ≡ goal.now.grid }
{
    let boards = least_costs(alloc, goal, weights).ok()?;
    let mut tally = Tally {
        partitions: 0,
        plans: 0,
        costs: 0,
        unsolvable: 0,
        wrong: 0,
    };
    for groups in partitions_of(alloc, goal.shape())?.as_slice() {
        let lists = lists_of(alloc, groups)?;
        tally_partition(rt, alloc, goal, weights, &lists, fold, &boards, &mut tally)?;
    }
    Some(tally)
}

// The groups, lent.
fn lists_of<'a>(alloc: Global, groups: &'a [Vec<u8>]) -> Option<Vec<&'a [u8]>> {
    let mut lists = Vec::new(alloc);
    for tiles in groups {
        lists.push(tiles.as_slice()).ok()?;
    }
    Some(lists)
}

// Counts what is answered of all boards by a partition.
fn tally_partition<R: Threads + Sync>(
    rt: &R,
    alloc: Global,
    goal: &Board,
    weights: &Weights,
    groups: &[&[u8]],
    fold: bool,
    boards: &[(Board, Option<u32>)],
    tally: &mut Tally,
) -> Option<()>
    requires { weights.now.grid ≡ goal.now.grid }
{
    let whole = bound_of(rt, alloc, goal, weights, groups)?;
    let guide = guide_of(rt, alloc, goal, weights, groups, fold)?;
    tally.partitions = tally.partitions.saturating_add(1);
    count_all(tally, alloc, goal, weights, &guide, &whole, boards)
}

// Counts what is answered of these boards.
fn count_all(
    tally: &mut Tally,
    alloc: Global,
    goal: &Board,
    weights: &Weights,
    guide: &Bound,
    whole: &Bound,
    boards: &[(Board, Option<u32>)],
) -> Option<()>
    requires { Guides goal.now weights.now guide.now }
{
    for (start, least) in boards {
        let problem = Problem {
            start: *start,
            goal: *goal,
            weights: *weights,
        };
        count(tally, alloc, &problem, guide, whole, *least)?;
    }
    Some(())
}

// What is answered of a board.
#[derive(Clone, Copy, PartialEq, Eq)]
enum Verdict {
    // A plan of this cost, with a certificate that the checker accepts where there is one.
    Cost(u32),
    NoPlan,
    Neither,
}

// Counts what is answered of a board, with rows and without.
fn count(
    tally: &mut Tally,
    alloc: Global,
    problem: &Problem,
    guide: &Bound,
    whole: &Bound,
    least: Option<u32>,
) -> Option<()>
    requires { Guides problem.now.goal problem.now.weights guide.now }
{
    let due = match least {
        Some(cost) => Verdict::Cost(cost),
        None => Verdict::NoPlan,
    };
    let with_rows = solve(alloc, problem, guide, whole)?;
    let without_rows = end(alloc, problem, guide)?;
    if with_rows != due || without_rows != due {
        tally.wrong = tally.wrong.saturating_add(1);
        return Some(());
    }
    match least {
        Some(cost) => {
            tally.plans = tally.plans.saturating_add(1);
            tally.costs = tally.costs.saturating_add(u64::from(cost));
        }
        None => tally.unsolvable = tally.unsolvable.saturating_add(1),
    }
    Some(())
}

// What the search answers without rows.
fn end(alloc: Global, problem: &Problem, bound: &Bound) -> Option<Verdict>
    requires { Guides problem.now.goal problem.now.weights bound.now }
{
    match ending_of(alloc, problem, bound)? {
        Ending::Optimal { cost, .. } => Some(Verdict::Cost(cost)),
        Ending::Unsolvable { .. } => Some(Verdict::NoPlan),
        Ending::Bounded { .. } => Some(Verdict::Neither),
    }
}

// What the search answers with rows, as far as the checker accepts it with whole tables.
fn solve(alloc: Global, problem: &Problem, guide: &Bound, whole: &Bound) -> Option<Verdict>
    requires { Guides problem.now.goal problem.now.weights guide.now }
{
    match answer_of(alloc, problem, guide)? {
        Answer::Plan(certificate) => {
            if check(&certificate, whole).is_err() {
                return Some(Verdict::Neither);
            }
            Some(Verdict::Cost(certificate.cost()))
        }
        Answer::NoPlan => Some(Verdict::NoPlan),
        Answer::Neither => Some(Verdict::Neither),
    }
}

/// How many boards were compared, what their least plans cost in all, and how many cost the same by both
/// kinds of tables.
#[derive(Clone, Copy, Debug)]
pub struct Agreed {
    boards: u32,
    costs: u64,
    same: u32,
}

/// Compares what whole and folded tables of two groups of four tiles answer of boards of 3 by 3 on
/// a walk from the goal; or None where memory was refused.
pub fn compare_on_a_walk<R: Threads + Sync>(rt: &R, alloc: Global) -> Option<Agreed> {
    let shape = Shape::new(3, 3).ok()?;
    compare_tables(rt, alloc, Board::goal(shape), Weights::unit(shape))
}

fn compare_tables<R: Threads + Sync>(
    rt: &R,
    alloc: Global,
    goal: Board,
    weights: Weights,
) -> Option<Agreed>
    requires { weights.grid ≡ goal.grid }
{
    let whole = guide_of(rt, alloc, &goal, &weights, &WALKED_GROUPS, false)?;
    let folded = guide_of(rt, alloc, &goal, &weights, &WALKED_GROUPS, true)?;
    compare(alloc, goal, weights, &whole, &folded)
}

// Compares what two bounds answer of boards on a walk from a goal.
fn compare(
    alloc: Global,
    goal: Board,
    weights: Weights,
    whole: &Bound,
    folded: &Bound,
) -> Option<Agreed>
    requires whole { Guides goal weights whole.now }
    requires folded { Guides goal weights folded.now }
{
    let mut agreed = Agreed {
        boards: 0,
        costs: 0,
        same: 0,
    };
    let mut drawn = 1;
    let mut board = goal;
    for _ in 0..BOARDS {
        board = walk(board, &mut drawn);
        let problem = Problem {
            start: board,
            goal,
            weights,
        };
        let cost = cost_of(alloc, &problem, whole)?;
        agreed.boards = agreed.boards.saturating_add(1);
        agreed.costs = agreed.costs.saturating_add(u64::from(cost));
        if cost_of(alloc, &problem, folded)? == cost {
            agreed.same = agreed.same.saturating_add(1);
        }
    }
    Some(agreed)
}

// Some steps more, in directions that are drawn; those that lead nowhere are left out.
fn walk(from: Board, drawn: &mut u32) -> Board {
    let mut board = from;
    for _ in 0..STEPS {
        // The generator of Numerical Recipes, whose upper bits are the better ones.
        *drawn = drawn.wrapping_mul(1_664_525).wrapping_add(1_013_904_223);
        let direction = Move::ALL[(*drawn >> 30) as usize % 4];
        let weights = Weights::unit(board.shape());
        if let Some((next, _)) = board.step(direction, &weights) {
            board = next;
        }
    }
    board
}

// The cost of a least plan, or None where there is none, or memory was refused.
fn cost_of(alloc: Global, problem: &Problem, bound: &Bound) -> Option<u32>
    requires { Guides problem.now.goal problem.now.weights bound.now }
{
    match ending_of(alloc, problem, bound)? {
        Ending::Optimal { cost, .. } => Some(cost),
        _ => None,
    }
}
