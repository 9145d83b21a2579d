//! What is asked of one worker, and what it answers of a board, without a limit.

ghost use Rattle.std.specs.Prelude.{◌≡◌, IfSome};
ghost use Rattle.lower_bound.specs.Tables.{ArePotentials};

use board::{Board, Shape, Weights};
use certificate::{Certificate, Claim, Parts, Version};
use hda_run::{Free, Job, read_one, solve_one};
use lower_bound::Bound;
use outcomes::{Ending, Outcome};
use owners::Zobrist;
use std::alloc::Global;
use test_worlds::FAR_START;
use world_ends::WithoutRows;

/// What moves cost.
#[derive(Clone, Copy, Debug)]
pub enum Costs {
    /// Every move costs 1.
    Unit,
    /// To move tile t costs t.
    Face,
}

/// What the moves of boards of this shape cost.
pub fn weights_of(costs: Costs, shape: Shape) -> Weights
    ensures sides { result.grid ≡ shape }
{
    match costs {
        Costs::Unit => Weights::unit(shape),
        Costs::Face => Weights::face(shape),
    }
}

/// A board, the goal, and what moves cost.
#[derive(Clone, Copy)]
pub struct Problem {
    pub start: Board,
    pub goal: Board,
    pub weights: Weights,
}

/// What is answered of a board.
#[derive(Drop)]
pub enum Answer {
    /// A plan, with the rows that prove it, and the groups of the tables that guided the search.
    Plan(Certificate),
    NoPlan,
    Neither,
}

/// What the search answers with rows; or None where memory was refused, or the parts are not of one
/// shape.
pub fn answer_of(alloc: Global, problem: &Problem, bound: &Bound) -> Option<Answer>
    requires { ArePotentials problem.now.weights problem.now.goal bound.now }
{
    match outcome_of(alloc, problem, bound)? {
        Outcome::Optimal { cost, plan, rows } => {
            let certificate = Certificate::new(Parts {
                version: Version::Two,
                shape: problem.goal.shape(),
                costs: problem.weights,
                groups: bound.partition().copy(alloc).ok()?,
                start: problem.start,
                goal: problem.goal,
                claim: Claim::Least { cost, plan },
                rows,
            })?;
            Some(Answer::Plan(certificate))
        }
        Outcome::Unsolvable { .. } => Some(Answer::NoPlan),
        Outcome::Bounded { .. } => Some(Answer::Neither),
    }
}

// The outcome of `solve_one`, or None as above.
fn outcome_of(alloc: Global, problem: &Problem, bound: &Bound) -> Option<Outcome>
    requires { ArePotentials problem.now.weights problem.now.goal bound.now }
{
    let spread = Zobrist::new(problem.goal.shape());
    solve_one(alloc, job_of(problem, bound)?, &spread, &Free).ok()
}

/// What the search answers without rows; or None where memory was refused, or the parts are not of
/// one shape.
pub fn ending_of(alloc: Global, problem: &Problem, bound: &Bound) -> Option<Ending>
    requires { ArePotentials problem.now.weights problem.now.goal bound.now }
{
    let spread = Zobrist::new(problem.goal.shape());
    let job = job_of(problem, bound)?;
    read_one::<WithoutRows, Zobrist, Free>(alloc, job, &spread, &Free).ok()
}

/// The search for a plan, or None where its parts are not of one shape.
pub fn job_of<'a>(problem: &Problem, bound: &'a Bound) -> Option<Job<'a>>
    requires { ArePotentials problem.now.weights problem.now.goal bound.now }
{
    let Problem {
        start,
        goal,
        weights,
    } = *problem;
    Job::new(start, goal, weights, bound, u64::MAX).ok()
}

/// A board that is as far from Korf's goal as one of 3 by 3 can be, and that goal, at these costs.
pub fn problem_at(costs: Costs) -> Option<Problem>
    ensures sides { IfSome result (λ p. p.weights.grid ≡ p.goal.grid) }
{
    let shape = Shape::new(3, 3).ok()?;
    let start = Board::from_tiles(shape, &FAR_START).ok()?;
    Some(Problem {
        start,
        goal: Board::goal(shape),
        weights: weights_of(costs, shape),
    })
}

/// The certificate of the plan that one worker finds, with the groups of the tables that guide it.
/// None where it finds none, or memory was refused.
pub fn certificate_of(alloc: Global, problem: &Problem, bound: &Bound) -> Option<Certificate>
    requires { ArePotentials problem.now.weights problem.now.goal bound.now }
{
    match answer_of(alloc, problem, bound)? {
        Answer::Plan(certificate) => Some(certificate),
        _ => None,
    }
}
