//! The plan of a run, followed back by last moves.

ghost use Rattle.std.specs.Prelude.{ℕ, ◌≡◌, ◌<◌, ◌≤◌, Some, IfOk, IsOk, length};
ghost use Rattle.board.specs.Boards.{BoardModel};
ghost use Rattle.world_model.specs.declared.parts.Known.{Known};
ghost use Rattle.world_model.specs.Worlds.{WorldState};
ghost use Rattle.world_ends.specs.Parts.{task_asked, states_of, HasParts, known_in};
ghost use Rattle.world_ends.specs.Plans.{IsPredecessor, IsTraced};

use crate::asked::Asked;
use board::{Board, Move};
use memory::{OutOfMemory, push};
use message_ledger::Counting;
use owners::Spread;
use search_keys::KeyedBoard;
use std::alloc::Global;
use worker_core::Worker;
use world_model::Known;

// The owner of a board among `workers`. One alone owns all boards.
fn owner_among<S: Spread>(owners: &S, board: &KeyedBoard, workers: usize) -> usize
    requires { 0 < workers }
    ensures value { result ≡ S.owner_of owners.now workers board.now }
    ensures within { result < workers }
{
    if workers == 1 {
        return 0;
    }
    owners.owner_by_key(board, workers)
}

// What the owner of a board knows of it.
pub(crate) fn known_of<C: Counting, S: Spread>(
    owners: &S,
    workers: &[Worker<C>],
    board: &Board,
) -> Option<Known>
    requires { 0 < length workers.now }
    ensures { result ≡ known_in (S.owner_of owners.now) (states_of workers.now) board.now }
{
    known_by_key(owners, workers, &KeyedBoard::new(board))
}

// The same of a board by its search key.
fn known_by_key<C: Counting, S: Spread>(
    owners: &S,
    workers: &[Worker<C>],
    board: &KeyedBoard,
) -> Option<Known>
    requires { 0 < length workers.now }
    ensures { result ≡ known_in (S.owner_of owners.now) (states_of workers.now) board.now }
{
    let owner = owner_among(owners, board, workers.len());
    workers[owner].lists().get(board.key())
}

// The plan by which the goal was reached, followed back by last moves, and its cost. No memory is
// taken where the start is the goal.
pub(crate) fn plan_back<C: Counting, S: Spread>(
    alloc: Global,
    asked: &Asked<'_>,
    owners: &S,
    workers: &[Worker<C>],
    reached: Known,
) -> Result<(u32, Vec<Move>), OutOfMemory>
    requires world { (w : WorldState)
        × HasParts (task_asked asked.now) (S.owner_of owners.now) (states_of workers.now) w }
    requires found { known_in (S.owner_of owners.now) (states_of workers.now) asked.now.goal
        ≡ Some reached }
    ensures free { asked.now.start ≡ asked.now.goal → IsOk result }
    ensures plan { IfOk result (λ found. IsTraced (task_asked asked.now) (S.owner_of owners.now)
        (states_of workers.now) reached.cost found.0 found.1.items) }
{
    let mut backwards = Vec::new(alloc);
    let mut cost = 0;
    let start = KeyedBoard::new(&asked.start);
    let mut board = KeyedBoard::new(&asked.goal);
    let mut here = reached;
    'boards: while board != start {
        let before = step_back(asked, owners, workers, &board, here);
        push(&mut backwards, here.via)?;
        cost += before.1;
        board = before.0;
        here = before.2;
    }
    backwards.reverse();
    Ok((cost, backwards))
}

// The board before one by its last move, the cost of that move, and what the owner of the board
// before knows of it.
fn step_back<C: Counting, S: Spread>(
    asked: &Asked<'_>,
    owners: &S,
    workers: &[Worker<C>],
    board: &KeyedBoard,
    here: Known,
) -> (KeyedBoard, u32, Known)
    requires some { 0 < length workers.now }
    requires costs { asked.now.weights.grid ≡ board.now.grid }
    requires reached { (before : BoardModel) × (cost : ℕ) × (there : Known)
        × IsPredecessor (task_asked asked.now) (S.owner_of owners.now) (states_of workers.now)
        board.now here before cost there }
    ensures before { IsPredecessor (task_asked asked.now) (S.owner_of owners.now) (states_of workers.now)
        board.now here result.0 result.1 result.2 }
    ensures low { 1 ≤ result.1 }
{
    let before = board.step(here.via.undo(), &asked.weights).unwrap();
    let there = known_by_key(owners, workers, &before.0).unwrap();
    (before.0, before.1, there)
}
