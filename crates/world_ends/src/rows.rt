//! The rows of a run: the boards that are known below a cost.

ghost use Rattle.std.specs.Prelude.{◌≡◌, ◌<◌, ◌≤◌, ◌+◌, ◌++◌, ◌∷◌, ◌⊎◌, ◌↔◌, [], ℕ, Some};
ghost use Rattle.std.specs.Prelude.{OnOk, IfOk, IsOk, All, Contains, slice_get};
ghost use Rattle.board.specs.declared.costs.TheConstants.{GREATEST_COST};
ghost use Rattle.board.specs.Boards.{BoardModel};
ghost use Rattle.board.specs.Keys.{HasKey};
ghost use Rattle.lower_bound.specs.Bounds.{sum_of};
ghost use Rattle.lower_bound.specs.Tables.{parts_of};
ghost use Rattle.world_model.specs.Outcomes.{AreRowsFor};
ghost use Rattle.world_model.specs.Worlds.{WorldState};
ghost use Rattle.world_ends.specs.Parts.{task_asked, states_of, HasParts};
ghost use Rattle.world_ends.specs.Rows.{IsRowIn, HaveDifferentKeys, IsOfBoards, AreElsewhere};
ghost use Rattle.world_ends.specs.Rows.{AreKeyedRows, AreBoardsOf, keyed};
ghost use Rattle.world_ends.specs.declared.rows.KeyedRow.{KeyedRow};

use crate::asked::Asked;
use board::{Board, Shape};
use memory::{OutOfMemory, push};
use message_ledger::Counting;
use search_keys::KeyedBoard;
use search_lists::SearchLists;
use std::alloc::Global;
use worker_core::Worker;

// A row by the key of its board's tiles, by which rows are sorted.
#[derive(Clone, Copy, Debug)]
struct KeyedRow {
    key: u128,
    cost: u32,
}

/// The rows that prove a cost: the boards that the workers know at a cost plus sum below it, each
/// with the cost at which it is known, in rising order of key. Where the start's sum proves the
/// cost there is none, and no memory is taken.
pub fn rows_for<C: Counting>(
    alloc: Global,
    asked: &Asked<'_>,
    workers: &[Worker<C>],
    cost: u32,
) -> Result<Vec<(Board, u32)>, OutOfMemory>
    requires sides { asked.now.bound.now.split.grid ≡ asked.now.goal.grid }
    requires world { (owner_among : ℕ → BoardModel → ℕ) × (w : WorldState)
        × HasParts (task_asked asked.now) owner_among (states_of workers.now) w }
    ensures rows { IfOk result (λ rows. (owner_among : ℕ → BoardModel → ℕ) (w : WorldState)
        → HasParts (task_asked asked.now) owner_among (states_of workers.now) w
        → AreRowsFor w cost rows.items) }
    ensures free { cost ≤ sum_of (parts_of asked.now.bound.now) asked.now.start → IsOk result }
{
    if asked.bound.of(&asked.start) >= cost {
        return Ok(Vec::new(alloc));
    }
    let mut rows = keyed_rows(alloc, asked, workers, cost)?;
    rows.sort_unstable_by_key(|row| row.key);
    with_boards(alloc, asked.goal.shape(), &rows)
}

// The rows of all workers, by their keys.
fn keyed_rows<C: Counting>(
    alloc: Global,
    asked: &Asked<'_>,
    workers: &[Worker<C>],
    cost: u32,
) -> Result<Vec<KeyedRow>, OutOfMemory>
    requires sides { asked.now.bound.now.split.grid ≡ asked.now.goal.grid }
    requires world { (owner_among : ℕ → BoardModel → ℕ) × (w : WorldState)
        × HasParts (task_asked asked.now) owner_among (states_of workers.now) w }
    ensures { IfOk result (λ rows. AreKeyedRows (task_asked asked.now) cost (states_of workers.now)
        rows.items) }
{
    let mut rows = Vec::new(alloc);
    'workers: for worker in workers {
        add_rows(&mut rows, asked, worker.lists(), cost)?;
    }
    Ok(rows)
}

// Adds the rows of what one worker knows.
fn add_rows(
    rows: &mut Vec<KeyedRow>,
    asked: &Asked<'_>,
    lists: &SearchLists,
    cost: u32,
) -> Result<(), OutOfMemory>
    requires sides { asked.now.bound.now.split.grid ≡ asked.now.goal.grid }
    requires boards { IsOfBoards asked.now.goal.grid lists.now.closed.known }
    requires apart { HaveDifferentKeys rows.old.items }
    requires elsewhere { AreElsewhere asked.now.goal.grid rows.old.items
        lists.now.closed.known }
    ensures apart { OnOk result (HaveDifferentKeys rows.new.items) }
    ensures each { OnOk result ((row : KeyedRow) → Contains rows.new.items row
        ↔ (Contains rows.old.items row
        ⊎ IsRowIn (task_asked asked.now) cost lists.now.closed.known row)) }
{
    'boards: for place in 0..lists.len() {
        let (key, known) = lists.at(place);
        let board = KeyedBoard::of_key(asked.goal.shape(), key).board();
        add_row(rows, asked, &board, known.cost, cost)?;
    }
    Ok(())
}

// Adds the row of a board that is known at a cost, where that plus the board's sum is below a
// limit.
fn add_row(
    rows: &mut Vec<KeyedRow>,
    asked: &Asked<'_>,
    board: &Board,
    cost: u32,
    limit: u32,
) -> Result<(), OutOfMemory>
    requires sides { asked.now.bound.now.split.grid ≡ asked.now.goal.grid }
    requires board { board.now.grid ≡ asked.now.goal.grid }
    requires low { cost ≤ GREATEST_COST }
    ensures low { OnOk result (cost + sum_of (parts_of asked.now.bound.now) board.now < limit
        → rows.new.items ≡ rows.old.items ++ keyed (board.now, cost) ∷ []) }
    ensures high { OnOk result (limit ≤ cost + sum_of (parts_of asked.now.bound.now) board.now
        → rows.new.items ≡ rows.old.items) }
{
    if cost + asked.bound.of(board) < limit {
        let row = KeyedRow {
            key: board.key(),
            cost,
        };
        push(rows, row)?;
    }
    Ok(())
}

// The rows with their boards in the place of keys.
fn with_boards(
    alloc: Global,
    shape: Shape,
    rows: &[KeyedRow],
) -> Result<Vec<(Board, u32)>, OutOfMemory>
    requires { All (λ row. (b : BoardModel) × HasKey shape row.key b) rows.now }
    ensures { IfOk result (λ boards. AreBoardsOf shape rows.now boards.items) }
{
    let mut boards = Vec::new(alloc);
    'rows: for row in rows {
        let board = Board::of_key(shape, row.key);
        push(&mut boards, (board, row.cost))?;
    }
    Ok(boards)
}
