//! Boards, moves and plans.

ghost use Rattle.std.specs.Prelude.{◌≡◌};

use board::{Board, Move, Shape, Weights, follow, same_class};
use std::io;

/// A board, a plan that leads from it to the goal, and a board that is none.
pub fn visit(rt: &impl Print) -> io::Result<()> {
    let shape = Shape::new(3, 3).unwrap();
    let goal = Board::goal(shape);
    println!(rt; "the goal: {:?}", goal.tiles())?;
    match Board::from_tiles(shape, &[1, 2, 0, 3, 4, 5, 6, 7, 8]) {
        Ok(start) => follow_plan(rt, shape, start)?,
        Err(fault) => println!(rt; "no board: {}", fault.code())?,
    }
    match Board::from_tiles(shape, &[1, 1, 0, 3, 4, 5, 6, 7, 8]) {
        Ok(board) => println!(rt; "a board: {:?}", board.tiles()),
        Err(fault) => println!(rt; "no board: {}", fault.code()),
    }
}

fn follow_plan(rt: &impl Print, shape: Shape, start: Board) -> io::Result<()>
    requires { start.grid ≡ shape }
{
    let plan = [Move::L, Move::L];
    for weights in [Weights::unit(shape), Weights::face(shape)] {
        match follow(&start, &plan, &weights) {
            Ok((end, cost)) => println!(rt; "LL leads to {:?} at {cost}", end.tiles())?,
            Err(place) => println!(rt; "move {place} leads nowhere")?,
        }
    }
    let right = start.step(Move::R, &Weights::unit(shape));
    println!(rt; "a move to the right: {right:?}")?;
    let solvable = same_class(&start, &Board::goal(shape));
    println!(rt; "the goal can be reached: {solvable}")
}
