//! The goal of a run.

ghost use Rattle.std.specs.Prelude.{◌≡◌};
ghost use Rattle.search_keys.specs.SearchKeys.{search_key};
ghost use Rattle.board.specs.Boards.{IsBoard};

use board::{Board, Shape};
use search_keys::KeyedBoard;
use std::marker::Model;

/// A goal with its search key, by which it is known among the boards that are met.
#[derive(Debug, Drop)]
pub struct Goal {
    board: Board,
    key: u128,
}

impl Model for Goal {
    ghost use Rattle.std.specs.Prelude.{◌≡◌};
    ghost use Rattle.search_keys.specs.SearchKeys.{search_key};
    ghost use Rattle.board.specs.Boards.{BoardModel};

    ghost Value = { BoardModel };

    ghost view = { λ g. g.board };

    ghost invariant = { λ g. search_key g.board ≡ g.key };
}

impl Goal {
    /// This board as the goal.
    pub fn new(board: &Board) -> Self
        ensures { result ≡ board.now }
    {
        Goal {
            board: *board,
            key: KeyedBoard::new(board).key(),
        }
    }

    /// The board itself.
    pub fn board(&self) -> &Board
        ensures { result.now ≡ self.now }
    {
        &self.board
    }

    /// Its shape.
    pub fn shape(&self) -> Shape
        ensures value { result ≡ self.now.grid }
        ensures board { IsBoard self.now }
    {
        self.board.shape()
    }

    /// Its search key.
    pub fn key(&self) -> u128
        ensures value { result ≡ search_key self.now }
        ensures board { IsBoard self.now }
    {
        let _ = self.board.shape();
        self.key
    }
}
