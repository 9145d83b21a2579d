//! The sides of a board.

ghost use Rattle.std.specs.Prelude.{◌≡◌, ◌≤◌, ◌↔◌, IsOk, IsTrue, IfOk, IfErr};
ghost use Rattle.board.specs.Shapes.{ShapeModel, IsShape, cell_count};
ghost use Rattle.board.specs.declared.faults.ShapeFault.TheVariants.{SideOutOfRange};

use crate::faults::ShapeFault;
use std::marker::Model;

/// The sides of a board, each from 2 to 5.
#[derive(Clone, Copy, Debug)]
pub struct Shape {
    rows: u8,
    cols: u8,
}

impl Model for Shape {
    ghost Value = { ShapeModel };

    ghost view = { λ s. record { rows = s.rows; cols = s.cols } };

    ghost invariant = { λ s. IsShape (record { rows = s.rows; cols = s.cols }) };

    ghost inverse = { λ grid. record { rows = grid.rows; cols = grid.cols } };
}

impl PartialEq for Shape {
    ghost use Rattle.std.specs.Cmp.{partial_equiv_from_equiv};
    ghost use Rattle.board.specs.Equality.{grid_eq, grid_eq-laws};

    ghost eq = { grid_eq };

    ghost laws = { partial_equiv_from_equiv grid_eq-laws };

    fn eq(&self, other: &Self) -> bool
        ensures value { result ≡ grid_eq self.now other.now }
        ensures same { IsTrue result ↔ (self.now ≡ other.now) }
    {
        self.rows == other.rows && self.cols == other.cols
    }
}

impl Eq for Shape {
    ghost use Rattle.board.specs.Equality.{grid_eq-laws};

    ghost laws = { grid_eq-laws };
}

impl Shape {
    /// The shape with these sides, or E1 where a side is not from 2 to 5.
    pub fn new(rows: u8, cols: u8) -> Result<Self, ShapeFault>
        ensures accepted { IsOk result ↔ IsShape (record { rows = rows; cols = cols }) }
        ensures value { IfOk result (λ shape. shape ≡ record { rows = rows; cols = cols }) }
        ensures fault { IfErr result (λ fault. fault ≡ SideOutOfRange) }
    {
        if rows < 2 || 5 < rows || cols < 2 || 5 < cols {
            return Err(ShapeFault::SideOutOfRange);
        }
        Ok(Shape { rows, cols })
    }

    /// How many rows there are.
    pub fn rows(self) -> u8
        ensures { result ≡ self.rows }
    {
        self.rows
    }

    /// How many columns there are.
    pub fn cols(self) -> u8
        ensures { result ≡ self.cols }
    {
        self.cols
    }

    /// How many cells there are, from 4 to 25.
    pub fn cells(self) -> usize
        ensures value { result ≡ cell_count self }
        ensures sides { IsShape self }
        ensures low { 4 ≤ result }
        ensures high { result ≤ 25 }
    {
        self.rows as usize * self.cols as usize
    }
}
