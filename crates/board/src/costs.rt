//! What moves cost, and the greatest costs.

ghost use Rattle.std.specs.Prelude.{◌≡◌, ◌<◌, ◌≤◌, ◌↔◌, ◌-◌, ◌++◌, ◌∷◌, IsTrue, IsOk, IsErrOf};
ghost use Rattle.std.specs.Prelude.{IfOk, IfErr, OnOk, length, replicate};
ghost use Rattle.std.specs.List.{range_with_len};
ghost use Rattle.board.specs.Shapes.{cell_count};
ghost use Rattle.board.specs.Weights.{AreWeights, listed_rule, unit_rule, face_rule, weight_of};
ghost use Rattle.board.specs.Faults.{IsFirstWeightsFault};
ghost use Rattle.board.specs.declared.faults.WeightsFault.{WeightsFault};

use crate::boards::first_zero;
use crate::faults::WeightsFault;
use crate::shapes::Shape;
use std::marker::Model;

/// The greatest cost that is handled.
pub const GREATEST_COST: u32 = 1_048_575;

/// The greatest cost at which a board is expanded: with a move of the greatest weight it stays
/// within `GREATEST_COST`.
pub const GREATEST_EXPANDED_COST: u32 = 1_048_320;

/// What it costs to move each tile of a board: a weight from 1 to 255.
#[derive(Clone, Copy, Debug)]
pub struct Weights {
    shape: Shape,
    weights: [u8; 25],
}

impl Model for Weights {
    ghost use Rattle.board.specs.Weights.{WeightsModel};

    ghost Value = { WeightsModel };

    ghost use Rattle.board.specs.CostStorage.{rule_in, storage_of, IsStored, storage_of-rule_in};

    ghost view = { rule_in };

    ghost invariant = { IsStored };

    ghost inverse = { storage_of };

    ghost inverse_ok = { storage_of-rule_in };
}

impl PartialEq for Weights {
    ghost use Rattle.std.specs.Cmp.{partial_equiv_from_equiv};
    ghost use Rattle.board.specs.Equality.{rule_eq, rule_eq-laws};

    ghost eq = { rule_eq };

    ghost laws = { partial_equiv_from_equiv rule_eq-laws };

    fn eq(&self, other: &Self) -> bool
        ensures value { result ≡ rule_eq self.now other.now }
        ensures same { IsTrue result ↔ (self.now ≡ other.now) }
    {
        self.shape == other.shape && self.weights == other.weights
    }
}

impl Eq for Weights {
    ghost use Rattle.board.specs.Equality.{rule_eq-laws};

    ghost laws = { rule_eq-laws };
}

impl Weights {
    /// Unit cost: every move costs 1.
    #[tactic(auto, using(crate::proofs::GoalLemmas::ones_more, crate::proofs::GoalLemmas::unit_stored))]
    pub fn unit(shape: Shape) -> Self
        ensures { result ≡ unit_rule shape }
    {
        let mut weights = [0; 25];
        for tile in 1..shape.cells() {
            weights[tile] = 1;
        }
        Weights { shape, weights }
    }

    /// Face cost: moving tile t costs t.
    pub fn face(shape: Shape) -> Self
        ensures { result ≡ face_rule shape }
    {
        let weights = count_up(shape.cells());
        Weights { shape, weights }
    }

    /// The weights of tiles 1, 2, .. in order, or the first fault: E13 where their count is not
    /// that of the tiles, else E14 at the first 0. All ones are unit cost, and 1, 2, .. are face
    /// cost.
    pub fn list(shape: Shape, listed: &[u8]) -> Result<Self, WeightsFault>
        ensures accepted { IsOk result ↔ AreWeights (listed_rule shape listed.now) }
        ensures value { IfOk result (λ rule. rule ≡ listed_rule shape listed.now) }
        ensures fault { (fault : WeightsFault) →
            IsErrOf result fault ↔ IsFirstWeightsFault shape listed.now fault }
    {
        if let Err(fault) = check_weights(shape, listed) {
            return Err(fault);
        }
        let weights = behind_blank(listed);
        Ok(Weights { shape, weights })
    }

    /// The weights of tiles 1, 2, .. in order, as `list` takes them.
    pub fn listed(&self) -> &[u8]
        ensures value { self.now ≡ listed_rule self.now.grid result.now }
        ensures rule { AreWeights self.now }
    {
        &self.weights[1..self.shape.cells()]
    }

    /// The cost of moving a tile.
    pub fn of(&self, tile: u8) -> u32
        requires tile { 0 < tile }
        requires within { tile < cell_count self.now.grid }
        ensures value { result ≡ weight_of self.now tile }
        ensures low { 1 ≤ result }
        ensures high { result ≤ 255 }
    {
        self.weights[tile as usize] as u32
    }

    /// The shape of the boards whose tiles these are.
    pub fn shape(&self) -> Shape
        ensures value { result ≡ self.now.grid }
        ensures rule { AreWeights self.now }
    {
        self.shape
    }
}

// The first fault of a list of weights, if there is one.
fn check_weights(shape: Shape, listed: &[u8]) -> Result<(), WeightsFault>
    ensures sound { OnOk result (AreWeights (listed_rule shape listed.now)) }
    ensures fault { IfErr result (IsFirstWeightsFault shape listed.now) }
{
    if listed.len() != shape.cells() - 1 {
        return Err(WeightsFault::WrongCount);
    }
    if let Some(place) = first_zero(listed) {
        return Err(WeightsFault::WeightOutOfRange(place));
    }
    Ok(())
}

// The weights behind the blank's entry, which is 0, with zeros behind them.
fn behind_blank(listed: &[u8]) -> [u8; 25]
    requires { length listed.now < 25 }
    ensures { result ≡ (0 ∷ listed.now) ++ replicate (24 - length listed.now) 0 }
{
    let mut weights = [0; 25];
    weights[1..=listed.len()].copy_from_slice(listed);
    weights
}

// The numbers from 0 on, as many as there are cells, with zeros behind them.
pub(crate) fn count_up(cells: usize) -> [u8; 25]
    requires { cells ≤ 25 }
    ensures { result ≡ range_with_len 0 cells ++ replicate (25 - cells) 0 }
{
    let mut numbers = [0; 25];
    for place in 0..cells {
        numbers[place] = place as u8;
    }
    numbers
}
