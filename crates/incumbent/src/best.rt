//! The best cost.

ghost use Rattle.std.specs.Prelude.{◌≡◌, ◌↔◌, None, Some, IsErr, OnOk, OnErr};
ghost use Rattle.world_model.specs.Costs.{IsNotBelow, limit_of};

use board::GREATEST_EXPANDED_COST;
use std::marker::Model;
use thiserror::Error;

/// Why a cost is not taken: it isn't below the best one.
#[derive(Clone, Copy, Debug, PartialEq, Eq, Error)]
#[error("the cost is not below the best one")]
pub struct NotLower;

/// The cost of the best plan that is known; none while no plan is.
#[derive(Clone, Copy, Debug)]
pub struct Best {
    cost: Option<u32>,
}

impl Model for Best {
    ghost use Rattle.std.specs.Prelude.{ℕ, Option};

    ghost Value = { Option ℕ };

    ghost view = { λ b. b.cost };

    ghost inverse = { λ cost. record { cost = cost } };
}

impl Best {
    /// No plan is known.
    pub fn new() -> Self
        ensures { result ≡ None }
    {
        Best { cost: None }
    }

    /// The cost of the best plan that is known.
    pub fn cost(&self) -> Option<u32>
        ensures { result ≡ self.now }
    {
        self.cost
    }

    /// Takes this cost as the best one. It is refused, and nothing has changed, where the cost
    /// isn't below the best one.
    pub fn announce(&mut self, cost: u32) -> Result<(), NotLower>
        ensures refused { IsErr result ↔ IsNotBelow (Some cost) self.old }
        ensures ok { OnOk result (self.new ≡ Some cost) }
        ensures err { OnErr result (self.new ≡ self.old) }
        ensures falls { IsNotBelow self.old self.new }
    {
        if let Some(best) = self.cost {
            if best <= cost {
                return Err(NotLower);
            }
        }
        self.cost = Some(cost);
        Ok(())
    }

    /// A board with this cost plus sum, or a greater one, is not expanded: the best cost, and at
    /// most one above `GREATEST_EXPANDED_COST`, as where no plan is known.
    pub fn limit(&self) -> u32
        ensures { result ≡ limit_of self.now }
    {
        let most = GREATEST_EXPANDED_COST + 1;
        match self.cost {
            Some(cost) => cost.min(most),
            None => most,
        }
    }
}
