//! Runs of steps.

ghost use Rattle.std.specs.Prelude.{◌≡◌, List, Option, map};
ghost use Rattle.world_model.specs.declared.steps.Refusal.{Refusal};
ghost use Rattle.world_model.specs.declared.steps.Step.{Step};
ghost use Rattle.world_model.specs.Steps.{IsRun};
ghost use Rattle.hda_run.specs.Worlds.{world_of};

use crate::world::World;
use owners::Spread;
use std::alloc::Global;
use world_model::Step;
use world_model::laws::runs_are_of_steps;

/// Takes steps one after the other. A refused one is passed over.
pub fn run_steps<'a, S: Spread>(alloc: Global, world: World<'a, S>, steps: &[Step]) -> World<'a, S>
    ensures run { (made : List (Step × Option Refusal)) × (map (λ made. made.0) made ≡ steps.now)
        × IsRun (world_of S.owner_of world.entry) made (world_of S.owner_of result) }
    ensures job { result.job ≡ world.entry.job }
    ensures owners { result.owners.now ≡ world.entry.owners.now }
{
    runs_are_of_steps();
    let mut world = world;
    'steps: for step in steps {
        let _ = world.step(alloc, *step);
    }
    world
}
