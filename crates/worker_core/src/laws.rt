//! What is true of the definitions.

ghost use Rattle.world_model.specs.Workers.{Lane};
ghost use Rattle.worker_core.specs.Expanding.{FourPlacesAreEnough, ThreePlacesAreTooFew};
ghost use Rattle.worker_core.specs.Expanding.{OthersNeedNoPlaces, OnwardStepsAloneAreWhole};
ghost use Rattle.worker_core.specs.Lanes.{IsAtSender, IsAtReceiver};
ghost use Rattle.worker_core.specs.Roles.{TasksHaveGuides};
ghost use Rattle.worker_core.specs.Expanding.{ExpansionsLackPlaces, PlacesForOwnOffersAreEnough};
ghost use Rattle.worker_core.specs.Settling.{RefusedSettlesChangeNothing};
ghost use Rattle.worker_core.specs.Settling.{NothingHeldLacksNothing, NoNewsLacksNothing};
ghost use Rattle.worker_core.specs.Settling.{OnePlaceIsEnough};

use crate::lanes::{LaneIn, LaneOut, Queue};
use message_ledger::{Counting, Packet};
use owners::Spread;

/// A guide leads to the goal of each task.
#[tactic(auto, using(crate::proofs::GuideLemmas::tasks_guided))]
pub fn tasks_have_guides()
    ensures { TasksHaveGuides }
{}

/// Places for four boards more, and for four at the f of each offer, are all places.
pub fn four_places_are_enough()
    ensures { FourPlacesAreEnough }
{}

/// Three places are too few: for boards, and at an offer that the worker owns.
pub fn three_places_are_too_few()
    ensures { ThreePlacesAreTooFew }
{}

/// What other workers own needs no places.
pub fn others_need_no_places()
    ensures { OthersNeedNoPlaces }
{}

/// Memory is refused for an expansion only where a board is next, and a place is lacking for what
/// its moves offer.
pub fn expansions_lack_places()
    ensures { ExpansionsLackPlaces }
{}

/// Places for four boards more, and for four at the cost plus sum of each own board to which the
/// moves lead, are enough for an expansion. The move that is left out needs none.
#[tactic(auto, using(crate::proofs::ExpandLemmas::own_places))]
pub fn places_for_own_offers_are_enough()
    ensures { PlacesForOwnOffersAreEnough }
{}

/// Memory is refused for held items only where the cost of the last one is news, and a place for
/// its board is lacking.
#[tactic(auto, using(crate::proofs::GuideLemmas::same_last))]
pub fn items_lack_a_place<S: Spread>()
    ensures held { NothingHeldLacksNothing S }
    ensures news { NoNewsLacksNothing S }
    ensures enough { OnePlaceIsEnough S }
{}

/// Alone, a worker that leaves the move back out expands by all moves.
pub fn onward_steps_alone_are_whole()
    ensures { OnwardStepsAloneAreWhole }
{}

/// A settle that is refused changes nothing, and drops no item.
#[tactic(auto, using(crate::proofs::GuideLemmas::refused_settles))]
pub fn refused_settles_change_nothing()
    ensures { RefusedSettlesChangeNothing }
{}

/// What both ends of a queue say is said of the lane that contracts see.
pub fn queues_are_lanes<C: Counting>()
    ensures sender { (before after : Lane) → IsAtSender
        (λ packet. ⟦<Queue<C> as LaneOut<Packet<C>>>⟧.takes before packet after)
        (⟦<Queue<C> as LaneOut<Packet<C>>>⟧.may_be_full before)
        (⟦<Queue<C> as LaneOut<Packet<C>>>⟧.is_same before after) before after }
    ensures receiver { (before after : Lane) → IsAtReceiver
        (λ packet. ⟦<Queue<C> as LaneIn<Packet<C>>>⟧.gives before packet after)
        (⟦<Queue<C> as LaneIn<Packet<C>>>⟧.may_be_empty before)
        (⟦<Queue<C> as LaneIn<Packet<C>>>⟧.is_same before after) before after }
{}
