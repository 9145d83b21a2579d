//! The laws of the definitions: each is the contract of a function that does nothing.

ghost use Rattle.std.specs.Prelude.{◌≡◌, ◌+◌, ◌↔◌, IsTrue};
ghost use Rattle.board.specs.Moves.{all_moves};
ghost use Rattle.board.specs.Laws.{LettersAreRead, NeighboursLieThere, SuccessorsAreMoves};
ghost use Rattle.board.specs.Laws.{MovesKeepBoards, MovesAreDetermined, MovesAreTakenBack};
ghost use Rattle.board.specs.Laws.{PlansAreJoined, PlansAreCut, PlansAreDetermined};
ghost use Rattle.board.specs.Laws.{PlansKeepBoards, MovesKeepTheClass, PlansKeepTheClass};
ghost use Rattle.board.specs.Laws.{ExchangesChangeTheClass, PlansAreStuckThere};
ghost use Rattle.board.specs.Laws.{RulesAreListed, NamedRulesAreListed, LeastCostsAreDetermined};
ghost use Rattle.board.specs.Laws.{KeysNameBoards, KeysFit, KeysAreInOrder, RowsSuffice};

use crate::costs::{GREATEST_COST, GREATEST_EXPANDED_COST};
use crate::faults::{BoardFault, TilesFault, WeightsFault};
use crate::moves::Move;

/// `Move::ALL` is the four moves in their order.
pub fn all_moves_are_there()
    ensures { Move.ALL ≡ all_moves }
{}

/// A letter is read as the move whose letter it is, and nothing else is read.
#[tactic(auto, using(crate::proofs::LetterLemmas::letter_reads))]
pub fn letters_are_read()
    ensures { LettersAreRead }
{}

/// A move of the greatest weight keeps a board that is expanded within the greatest cost.
pub fn expansions_stay_within()
    ensures { GREATEST_EXPANDED_COST + 255 ≡ GREATEST_COST }
{}

/// Every cost rule is said by a list of weights: unit cost by ones, face cost by 1, 2, ..
pub fn rules_are_listed()
    ensures each { RulesAreListed }
    ensures named { NamedRulesAreListed }
{}

/// `==` answers whether two faults of numbers are the same, with the same places.
pub fn faults_of_tiles_are_compared(a: TilesFault, b: TilesFault) -> bool
    ensures { IsTrue result ↔ (a ≡ b) }
{
    a == b
}

/// `==` answers whether two faults of weights are the same, with the same places.
pub fn faults_of_weights_are_compared(a: WeightsFault, b: WeightsFault) -> bool
    ensures { IsTrue result ↔ (a ≡ b) }
{
    a == b
}

/// `==` answers whether two faults are the same, with the same places.
pub fn faults_are_compared(a: BoardFault, b: BoardFault) -> bool
    ensures { IsTrue result ↔ (a ≡ b) }
{
    a == b
}

/// What is computed of a move is what it does, both ways.
pub fn successors_are_moves()
    ensures cells { NeighboursLieThere }
    ensures boards { SuccessorsAreMoves }
{}

/// A move of a board leads to a board.
pub fn moves_keep_boards()
    ensures { MovesKeepBoards }
{}

/// A move leads to one board, at one cost.
#[tactic(auto, using(crate::proofs::MoveLemmas::one_move))]
pub fn moves_are_determined()
    ensures { MovesAreDetermined }
{}

/// The opposite move takes a move back, at the same cost.
#[tactic(auto, using(crate::proofs::MoveLemmas::taken_back))]
pub fn moves_are_taken_back()
    ensures { MovesAreTakenBack }
{}

/// Plans that follow one another make one plan, and their costs add up.
#[tactic(auto, using(crate::proofs::PlanLemmas::joined))]
pub fn plans_are_joined()
    ensures { PlansAreJoined }
{}

/// A plan can be cut at any place.
#[tactic(auto, using(crate::proofs::PlanLemmas::cut))]
pub fn plans_are_cut()
    ensures { PlansAreCut }
{}

/// A plan leads from a board to one board, at one cost.
#[tactic(auto, using(crate::proofs::PlanLemmas::led_board, crate::proofs::PlanLemmas::one_end))]
pub fn plans_are_determined()
    ensures boards { PlansKeepBoards }
    ensures one { PlansAreDetermined }
{}

/// A plan is stuck at the first of its moves that leads nowhere.
pub fn plans_are_stuck_there()
    ensures { PlansAreStuckThere }
{}

/// An exchange of two tiles leads to the other class.
#[tactic(auto, using(crate::proofs::ClassLemmas::class_changed))]
pub fn exchanges_change_the_class()
    ensures { ExchangesChangeTheClass }
{}

/// A plan leads to a board of the same class.
pub fn plans_keep_the_class()
    ensures moves { MovesKeepTheClass }
    ensures plans { PlansKeepTheClass }
{}

/// A least cost is one number.
pub fn least_costs_are_determined()
    ensures { LeastCostsAreDetermined }
{}

/// A key names one board of a shape, and has 5 bits for each cell.
pub fn keys_name_boards()
    ensures one { KeysNameBoards }
    ensures bits { KeysFit }
{}

/// The order of keys is the order of lists of tiles.
#[tactic(auto, using(std::proofs::lemmas::List::Elements::recursion_from_All, crate::proofs::KeyLemmas::packed_in_order, crate::proofs::KeyLemmas::tiles_small))]
pub fn keys_are_in_order()
    ensures { KeysAreInOrder }
{}

/// Rows that prove a cost, with a sum that is a lower bound, leave no cheaper plan.
pub fn rows_suffice()
    ensures { RowsSuffice }
{}
