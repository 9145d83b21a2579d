//! What is true of the definitions: each law is the contract of a function that does nothing.

ghost use Rattle.world_model.specs.declared.steps.HaltCause.{HaltCause};
ghost use Rattle.world_model.specs.BookSteps.{AnnounceStep, GrantStep, HaltStep};
ghost use Rattle.world_model.specs.Workers.{Role};
ghost use Rattle.thread_parts.specs.Rings.{NewRingsHaveRoom};
ghost use Rattle.thread_parts.specs.Parts.{ChangesItsWorker, HaveSameLanes};
ghost use Rattle.thread_parts.specs.Steps.{SentIsSent, DeliveredIsReceived};
ghost use Rattle.thread_parts.specs.Steps.{RefusedPacketsChangeNothing};
ghost use Rattle.thread_parts.specs.Steps.{SendRefusalsAreDue, DeliverRefusalsAreDue};
ghost use Rattle.thread_parts.specs.Steps.{WithAPurseItIsTheStep, BarredStepsChangeNothing};

use crate::part::Part;
use message_ledger::Tokens;
use owners::Spread;

/// A step that changes the worker of a part alone sends nothing by its rings, and takes nothing out
/// of them.
#[tactic(auto, using(crate::proofs::PartLemmas::lanes_left))]
pub fn steps_of_workers_leave_the_rings<S: Spread, C: Tokens>(
    old: &Part<'_, S, C>,
    new: &Part<'_, S, C>,
)
    ensures { ChangesItsWorker S.owner_of C.workers old.now new.now
        → HaveSameLanes old.now new.now }
{}

/// A packet that a ring takes is sent, and one that it gives is received. What it refuses changes
/// nothing.
pub fn packets_go_and_come()
    ensures sent { SentIsSent }
    ensures received { DeliveredIsReceived }
    ensures refused { RefusedPacketsChangeNothing }
{}

/// A step by a ring is refused for the first of its causes that is there, by the refusal of that
/// cause. Where there is none, the packet goes or comes, or the ring refuses it. No ring is full
/// before as many packets were sent by it as it has room for. None is empty where one that was seen
/// in it is left.
pub fn refusals_of_rings_are_due()
    ensures sent { SendRefusalsAreDue }
    ensures received { DeliverRefusalsAreDue }
{}

/// The rings of a run that begins have room for one packet from a worker to itself, and from one to
/// another for as many as a lane.
pub fn new_rings_have_room()
    ensures { NewRingsHaveRoom }
{}

/// A step on the book is taken with a purse, in a run that goes on. Else it is refused by the cause
/// that is there, and changes nothing.
pub fn book_steps_need_a_purse()
    ensures announce { (role : Role) → WithAPurseItIsTheStep (AnnounceStep role) }
    ensures grant { (role : Role) → WithAPurseItIsTheStep (GrantStep role) }
    ensures halt { (cause : HaltCause) → WithAPurseItIsTheStep (HaltStep cause) }
    ensures no_announce { (role : Role) → BarredStepsChangeNothing (AnnounceStep role) }
    ensures no_grant { (role : Role) → BarredStepsChangeNothing (GrantStep role) }
    ensures no_halt { (cause : HaltCause) → BarredStepsChangeNothing (HaltStep cause) }
{}
