//! The laws of parts: each is the contract of a function that does nothing.

ghost use Rattle.world_model.specs.ThreadLaws.{ExpandingIsKept, SettlingIsKept, DroppingIsKept};
ghost use Rattle.world_model.specs.ThreadLaws.{SendingIsKept, ReceivingIsKept, BookStepsAreKept};
ghost use Rattle.world_model.specs.ThreadLaws.{PartStepsAreKept, PacketsHaveItems, OpeningsAreKept};
ghost use Rattle.world_model.specs.ThreadLaws.{JoinedPartsAreSound, JoinedPartsAreQuiet};
ghost use Rattle.world_model.specs.ThreadLaws.{NothingHeldIsForeign};
ghost use Rattle.world_model.specs.ThreadLaws.{OpeningsAreOfParts, StepsAreOfParts, RunsAreOfParts};

/// A part keeps what it keeps when its worker takes a step.
pub fn steps_are_kept()
    ensures expand { ExpandingIsKept }
    ensures settle { SettlingIsKept }
    ensures drop { DroppingIsKept }
    ensures send { SendingIsKept }
    ensures receive { ReceivingIsKept }
    ensures book { BookStepsAreKept }
{}

/// So does a part with which a run begins.
pub fn openings_are_kept()
    ensures { OpeningsAreKept }
{}

/// A packet that comes in has an item: the part holds something then.
pub fn packets_have_items()
    ensures { PacketsHaveItems }
{}

/// Joined parts are a sound world.
pub fn joined_parts_are_sound()
    ensures { JoinedPartsAreSound }
{}

/// Joined parts are a quiet world where nothing is left to do.
pub fn joined_parts_are_quiet()
    ensures { JoinedPartsAreQuiet }
{}

/// Joined parts hold nothing that is foreign.
pub fn nothing_held_is_foreign()
    ensures { NothingHeldIsForeign }
{}

/// Each world of a run is that of parts which are joined. A part that takes a step of these keeps
/// what it keeps.
pub fn runs_are_of_parts()
    ensures opening { OpeningsAreOfParts }
    ensures step { StepsAreOfParts }
    ensures run { RunsAreOfParts }
    ensures kept { PartStepsAreKept }
{}
