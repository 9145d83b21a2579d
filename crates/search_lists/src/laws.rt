//! The laws of lists that have more room, which are contracts of functions that do nothing.

ghost use Rattle.search_lists.specs.Laws.{SameListsLoseNothing, RoomIsMadeTwice};
ghost use Rattle.search_lists.specs.Laws.{LostPlacesAreNoRoom, MoreRoomLeavesTheOrder};
ghost use Rattle.search_lists.specs.Laws.{MoreRoomLeavesTheNext, EmptyListsAreInOrder};

/// Lists that stay as they are have lost nothing.
pub fn same_lists_lose_nothing()
    ensures { SameListsLoseNothing }
{}

/// Where room is made twice, room is made.
pub fn room_is_made_twice()
    ensures { RoomIsMadeTwice }
{}

/// Where a place is lost, there is no more room.
pub fn lost_places_are_no_room()
    ensures { LostPlacesAreNoRoom }
{}

/// What was in order is in order where there is more room.
#[tactic(auto, using(crate::proofs::OrderLemmas::order_with_room))]
pub fn more_room_leaves_the_order()
    ensures { MoreRoomLeavesTheOrder }
{}

/// Lists that know no board are in order, whatever room they have: new ones, and cleared ones.
#[tactic(auto, using(crate::proofs::OrderLemmas::empty_order))]
pub fn empty_lists_are_in_order()
    ensures { EmptyListsAreInOrder }
{}

/// More room leaves the next entry the next one.
pub fn more_room_leaves_the_next()
    ensures { MoreRoomLeavesTheNext }
{}
