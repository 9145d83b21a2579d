//! One worker of hash-distributed A* and its steps, and the lanes by which workers send one another
//! packets.
//!
//! - A `Worker` has no model: clauses speak of `state_of` it, and of its `lists`, whose order the
//!   definitions leave open.
//! - Each step is one call whose clause `step` is the definition of that name. Guided lists stay
//!   guided, also after a refusal.
//! - A worker has no goal and no tables; its steps are lent them in a `Context`. Clauses hold for
//!   each start and each `Guide` of the goal (`tasks_have_guides`).
//! - `Serves` is what `expand` asks of a worker, and `KeepsServing` what it keeps.
//! - `expand` takes all successors (`All`), or leaves out the one back (`Onward`). For an only
//!   worker both are the same step (`onward_steps_alone_are_whole`).
//! - Memory is taken in `new`, `with_lists`, `Queue::new`, `expand`, `settle` and `meet` alone,
//!   before the first change. The last three are refused only where the lists lack places (`LacksPlacesToExpand`,
//!   `LacksPlaceFor`; laws `expansions_lack_places`, `places_for_own_offers_are_enough`,
//!   `items_lack_a_place`).
//! - `settle` drops a foreign item: of another shape, of another worker, or above `GREATEST_COST`.
//!   No world has one.
//! - `expand` asks for places for four boards, and four at the f of each own successor, since
//!   several may have the same.
//! - `expand` is lent an `Ahead`: what the moves of boards that take turns offer. It is found for
//!   all of them at once, so that the reads of memory for one overlap with those for another.
//!   `AreFoundAhead` says that it is of the search. Where memory is refused for it, there is none.
//! - `LaneOut` and `LaneIn` are the ends of a lane. `IsAtSender` and `IsAtReceiver` are what a
//!   worker may conclude from an answer. `Queue` has both ends.
//! - The table's buckets are read ahead for a packet taken in. A board's sum is made only where its
//!   cost is news.
//! - Proofs: an expansion takes its offers one by one; `IsReady` says what the rest needs. The
//!   book's calls make the steps, by laws of `world_model`.
//! - Start with `specs/Workers.antt`, `specs/Roles.antt`, `src/worker.rt`; for lanes
//!   `specs/Lanes.antt`, `src/lanes.rt`.
#![tactic(auto)]

mod ahead;
mod book_steps;
mod closing;
mod context;
mod expanding;
mod goal;
mod lane_steps;
mod lanes;
pub mod laws;
mod packets;
mod settling;
mod taking;
mod worker;

pub use ahead::Ahead;
pub use context::Context;
pub use expanding::Successors;
pub use goal::Goal;
pub use lanes::{LaneIn, LaneOut, Queue};
pub use worker::Worker;
