//! What joined threads leave.

ghost use Rattle.std.specs.Prelude.{◌≡◌};

use message_ledger::{Capped, Shares, Tickets};
use owners::Spread;
use quiescence::Book;
use std::sync::ledger::Ledger;
use thread_parts::Sealed;

/// What is left of a run whose threads were all joined: the parts in their order, the book, and the
/// tickets of what was granted, which were all taken.
#[derive(Drop)]
pub struct Team<'a, S: Spread, L: Ledger + Send + Sync, M: Capped + Send + Sync> {
    pub parts: Vec<Sealed<'a, S, Shares<L, M>>>,
    pub book: Book<Shares<L, M>>,
    pub tickets: Tickets<M>,
    pub ghost taken: { tickets ≡ 0 },
}
