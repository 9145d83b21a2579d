//! What workers work with beside their parts.

use crate::signs::Signs;
use message_ledger::Tokens;
use quiescence::Book;
use std::alloc::Global;
use std::sync::Mutex;

/// What all workers of a run work with beside their parts. The book is locked for one step or one
/// look at a time, and no lock is held while the gate is passed.
#[derive(Drop)]
pub struct Site<'a, R, G, C: Tokens> {
    pub rt: &'a R,
    pub alloc: Global,
    pub gate: &'a G,
    pub signs: &'a Signs,
    pub book: &'a Mutex<Book<C>>,
}
