//! What is asked of a worker when its run is over.

ghost use Rattle.std.specs.Prelude.{◌≡◌, ◌≤◌};
ghost use Rattle.worker_core.specs.Serving.{KeepsLists};
ghost use Rattle.worker_core.specs.Workers.{state_of};

use crate::worker::Worker;
use message_ledger::{Allowance, Counting};
use quiescence::Book;

impl<C: Counting> Worker<C> {
    /// Changes nothing, and shows that its purse is within the credit.
    pub fn audit(&mut self, book: &mut Book<C>)
        requires counted { C.counts book.old.credit self.old.purse }
        ensures bound { (state_of self.old).purse ≤ book.old.credit }
        ensures book { book.new ≡ book.old }
        ensures state { state_of self.new ≡ state_of self.old }
        ensures keeps { KeepsLists self.old self.new }
    {
        book.audit(&mut self.purse);
    }

    /// What it was granted, and what of it is left.
    pub fn into_allowance(self) -> Allowance<C>
        ensures { result ≡ self.allowance }
    {
        let Worker { allowance, .. } = self;
        allowance
    }
}
