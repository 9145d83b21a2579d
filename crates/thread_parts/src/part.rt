//! The part of a run that one thread has.

use crate::ends::{Receiver, Sender};
use hda_run::Job;
use message_ledger::Counting;
use owners::Spread;
use worker_core::{Ahead, Worker};

/// A worker, and its ends of the rings to and from each worker.
#[derive(Drop)]
pub struct Part<'a, S: Spread, C: Counting> {
    pub job: &'a Job<'a>,
    pub owners: &'a S,
    /// Which worker it is.
    pub me: usize,
    pub worker: Worker<C>,
    pub ahead: Ahead,
    /// For each worker the ring to it.
    pub outs: Vec<Sender<C>>,
    /// For each worker the ring from it.
    pub ins: Vec<Receiver<C>>,
}
