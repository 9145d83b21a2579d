//! What the threads of a run share.

ghost use Rattle.hda_run.specs.Worlds.{IsWorkerCount};

use hda_run::Job;

/// What the threads of a run share: what is to be solved, which worker owns a board, and how many
/// workers there are.
#[derive(Drop)]
pub struct Search<'a, S> {
    pub job: Job<'a>,
    pub owners: &'a S,
    pub workers: usize,
    pub ghost count: { IsWorkerCount workers },
}
