//! Certificates of a setup's boards.

ghost use Rattle.std.specs.Prelude.{◌≡◌, ◌⊎◌};
ghost use Rattle.byte_streams.specs.Streams.{change};
ghost use Rattle.batch_runs.specs.Batches.{LeavesFlushed};
ghost use Rattle.certificate_runs.specs.Rules.{MayProve};
ghost use Rattle.certificate_runs.specs.Certifying.{Replies};
ghost use Rattle.certificate_runs.specs.Headline.{IsTrueAnswer};
ghost use Rattle.setup_runs.specs.Solving.{certifying_rules_of};

use crate::solving::{Question, answer_board};
use batch_runs::Setup;
use board::Board;
use byte_streams::{Sink, Source};
use certificate_runs::{CertifyFault, ProofRuled, Prover, certify_first};
use hda_run::Gate;
use memory::OutOfMemory;
use outcomes::Outcome;
use search_lists::SearchLists;
use std::alloc::Global;
use std::sync::Wait;
use std::thread::Threads;
use world_ends::WithRows;

// A setup, and the closure by which its workers answer boards with rows.
#[derive(Drop)]
struct Proving<'a, F> {
    setup: &'a Setup,
    prove: F,
}

impl<'a, F> ProofRuled for Proving<'a, F> {
    ghost use Rattle.setup_runs.specs.Solving.{certifying_rules_of};

    ghost rules = { λ proving. certifying_rules_of proving.setup.now };
}

impl<'a, F: Fn(&Board) -> Result<Outcome, OutOfMemory>> Prover for Proving<'a, F> {
    ghost use Rattle.std.specs.Prelude.{refl};

    ghost setup = { λ proving. proving.setup.now };

    ghost is_callable = { λ proving.
        ((start : _) → start.now.grid ≡ proving.setup.now.goal.grid → F.pre proving.prove start)
        × ((start result : _) → start.now.grid ≡ proving.setup.now.goal.grid
        → F.post proving.prove start result
        → MayProve (certifying_rules_of proving.setup.now) start.now result) };

    ghost fits = { λ proving. record {
      grid = refl;
      task = refl;
      truthful = λ start given allowed. allowed.0;
    } };

    fn setup(&self) -> &Setup {
        self.setup
    }

    fn prove(&self, start: &Board) -> Result<Outcome, OutOfMemory> {
        (self.prove)(start)
    }
}

/// Answers the first line of the source that isn't passed over, and takes nothing behind it: where
/// a plan of least cost is found, or a bound with its rows, its certificate is written, else the
/// line's report. The board is solved as those of a batch are, but with the rows that prove the
/// plan or the bound. A certificate names the groups of the setup's tables: the rows prove it with
/// their sums.
///
/// Answers the status: 0 for a certificate of a plan, for a board without a plan, and where no line
/// is to be answered; 1 for a bound, certified or not, and for a line that is refused. Nothing is
/// written where reading fails or memory is refused. What is written is flushed; where the flush
/// fails, so has the write.
///
/// What is written tells the truth: so says the clause `truth`, in words of what a reader sees.
pub fn run_cert<R: Threads + Wait + Sync, S: Source, K: Sink, G: Gate + Sync>(
    rt: &R,
    alloc: Global,
    source: &mut S,
    sink: &mut K,
    setup: &Setup,
    gate: &G,
) -> Result<u8, CertifyFault>
    ensures replies { Replies setup.now.tables.split (certifying_rules_of setup.now)
        (change S.state source.old source.new) (change K.state sink.old sink.new) result }
    ensures truth { IsTrueAnswer setup.now.tables.split (certifying_rules_of setup.now)
        (change S.state source.old source.new) (change K.state sink.old sink.new) result }
    ensures flushed { LeavesFlushed K.is_flushed K.state sink.old sink.new }
{
    let prove = |start: &Board| -> Result<Outcome, OutOfMemory>
        requires { start.now.grid ≡ setup.now.goal.grid }
        ensures { MayProve (certifying_rules_of setup.entry.now) start.now result }
    {
        let mut lists = SearchLists::new(alloc);
        answer_board::<WithRows, R, G>(rt, alloc, &Question { setup, start }, gate, &mut lists)
    };
    let proving = Proving { setup, prove };
    certify_first(alloc, source, sink, &proving)
}
