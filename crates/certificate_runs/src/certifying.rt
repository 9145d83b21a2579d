//! A line in, a certificate out.

ghost use Rattle.std.specs.Prelude.{ℕ, ◌≡◌, ◌≢◌, ◌≤◌, All, IfOk, IfErr, OnOk, OnErr};
ghost use Rattle.std.specs.Prelude.{slice_index};
ghost use Rattle.pattern_search.specs.declared.finding.TheConstants.{NO_VALUE};
ghost use Rattle.byte_streams.specs.Streams.{change};
ghost use Rattle.byte_streams.specs.Sink.{Writes};
ghost use Rattle.outcomes.specs.Outcomes.{Answers};
ghost use Rattle.outcomes.specs.Endings.{without_rows};
ghost use Rattle.batch_runs.specs.declared.report.NoReport.{NoReport};
ghost use Rattle.batch_lines.specs.declared.lines.LineKind.TheVariants.{PassedOver, Within};
ghost use Rattle.certificate.specs.Certificates.{IsBoardOf, cost_of, plan_of};
ghost use Rattle.certificate.specs.Spellings.{spelling};
ghost use Rattle.certificate_runs.specs.declared.faults.CertifyFault.{CertifyFault};
ghost use Rattle.batch_runs.specs.Batches.{LeavesFlushed, no_lines, with_outcome, status_of_counts};
ghost use Rattle.batch_runs.specs.Setups.{SetupModel, task_of_setup};
ghost use Rattle.certificate_runs.specs.Rules.{ProofRules, MayProve};
ghost use Rattle.certificate_runs.specs.Certifying.{Replies, PutsReply};
ghost use Rattle.certificate_runs.specs.Headline.{IsTrueAnswer};
ghost use Rattle.certificate_runs.specs.Certifying.{AreRulesFor, IsCertificateOf, IsCertifyReply};
ghost use Rattle.certificate_runs.specs.Certifying.{IsMadeOf, IsCertifiable, IsAnswerOf};
ghost use Rattle.certificate_runs.specs.Certifying.{claim_status};
ghost use Rattle.certificate_runs.specs.Certifying.{IsRefusalReply, HasNoReply};
ghost use Rattle.certificate_runs.specs.Built.{HasSmallEntries, HasSmallFolds, HaveSmallEntries};

use crate::faults::CertifyFault;
use batch_lines::{EntryFault, Line, LineKind, LineReader, read_entry};
use batch_runs::{Setup, find_line, outcome_report, refused_report, send_report};
use board::laws::keys_are_in_order;
use board::{Board, Move};
use byte_streams::{Sink, Source};
use certificate::{Certificate, Claim, Parts, Version, WriteFault, write};
use database_build::{Folded, Table};
use lower_bound::{Bound, TableList};
use memory::OutOfMemory;
use outcomes::{Ending, Outcome, SolveFault};
use std::alloc::Global;

/// Rules of how boards are answered where rows are asked for.
pub trait ProofRuled {
    // The shape of the boards, what is asked of a board, and what it may be answered by.
    ghost rules: { Self → ProofRules };
}

/// A prover: it answers a setup's boards with rows, as the rules allow.
pub trait Prover: ProofRuled {
    // The setup: its tables guide the search.
    ghost setup: { Self → SetupModel };

    // What a caller proves before each call. A prover with a closure needs its contract here.
    ghost is_callable: { Self → Type 0 };

    /// The setup.
    fn setup(&self) -> &Setup
        ensures { result.now ≡ setup self.now };

    /// The outcome of a board: where it is a plan of least cost or a bound, with the rows that
    /// prove it. The error: out of memory before the first step.
    fn prove(&self, start: &Board) -> Result<Outcome, OutOfMemory>
        requires callable { is_callable self.now }
        requires grid { start.now.grid ≡ (Self.rules self.now).grid }
        ensures { MayProve (Self.rules self.now) start.now result };

    // The rules are for its boards, and its outcomes answer what is asked.
    ghost fits: { (prover : Self) → AreRulesFor (setup prover) (Self.rules prover) };
}

/// Answers the first line of the source that isn't passed over, and takes nothing behind it. Where
/// a plan of least cost is found, or a bound with its rows, its certificate is written, else the
/// line's report. A certificate names the groups of the setup's tables.
///
/// Answers the status: 0 for a certificate of a plan, for a board without a plan, and where no line
/// is to be answered; 1 for a bound, certified or not, and for a line that is refused. Nothing is
/// written where reading fails or memory is refused for the reply. What is written is flushed, and
/// a flush that fails counts as a write that failed.
///
/// What is written tells the truth. The clause `truth` says so, in terms of what a reader sees.
pub fn certify_first<S: Source, K: Sink, A: Prover>(
    alloc: Global,
    source: &mut S,
    sink: &mut K,
    prover: &A,
) -> Result<u8, CertifyFault>
    requires callable { A.is_callable prover.now }
    ensures replies { Replies (A.setup prover.now).tables.split (A.rules prover.now)
        (change S.state source.old source.new) (change K.state sink.old sink.new) result }
    ensures truth { IsTrueAnswer (A.setup prover.now).tables.split (A.rules prover.now)
        (change S.state source.old source.new) (change K.state sink.old sink.new) result }
    ensures flushed { LeavesFlushed K.is_flushed K.state sink.old sink.new }
{
    reply_to_first(alloc, source, sink, prover)
}

// The same, by what was replied.
fn reply_to_first<S: Source, K: Sink, A: Prover>(
    alloc: Global,
    source: &mut S,
    sink: &mut K,
    prover: &A,
) -> Result<u8, CertifyFault>
    requires callable { A.is_callable prover.now }
    ensures replies { Replies (A.setup prover.now).tables.split (A.rules prover.now)
        (change S.state source.old source.new) (change K.state sink.old sink.new) result }
    ensures flushed { LeavesFlushed K.is_flushed K.state sink.old sink.new }
{
    let mut reader = LineReader::new();
    match find_line(source, &mut reader) {
        Ok(Some(line)) => match reply_to_line(alloc, prover, line, reader.bytes()) {
            Ok(reply) => put_reply(sink, &reply),
            Err(fault) => Err(fault),
        },
        Ok(None) => Ok(0),
        Err(_) => Err(CertifyFault::Read),
    }
}

// What is written for a line: a certificate, or a report with its status.
#[derive(Drop)]
enum Reply {
    Certified(Certificate),
    Reported(String, u8),
}

// The reply to a line that isn't passed over, whose bytes are given where it is to be read.
fn reply_to_line<A: Prover>(
    alloc: Global,
    prover: &A,
    line: Line,
    bytes: &[u8],
) -> Result<Reply, CertifyFault>
    requires callable { A.is_callable prover.now }
    requires kind { line.kind ≢ PassedOver }
    ensures reply { IfOk result
        (IsCertifyReply (A.setup prover.now).tables.split (A.rules prover.now) line bytes.now) }
    ensures lacking { IfErr result (HasNoReply (A.rules prover.now) line bytes.now) }
{
    match line.kind {
        LineKind::Within => reply_to_entry(alloc, prover, line.number, bytes),
        _ => refuse(alloc, EntryFault::NoText.code(), line.number),
    }
}

// The reply to a line that is to be read.
fn reply_to_entry<A: Prover>(
    alloc: Global,
    prover: &A,
    number: u64,
    bytes: &[u8],
) -> Result<Reply, CertifyFault>
    requires callable { A.is_callable prover.now }
    ensures reply { IfOk result (IsCertifyReply (A.setup prover.now).tables.split (A.rules prover.now)
        (record { number = number; kind = Within }) bytes.now) }
    ensures lacking { IfErr result (HasNoReply (A.rules prover.now)
        (record { number = number; kind = Within }) bytes.now) }
{
    let setup = prover.setup();
    let entry = match read_entry(setup.shape(), bytes) {
        Ok(entry) => entry,
        Err(fault) => return refuse(alloc, fault.code(), number),
    };
    let outcome = match prover.prove(&entry.board) {
        Ok(outcome) => outcome,
        Err(refused) => return refuse(alloc, SolveFault::Memory(refused).code(), number),
    };
    let made = match certify(alloc, setup, entry.board, outcome) {
        Ok(made) => made,
        Err(refused) => return Err(CertifyFault::GroupsMemory(refused)),
    };
    match made {
        Made::Certificate(certificate) => Ok(Reply::Certified(certificate)),
        Made::Plain(ending) => match outcome_report(alloc, entry.id, &ending) {
            Ok(text) => Ok(Reply::Reported(text, status_of(&ending))),
            Err(lacking) => Err(CertifyFault::Memory(lacking)),
        },
    }
}

// The report of a line that is refused.
fn refuse(alloc: Global, code: &str, number: u64) -> Result<Reply, CertifyFault>
    ensures refusal { IfOk result (IsRefusalReply code.now number) }
    ensures lacking { IfErr result (λ fault. (lacking : NoReport)
        × (fault ≡ CertifyFault.Memory lacking)) }
{
    match refused_report(alloc, code, number) {
        Ok(text) => Ok(Reply::Reported(text, 1)),
        Err(lacking) => Err(CertifyFault::Memory(lacking)),
    }
}

// 1 for a bound, 0 for a board without a plan.
fn status_of(ending: &Ending) -> u8
    ensures { result ≡ status_of_counts (with_outcome no_lines ending.now) }
{
    match ending {
        Ending::Bounded { .. } => 1,
        _ => 0,
    }
}

// What becomes of an outcome: a certificate of what it says, or the ending that has none.
#[derive(Drop)]
enum Made {
    Certificate(Certificate),
    Plain(Ending),
}

// The certificate of a plan of least cost, or of a bound that has its rows.
fn certify(
    alloc: Global,
    setup: &Setup,
    start: Board,
    outcome: Outcome,
) -> Result<Made, OutOfMemory>
    requires start { IsBoardOf setup.now.goal.grid start }
    requires answers { Answers (task_of_setup setup.now start) outcome }
    ensures made { IfOk result (IsMadeOf setup.now.tables.split (task_of_setup setup.now start) outcome) }
    ensures lacking { OnErr result (IsCertifiable outcome) }
{
    match outcome {
        Outcome::Optimal { cost, plan, rows } => {
            match certify_claim(alloc, setup, start, Claim::Least { cost, plan }, rows) {
                Ok(certificate) => Ok(Made::Certificate(certificate)),
                Err(refused) => Err(refused),
            }
        }
        Outcome::Unsolvable { why } => Ok(Made::Plain(Ending::Unsolvable { why })),
        Outcome::Bounded {
            bound,
            best,
            cause,
            rows,
        } => match rows {
            Some(rows) => match certify_claim(alloc, setup, start, Claim::Bound { bound }, rows) {
                Ok(certificate) => Ok(Made::Certificate(certificate)),
                Err(refused) => Err(refused),
            },
            None => Ok(Made::Plain(Ending::Bounded { bound, best, cause })),
        },
    }
}

// The certificate of a claim, with the groups of the setup's tables.
fn certify_claim(
    alloc: Global,
    setup: &Setup,
    start: Board,
    claim: Claim,
    rows: Vec<(Board, u32)>,
) -> Result<Certificate, OutOfMemory>
    requires start { IsBoardOf setup.now.goal.grid start }
    requires answers { IsAnswerOf (task_of_setup setup.now start) (cost_of claim) (plan_of claim) rows.items }
    ensures certificate { IfOk result
        (IsCertificateOf setup.now.tables.split (task_of_setup setup.now start)) }
    ensures claims { IfOk result (λ c.
        (c.cost ≡ cost_of claim) × (c.plan ≡ plan_of claim) × (c.rows ≡ rows.items)) }
{
    // By this law the order of the rows, which is by key, is that of their lists of tiles.
    keys_are_in_order();
    let tables = setup.tables();
    // So no sum of theirs is above that of the tables that a checker builds.
    tell_entries(tables);
    let groups = tables.partition().copy(alloc)?;
    let goal = setup.goal();
    let costs = setup.weights();
    // The contract of this call says that these are a weight for each tile.
    let _ = costs.shape();
    let parts = Parts {
        version: Version::Two,
        shape: goal.shape(),
        costs,
        groups,
        start,
        goal,
        claim,
        rows,
    };
    Ok(Certificate::new(parts).unwrap())
}

// No entry of a bound's tables is above the greatest value.
fn tell_entries(bound: &Bound)
    ensures { HaveSmallEntries bound.now }
{
    match bound.tables() {
        TableList::Whole(tables) => tell_whole(tables),
        TableList::Folded(folds) => tell_folded(folds),
    }
}

// The same for whole tables.
fn tell_whole(tables: &[Table])
    ensures { All HasSmallEntries tables.now }
{
    'tables: for place in 0..tables.len() {
        // The contract of this call says that no value of the table is greater.
        let _ = tables[place].group();
    }
}

// The same for folded tables.
fn tell_folded(folds: &[Folded])
    ensures { All HasSmallFolds folds.now }
{
    'tables: for place in 0..folds.len() {
        let _ = folds[place].group();
    }
}

// Writes a reply, passes it on, and answers its status.
fn put_reply<K: Sink>(sink: &mut K, reply: &Reply) -> Result<u8, CertifyFault>
    ensures puts { PutsReply (change K.state sink.old sink.new) reply.now result }
    ensures last { OnOk result (K.is_flushed sink.new) }
{
    match reply {
        Reply::Certified(certificate) => match put_certificate(sink, certificate) {
            Ok(()) => Ok(claim_status(certificate)),
            Err(_) => Err(CertifyFault::CertificateWrite),
        },
        Reply::Reported(text, status) => match send_report(sink, text.as_str()) {
            Ok(()) => Ok(*status),
            Err(_) => Err(CertifyFault::Write),
        },
    }
}

// 0 for a plan, 1 for a bound.
fn claim_status(certificate: &Certificate) -> u8
    ensures { result ≡ claim_status certificate.now.plan }
{
    match certificate.claim() {
        Claim::Least { .. } => 0,
        Claim::Bound { .. } => 1,
    }
}

// Writes a certificate and passes it on.
pub(crate) fn put_certificate<K: Sink>(
    sink: &mut K,
    certificate: &Certificate,
) -> Result<(), WriteFault>
    ensures writes { Writes (change K.state sink.old sink.new) (spelling certificate.now) result }
    ensures last { OnOk result (K.is_flushed sink.new) }
{
    write(sink, certificate)?;
    match sink.flush() {
        Ok(()) => Ok(()),
        Err(_) => Err(WriteFault::Failed),
    }
}
