//! How the program ends, and what it writes of that to standard error.

ghost use Rattle.std.specs.Prelude.{◌≡◌};
ghost use Rattle.byte_streams.specs.Streams.{change};
ghost use Rattle.batch_cli.specs.Endings.{status_of, message_of, Tells};

use crate::faults::BatchFault;
use batch_runs::Summary;
use byte_streams::Sink;
use command_line::NoRequest;
use memory::OutOfMemory;

/// How the program ends.
#[derive(Debug, Drop)]
pub enum Ending {
    /// An argument is not UTF-8.
    NoTexts,
    /// The arguments are invalid.
    Refused(NoRequest),
    /// There was no memory for the arguments or the streams' buffers: only `main` ends so.
    NoMemoryToStart,
    /// There was no memory for the tables.
    NoMemory(OutOfMemory),
    /// All lines were answered or refused.
    Ran(Summary),
    /// A certificate was written, judged, drawn or upgraded, or a replay answered, and this is the
    /// status.
    Answered(u8),
    /// A text of help was written, or boards were listed.
    Shown,
    /// The run ended early.
    Faulted(BatchFault),
}

impl Ending {
    /// The exit status:
    ///
    /// - 0: each line is optimal or unsolvable, or a text was written, or boards were listed.
    /// - 1: some line is bounded or refused.
    /// - 2: the arguments are not UTF-8, or are invalid.
    /// - 3: a stream failed.
    /// - 4: memory ran out.
    ///
    /// A run over one line, one certificate or one replay answers its own status, and 5 where a
    /// certificate is refused.
    pub fn status(&self) -> u8
        ensures { result ≡ status_of self.now }
    {
        match self {
            Ending::NoTexts => 2,
            Ending::Refused(refusal) => refusal.status(),
            Ending::NoMemoryToStart => 4,
            Ending::NoMemory(_) => 4,
            Ending::Ran(counts) => batch_status(*counts),
            Ending::Answered(status) => *status,
            Ending::Shown => 0,
            Ending::Faulted(fault) => fault_status(*fault),
        }
    }

    /// What is written of it to standard error: nothing, one line, or a text of usage.
    pub fn message(&self) -> &str
        ensures { result.now ≡ message_of self.now }
    {
        match self {
            Ending::NoTexts => "error: invalid UTF-8 was detected in one or more arguments\n",
            Ending::Refused(refusal) => refusal.message(),
            Ending::NoMemoryToStart | Ending::NoMemory(_) => "tilesolve: memory\n",
            Ending::Ran(_) | Ending::Answered(_) | Ending::Shown => "",
            Ending::Faulted(fault) => fault_line(*fault),
        }
    }

    /// Writes the message, or a beginning of it where it cannot be written, and answers the status.
    pub fn tell<E: Sink>(self, errors: &mut E) -> u8
        ensures { Tells (change E.state errors.old errors.new) self result }
    {
        let _ = errors.put(self.message().as_bytes());
        self.status()
    }
}

// The status of a run over lines.
fn batch_status(counts: Summary) -> u8
    ensures { result ≡ status_of (Ending.Ran counts) }
{
    if counts.bounded == 0 && counts.refused == 0 {
        return 0;
    }
    1
}

// The status of a run that ended early.
fn fault_status(fault: BatchFault) -> u8
    ensures { result ≡ status_of (Ending.Faulted fault) }
{
    match fault {
        BatchFault::Memory(_) | BatchFault::GroupsMemory(_) | BatchFault::CertificateMemory(_) => 4,
        _ => 3,
    }
}

// The line of a run that ended early.
fn fault_line(fault: BatchFault) -> &'static str
    ensures { result.now ≡ message_of (Ending.Faulted fault) }
{
    match fault {
        BatchFault::Read => "tilesolve: B1\n",
        BatchFault::Write => "tilesolve: B2\n",
        BatchFault::Memory(_) | BatchFault::GroupsMemory(_) => "tilesolve: B3\n",
        BatchFault::CertificateRead => "tilesolve: F6\n",
        BatchFault::CertificateMemory(_) => "tilesolve: F7\n",
        BatchFault::CertificateWrite => "tilesolve: F8\n",
    }
}
