//! Commands, ready to run.

ghost use Rattle.std.specs.Prelude.{IfOk, IfErr};
ghost use Rattle.batch_cli.specs.Setups.{IsRequestFit};
ghost use Rattle.batch_cli.specs.Programs.{ServesRequest, CanRun, EndsWithoutMemory, PrintsAsAsked};
ghost use Rattle.batch_cli.specs.Programs.{SolvesAsked};

use crate::setups::setup_of;
use batch_runs::Setup;
use command_line::{Listing, Request};
use drawings::Style;
use memory::OutOfMemory;
use std::alloc::Global;
use std::thread::Threads;

/// What a request asks for, ready to run: its tables are built.
#[derive(Drop)]
pub(crate) enum Command {
    /// Solves the boards of the source, and prints progress and figures where these are asked for.
    Solve {
        setup: Setup,
        progress: bool,
        stats: bool,
    },
    /// Solves the first board of the source, and writes its certificate.
    Certify {
        setup: Setup,
        progress: bool,
    },
    /// Checks the certificate of the source.
    Check,
    /// Draws the certificate of the source.
    Draw(Style),
    /// Writes the certificate of the source in version 2.
    Upgrade,
    /// Replays the steps of the source.
    Replay(Setup),
    /// Lists boards.
    List(Listing),
    /// Writes a text of help.
    Show(String),
}

/// The command that a request asks for. The error: out of memory for its tables.
pub(crate) fn command_for(
    rt: &(impl Threads + Sync),
    alloc: Global,
    request: Request,
) -> Result<Command, OutOfMemory>
    requires { IsRequestFit request }
    ensures command { IfOk result (ServesRequest request) }
    ensures fit { IfOk result CanRun }
    ensures lacking { IfErr result (EndsWithoutMemory request) }
    ensures printed { IfOk result (PrintsAsAsked request) }
    ensures solved { IfOk result (SolvesAsked request) }
{
    match request {
        Request::Solve(options) => {
            let progress = options.progress;
            let stats = options.stats;
            let setup = setup_of(rt, alloc, options)?;
            Ok(Command::Solve {
                setup,
                progress,
                stats,
            })
        }
        Request::Certify(options) => {
            let progress = options.progress;
            let setup = setup_of(rt, alloc, options)?;
            Ok(Command::Certify { setup, progress })
        }
        Request::Check => Ok(Command::Check),
        Request::Draw(style) => Ok(Command::Draw(style)),
        Request::Upgrade => Ok(Command::Upgrade),
        Request::Replay(options) => {
            let setup = setup_of(rt, alloc, options)?;
            Ok(Command::Replay(setup))
        }
        Request::Boards(listing) => Ok(Command::List(listing)),
        Request::Help(text) => Ok(Command::Show(text)),
        Request::Version(text) => Ok(Command::Show(text)),
    }
}
