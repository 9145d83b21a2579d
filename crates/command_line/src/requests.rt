//! What arguments ask for.

ghost use Rattle.std.specs.Prelude.{◌≡◌, [], IfOk, IfErr, map, string_bytes};
ghost use Rattle.clap.specs.Words.{App, Kinds, HasKind, fault_of, subcommand_of};
ghost use Rattle.clap.specs.Words.{subcommand_rows_of};
ghost use Rattle.command_line.specs.Commands.{IsProgram};
ghost use Rattle.command_line.specs.Requests.{AreDefaults, AsksText, TextFails};
ghost use Rattle.command_line.specs.Requests.{WordsAsk, WordsFail};

use crate::commands::program;
use crate::faults::NoRequest;
use crate::matches::run_in;
use batch_lines::{GroupsFault, default_groups};
use batch_runs::SpreadKind;
use board::{Board, Shape, Weights};
use board_lists::Choice;
use clap::error::ErrorKind;
use clap::{ArgMatches, Error};
use drawings::Style;
use memory::OutOfMemory;
use pattern_index::Partition;
use std::alloc::Global;

// The values that `--spread` may have.
static SPREADS: [&str; 3] = ["zobrist", "blank", "abstract"];

/// A puzzle and how it is searched.
#[derive(Debug, Drop)]
pub struct Options {
    /// The goal, whose shape is that of all boards.
    pub goal: Board,
    /// What a move costs on boards of the goal's shape.
    pub costs: Weights,
    /// The groups of tiles whose tables guide the search.
    pub groups: Partition,
    /// Whether the tables are folded.
    pub fold: bool,
    /// From 1 to 16.
    pub workers: u8,
    pub spread: SpreadKind,
    /// The most boards that are expanded for one line.
    pub limit: u64,
    /// Whether the count of expanded boards is shown while boards are solved.
    pub progress: bool,
    /// Whether the figures of the search for each line are printed.
    pub stats: bool,
}

/// A goal, and which boards of its class are listed.
#[derive(Clone, Copy, Debug)]
pub struct Listing {
    pub goal: Board,
    pub choice: Choice,
}

/// What arguments ask for.
#[derive(Debug, Drop)]
pub enum Request {
    /// That boards are solved.
    Solve(Options),
    /// That the first board is solved, and its certificate written.
    Certify(Options),
    /// That a certificate is checked.
    Check,
    /// That a certificate is drawn.
    Draw(Style),
    /// That a certificate is written in version 2.
    Upgrade,
    /// That steps are taken one by one.
    Replay(Options),
    /// That boards are listed.
    Boards(Listing),
    /// This text of help.
    Help(String),
    /// This text of the version.
    Version(String),
}

/// What the arguments after the program's name ask for; no arguments mean
/// `solve --rows 3 --cols 3`. Or why they ask for nothing: the arguments themselves are judged
/// first, then the text of the goal, then that of the costs, then that of the groups.
pub fn read_words(alloc: Global, words: &[String]) -> Result<Request, NoRequest>
    ensures request { IfOk result (WordsAsk (map string_bytes words.now)) }
    ensures refusal { IfErr result (WordsFail (map string_bytes words.now)) }
{
    if words.is_empty() {
        return match default_options(alloc) {
            Ok(options) => Ok(Request::Solve(options)),
            Err(refused) => Err(NoRequest::Groups(GroupsFault::Memory(refused))),
        };
    }
    let matches = match matches_of(alloc, words) {
        Ok(matches) => matches,
        Err(error) => return unmatched(alloc, error),
    };
    run_in(alloc, &matches)
}

// The options where there are no arguments.
fn default_options(alloc: Global) -> Result<Options, OutOfMemory>
    ensures { IfOk result AreDefaults }
{
    let shape = Shape::new(3, 3).unwrap();
    let groups = default_groups(alloc, shape)?;
    Ok(Options {
        goal: Board::goal(shape),
        costs: Weights::unit(shape),
        groups,
        fold: false,
        workers: 1,
        spread: SpreadKind::Zobrist,
        limit: u64::MAX,
        progress: false,
        stats: false,
    })
}

// What the parser makes of the arguments.
fn matches_of<'a>(alloc: Global, words: &'a [String]) -> Result<ArgMatches<'a>, Error>
    ensures matches { IfOk result (λ matches. (program : App) × IsProgram program
        × (fault_of program (map string_bytes words.entry.now) ≡ [])
        × (subcommand_rows_of matches
        ≡ subcommand_of program (map string_bytes words.entry.now))) }
    ensures fault { IfErr result (λ error. (program : App) × IsProgram program
        × HasKind (fault_of program (map string_bytes words.entry.now)) error) }
{
    program(alloc, SPREADS.as_slice())?.try_get_matches_from(words)
}

// What is asked for where the parser gives no matches: a text, or nothing.
fn unmatched(alloc: Global, error: Error) -> Result<Request, NoRequest>
    ensures request { (faults : Kinds) → HasKind faults error → IfOk result (AsksText faults) }
    ensures refusal { (faults : Kinds) → HasKind faults error
        → IfErr result (TextFails faults) }
{
    let text = match error.to_string(alloc) {
        Ok(text) => text,
        Err(refused) => return Err(NoRequest::Memory(Error::from(refused))),
    };
    match error.kind() {
        ErrorKind::DisplayHelp => Ok(Request::Help(text)),
        ErrorKind::DisplayVersion => Ok(Request::Version(text)),
        ErrorKind::OutOfMemory => Err(NoRequest::Memory(error)),
        _ => Err(NoRequest::Usage(text)),
    }
}
