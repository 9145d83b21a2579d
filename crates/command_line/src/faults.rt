//! Why arguments ask for nothing.

ghost use Rattle.std.specs.Prelude.{◌≡◌};
ghost use Rattle.board.specs.Faults.{tiles_code, weights_code};
ghost use Rattle.batch_lines.specs.GroupFaults.{groups_code};
ghost use Rattle.pattern_index.specs.Faults.{group_code, partition_code};
ghost use Rattle.command_line.specs.Faults.{refusal_status, refusal_message, coded_line, list_line};

use batch_lines::GroupsFault;
use board::{TilesFault, WeightsFault};
use clap::Error;
use pattern_index::{GroupFault, PartitionFault};

/// Why no boards can be listed.
#[derive(Clone, Copy, Debug, PartialEq, Eq)]
pub enum ListFault {
    /// `--all` is given with `--count` or `--moves`.
    NotAlone,
    /// `--all` is given for a shape of more than 9 cells.
    TooManyCells,
}

/// Why arguments ask for nothing.
#[derive(Debug, Drop)]
pub enum NoRequest {
    /// The parser finds a fault of the arguments, as this text says.
    Usage(String),
    /// The text of the goal has a fault: E2 to E4.
    Goal(TilesFault),
    /// The text of the costs has a fault: E13 or E14.
    Costs(WeightsFault),
    /// The text of the groups has a fault, E5 to E10, or there is no memory for them.
    Groups(GroupsFault),
    /// The boards that are asked for can't be listed.
    NoListing(ListFault),
    /// There is no memory for the parser of the arguments, as its error says.
    Memory(Error),
    /// The parser's matches lack a subcommand, or a value that an option may have. No parse by the
    /// program gives such matches.
    NoMatch,
}

impl NoRequest {
    /// The status that the program ends by: 2 for the arguments, the texts of the goal, of the
    /// costs and of the groups among them; 4 where memory was refused.
    pub fn status(&self) -> u8
        ensures { result ≡ refusal_status self.now }
    {
        match self {
            NoRequest::Usage(_) | NoRequest::Goal(_) | NoRequest::Costs(_) => 2,
            NoRequest::Groups(GroupsFault::Memory(_)) => 4,
            NoRequest::Groups(_) | NoRequest::NoListing(_) => 2,
            NoRequest::Memory(_) => 4,
            NoRequest::NoMatch => 4,
        }
    }

    /// What is written of it to standard error: the text of usage, or a line with a code.
    pub fn message(&self) -> &str
        ensures { result.now ≡ refusal_message self.now }
    {
        match self {
            NoRequest::Usage(text) => text.as_str(),
            NoRequest::Goal(fault) => goal_line(*fault),
            NoRequest::Costs(fault) => costs_line(*fault),
            NoRequest::Groups(fault) => groups_line(*fault),
            NoRequest::NoListing(fault) => boards_line(*fault),
            NoRequest::Memory(_) | NoRequest::NoMatch => "tilesolve: memory\n",
        }
    }
}

// The line of boards that can't be listed.
fn boards_line(fault: ListFault) -> &'static str
    ensures { result.now ≡ list_line fault }
{
    match fault {
        ListFault::NotAlone => "error: --all cannot be used with --count or --moves\n",
        ListFault::TooManyCells => "error: --all needs a shape of at most 9 cells\n",
    }
}

// The line of a goal's fault.
fn goal_line(fault: TilesFault) -> &'static str
    ensures { result.now ≡ coded_line (tiles_code fault) }
{
    match fault {
        TilesFault::WrongCount => "tilesolve: E2\n",
        TilesFault::TileOutOfRange(_) => "tilesolve: E3\n",
        TilesFault::TileRepeated(_) => "tilesolve: E4\n",
    }
}

// The line of a fault of costs.
fn costs_line(fault: WeightsFault) -> &'static str
    ensures { result.now ≡ coded_line (weights_code fault) }
{
    match fault {
        WeightsFault::WrongCount => "tilesolve: E13\n",
        WeightsFault::WeightOutOfRange(_) => "tilesolve: E14\n",
    }
}

// The line of a fault of groups.
fn groups_line(fault: GroupsFault) -> &'static str
    ensures { result.now ≡ coded_line (groups_code fault) }
{
    match fault {
        GroupsFault::NoGroup(fault) => group_line(fault),
        GroupsFault::NoPartition(fault) => partition_line(fault),
        GroupsFault::Memory(_) => "tilesolve: memory\n",
    }
}

// The line of a group's fault.
fn group_line(fault: GroupFault) -> &'static str
    ensures { result.now ≡ coded_line (group_code fault) }
{
    match fault {
        GroupFault::Empty => "tilesolve: E5\n",
        GroupFault::NotATile => "tilesolve: E6\n",
        GroupFault::Repeated => "tilesolve: E7\n",
        GroupFault::TooManyViews => "tilesolve: E8\n",
    }
}

// The line of a fault of groups that are no partition.
fn partition_line(fault: PartitionFault) -> &'static str
    ensures { result.now ≡ coded_line (partition_code fault) }
{
    match fault {
        PartitionFault::SharedTile => "tilesolve: E9\n",
        PartitionFault::TooManyGroups => "tilesolve: E10\n",
    }
}
