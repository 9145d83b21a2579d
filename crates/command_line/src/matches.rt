//! What the parser's matches ask for.

ghost use Rattle.std.specs.Prelude.{◌≡◌, ◌↔◌, IsTrue, IfOk, IfErr, IfSome, Some, codes, option_map};
ghost use Rattle.clap.specs.Words.{first_of, found_of, rows_of, subcommand_rows_of};
ghost use Rattle.command_line.specs.Requests.{AsksRun, RunFails, AreOptions, OptionsFail};
ghost use Rattle.command_line.specs.Requests.{ListingFails, StyleFails};
ghost use Rattle.command_line.specs.Requests.{IsGoalSaid, IsGoalFault, AreCostsSaid, IsCostsFault};
ghost use Rattle.command_line.specs.Requests.{AreGroupsSaid, IsGroupsFault};

use crate::faults::NoRequest;
use crate::listings::listing_in;
use crate::requests::{Options, Request};
use crate::values::{Values, is_set, style_in, values_in};
use batch_lines::{GroupsFault, default_groups, read_costs, read_goal, read_groups};
use board::{Board, Shape, TilesFault, Weights, WeightsFault};
use clap::ArgMatches;
use pattern_index::Partition;
use std::alloc::Global;

// What the subcommand asks for.
pub(crate) fn run_in(alloc: Global, matches: &ArgMatches<'_>) -> Result<Request, NoRequest>
    ensures request { IfOk result (AsksRun (subcommand_rows_of matches.now)) }
    ensures refusal { IfErr result (RunFails (subcommand_rows_of matches.now)) }
{
    if let Some(below) = matches.subcommand_matches("solve") {
        return solve_in(alloc, below);
    }
    if let Some(below) = matches.subcommand_matches("replay") {
        return match options_in(alloc, below) {
            Ok(options) => Ok(Request::Replay(options)),
            Err(refusal) => Err(refusal),
        };
    }
    if let Some(below) = matches.subcommand_matches("show") {
        return drawing_in(below);
    }
    if let Some(below) = matches.subcommand_matches("boards") {
        return boards_in(below);
    }
    if matches.subcommand_matches("check").is_some() {
        return Ok(Request::Check);
    }
    if matches.subcommand_matches("upgrade").is_some() {
        return Ok(Request::Upgrade);
    }
    Err(NoRequest::NoMatch)
}

// What the options of `show` ask for.
fn drawing_in(matches: &ArgMatches<'_>) -> Result<Request, NoRequest>
    ensures request { IfOk result
        (λ r. AsksRun (Some (codes "show", rows_of (found_of matches.now))) r) }
    ensures refusal { IfErr result (StyleFails (rows_of (found_of matches.now))) }
{
    match style_in(matches) {
        Some(style) => Ok(Request::Draw(style)),
        None => Err(NoRequest::NoMatch),
    }
}

// What the options of `boards` ask for.
fn boards_in(matches: &ArgMatches<'_>) -> Result<Request, NoRequest>
    ensures request { IfOk result
        (λ r. AsksRun (Some (codes "boards", rows_of (found_of matches.now))) r) }
    ensures refusal { IfErr result (ListingFails (rows_of (found_of matches.now))) }
{
    match listing_in(matches) {
        Ok(listing) => Ok(Request::Boards(listing)),
        Err(refusal) => Err(refusal),
    }
}

// What the options of `solve` ask for.
fn solve_in(alloc: Global, matches: &ArgMatches<'_>) -> Result<Request, NoRequest>
    ensures request { IfOk result
        (λ r. AsksRun (Some (codes "solve", rows_of (found_of matches.now))) r) }
    ensures refusal { IfErr result (OptionsFail (rows_of (found_of matches.now))) }
{
    let options = match options_in(alloc, matches) {
        Ok(options) => options,
        Err(refusal) => return Err(refusal),
    };
    if is_set(matches, "cert") {
        return Ok(Request::Certify(options));
    }
    Ok(Request::Solve(options))
}

// What the values of the options say. The goal's text is judged first, then that of the costs, then
// that of the groups.
fn options_in(alloc: Global, matches: &ArgMatches<'_>) -> Result<Options, NoRequest>
    ensures options { IfOk result (AreOptions (rows_of (found_of matches.now))) }
    ensures refusal { IfErr result (OptionsFail (rows_of (found_of matches.now))) }
{
    let Some(values) = values_in(matches) else {
        return Err(NoRequest::NoMatch);
    };
    let goal = match goal_said(values.shape, values.goal) {
        Ok(goal) => goal,
        Err(fault) => return Err(NoRequest::Goal(fault)),
    };
    let costs = match costs_said(values.shape, values.costs) {
        Ok(costs) => costs,
        Err(fault) => return Err(NoRequest::Costs(fault)),
    };
    let groups = match groups_said(alloc, values.shape, values.groups) {
        Ok(groups) => groups,
        Err(fault) => return Err(NoRequest::Groups(fault)),
    };
    Ok(Options {
        goal,
        costs,
        groups,
        fold: values.fold,
        workers: values.workers,
        spread: values.spread,
        limit: values.limit,
        progress: values.progress,
        stats: values.stats,
    })
}

// The goal that a text says, and where there is no text Korf's.
pub(crate) fn goal_said(shape: Shape, text: Option<&str>) -> Result<Board, TilesFault>
    ensures goal { IfOk result (IsGoalSaid shape (option_map (λ t. t.now) text.entry)) }
    ensures sides { IfOk result (λ goal. goal.grid ≡ shape) }
    ensures fault { IfErr result (IsGoalFault shape (option_map (λ t. t.now) text.entry)) }
{
    match text {
        Some(text) => read_goal(shape, text),
        None => Ok(Board::goal(shape)),
    }
}

// The costs that a text says, and where there is no text unit cost.
fn costs_said(shape: Shape, text: Option<&str>) -> Result<Weights, WeightsFault>
    ensures costs { IfOk result (AreCostsSaid shape (option_map (λ t. t.now) text.entry)) }
    ensures fault { IfErr result (IsCostsFault shape (option_map (λ t. t.now) text.entry)) }
{
    match text {
        Some(text) => read_costs(shape, text),
        None => Ok(Weights::unit(shape)),
    }
}

// The groups that a text says, and where there is no text the default groups.
fn groups_said(alloc: Global, shape: Shape, text: Option<&str>) -> Result<Partition, GroupsFault>
    ensures groups { IfOk result (AreGroupsSaid shape (option_map (λ t. t.now) text.entry)) }
    ensures fault { IfErr result (IsGroupsFault shape (option_map (λ t. t.now) text.entry)) }
{
    match text {
        Some(text) => read_groups(alloc, shape, text),
        None => match default_groups(alloc, shape) {
            Ok(groups) => Ok(groups),
            Err(refused) => Err(GroupsFault::Memory(refused)),
        },
    }
}
