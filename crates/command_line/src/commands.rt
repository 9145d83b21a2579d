//! The program's subcommands and their options.

ghost use Rattle.std.specs.Prelude.{◌≡◌, codes, false};
ghost use Rattle.clap.specs.Words.{App, new_app, rule_of};
ghost use Rattle.command_line.specs.Commands.{IsReadAs, MakesCommand, option_rule, side_rule};
ghost use Rattle.command_line.specs.Commands.{text_rule, parsed_rule, flag_rule, count_rule};
ghost use Rattle.command_line.specs.Commands.{number_rule};
ghost use Rattle.command_line.specs.Commands.{sided_app};
ghost use Rattle.command_line.specs.Commands.{stated_app, puzzle_app, solve_app, show_app};
ghost use Rattle.command_line.specs.Commands.{boards_app};
ghost use Rattle.command_line.specs.Commands.{top_app, proving_app, program_app};

use crate::help;
use clap::builder::ValueParser;
use clap::{Arg, ArgAction, Command, Error};
use std::alloc::Global;

// The most moves of a walk to a board, many times more than any board is away from a goal.
const MOST_MOVES: u64 = 1_000_000;

/// `tilesolve` with its subcommands `solve`, `check`, `show`, `upgrade`, `replay` and `boards`.
/// The error is that memory was refused.
pub(crate) fn program<'a>(alloc: Global, spreads: &'a [&'a str]) -> Result<Command<'a>, Error>
    ensures { MakesCommand (program_app spreads.entry) result }
{
    let command = proving(alloc, spreads)?
        .subcommand(replaying(alloc, spreads)?)?
        .subcommand(listing(alloc)?)?;
    Ok(command)
}

// The program with the subcommands that solve, and that read certificates.
fn proving<'a>(alloc: Global, spreads: &'a [&'a str]) -> Result<Command<'a>, Error>
    ensures { MakesCommand (proving_app spreads.entry) result }
{
    let command = top(alloc)?
        .subcommand(solving(alloc, spreads)?)?
        .subcommand(checking(alloc))?
        .subcommand(showing(alloc)?)?
        .subcommand(upgrading(alloc))?;
    Ok(command)
}

// The program without its subcommands.
fn top<'a>(alloc: Global) -> Result<Command<'a>, Error>
    ensures { MakesCommand top_app result }
{
    let command = Command::new(alloc, "tilesolve")
        .bin_name("tilesolve")?
        .version(help::VERSION)
        .override_usage(help::USAGE)
        .no_binary_name(true)
        .subcommand_required(true)
        .disable_help_subcommand(true);
    Ok(with_help(
        command,
        help::PROGRAM,
        help::PROGRAM_LONG,
        help::PROGRAM_AFTER,
    ))
}

// The subcommand `solve`.
fn solving<'a>(alloc: Global, spreads: &'a [&'a str]) -> Result<Command<'a>, Error>
    ensures { MakesCommand (solve_app spreads.entry) result }
{
    let command = puzzle(alloc, "solve", spreads, help::WORKERS, help::LIMIT)?
        .arg(flag(alloc, "cert", help::CERT))?
        .arg(flag(alloc, "progress", help::PROGRESS))?
        .arg(flag(alloc, "stats", help::STATS))?;
    Ok(with_help(command, help::SOLVE, help::SOLVE_LONG, help::SOLVE_AFTER))
}

// The subcommand `check`.
fn checking<'a>(alloc: Global) -> Command<'a>
    ensures { IsReadAs (new_app (codes "check")) result }
{
    let command = Command::new(alloc, "check");
    with_help(command, help::CHECK, help::CHECK_LONG, help::CHECK_AFTER)
}

// The subcommand `show`.
fn showing<'a>(alloc: Global) -> Result<Command<'a>, Error>
    ensures { MakesCommand show_app result }
{
    let command = Command::new(alloc, "show")
        .arg(parsed(
            option(alloc, "width", "N", help::WIDTH),
            ValueParser::Unsigned(20, 1000),
            "80",
        ))?
        .arg(flag(alloc, "svg", help::SVG))?
        .arg(parsed(
            option(alloc, "seconds", "N", help::SECONDS),
            ValueParser::Unsigned(1, 60),
            "1",
        ))?;
    Ok(with_help(command, help::SHOW, help::SHOW_LONG, help::SHOW_AFTER))
}

// The subcommand `upgrade`.
fn upgrading<'a>(alloc: Global) -> Command<'a>
    ensures { IsReadAs (new_app (codes "upgrade")) result }
{
    let command = Command::new(alloc, "upgrade");
    with_help(
        command,
        help::UPGRADE,
        help::UPGRADE_LONG,
        help::UPGRADE_AFTER,
    )
}

// The subcommand `replay`.
fn replaying<'a>(alloc: Global, spreads: &'a [&'a str]) -> Result<Command<'a>, Error>
    ensures { MakesCommand (puzzle_app spreads.entry (codes "replay")) result }
{
    let command = puzzle(
        alloc,
        "replay",
        spreads,
        help::REPLAYED_WORKERS,
        help::REPLAYED_LIMIT,
    )?;
    Ok(with_help(command, help::REPLAY, help::REPLAY_LONG, help::REPLAY_AFTER))
}

// The subcommand `boards`.
fn listing<'a>(alloc: Global) -> Result<Command<'a>, Error>
    ensures { MakesCommand boards_app result }
{
    let command = sided(alloc, "boards")?
        .arg(option(alloc, "goal", "TILES", help::GOAL))?
        .arg(count(alloc, "count", u64::MAX, help::COUNT))?
        .arg(parsed(
            option(alloc, "seed", "N", help::SEED),
            ValueParser::Unsigned(0, u64::MAX),
            "0",
        ))?
        .arg(count(alloc, "moves", MOST_MOVES, help::MOVES))?
        .arg(flag(alloc, "all", help::ALL))?;
    Ok(with_help(command, help::BOARDS, help::BOARDS_LONG, help::BOARDS_AFTER))
}

// A subcommand with the options that say a puzzle and how it is searched. What `--workers` and
// `--limit` mean differs between subcommands, so their texts are given.
fn puzzle<'a>(
    alloc: Global,
    name: &'a str,
    spreads: &'a [&'a str],
    workers: &'a str,
    limit: &'a str,
) -> Result<Command<'a>, Error>
    ensures { MakesCommand (puzzle_app spreads.entry name.entry.now) result }
{
    let command = stated(alloc, name)?
        .arg(parsed(
            option(alloc, "workers", "N", workers),
            ValueParser::Unsigned(1, 16),
            "1",
        ))?
        .arg(parsed(
            option(alloc, "spread", "SPREAD", help::SPREAD),
            ValueParser::Names(spreads),
            "zobrist",
        ))?
        .arg(limiting(alloc, limit))?;
    Ok(command)
}

// The option `--limit`. Its text gives the default as a power: clap would print 20 digits.
fn limiting<'a>(alloc: Global, limit: &'a str) -> Arg<'a>
    ensures rule { rule_of result
        ≡ number_rule (codes "limit") 0 18446744073709551615 (codes "18446744073709551615") }
    ensures local { result.global ≡ false }
{
    let every = parsed(
        option(alloc, "limit", "N", limit),
        ValueParser::Unsigned(0, u64::MAX),
        "18446744073709551615",
    );
    every.hide_default_value(true)
}

// A subcommand with the options that say a puzzle.
fn stated<'a>(alloc: Global, name: &'a str) -> Result<Command<'a>, Error>
    ensures { MakesCommand (stated_app name.entry.now) result }
{
    let command = sided(alloc, name)?
        .arg(text(alloc, "cost", "COST", help::COST, "unit"))?
        .arg(option(alloc, "goal", "TILES", help::GOAL))?
        .arg(option(alloc, "groups", "GROUPS", help::GROUPS))?
        .arg(flag(alloc, "fold", help::FOLD))?;
    Ok(command)
}

// A subcommand with the sides of its boards.
fn sided<'a>(alloc: Global, name: &'a str) -> Result<Command<'a>, Error>
    ensures { MakesCommand (sided_app name.entry.now) result }
{
    let command = Command::new(alloc, name)
        .arg(side(alloc, "rows", help::ROWS))?
        .arg(side(alloc, "cols", help::COLS))?;
    Ok(command)
}

// A command with its texts of help.
fn with_help<'a>(
    command: Command<'a>,
    about: &'a str,
    in_detail: &'a str,
    after: &'a str,
) -> Command<'a>
    ensures { (app : App) → IsReadAs app command.entry → IsReadAs app result }
{
    command.about(about).long_about(in_detail).after_help(after)
}

// An option of one value, any text, which help shows by a name.
fn option<'a>(alloc: Global, name: &'a str, value: &'a str, help: &'a str) -> Arg<'a>
    ensures rule { rule_of result ≡ option_rule name.entry.now }
    ensures local { result.global ≡ false }
{
    Arg::new(alloc, name)
        .long(name)
        .action(ArgAction::Set)
        .value_name(value)
        .help(help)
}

// An option that must be there, of a number from 2 to 5.
fn side<'a>(alloc: Global, name: &'a str, help: &'a str) -> Arg<'a>
    ensures rule { rule_of result ≡ side_rule name.entry.now }
    ensures local { result.global ≡ false }
{
    option(alloc, name, "N", help)
        .required(true)
        .value_parser(ValueParser::unsigned(2, 5))
}

// An option of a number up to another, which may be left out.
fn count<'a>(alloc: Global, name: &'a str, most: u64, help: &'a str) -> Arg<'a>
    ensures rule { rule_of result ≡ count_rule name.entry.now most }
    ensures local { result.global ≡ false }
{
    option(alloc, name, "N", help).value_parser(ValueParser::unsigned(0, most))
}

// An option of any text, with the one that it has where it is left out.
fn text<'a>(alloc: Global, name: &'a str, value: &'a str, help: &'a str, given: &'a str) -> Arg<'a>
    ensures rule { rule_of result ≡ text_rule name.entry.now given.entry.now }
    ensures local { result.global ≡ false }
{
    option(alloc, name, value, help).default_value(given)
}

// An option whose values are parsed so, with the one that it has where it is left out.
fn parsed<'a>(arg: Arg<'a>, parser: ValueParser<'a>, given: &'a str) -> Arg<'a>
    ensures rule { rule_of result ≡ parsed_rule (rule_of arg.entry) parser.entry given.entry.now }
    ensures local { result.global ≡ arg.entry.global }
{
    arg.value_parser(parser).default_value(given)
}

// An option without a value.
fn flag<'a>(alloc: Global, name: &'a str, help: &'a str) -> Arg<'a>
    ensures rule { rule_of result ≡ flag_rule name.entry.now }
    ensures local { result.global ≡ false }
{
    Arg::new(alloc, name)
        .long(name)
        .action(ArgAction::SetTrue)
        .help(help)
}
