//! What rows of arguments ask for.
//!
//! A row is a line of the input that begins with no `#` and has no tab: the program's arguments, with
//! a space between two. What is printed is the row behind `$ tilesolve`, and then what is asked for:
//! the subcommand and what its options say, or the text that is asked for, behind `> `. Where nothing
//! is asked for, it is the status, and what goes to standard error behind `! `.

use batch_runs::SpreadKind;
use board::{Board, Weights};
use command_line::{Listing, NoRequest, Options, Request, read_words};
use pattern_index::Partition;
use std::alloc::Global;
use std::io::{self, Print};

/// Prints for each row of an input what its words ask for.
pub fn print_rows(rt: &(impl Print + AllocGlobal), table: &str) -> io::Result<()> {
    for row in table.lines() {
        if !row.starts_with('#') && !row.contains('\t') {
            print_row(rt, row)?;
        }
    }
    Ok(())
}

// Prints a row, and what its words ask for.
fn print_row(rt: &(impl Print + AllocGlobal), row: &str) -> io::Result<()> {
    let words = words_of(rt.alloc(), row)?;
    rt.print("$ tilesolve")?;
    for word in words.as_slice() {
        print!(rt; " {word}")?;
    }
    rt.println("")?;
    match read_words(rt.alloc(), words.as_slice()) {
        Ok(request) => print_request(rt, &request)?,
        Err(refusal) => print_refusal(rt, &refusal)?,
    }
    rt.println("")
}

/// The words of a text with a space between two, or none where it is empty.
pub fn words_of(alloc: Global, text: &str) -> io::Result<Vec<String>> {
    if text.is_empty() {
        return Ok(Vec::new(alloc));
    }
    let words = text
        .split(' ')
        .map(|word| word.to_string(alloc))
        .try_collect(alloc)?;
    Ok(words)
}

// Prints what is asked for.
fn print_request(rt: &impl Print, request: &Request) -> io::Result<()> {
    match request {
        Request::Solve(options) => print_options(rt, "solve", options),
        Request::Certify(options) => print_options(rt, "certify", options),
        Request::Check => rt.println("check"),
        Request::Draw(style) => println!(rt; "draw {style:?}"),
        Request::Upgrade => rt.println("upgrade"),
        Request::Replay(options) => print_options(rt, "replay", options),
        Request::Boards(listing) => print_listing(rt, listing),
        Request::Help(text) => print_lines(rt, "> ", text.as_str()),
        Request::Version(text) => print_lines(rt, "> ", text.as_str()),
    }
}

// Prints why nothing is asked for.
fn print_refusal(rt: &impl Print, refusal: &NoRequest) -> io::Result<()> {
    println!(rt; "status {}", refusal.status())?;
    print_lines(rt, "! ", refusal.message())
}

// Prints each line of a text behind a mark.
fn print_lines(rt: &impl Print, mark: &str, text: &str) -> io::Result<()> {
    for line in text.lines() {
        println!(rt; "{mark}{line}")?;
    }
    Ok(())
}

// Prints a subcommand and its options.
fn print_options(rt: &impl Print, name: &str, options: &Options) -> io::Result<()> {
    let shape = options.goal.shape();
    print!(rt; "{name}, {} by {}, goal", shape.rows(), shape.cols())?;
    print_goal(rt, &options.goal)?;
    print_costs(rt, &options.costs)?;
    rt.print(", groups")?;
    print_groups(rt, &options.groups)?;
    let folded = if options.fold { ", folded" } else { "" };
    let spread = match options.spread {
        SpreadKind::Zobrist => "zobrist",
        SpreadKind::Blank => "blank",
        SpreadKind::Abstract => "abstract",
    };
    let progress = if options.progress {
        ", with progress"
    } else {
        ""
    };
    let figures = if options.stats { ", with figures" } else { "" };
    println!(rt;
        "{folded}, workers {}, spread {spread}, limit {}{progress}{figures}",
        options.workers, options.limit
    )
}

// Prints which boards are listed.
fn print_listing(rt: &impl Print, listing: &Listing) -> io::Result<()> {
    let shape = listing.goal.shape();
    print!(rt; "boards, {} by {}, goal", shape.rows(), shape.cols())?;
    print_goal(rt, &listing.goal)?;
    println!(rt; ", {:?}", listing.choice)
}

// Prints the tiles of a goal.
fn print_goal(rt: &impl Print, goal: &Board) -> io::Result<()> {
    for cell in 0..goal.shape().cells() {
        print!(rt; " {}", goal.tile(cell))?;
    }
    Ok(())
}

// Prints what a move costs: its name, or the weights of tiles 1, 2, .. in order.
fn print_costs(rt: &impl Print, costs: &Weights) -> io::Result<()> {
    let shape = costs.shape();
    if *costs == Weights::unit(shape) {
        return rt.print(", unit cost");
    }
    if *costs == Weights::face(shape) {
        return rt.print(", face cost");
    }
    print!(rt; ", weights {:?}", costs.listed())
}

// Prints the tiles of each group.
fn print_groups(rt: &impl Print, groups: &Partition) -> io::Result<()> {
    for group in groups.groups() {
        print!(rt; " {:?}", group.tiles())?;
    }
    Ok(())
}
