//! Each form of report, and the line of figures.

use batch_cli::{
    Cause, NoReport, Stats, Want, Why, accepted_report, outcome_report, refused_certificate_report,
    refused_report, stats_text,
};
use board::Move;
use memory::{OutOfMemory, copy_of};
use outcomes::Ending;
use std::alloc::Global;
use std::io::{self, ErrorKind};

/// Prints each form of report, and the line of figures.
pub fn print(rt: &(impl Print + AllocGlobal), refused: OutOfMemory) -> io::Result<()> {
    print_outcomes(rt, refused)?;
    print_refused_lines(rt)?;
    print_certificates(rt)?;
    print_figures(rt)
}

// An outcome whose plans are slices, so that it can be part of a table.
#[derive(Clone, Copy)]
enum Answer {
    Optimal(u32, &'static [Move]),
    Unsolvable(Why),
    Bounded(u32, Option<(u32, &'static [Move])>, Cause),
}

impl Answer {
    fn ending(self, alloc: Global) -> Result<Ending, OutOfMemory> {
        match self {
            Answer::Optimal(cost, moves) => Ok(Ending::Optimal {
                cost,
                plan: copy_of(alloc, moves)?,
            }),
            Answer::Unsolvable(why) => Ok(Ending::Unsolvable { why }),
            Answer::Bounded(bound, None, cause) => Ok(Ending::Bounded {
                bound,
                best: None,
                cause,
            }),
            Answer::Bounded(bound, Some((cost, moves)), cause) => Ok(Ending::Bounded {
                bound,
                best: Some((cost, copy_of(alloc, moves)?)),
                cause,
            }),
        }
    }
}

fn print_outcomes(rt: &(impl Print + AllocGlobal), refused: OutOfMemory) -> io::Result<()> {
    rt.println("# Reports of outcomes")?;
    for (id, answer) in [
        ("1", Answer::Optimal(2, &[Move::L, Move::L])),
        ("", Answer::Optimal(0, &[])),
        ("2", Answer::Unsolvable(Why::Parity)),
        ("2", Answer::Unsolvable(Why::Exhausted)),
        ("3", Answer::Bounded(21, None, Cause::Limit)),
        (
            "3",
            Answer::Bounded(21, None, Cause::Memory(Want::Refused(refused))),
        ),
        ("3", Answer::Bounded(21, None, Cause::Start)),
        ("3", Answer::Bounded(21, None, Cause::Cost)),
        ("3", Answer::Bounded(21, None, Cause::Cut)),
        (
            "4",
            Answer::Bounded(
                1048574,
                Some((1048575, &[Move::U, Move::L, Move::R, Move::D])),
                Cause::Limit,
            ),
        ),
        ("a\"b\\/\u{1}\t\né", Answer::Unsolvable(Why::Parity)),
    ] {
        let Ok(ending) = answer.ending(rt.alloc()) else {
            return Err(ErrorKind::OutOfMemory.into());
        };
        print_report(rt, outcome_report(rt.alloc(), id, &ending))?;
    }
    Ok(())
}

fn print_refused_lines(rt: &(impl Print + AllocGlobal)) -> io::Result<()> {
    rt.println("\n# Reports of refused lines")?;
    for (code, line) in [("E2", 4), ("V3", 1), ("E12", u64::MAX)] {
        print_report(rt, refused_report(rt.alloc(), code, line))?;
    }
    Ok(())
}

fn print_certificates(rt: &(impl Print + AllocGlobal)) -> io::Result<()> {
    rt.println("\n# Reports of certificates")?;
    for cost in [1, 0, 1048575] {
        print_report(rt, accepted_report(rt.alloc(), cost))?;
    }
    for code in ["C5", "F2"] {
        print_report(rt, refused_certificate_report(rt.alloc(), code))?;
    }
    Ok(())
}

fn print_figures(rt: &(impl Print + AllocGlobal)) -> io::Result<()> {
    rt.println("\n# Figures of searches")?;
    let stats = Stats {
        expanded: 109,
        known: u64::MAX,
        microseconds: 8_000_007,
        start_sum: 29,
    };
    match stats_text(rt.alloc(), "a\"b", &stats) {
        Ok(text) => rt.println(text),
        Err(_) => Err(ErrorKind::OutOfMemory.into()),
    }
}

// Prints a report, which ends its own line.
fn print_report(rt: &impl Print, report: Result<String, NoReport>) -> io::Result<()> {
    match report {
        Ok(report) => rt.print(report),
        Err(_) => Err(ErrorKind::OutOfMemory.into()),
    }
}
