//! What the scripts of `bench/` time, and what `checks/stress` repeats: parts of a search, and
//! whole searches.
//!
//!     bench_searches                            a small run of each part, under its name
//!     bench_searches PART                       the small run of that part
//!
//!     bench_searches step SIDE STEPS            steps of a board
//!     bench_searches rank SIDE TILES RANKS      ranks of views of a group of the first tiles
//!     bench_searches table ROWS COLS COUNT..    tables: the first group has the first tiles, and
//!                                               each takes the next
//!     bench_searches weighed WEIGHTS GOAL ROWS COLS COUNT..
//!                                               the same for other weights and goals: 0 for the
//!                                               usual ones, 1 for face cost, else what they are
//!                                               drawn by
//!     bench_searches folded ..                  the same, folded
//!     bench_searches group WEIGHTS GOAL ROWS COLS TILE..
//!                                               the table of the group with these tiles
//!     bench_searches group-folded ..            the same, folded
//!     bench_searches built .., built-folded ..
//!                                               tables that are built and not read
//!     bench_searches sums SIDE BOARDS ROUNDS COUNT..
//!                                               what the moves from random boards offer at face
//!                                               cost, with tables of groups as above
//!     bench_searches containers COUNT           a search until this many boards are known
//!
//!     bench_searches expand COUNT               a search by one worker: expands this many boards
//!                                               of 4 by 4, with tables of the tiles 1 to 5, 6 to
//!                                               10 and 11 to 15
//!     bench_searches finish START               a world of one worker and its outcome, on 4 by 4:
//!                                               `plain` without tables, `guided` with tables of
//!                                               three tiles
//!     bench_searches batch ROWS COLS [WORKERS [SPREAD [TABLES [uncounted]]]]
//!                                               the lines on standard input, answered for boards
//!                                               of this shape with Korf's goal and unit costs, by
//!                                               the count of workers (1), over which they are
//!                                               spread by `zobrist`, `blank` or `abstract`;
//!                                               with whole tables or, where TABLES is `fold`,
//!                                               folded ones
//!     bench_searches threads SEED COUNT         this many boards, drawn by this seed, by workers
//!                                               in threads
//!
//! The small runs expand 1,000 boards with tables of three tiles, search on 3 by 3, answer lines
//! for boards of 3 by 3, and solve six boards. The exit status is 2 for other words, and 1, 3 or 4
//! where a run fails.
#![tactic(auto)]

mod batch;
mod expand;
mod finish;
mod kernels;
mod threads;

use std::env;
use std::io::{Eprint, Print};
use std::process::ExitCode;
use std::rt::{Env, Stdin, Stdout};
use std::sync::Wait;
use std::thread::Threads;

// The parts, in the order in which they are run.
static PARTS: [&str; 11] = [
    "step",
    "rank",
    "table",
    "weighed",
    "folded",
    "sums",
    "containers",
    "expand",
    "finish",
    "batch",
    "threads",
];

fn main(rt: HostRuntime) -> ExitCode {
    match read_words(&rt) {
        Some(words) => ExitCode::from(run_words(&rt, &words, rt.stdin(), rt.stdout())),
        None => ExitCode::from(refuse(&rt)),
    }
}

// The words after the program's name, or None where they are no texts, or there is no memory for
// them.
fn read_words(rt: &(impl Env + AllocGlobal)) -> Option<Vec<String>> {
    env::args(rt).ok()?.skip(1).collect(rt.alloc()).ok()
}

// Runs what the arguments name, and returns the exit status.
fn run_words<R>(rt: &R, words: &[String], input: Stdin, output: Stdout) -> u8
where
    R: Threads + Wait + Print + Eprint + AllocGlobal + Sync,
{
    let Some((part, words)) = words.split_first() else {
        return run_all(rt, input, output);
    };
    match run_part(rt, part, words, input, output) {
        2 => refuse(rt),
        status => status,
    }
}

// Makes the small run of each part, and answers the exit status.
fn run_all<R>(rt: &R, input: Stdin, output: Stdout) -> u8
where
    R: Threads + Wait + Print + Eprint + AllocGlobal + Sync,
{
    for part in &PARTS {
        let _ = println!(rt; "== {part}");
        let status = run_part(rt, part, &[], input, output);
        if status != 0 {
            return status;
        }
    }
    0
}

// Runs a part by the arguments after its name, and returns the exit status.
fn run_part<R>(rt: &R, part: &str, words: &[String], input: Stdin, output: Stdout) -> u8
where
    R: Threads + Wait + Print + Eprint + AllocGlobal + Sync,
{
    match part {
        "expand" => expand::run(rt, words),
        "finish" => finish::run(rt, words),
        "batch" => batch::run(rt, words, input, output),
        "threads" => threads::run(rt, words),
        _ => kernels::run(rt, part, words),
    }
}

// Says which words the program takes, and answers the exit status for others.
fn refuse(rt: &impl Eprint) -> u8 {
    let _ = rt.eprintln(
        "usage: bench_searches [step [SIDE STEPS] | rank [SIDE TILES RANKS] \
         | table [ROWS COLS COUNT..] | weighed [WEIGHTS GOAL ROWS COLS COUNT..] \
         | folded [WEIGHTS GOAL ROWS COLS COUNT..] | sums [SIDE BOARDS ROUNDS COUNT..] \
         | containers [COUNT] | expand [COUNT] | finish [plain | guided] \
         | batch [ROWS COLS [WORKERS [SPREAD [TABLES [uncounted]]]]] | threads [SEED COUNT]]",
    );
    2
}
