//! Calls that start no threads.

mod containers;
mod databases;
mod runs;
mod searches;
mod workers;
mod worlds;

use crate::{is_refused, pairs};
pub use runs::{End, page, report};
use std::io::{Eprint, Print};
use std::sync::Wait;
use std::thread::Threads;

// The names of all calls.
static CALLS: [&str; 32] = [
    "partition",
    "table",
    "fold",
    "fold-bound",
    "fold-setup",
    "folded",
    "unit-2x2",
    "face-2x2",
    "unit-2x3",
    "face-2x3",
    "with-tables",
    "no-plan",
    "read",
    "cut-off",
    "batch",
    "batch-line",
    "lines-alike",
    "lines-harder",
    "lines-easier",
    "write",
    "write-groups",
    "check",
    "check-groups",
    "open",
    "closed",
    "lists",
    "meet",
    "settle",
    "expand",
    "expand-more",
    "world",
    "finish",
];

// Makes the call of this name, or answers None where there is none.
fn call<R: Threads + Wait + AllocGlobal + Sync>(rt: &R, name: &str) -> Option<Answer> {
    databases::call(rt, name)
        .or(searches::call(rt, name))
        .or(runs::call(rt, name))
        .or(containers::call(rt.alloc(), name))
        .or(workers::call(rt.alloc(), name))
        .or(worlds::call(rt.alloc(), name))
        .or(call_pair(rt, name))
}

// Reports the pair of lines of this name, or answers None where there is none.
fn call_pair<R: Threads + Wait + AllocGlobal + Sync>(rt: &R, name: &str) -> Option<Answer> {
    for pair in &pairs::ALONE {
        if pair.name == name {
            return Some(pairs::call(rt, pair));
        }
    }
    None
}

// What is printed of an answer, or why it is wrong. Where memory is refused only after the call,
// the call met no refusal, so that its answer has to be whole.
fn judge(answer: Answer, is_refused_later: bool) -> Result<&'static str, &'static str> {
    match answer {
        Answer::Whole if is_refused_later => Ok("whole, refused later"),
        Answer::Whole => Ok("whole"),
        Answer::Refused | Answer::Lacks(_) if is_refused_later => {
            Err("no memory, though none was refused")
        }
        Answer::Refused => Ok("refused"),
        Answer::Lacks(what) => Ok(what),
        Answer::Wrong(why) => Err(why),
    }
}

/// Makes each call, and answers the exit status.
pub fn make_all<R: Print + Eprint + AllocGlobal + Threads + Wait + Sync>(rt: &R) -> u8 {
    let mut status = 0;
    for name in &CALLS {
        status = status.max(make(rt, name).unwrap_or(2));
    }
    status
}

/// Makes the call of this name, prints what it answered, and answers the exit status; or None where
/// there is no such call.
pub fn make<R: Print + Eprint + AllocGlobal + Threads + Wait + Sync>(
    rt: &R,
    name: &str,
) -> Option<u8> {
    let answer = call(rt, name)?;
    match judge(answer, is_refused(rt.alloc(), 1000)) {
        Ok(text) => {
            let _ = println!(rt; "{name} {text}");
            Some(0)
        }
        Err(text) => {
            let _ = eprintln!(rt; "bench_refusals: {name}: {text}");
            Some(1)
        }
    }
}

/// What a call answered.
#[derive(Clone, Copy)]
pub enum Answer {
    /// The whole right answer.
    Whole,
    /// No more than may be answered where memory is refused.
    Refused,
    /// The same of a pair of lines, and what is lacking.
    Lacks(&'static str),
    /// What may never be answered, and why.
    Wrong(&'static str),
}

/// A whole answer that is right, or is wrong for this reason.
pub fn whole_if(is_right: bool, why: &'static str) -> Answer {
    if is_right {
        Answer::Whole
    } else {
        Answer::Wrong(why)
    }
}

/// An answer that memory was refused, which may be given, or is wrong for this reason.
pub fn refused_if(is_right: bool, why: &'static str) -> Answer {
    if is_right {
        Answer::Refused
    } else {
        Answer::Wrong(why)
    }
}
