//! Makes small calls that take memory, and prints for each what it answered: the whole right
//! answer, or no more than it may answer where memory is refused. Each allocation of each call is
//! refused in turn: by `checks/refusals` in the calls of the part `alone`, which start no threads,
//! and by `checks/refusals --threads` in those of the part `threads`.
//!
//!     bench_refusals                         makes each call once, those of a part under its name
//!     bench_refusals PART                    makes each call of that part once
//!     bench_refusals PART CALL [REQUESTS]    makes that call, after this many requests for memory
//!
//! The requests are small, and the program takes no other memory before a call. The exit status is
//! 1 where an answer is wrong, and 2 for arguments that name no part or no call.
#![tactic(auto)]

mod alone;
mod pairs;
mod threads;

use std::alloc::Global;
use std::env::FillError;
use std::io::{Eprint, Print};
use std::process::ExitCode;
use std::rt::Env;
use std::sync::Wait;
use std::thread::Threads;

static PARTS: [&str; 2] = ["alone", "threads"];

fn main(rt: HostRuntime) -> ExitCode {
    let mut part = [0; 16];
    let mut name = [0; 16];
    let mut requests = [0; 16];
    let Some(part) = read_word(&rt, 1, &mut part) else {
        return ExitCode::from(make_all(&rt));
    };
    let Some(name) = read_word(&rt, 2, &mut name) else {
        return ExitCode::from(make_part(&rt, part));
    };
    if let Some(word) = read_word(&rt, 3, &mut requests) {
        let Ok(requests) = word.parse() else {
            return ExitCode::from(refuse(&rt));
        };
        let _ = is_refused(rt.alloc(), requests);
    }
    ExitCode::from(make_call(&rt, part, name))
}

// The word at a place, or None where there is none. It is copied to a buffer, so that it takes no
// memory; one that is too long, or no text, is read as an empty word.
fn read_word<'a>(rt: &impl Env, place: usize, buffer: &'a mut [u8]) -> Option<&'a str> {
    match rt.arg(place, buffer) {
        Ok(length) => Some(std::str::from_utf8(&buffer[..length]).unwrap_or("")),
        Err(FillError::NotPresent) => None,
        Err(FillError::TooLong) => Some(""),
    }
}

// Makes each call of each part, and answers the exit status.
fn make_all<R: Threads + Wait + Print + Eprint + AllocGlobal + Sync>(rt: &R) -> u8 {
    let mut status = 0;
    for part in &PARTS {
        let _ = println!(rt; "== {part}");
        status = status.max(make_part(rt, part));
    }
    status
}

// Makes each call of a part, and answers the exit status.
fn make_part<R: Threads + Wait + Print + Eprint + AllocGlobal + Sync>(rt: &R, part: &str) -> u8 {
    match part {
        "alone" => alone::make_all(rt),
        "threads" => threads::make_all(rt),
        _ => refuse(rt),
    }
}

// Makes one call of a part, and answers the exit status.
fn make_call<R: Threads + Wait + Print + Eprint + AllocGlobal + Sync>(
    rt: &R,
    part: &str,
    name: &str,
) -> u8 {
    let status = match part {
        "alone" => alone::make(rt, name),
        "threads" => threads::make(rt, name),
        _ => None,
    };
    match status {
        Some(status) => status,
        None => refuse(rt),
    }
}

// Says which arguments the program takes, and answers the exit status for others.
fn refuse(rt: &impl Eprint) -> u8 {
    let _ = rt.eprintln(
        "usage: bench_refusals [PART [CALL [REQUESTS]]], where the parts and their calls are those \
         that it names without arguments",
    );
    2
}

/// Whether memory is refused in a row of small requests.
pub fn is_refused(alloc: Global, requests: u32) -> bool {
    for _ in 0..requests {
        if Vec::<u8>::with_capacity(alloc, 1).is_err() {
            return true;
        }
    }
    false
}
