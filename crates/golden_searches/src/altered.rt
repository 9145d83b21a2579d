//! Alters one row at a time, at 500 places spread over a certificate, and prints what the checker
//! says of these, by one thread and by several. The certificate is of a board that is as far from
//! the goal as one of 3 by 3 can be, and is made without groups.

use crate::problems::{Costs, certificate_of, problem_at};
use board::Move;
use certificate::{Certificate, Claim, Parts};
use certificate_check::{Refusal, check, check_parallel};
use lower_bound::Bound;
use std::alloc::Global;
use std::io::{self, ErrorKind, Print};
use std::thread::Threads;
use test_worlds::bound_of;

// At how many places a row is altered.
const PLACES: usize = 500;

/// Prints what is said of the certificate itself, and of those whose row's cost is one more or, at
/// every other place, one less.
pub fn print_altered<R: Threads + Print + AllocGlobal + Sync>(rt: &R) -> io::Result<()> {
    match certificate_with_tables(rt.alloc()) {
        Some((certificate, bound)) => print_tallies(rt, &certificate, &bound),
        None => Err(ErrorKind::OutOfMemory.into()),
    }
}

// Prints what is said of a certificate itself, and of those that are altered.
fn print_tallies<R: Threads + Print + AllocGlobal + Sync>(
    rt: &R,
    certificate: &Certificate,
    bound: &Bound,
) -> io::Result<()> {
    println!(rt;
        "rows {}, cost {}",
        certificate.rows().len(),
        certificate.cost()
    )?;
    let mut itself = Tally::new();
    note(rt, certificate, bound, &mut itself);
    itself.print(rt, "itself")?;
    let mut tallies = [Tally::new(), Tally::new()];
    for number in 0..PLACES {
        let place = place_of(number, certificate.rows().len());
        let tally = &mut tallies[number % 2];
        if !note_altered(rt, certificate, bound, place, number % 2 == 0, tally) {
            return Err(ErrorKind::OutOfMemory.into());
        }
    }
    tallies[0].print(rt, "one more")?;
    tallies[1].print(rt, "one less")
}

// The place with this number among those spread over `rows` rows.
fn place_of(number: usize, rows: usize) -> usize {
    (number.wrapping_mul(rows) / PLACES).wrapping_add(number % 7)
}

// Notes what is said of the certificate whose row at a place has one more or one less; whether it
// could be made.
fn note_altered<R: Threads + AllocGlobal + Sync>(
    rt: &R,
    certificate: &Certificate,
    bound: &Bound,
    place: usize,
    more: bool,
    tally: &mut Tally,
) -> bool {
    let Some(row) = certificate.rows().get(place) else {
        return false;
    };
    let cost = if more {
        row.1.saturating_add(1)
    } else {
        row.1.saturating_sub(1)
    };
    let Some(other) = with_row(rt.alloc(), certificate, place, cost) else {
        return false;
    };
    note(rt, &other, bound, tally);
    true
}

// Notes what is said of a certificate by one thread and by several.
fn note<R: Threads + Sync>(rt: &R, certificate: &Certificate, bound: &Bound, tally: &mut Tally) {
    let several = check_parallel(rt, certificate, bound).unwrap();
    tally.note(check(certificate, bound), several);
}

// How many were accepted, how many were refused for an open successor, and by which moves, how many
// for another cause, and for how many several threads said something else than one.
#[derive(Drop)]
struct Tally {
    accepted: u64,
    open: [u64; 4],
    others: u64,
    differing: u64,
    // The places of the open successors, added up: a wrong place would change the sum.
    places: u64,
}

impl Tally {
    // Of no certificate.
    fn new() -> Self {
        Tally {
            accepted: 0,
            open: [0; 4],
            others: 0,
            differing: 0,
            places: 0,
        }
    }

    // One more: what one thread said of it, and what several did.
    fn note(&mut self, said: Result<(), Refusal>, several: Result<(), Refusal>) {
        if said != several {
            self.differing = self.differing.saturating_add(1);
        }
        match said {
            Ok(()) => self.accepted = self.accepted.saturating_add(1),
            Err(Refusal::OpenSuccessor(place, direction)) => self.note_open(place, direction),
            Err(_) => self.others = self.others.saturating_add(1),
        }
    }

    // One more that was refused for an open successor.
    fn note_open(&mut self, place: usize, direction: Move) {
        let count = &mut self.open[direction as usize];
        *count = count.saturating_add(1);
        self.places = self.places.wrapping_add(place as u64);
    }

    // Prints it on one line behind these words.
    fn print<R: Print>(&self, rt: &R, words: &str) -> io::Result<()> {
        print!(rt; "{words}: accepted {}, ", self.accepted)?;
        self.print_open(rt)?;
        println!(rt;
            ", else {}; several threads differ {}",
            self.others, self.differing
        )
    }

    // Prints how many open successors there were, by which moves, and their places.
    fn print_open<R: Print>(&self, rt: &R) -> io::Result<()> {
        let [up, left, right, down] = self.open;
        print!(rt;
            "open by U {up} L {left} R {right} D {down}, places {}",
            self.places
        )
    }
}

// A certificate of the board, with its tables: no groups, and so no tables. None where memory was
// refused.
fn certificate_with_tables(alloc: Global) -> Option<(Certificate, Bound)> {
    let problem = problem_at(Costs::Unit)?;
    let bound = bound_of(alloc, &problem.goal, &problem.weights, &[])?;
    let certificate = certificate_of(alloc, &problem, &bound)?;
    Some((certificate, bound))
}

// The same certificate with another cost in one row. None where memory was refused, or where it
// has no such row.
fn with_row(
    alloc: Global,
    certificate: &Certificate,
    place: usize,
    cost: u32,
) -> Option<Certificate> {
    let mut rows = Vec::from_slice(alloc, certificate.rows()).ok()?;
    rows.get_mut(place)?.1 = cost;
    Certificate::new(Parts {
        version: certificate.version(),
        shape: certificate.shape(),
        costs: certificate.costs(),
        groups: certificate.groups().copy(alloc).ok()?,
        start: certificate.start(),
        goal: certificate.goal(),
        claim: copy_of(alloc, certificate.claim())?,
        rows,
    })
}

// The same claim, or None where memory was refused.
fn copy_of(alloc: Global, claim: &Claim) -> Option<Claim> {
    match claim {
        Claim::Least { cost, plan } => {
            let plan = Vec::from_slice(alloc, plan.as_slice()).ok()?;
            Some(Claim::Least { cost: *cost, plan })
        }
        Claim::Bound { bound } => Some(Claim::Bound { bound: *bound }),
    }
}
