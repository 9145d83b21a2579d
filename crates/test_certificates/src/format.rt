//! Certificates by their fields and by their bytes.

use crate::groups::{certificate_of, partition_of};
use crate::vectors::{
    BOUND_OF_0, BOUND_OF_1, FOUR_LETTERS, GOAL, GREATEST, ONE_MOVE, ONE_MOVE_TWO, WITH_GROUPS,
    WITH_WEIGHTS,
};
use board::Move::{D, L, R, U};
use board::{Board, GREATEST_COST, Move, Shape, Weights};
use byte_streams::{ByteSink, ByteSource};
use certificate::{Certificate, Claim, GREATEST_BOUND, Parts, Version, read, write};
use std::alloc::Global;
use std::process::Abort;

// What moves cost.
enum Costs {
    Unit,
    Face,
    List(&'static [u8]),
}

// A certificate, to Korf's goal, by its fields and by its bytes.
struct Example {
    version: Version,
    sides: (u8, u8),
    costs: Costs,
    groups: &'static [&'static [u8]],
    start: &'static [u8],
    cost: u32,
    // None where the cost is a bound.
    plan: Option<&'static [Move]>,
    rows: &'static [(&'static [u8], u32)],
    bytes: &'static [u8],
}

fn weights_of(rt: &impl Abort, shape: Shape, costs: &Costs) -> Weights {
    match costs {
        Costs::Unit => Weights::unit(shape),
        Costs::Face => Weights::face(shape),
        Costs::List(weights) => Weights::list(shape, weights).expect(rt, "weights"),
    }
}

fn claim_of(rt: &(impl Abort + AllocGlobal), example: &Example) -> Claim {
    let Some(plan) = example.plan else {
        return Claim::Bound {
            bound: example.cost,
        };
    };
    Claim::Least {
        cost: example.cost,
        plan: Vec::from_slice(rt.alloc(), plan).expect(rt, "memory"),
    }
}

fn rows_of(
    rt: &(impl Abort + AllocGlobal),
    shape: Shape,
    rows: &[(&[u8], u32)],
) -> Vec<(Board, u32)> {
    let mut boards = Vec::new(rt.alloc());
    for (tiles, cost) in rows {
        let board = Board::from_tiles(shape, tiles).expect(rt, "a board");
        boards.push((board, *cost)).expect(rt, "memory");
    }
    boards
}

// The fields of an example.
fn parts_of(rt: &(impl Abort + AllocGlobal), example: &Example) -> Parts {
    let shape = Shape::new(example.sides.0, example.sides.1).expect(rt, "a shape");
    Parts {
        version: example.version,
        shape,
        costs: weights_of(rt, shape, &example.costs),
        groups: partition_of(rt, shape, example.groups),
        start: Board::from_tiles(shape, example.start).expect(rt, "a board"),
        goal: Board::goal(shape),
        claim: claim_of(rt, example),
        rows: rows_of(rt, shape, example.rows),
    }
}

// The moves that are claimed.
fn moves_of(claim: &Claim) -> Option<&[Move]> {
    match claim {
        Claim::Least { plan, .. } => Some(plan.as_slice()),
        Claim::Bound { .. } => None,
    }
}

// Whether a certificate has these fields.
fn has_fields(certificate: &Certificate, parts: &Parts) -> bool {
    certificate.version() == parts.version
        && certificate.shape() == parts.shape
        && certificate.costs() == parts.costs
        && certificate.groups().groups() == parts.groups.groups()
        && certificate.start() == parts.start
        && certificate.goal() == parts.goal
        && certificate.cost() == parts.claim.cost()
        && moves_of(certificate.claim()) == moves_of(&parts.claim)
        && certificate.rows() == parts.rows.as_slice()
}

// Whether these bytes are written for a certificate.
fn is_written(alloc: Global, certificate: &Certificate, bytes: &[u8]) -> bool {
    let mut sink = ByteSink::new(Vec::new(alloc));
    let answer = write(&mut sink, certificate);
    answer.is_ok() && sink.into_inner().as_slice() == bytes
}

// Whether the fields of a certificate are read from these bytes.
fn is_read(alloc: Global, certificate: &Certificate, bytes: &[u8]) -> bool {
    match read(alloc, &mut ByteSource::new(bytes)) {
        Ok(back) => has_fields(certificate, &back.into_parts()),
        Err(_) => false,
    }
}

static EXAMPLES: [Example; 9] = [
    Example {
        version: Version::One,
        sides: (2, 2),
        costs: Costs::Unit,
        groups: &[],
        start: &[0, 1, 2, 3],
        cost: 0,
        plan: Some(&[]),
        rows: &[],
        bytes: &GOAL,
    },
    Example {
        version: Version::One,
        sides: (2, 2),
        costs: Costs::Unit,
        groups: &[],
        start: &[1, 0, 2, 3],
        cost: 1,
        plan: Some(&[L]),
        rows: &[(&[1, 0, 2, 3], 0)],
        bytes: &ONE_MOVE,
    },
    Example {
        version: Version::One,
        sides: (2, 2),
        costs: Costs::Unit,
        groups: &[&[1], &[3]],
        start: &[1, 3, 0, 2],
        cost: 3,
        plan: Some(&[R, U, L]),
        rows: &[(&[1, 3, 0, 2], 0)],
        bytes: &WITH_GROUPS,
    },
    Example {
        version: Version::One,
        sides: (2, 2),
        costs: Costs::List(&[5, 1, 1]),
        groups: &[],
        start: &[1, 0, 2, 3],
        cost: 5,
        plan: Some(&[L]),
        rows: &[(&[1, 0, 2, 3], 0), (&[1, 3, 0, 2], 2), (&[1, 3, 2, 0], 1)],
        bytes: &WITH_WEIGHTS,
    },
    Example {
        version: Version::One,
        sides: (3, 2),
        costs: Costs::Face,
        groups: &[],
        start: &[1, 2, 0, 3, 4, 5],
        cost: 0x03_0201,
        plan: Some(&[U, L, R, D]),
        rows: &[
            (&[0, 1, 2, 3, 4, 5], 0x0102),
            (&[1, 2, 0, 3, 4, 5], GREATEST_COST),
        ],
        bytes: &FOUR_LETTERS,
    },
    Example {
        version: Version::Two,
        sides: (2, 2),
        costs: Costs::Unit,
        groups: &[],
        start: &[1, 0, 2, 3],
        cost: 1,
        plan: Some(&[L]),
        rows: &[(&[1, 0, 2, 3], 0)],
        bytes: &ONE_MOVE_TWO,
    },
    Example {
        version: Version::Two,
        sides: (2, 2),
        costs: Costs::Unit,
        groups: &[],
        start: &[1, 0, 2, 3],
        cost: 1,
        plan: None,
        rows: &[(&[1, 0, 2, 3], 0)],
        bytes: &BOUND_OF_1,
    },
    Example {
        version: Version::Two,
        sides: (2, 2),
        costs: Costs::Unit,
        groups: &[],
        start: &[1, 0, 2, 3],
        cost: 0,
        plan: None,
        rows: &[],
        bytes: &BOUND_OF_0,
    },
    Example {
        version: Version::Two,
        sides: (2, 2),
        costs: Costs::Unit,
        groups: &[],
        start: &[1, 0, 2, 3],
        cost: GREATEST_BOUND,
        plan: None,
        rows: &[],
        bytes: &GREATEST,
    },
];

// The certificate of an example.
fn made_of(rt: &(impl Abort + AllocGlobal), example: &Example) -> Certificate {
    Certificate::new(parts_of(rt, example)).expect(rt, "they have a spelling")
}

// Whether the certificate of an example is written as its bytes and read from them.
fn is_written_and_read(rt: &(impl Abort + AllocGlobal), example: &Example) -> bool {
    let certificate = made_of(rt, example);
    is_written(rt.alloc(), &certificate, example.bytes)
        && is_read(rt.alloc(), &certificate, example.bytes)
}

#[test]
fn written_and_read(rt: HostRuntime) {
    for (row, example) in EXAMPLES.iter().enumerate() {
        assert!(rt; is_written_and_read(&rt, example), "row {row}");
    }
}

// Bytes, and those of their certificate in version 2.
static UPGRADES: [(&[u8], &[u8]); 3] = [
    (&ONE_MOVE, &ONE_MOVE_TWO),
    (&ONE_MOVE_TWO, &ONE_MOVE_TWO),
    (&BOUND_OF_1, &BOUND_OF_1),
];

#[test]
fn upgraded_once(rt: HostRuntime) {
    for (row, (bytes, upgraded)) in UPGRADES.iter().enumerate() {
        let certificate = certificate_of(&rt, bytes).upgrade();
        assert!(rt; is_written(rt.alloc(), &certificate, upgraded), "row {row}");
    }
}
