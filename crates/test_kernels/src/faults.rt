//! The fault of each call, carried to the sum of all of them by `?`.

ghost use Rattle.std.specs.Prelude.{◌≡◌, All};

use crate::fixtures::{groups_of, shape_of};
use board::Shape;
use database_build::Table;
use lower_bound::{Bound, PatternFault};
use pattern_index::{Group, Partition};
use std::process::Abort;

// What is asked for, and the code of the first fault. Asked for are:
//
// - a group of these numbers;
// - a partition of these groups, and its bound without any table;
// - a table of tile 1 with this many values.
struct Asked {
    side: u8,
    numbers: &'static [u8],
    groups: &'static [&'static [u8]],
    values: usize,
    code: &'static str,
}

// One group more than a partition may have.
const TOO_MANY: [&[u8]; 25] = [&[1]; 25];

static ASKED: [Asked; 11] = [
    Asked {
        side: 4,
        numbers: &[],
        groups: &[],
        values: 240,
        code: "E5",
    },
    Asked {
        side: 4,
        numbers: &[1, 16],
        groups: &[],
        values: 240,
        code: "E6",
    },
    Asked {
        side: 3,
        numbers: &[0],
        groups: &[],
        values: 72,
        code: "E6",
    },
    Asked {
        side: 4,
        numbers: &[1, 1],
        groups: &[],
        values: 240,
        code: "E7",
    },
    Asked {
        side: 4,
        numbers: &[1, 2, 3, 4, 5, 6, 7],
        groups: &[],
        values: 240,
        code: "E8",
    },
    Asked {
        side: 5,
        numbers: &[1, 2, 3, 4, 5, 6],
        groups: &[],
        values: 600,
        code: "E8",
    },
    Asked {
        side: 4,
        numbers: &[1],
        groups: &[&[1], &[1]],
        values: 240,
        code: "E9",
    },
    Asked {
        side: 3,
        numbers: &[1],
        groups: &[&[1, 2], &[2, 3]],
        values: 72,
        code: "E9",
    },
    Asked {
        side: 4,
        numbers: &[1],
        groups: &TOO_MANY,
        values: 240,
        code: "E10",
    },
    // A bound without its table.
    Asked {
        side: 4,
        numbers: &[1],
        groups: &[&[1]],
        values: 240,
        code: "E11",
    },
    // A table that lacks a value.
    Asked {
        side: 4,
        numbers: &[1],
        groups: &[],
        values: 239,
        code: "E11",
    },
];

// This many zeros.
fn zeros(rt: &(impl Abort + AllocGlobal), count: usize) -> Vec<u16> {
    let mut values = Vec::new(rt.alloc());
    for _ in 0..count {
        values.push(0).expect(rt, "memory");
    }
    values
}

fn make_bound(shape: Shape, groups: Vec<Group>, tables: Vec<Table>) -> Result<(), PatternFault>
    requires { All (λ g. g.grid ≡ shape) groups.items }
{
    let partition = Partition::new(shape, groups)?;
    let _ = Bound::new(partition, tables)?;
    Ok(())
}

fn make_table(shape: Shape, values: Vec<u16>) -> Result<(), PatternFault> {
    let one = Group::new(shape, &[1])?;
    let _ = Table::from_values(&one, values)?;
    Ok(())
}

// Makes a group, a partition, a bound without any table, and a table of tile 1.
fn make_all(rt: &(impl Abort + AllocGlobal), asked: &Asked) -> Result<(), PatternFault> {
    let shape = shape_of(rt, asked.side, asked.side);
    let _ = Group::new(shape, asked.numbers)?;
    let groups = groups_of(rt, shape, asked.groups);
    make_bound(shape, groups, Vec::new(rt.alloc()))?;
    make_table(shape, zeros(rt, asked.values))
}

#[test]
fn each_fault_in_the_sum(rt: HostRuntime) {
    for asked in &ASKED {
        let fault = make_all(&rt, asked).expect_err(&rt, "a fault is passed over");
        assert!(rt; fault.code() == asked.code);
    }
}
