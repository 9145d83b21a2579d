//! Groups in certificates: their faults, in order, and tables that do not fit.

ghost use Rattle.std.specs.Prelude.{◌≡◌};

use crate::vectors::{GOAL, WITH_GROUPS};
use board::{Board, Shape, Weights};
use byte_streams::ByteSource;
use certificate::{Certificate, FormatFault, ReadFault, read};
use certificate_check::{Refusal, check, check_parallel};
use database_build::{Table, build};
use lower_bound::{Bound, TableList};
use pattern_index::{Group, Partition};
use std::alloc::Global;
use std::process::Abort;
use std::thread::Threads;

// The groups of these tiles.
pub(crate) fn partition_of(
    rt: &(impl Abort + AllocGlobal),
    shape: Shape,
    tiles: &[&[u8]],
) -> Partition
    ensures { result.grid ≡ shape }
{
    let mut groups = Vec::new(rt.alloc());
    'groups: for numbers in tiles {
        let group = Group::new(shape, numbers).expect(rt, "a group");
        groups.push(group).expect(rt, "memory");
    }
    Partition::new(shape, groups).expect(rt, "a partition")
}

// Groups with their tables.
fn tables_of(
    rt: &(impl Abort + AllocGlobal),
    partition: Partition,
    goal: &Board,
    weights: &Weights,
) -> Bound
    requires goal { goal.now.grid ≡ partition.grid }
    requires weights { weights.now.grid ≡ partition.grid }
{
    // By this call the groups are known to be of this shape.
    let _ = partition.shape();
    let mut tables = Vec::new(rt.alloc());
    for group in partition.groups() {
        let table = build(rt.alloc(), group, goal, weights).expect(rt, "memory");
        tables.push(table).expect(rt, "memory");
    }
    Bound::new(partition, tables).expect(rt, "a table for each group")
}

// The groups of a certificate with their tables.
pub(crate) fn bound_for(rt: &(impl Abort + AllocGlobal), certificate: &Certificate) -> Bound {
    let shape = certificate.shape();
    let goal = certificate.goal();
    let weights = certificate.costs();
    let partition = certificate.groups().copy(rt.alloc()).expect(rt, "memory");
    assert!(rt; goal.shape() == shape && weights.shape() == shape);
    assert!(rt; partition.shape() == shape);
    tables_of(rt, partition, &goal, &weights)
}

// These groups with their tables, for a goal at unit cost.
fn bound_of(rt: &(impl Abort + AllocGlobal), goal: &Board, groups: &[&[u8]]) -> Bound {
    let shape = goal.shape();
    let partition = partition_of(rt, shape, groups);
    tables_of(rt, partition, goal, &Weights::unit(shape))
}

// A certificate by its bytes.
pub(crate) fn certificate_of(rt: &(impl Abort + AllocGlobal), bytes: &[u8]) -> Certificate {
    read(rt.alloc(), &mut ByteSource::new(bytes)).expect(rt, "a certificate")
}

// Bytes, and why they are no certificate.
static FAULTS: [(&[u8], FormatFault); 15] = [
    // 25 groups, and 24 where none is there.
    (b"TILECRT1\x02\x02\x00\x19", FormatFault::OutOfRange),
    (b"TILECRT1\x02\x02\x00\x18", FormatFault::Truncated),
    // A group of no tiles, and one of 25.
    (b"TILECRT1\x02\x02\x00\x01\x00", FormatFault::OutOfRange),
    (b"TILECRT1\x02\x02\x00\x01\x19", FormatFault::OutOfRange),
    // The tiles of a group are judged together, and after their number.
    (b"TILECRT1\x02\x02\x00\x01\x18\x00", FormatFault::Truncated),
    (b"TILECRT1\x02\x02\x00\x01\x02\x00", FormatFault::Truncated),
    (b"TILECRT1\x02\x02\x00\x01\x01\x00", FormatFault::OutOfRange),
    (b"TILECRT1\x02\x02\x00\x01\x01\x04", FormatFault::OutOfRange),
    // They rise, and none is there twice.
    (
        b"TILECRT1\x02\x02\x00\x01\x02\x02\x01",
        FormatFault::OutOfRange,
    ),
    (
        b"TILECRT1\x02\x02\x00\x01\x02\x01\x01",
        FormatFault::OutOfRange,
    ),
    // Nor in an earlier group.
    (
        b"TILECRT1\x02\x02\x00\x02\x01\x01\x02\x01\x02",
        FormatFault::OutOfRange,
    ),
    (
        b"TILECRT1\x02\x02\x00\x02\x01\x01\x02\x02\x03",
        FormatFault::Truncated,
    ),
    // More views than a group may have, and just as many.
    (
        b"TILECRT1\x05\x05\x00\x01\x05\x01\x02\x03\x04\x05",
        FormatFault::OutOfRange,
    ),
    (
        b"TILECRT1\x05\x05\x00\x01\x04\x01\x02\x03\x04",
        FormatFault::Truncated,
    ),
    // The start is due behind the groups.
    (
        b"TILECRT1\x02\x02\x00\x01\x01\x01\x00\x00\x00\x00",
        FormatFault::OutOfRange,
    ),
];

fn fault_of(alloc: Global, bytes: &[u8]) -> Option<ReadFault> {
    read(alloc, &mut ByteSource::new(bytes)).err()
}

#[test]
fn each_fault_of_groups(rt: HostRuntime) {
    for (bytes, fault) in &FAULTS {
        assert_eq!(rt;
            fault_of(rt.alloc(), bytes),
            Some(ReadFault::Format(*fault)),
            "{bytes:?}"
        );
    }
}

// A certificate, the goal and the groups of tables, and what is answered of it with them.
struct WithTables {
    bytes: &'static [u8],
    side: u8,
    goal: &'static [u8],
    groups: &'static [&'static [u8]],
    answer: Result<(), Refusal>,
}

static TABLES: [WithTables; 8] = [
    WithTables {
        bytes: &WITH_GROUPS,
        side: 2,
        goal: &[0, 1, 2, 3],
        groups: &[&[1], &[3]],
        answer: Ok(()),
    },
    WithTables {
        bytes: &WITH_GROUPS,
        side: 2,
        goal: &[0, 1, 2, 3],
        groups: &[],
        answer: Err(Refusal::UnfitGroup(0)),
    },
    WithTables {
        bytes: &WITH_GROUPS,
        side: 2,
        goal: &[0, 1, 2, 3],
        groups: &[&[3], &[1]],
        answer: Err(Refusal::UnfitGroup(0)),
    },
    WithTables {
        bytes: &WITH_GROUPS,
        side: 2,
        goal: &[0, 1, 2, 3],
        groups: &[&[1]],
        answer: Err(Refusal::UnfitGroup(1)),
    },
    WithTables {
        bytes: &WITH_GROUPS,
        side: 2,
        goal: &[0, 1, 2, 3],
        groups: &[&[1], &[2]],
        answer: Err(Refusal::UnfitGroup(1)),
    },
    WithTables {
        bytes: &WITH_GROUPS,
        side: 2,
        goal: &[0, 1, 2, 3],
        groups: &[&[1], &[3], &[2]],
        answer: Err(Refusal::UnfitGroup(2)),
    },
    // Tables for another goal, which is the start, and boards of another shape.
    WithTables {
        bytes: &WITH_GROUPS,
        side: 2,
        goal: &[1, 3, 0, 2],
        groups: &[&[1], &[3]],
        answer: Err(Refusal::UnfitGroup(0)),
    },
    WithTables {
        bytes: &GOAL,
        side: 3,
        goal: &[0, 1, 2, 3, 4, 5, 6, 7, 8],
        groups: &[],
        answer: Err(Refusal::UnfitGroup(0)),
    },
];

// What is answered with the tables of a row.
fn answer_with(rt: &(impl Abort + AllocGlobal), row: &WithTables) -> Result<(), Refusal> {
    let shape = Shape::new(row.side, row.side).expect(rt, "a shape");
    let goal = Board::from_tiles(shape, row.goal).expect(rt, "a board");
    let bound = bound_of(rt, &goal, row.groups);
    check(&certificate_of(rt, row.bytes), &bound)
}

#[test]
fn each_unfit_table(rt: HostRuntime) {
    for (place, row) in TABLES.iter().enumerate() {
        assert_eq!(rt; answer_with(&rt, row), row.answer, "row {place}");
    }
}

// What is answered of the certificate that bytes spell with folded tables of these groups, by one
// thread and by several.
fn answers_with_folded<R: Abort + AllocGlobal + Threads + Sync>(
    rt: &R,
    bytes: &[u8],
    groups: &[&[u8]],
) -> [Result<(), Refusal>; 2] {
    let certificate = certificate_of(rt, bytes);
    let bound = bound_of(rt, &certificate.goal(), groups);
    let folded = bound.folded(rt.alloc()).expect(rt, "memory");
    [
        check(&certificate, &folded),
        check_parallel(rt, &certificate, &folded).unwrap(),
    ]
}

// Bytes and groups whose folded tables are tried, and the answer. The first fit except that they
// are folded; the last are none, so that none is folded.
static FOLDED: [(&[u8], &[&[u8]], Result<(), Refusal>); 2] = [
    (&WITH_GROUPS, &[&[1], &[3]], Err(Refusal::UnfitGroup(0))),
    (&GOAL, &[], Ok(())),
];

#[test]
fn folded_tables(rt: HostRuntime) {
    for (bytes, groups, want) in &FOLDED {
        let answers = answers_with_folded(&rt, bytes, groups);
        assert_eq!(rt; answers, [*want; 2], "{groups:?}");
    }
}

// The values of a table, except that of one view.
fn changed(rt: &(impl Abort + AllocGlobal), table: &Table, rank: usize, value: u16) -> Table {
    let group = *table.group();
    let mut values = Vec::new(rt.alloc());
    for place in 0..group.size() {
        let kept = table.value(&group.unrank(place));
        values
            .push(if place == rank { value } else { kept })
            .expect(rt, "memory");
    }
    Table::from_values(&group, values).expect(rt, "a value for each view")
}

// The table of the first group, where tables are whole.
fn first_table(bound: &Bound) -> Option<&Table> {
    match bound.tables() {
        TableList::Whole(tables) => tables.first(),
        TableList::Folded(_) => None,
    }
}

// What is answered of a certificate of one group with another value in its table.
fn answer_with_value(
    rt: &(impl Abort + AllocGlobal),
    certificate: &Certificate,
    table: &Table,
    value: u16,
) -> Result<(), Refusal> {
    let mut tables = Vec::new(rt.alloc());
    // Tile 1 on cell 8 with the blank on cell 0 has the rank 7 and the value 3.
    tables
        .push(changed(rt, table, 7, value))
        .expect(rt, "memory");
    let groups = certificate.groups().copy(rt.alloc()).expect(rt, "memory");
    check(
        certificate,
        &Bound::new(groups, tables).expect(rt, "one table"),
    )
}

// The goal of 3 by 3, with the group 1.
const ONE_GROUP: &[u8] = b"TILECRT1\x03\x03\x00\x01\x01\x01\
    \x00\x01\x02\x03\x04\x05\x06\x07\x08\x00\x01\x02\x03\x04\x05\x06\x07\x08\
    \x00\x00\x00\x00\x00\x00\x00\x00\x00\x00\x00\x00\x00\x00\x00\x00";

// What is answered of `ONE_GROUP` with the value 3 in its table, with 4 there, and with its table
// folded. A certificate is checked with whole tables.
fn answers_to_one_group(rt: &(impl Abort + AllocGlobal)) -> [Result<(), Refusal>; 3] {
    let certificate = certificate_of(rt, ONE_GROUP);
    let bound = bound_for(rt, &certificate);
    let table = first_table(&bound).expect(rt, "it has a group");
    let fitting = answer_with_value(rt, &certificate, table, 3);
    let too_high = answer_with_value(rt, &certificate, table, 4);
    let folded = bound.folded(rt.alloc()).expect(rt, "memory");
    [fitting, too_high, check(&certificate, &folded)]
}

#[test]
fn one_value_too_high(rt: HostRuntime) {
    let unfit = Err(Refusal::UnfitGroup(0));
    assert_eq!(rt; answers_to_one_group(&rt), [Ok(()), unfit, unfit]);
}
