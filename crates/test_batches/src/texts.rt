//! What texts of groups and of goals say.

use batch_lines::{default_groups, read_goal, read_groups};
use board::Shape;
use pattern_index::Partition;
use std::alloc::Global;
use std::test::Fail;

// The groups of a partition as texts have them.
fn text_of(alloc: Global, partition: &Partition) -> Result<String, Fail> {
    let mut text = String::new(alloc);
    for (i, group) in partition.groups().iter().enumerate() {
        if i > 0 {
            text.push('/')?;
        }
        for (k, tile) in group.tiles().iter().enumerate() {
            if k > 0 {
                text.push(',')?;
            }
            let number = format!(in alloc; "{tile}")?;
            text.push_str(number.as_str())?;
        }
    }
    Ok(text)
}

// Shapes, and their default groups.
static DEFAULTS: [(u8, u8, &str); 10] = [
    (2, 2, "1,2/3"),
    (2, 3, "1,2/3,4/5"),
    (2, 4, "1,2,3,4/5,6,7"),
    (2, 5, "1,2,3,4/5,6,7,8/9"),
    (3, 3, "1,2,3,4/5,6,7,8"),
    (3, 4, "1,2,3,4,5/6,7,8,9,10/11"),
    (3, 5, "1,2,3,4,5/6,7,8,9,10/11,12,13,14"),
    (4, 4, "1,2,3,4,5/6,7,8,9,10/11,12,13,14,15"),
    (4, 5, "1,2,3,4/5,6,7,8/9,10,11,12/13,14,15,16/17,18,19"),
    (
        5,
        5,
        "1,2,3,4/5,6,7,8/9,10,11,12/13,14,15,16/17,18,19,20/21,22,23,24",
    ),
];

// The default groups of a shape, as a text.
fn default_text(alloc: Global, rows: u8, cols: u8) -> Result<String, Fail> {
    let groups = default_groups(alloc, Shape::new(rows, cols)?)?;
    text_of(alloc, &groups)
}

#[test]
fn groups_of_each_shape(rt: HostRuntime) -> Result<(), Fail> {
    let alloc = rt.alloc();
    for (rows, cols, wanted) in &DEFAULTS {
        for (rows, cols) in [(*rows, *cols), (*cols, *rows)] {
            let text = default_text(alloc, rows, cols)?;
            assert_eq!(rt; text.as_str(), *wanted);
        }
    }
    Ok(())
}

// The side of a square shape, a text, and the groups that it says or the code that refuses it.
static GROUPS: [(u8, &str, &str); 27] = [
    (3, "none", ""),
    (3, "1,2/3", "1,2/3"),
    (3, "4,2,3", "2,3,4"),
    (3, "08,0001", "1,8"),
    (3, "", "E5"),
    (3, "1//2", "E5"),
    (3, "1/", "E5"),
    (3, "/1", "E5"),
    (3, "1,9", "E6"),
    (3, "0", "E6"),
    (3, "1,,2", "E6"),
    (3, "1, 2", "E6"),
    (3, "x", "E6"),
    (3, "-1", "E6"),
    (3, "+1", "E6"),
    (3, "99999999999999999999999999", "E6"),
    (3, "None", "E6"),
    (3, "none/1", "E6"),
    (3, "1,1", "E7"),
    (3, "1,1,9", "E7"),
    (3, "1,9,1", "E6"),
    (5, "1,2,3,4,5,6", "E8"),
    (5, "1,2,3,4,5/0", "E8"),
    (5, "0/1,2,3,4,5", "E6"),
    (3, "1,2/2,3", "E9"),
    (3, "1,2/2,3/9", "E6"),
    (
        5,
        "1/1/1/1/1/1/1/1/1/1/1/1/1/1/1/1/1/1/1/1/1/1/1/1/1",
        "E10",
    ),
];

// Whether a text says these groups of a square shape, or is refused by this code.
fn says_groups(alloc: Global, side: u8, text: &str, wanted: &str) -> Result<bool, Fail> {
    match read_groups(alloc, Shape::new(side, side)?, text) {
        Ok(groups) => Ok(text_of(alloc, &groups)?.as_str() == wanted),
        Err(fault) => Ok(fault.code() == wanted),
    }
}

#[test]
fn groups_of_texts(rt: HostRuntime) -> Result<(), Fail> {
    let alloc = rt.alloc();
    for (side, text, wanted) in &GROUPS {
        assert!(rt; says_groups(alloc, *side, text, wanted)?, "{text}");
    }
    Ok(())
}

// Texts, and "ok" or the codes by which they are refused as goals of 2 by 2.
static GOALS: [(&str, &str); 10] = [
    ("1,2,3,0", "ok"),
    ("01,2,3,0", "ok"),
    ("1,2,3", "E2"),
    ("", "E2"),
    ("1,2,3,0,", "E2"),
    ("1,2,3,4", "E3"),
    ("1,2,,0", "E3"),
    ("1,2,2,9", "E4"),
    ("1,2,x,1", "E3"),
    ("1,2,+3,0", "E3"),
];

#[test]
fn goals_of_texts(rt: HostRuntime) -> Result<(), Fail> {
    for (text, wanted) in &GOALS {
        let read = match read_goal(Shape::new(2, 2)?, text) {
            Ok(_) => "ok",
            Err(fault) => fault.code(),
        };
        assert_eq!(rt; read, *wanted);
    }
    Ok(())
}
