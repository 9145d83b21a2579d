//! The parts that words name.

ghost use Rattle.std.specs.Prelude.{◌≡◌, All, IfSome};

use crate::kernels::tables::Task;
use board::Shape;
use pattern_index::{Group, Partition};
use std::alloc::Global;

// The tiles that the boards of some shape have.
static TILES: [u8; 24] = [
    1, 2, 3, 4, 5, 6, 7, 8, 9, 10, 11, 12, 13, 14, 15, 16, 17, 18, 19, 20, 21, 22, 23, 24,
];

// Parts, each with the numbers of its small run.
static SMALL: [(&str, &[usize]); 7] = [
    ("step", &[3, 1000]),
    ("rank", &[4, 5, 1000]),
    ("table", &[2, 3, 2, 3]),
    ("weighed", &[7, 1, 2, 3, 2, 3]),
    ("folded", &[1, 7, 2, 3, 2, 3]),
    ("sums", &[3, 100, 2, 3, 4]),
    ("containers", &[1000]),
];

/// A part with its numbers.
#[derive(Drop)]
pub enum Part {
    /// Steps from the goal of a shape.
    Steps(Shape, u32),
    /// Ranks of views of a group.
    Ranks(Group, u32),
    /// The tables of these groups for a task.
    Tables(Vec<Group>, Task),
    /// Groups for tables, a count of boards, and how often their offers are found.
    Sums(Partition, u32, u32),
    /// A search until this many boards are known.
    Containers(usize),
}

/// The part of a name by the arguments after it, or by its small run without arguments. `None` where
/// they name no part, or there is no memory for it.
pub fn read_words(alloc: Global, name: &str, words: &[String]) -> Option<Part> {
    if words.is_empty() {
        return read_part(alloc, name, small(name));
    }
    let numbers = numbers_of(alloc, words)?;
    read_part(alloc, name, &numbers)
}

// The numbers that words name, or `None` where one names none, or there is no memory for them.
fn numbers_of(alloc: Global, words: &[String]) -> Option<Vec<usize>> {
    let mut numbers = Vec::new(alloc);
    for word in words {
        numbers.push(word.parse().ok()?).ok()?;
    }
    Some(numbers)
}

// The numbers of the small run of a part; none for a name of no part.
fn small(name: &str) -> &'static [usize] {
    for (part, numbers) in &SMALL {
        if *part == name {
            return numbers;
        }
    }
    &[]
}

// The part of a name with its numbers, or `None` where there is none, or no memory for it.
fn read_part(alloc: Global, name: &str, numbers: &[usize]) -> Option<Part> {
    match name {
        "step" => read_steps(numbers),
        "rank" => read_ranks(numbers),
        "table" => read_plain(alloc, numbers),
        "weighed" => read_tables(alloc, numbers, Task::plain()),
        "folded" => read_tables(alloc, numbers, Task::plain().folded()),
        "built" => read_tables(alloc, numbers, Task::plain().unread()),
        "built-folded" => read_tables(alloc, numbers, Task::plain().unread().folded()),
        "group" => read_one_table(alloc, numbers, Task::plain()),
        "group-folded" => read_one_table(alloc, numbers, Task::plain().folded()),
        "sums" => read_sums(alloc, numbers),
        "containers" => read_count(numbers),
        _ => None,
    }
}

fn read_steps(numbers: &[usize]) -> Option<Part> {
    let [side, steps] = numbers else {
        return None;
    };
    let shape = shape_of(*side, *side)?;
    Some(Part::Steps(shape, u32::try_from(*steps).ok()?))
}

fn read_ranks(numbers: &[usize]) -> Option<Part> {
    let [side, count, ranks] = numbers else {
        return None;
    };
    let group = Group::new(shape_of(*side, *side)?, TILES.get(..*count)?).ok()?;
    Some(Part::Ranks(group, u32::try_from(*ranks).ok()?))
}

fn read_plain(alloc: Global, numbers: &[usize]) -> Option<Part> {
    let [rows, cols, counts @ ..] = numbers else {
        return None;
    };
    let groups = read_groups(alloc, shape_of(*rows, *cols)?, counts)?;
    Some(Part::Tables(groups, Task::plain()))
}

fn read_sums(alloc: Global, numbers: &[usize]) -> Option<Part> {
    let [side, boards, rounds, counts @ ..] = numbers else {
        return None;
    };
    let boards = u32::try_from(*boards).ok()?;
    let rounds = u32::try_from(*rounds).ok()?;
    let shape = shape_of(*side, *side)?;
    let groups = read_groups(alloc, shape, counts)?;
    let groups = Partition::new(shape, groups).ok()?;
    Some(Part::Sums(groups, boards, rounds))
}

fn read_count(numbers: &[usize]) -> Option<Part> {
    let [count] = numbers else {
        return None;
    };
    Some(Part::Containers(*count))
}

// Tables of groups of these counts of tiles, for drawn weights and a drawn goal.
fn read_tables(alloc: Global, numbers: &[usize], task: Task) -> Option<Part> {
    let [weights, goal, rows, cols, counts @ ..] = numbers else {
        return None;
    };
    let groups = read_groups(alloc, shape_of(*rows, *cols)?, counts)?;
    Some(Part::Tables(groups, task.drawn(*weights, *goal)))
}

// The table of the group of these tiles.
fn read_one_table(alloc: Global, numbers: &[usize], task: Task) -> Option<Part> {
    let [weights, goal, rows, cols, tiles @ ..] = numbers else {
        return None;
    };
    let groups = group_of(alloc, shape_of(*rows, *cols)?, tiles)?;
    Some(Part::Tables(groups, task.drawn(*weights, *goal)))
}

// The shape with these sides.
fn shape_of(rows: usize, cols: usize) -> Option<Shape> {
    Shape::new(u8::try_from(rows).ok()?, u8::try_from(cols).ok()?).ok()
}

// The group of these tiles alone.
fn group_of(alloc: Global, shape: Shape, tiles: &[usize]) -> Option<Vec<Group>>
    ensures { IfSome result (λ groups. All (λ g. g.grid ≡ shape) groups.items) }
{
    let mut numbers = Vec::new(alloc);
    'tiles: for tile in tiles {
        numbers.push(u8::try_from(*tile).ok()?).ok()?;
    }
    let mut groups = Vec::new(alloc);
    groups.push(Group::new(shape, &numbers).ok()?).ok()?;
    Some(groups)
}

// Groups of these counts of tiles: the first has the first tiles, and each takes the next.
fn read_groups(alloc: Global, shape: Shape, counts: &[usize]) -> Option<Vec<Group>>
    ensures { IfSome result (λ groups. All (λ g. g.grid ≡ shape) groups.items) }
{
    let mut groups = Vec::new(alloc);
    if !add_groups(&mut groups, shape, counts) {
        return None;
    }
    Some(groups)
}

// Adds groups of these counts of tiles. Answers whether all of them were made.
fn add_groups(groups: &mut Vec<Group>, shape: Shape, counts: &[usize]) -> bool
    requires { All (λ g. g.grid ≡ shape) groups.old.items }
    ensures { All (λ g. g.grid ≡ shape) groups.new.items }
{
    let mut left = TILES.as_slice();
    'counts: for count in counts {
        let Some((tiles, rest)) = left.split_at_checked(*count) else {
            return false;
        };
        if !add_group(groups, shape, tiles) {
            return false;
        }
        left = rest;
    }
    true
}

// Adds the group of these tiles. Answers whether it was made.
fn add_group(groups: &mut Vec<Group>, shape: Shape, tiles: &[u8]) -> bool
    requires { All (λ g. g.grid ≡ shape) groups.old.items }
    ensures { All (λ g. g.grid ≡ shape) groups.new.items }
{
    match Group::new(shape, tiles) {
        Ok(group) => groups.push(group).is_ok(),
        Err(_) => false,
    }
}
