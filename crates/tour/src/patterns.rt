//! Groups of tiles, tables and sums.

ghost use Rattle.std.specs.Prelude.{◌≡◌};

use board::{Board, Shape, Weights};
use database_build::{Table, build, is_potential};
use lower_bound::Bound;
use pattern_index::{Group, Partition};
use std::io;

/// A group of three tiles: a view of it, its table, and the bound of that table alone.
pub fn visit(rt: &(impl Print + AllocGlobal)) -> io::Result<()> {
    let shape = Shape::new(3, 3).unwrap();
    match Board::from_tiles(shape, &[1, 2, 0, 3, 4, 5, 6, 7, 8]) {
        Ok(start) => look_up(rt, shape, start),
        Err(fault) => println!(rt; "no board: {}", fault.code()),
    }
}

fn look_up(rt: &(impl Print + AllocGlobal), shape: Shape, start: Board) -> io::Result<()>
    requires { start.grid ≡ shape }
{
    let Ok(group) = Group::new(shape, &[1, 2, 3]) else {
        return rt.println("no group");
    };
    print_view(rt, &group, &start)?;
    let Ok(table) = build(
        rt.alloc(),
        &group,
        &Board::goal(shape),
        &Weights::unit(shape),
    ) else {
        return rt.println("no memory");
    };
    print_table(rt, &table, &start)?;
    add_up(rt, shape, group, table, start)
}

fn print_view(rt: &impl Print, group: &Group, start: &Board) -> io::Result<()>
    requires { start.now.grid ≡ group.now.grid }
{
    let rank = group.rank(&group.view(start));
    println!(rt; "tiles 1, 2 and 3: view {rank} of {}", group.size())
}

fn print_table(rt: &impl Print, table: &Table, start: &Board) -> io::Result<()>
    requires { start.now.grid ≡ table.now.selection.grid }
{
    let group = table.group();
    let least = table.value(&group.view(start));
    println!(rt; "they come home at {least} or more")?;
    let shape = start.shape();
    let consistent = is_potential(table, group, &Board::goal(shape), &Weights::unit(shape));
    println!(rt; "a move lowers that by no more than it costs: {consistent}")
}

fn add_up(
    rt: &(impl Print + AllocGlobal),
    shape: Shape,
    group: Group,
    table: Table,
    start: Board,
) -> io::Result<()>
    requires group { group.grid ≡ shape }
    requires start { start.grid ≡ shape }
{
    let mut groups = Vec::new(rt.alloc());
    groups.push(group)?;
    let mut tables = Vec::new(rt.alloc());
    tables.push(table)?;
    let Ok(partition) = Partition::new(shape, groups) else {
        return rt.println("no partition");
    };
    match Bound::new(partition, tables) {
        Ok(bound) => println!(rt; "no plan costs less than {}", bound.of(&start)),
        Err(fault) => println!(rt; "no bound: {}", fault.code()),
    }
}
