//! A certificate is read from a source, part by part.

ghost use Rattle.std.specs.Prelude.{◌≡◌, ◌≤◌, None, false};
ghost use Rattle.board.specs.Shapes.{IsShape};
ghost use Rattle.byte_streams.specs.Streams.{change};
ghost use Rattle.certificate.specs.Certificates.{cost_of, plan_of, statement_of};
ghost use Rattle.certificate.specs.Spellings.{Spells};
ghost use Rattle.certificate.specs.Fields.{SpellsClaim, SpellsBeginning, SpellsCosts};
ghost use Rattle.certificate.specs.Fields.{SpellsOpening};
ghost use Rattle.certificate.specs.Fields.{SpellsLetters, SpellsPlan, SpellsClaimed, SpellsRows};
ghost use Rattle.certificate.specs.Fields.{SpellsAllRows, SpellsBody, SpellsFront};
ghost use Rattle.certificate.specs.Readings.{claim, beginning, costs_of, opening_fields};
ghost use Rattle.certificate.specs.Readings.{letters, plan, claimed, rows, all_rows};
ghost use Rattle.certificate.specs.Readings.{body, front, certificate};
ghost use Rattle.certificate.specs.Sources.{ReadsField, ReadsAll, ReadsCertificate};

use crate::certificate::{Certificate, Claim, GREATEST_BOUND, Parts, Version};
use crate::faults::ReadFault;
use crate::fields::{
    read_board, read_byte, read_count, read_end, read_letter, read_number, read_row, read_version,
    read_weights,
};
use crate::groups::read_all_groups;
use board::{Board, GREATEST_COST, Move, Shape, Weights};
use byte_streams::Source;
use memory::reserve;
use pattern_index::Partition;
use std::alloc::Global;

// The version, and what is claimed: 0 for a plan, 1 for a bound.
fn read_beginning<S: Source>(source: &mut S) -> Result<(Version, u8), ReadFault>
    ensures { ReadsField beginning SpellsBeginning (change S.state source.old source.new) result }
{
    let version = read_version(source)?;
    let claim = read_claim(source, version)?;
    Ok((version, claim))
}

// What is claimed: in version 2 a byte says it.
fn read_claim<S: Source>(source: &mut S, version: Version) -> Result<u8, ReadFault>
    requires fine { (S.state source.old).has_failed ≡ false }
    ensures { ReadsField (claim version) (SpellsClaim version)
        (change S.state source.old source.new) result }
{
    match version {
        Version::One => Ok(0),
        Version::Two => read_byte(source, 0, 1),
    }
}

// The sides of the boards, and the costs.
fn read_opening<S: Source>(source: &mut S) -> Result<Weights, ReadFault>
    ensures { ReadsField opening_fields SpellsOpening (change S.state source.old source.new) result }
{
    let rows = read_byte(source, 2, 5)?;
    let cols = read_byte(source, 2, 5)?;
    let kind = read_byte(source, 0, 2)?;
    let shape = Shape::new(rows, cols).unwrap();
    read_costs(source, shape, kind)
}

// Unit costs for kind 0, face costs for kind 1; for kind 2 the weights are read.
fn read_costs<S: Source>(source: &mut S, shape: Shape, kind: u8) -> Result<Weights, ReadFault>
    requires fine { (S.state source.old).has_failed ≡ false }
    requires shape { IsShape shape }
    requires kind { kind ≤ 2 }
    ensures { ReadsField (costs_of shape kind) (SpellsCosts shape kind)
        (change S.state source.old source.new) result }
{
    match kind {
        0 => Ok(Weights::unit(shape)),
        1 => Ok(Weights::face(shape)),
        _ => read_weights(source, shape),
    }
}

// The length of the plan, and a letter for each move.
fn read_plan<S: Source>(alloc: Global, source: &mut S) -> Result<Vec<Move>, ReadFault>
    ensures { ReadsField plan (λ moves. SpellsPlan moves.items)
        (change S.state source.old source.new) result }
{
    let count = read_number(source, GREATEST_COST)?;
    read_letters(alloc, source, count)
}

// `count` letters of moves. The place of each is made while it is due, so that no refusal of memory
// hides a fault.
fn read_letters<S: Source>(
    alloc: Global,
    source: &mut S,
    count: u32,
) -> Result<Vec<Move>, ReadFault>
    requires { (S.state source.old).has_failed ≡ false }
    ensures { ReadsField (letters count) (λ moves. SpellsLetters count moves.items)
        (change S.state source.old source.new) result }
{
    let mut moves = Vec::new(alloc);
    'letters: for _ in 0..count {
        if let Err(refused) = reserve(&mut moves, 1) {
            return Err(ReadFault::NoMemory(refused));
        }
        let direction = read_letter(source)?;
        moves.push_reserved(direction);
    }
    Ok(moves)
}

// `count` rows, each after the one before it.
fn read_rows<S: Source>(
    alloc: Global,
    source: &mut S,
    shape: Shape,
    count: u64,
) -> Result<Vec<(Board, u32)>, ReadFault>
    requires { (S.state source.old).has_failed ≡ false }
    ensures { ReadsField (rows shape None count) (λ read. SpellsRows shape count read.items)
        (change S.state source.old source.new) result }
{
    let mut read = Vec::new(alloc);
    let mut before = None;
    'rows: for _ in 0..count {
        let row = read_row(source, shape, before, &mut read)?;
        before = Some(row.0);
        read.push_reserved(row);
    }
    Ok(read)
}

// The number of rows, and the rows.
fn read_all_rows<S: Source>(
    alloc: Global,
    source: &mut S,
    shape: Shape,
) -> Result<Vec<(Board, u32)>, ReadFault>
    ensures { ReadsField (all_rows shape) (λ read. SpellsAllRows shape read.items)
        (change S.state source.old source.new) result }
{
    let count = read_count(source)?;
    read_rows(alloc, source, shape, count)
}

// The fields before the rows, with no rows.
fn read_front<S: Source>(alloc: Global, source: &mut S) -> Result<Parts, ReadFault>
    ensures { ReadsField front (λ parts. SpellsFront (statement_of parts))
        (change S.state source.old source.new) result }
{
    let form = read_beginning(source)?;
    let costs = read_opening(source)?;
    let groups = read_all_groups(alloc, source, costs.shape())?;
    read_body(alloc, source, form.0, form.1, costs, groups)
}

// The boards, the cost, and the plan where one is claimed, with no rows.
fn read_body<S: Source>(
    alloc: Global,
    source: &mut S,
    version: Version,
    claim: u8,
    costs: Weights,
    groups: Partition,
) -> Result<Parts, ReadFault>
    requires { claim ≤ 1 }
    ensures { ReadsField (body version claim costs groups)
        (λ parts. SpellsBody version claim costs groups (statement_of parts))
        (change S.state source.old source.new) result }
{
    let shape = costs.shape();
    let start = read_board(source, shape)?;
    let goal = read_board(source, shape)?;
    let claim = read_claimed(alloc, source, claim)?;
    Ok(Parts {
        version,
        shape,
        costs,
        groups,
        start,
        goal,
        claim,
        rows: Vec::new(alloc),
    })
}

// A plan and its cost, or a bound.
fn read_claimed<S: Source>(alloc: Global, source: &mut S, claim: u8) -> Result<Claim, ReadFault>
    requires fine { (S.state source.old).has_failed ≡ false }
    requires claim { claim ≤ 1 }
    ensures { ReadsField (claimed claim) (λ read. SpellsClaimed claim (cost_of read, plan_of read))
        (change S.state source.old source.new) result }
{
    if claim != 0 {
        let bound = read_number(source, GREATEST_BOUND)?;
        return Ok(Claim::Bound { bound });
    }
    let cost = read_number(source, GREATEST_COST)?;
    let plan = read_plan(alloc, source)?;
    Ok(Claim::Least { cost, plan })
}

// A whole certificate.
fn read_all<S: Source>(alloc: Global, source: &mut S) -> Result<Certificate, ReadFault>
    ensures { ReadsAll certificate Spells (change S.state source.old source.new) result }
{
    let mut parts = read_front(alloc, source)?;
    parts.rows = read_all_rows(alloc, source, parts.shape)?;
    read_end(source)?;
    Ok(Certificate::from_parts(parts))
}

/// Reads a certificate, from front to back and up to its first fault: F1 to F5, F6 where the source
/// fails, F7 where memory is refused.
///
/// Memory is taken for the groups, moves and rows that are there and for one that is due, and not
/// by their stated numbers. After a fault of the bytes the source has given them up to and with the
/// one that shows it. F6 and F7 are answered only where the bytes that were given have no fault, and
/// F7 only where more are due.
pub fn read<S: Source>(alloc: Global, source: &mut S) -> Result<Certificate, ReadFault>
    ensures { ReadsCertificate (change S.state source.old source.new) result }
{
    read_all(alloc, source)
}
