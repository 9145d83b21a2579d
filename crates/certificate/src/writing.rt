//! Certificates are written to a sink, field by field.

ghost use Rattle.std.specs.Prelude.{◌≡◌, ◌≤◌, ◌++◌, false, length, map, IfSome};
ghost use Rattle.std.specs.List.{flat_map};
ghost use Rattle.board.specs.Letters.{letter_of};
ghost use Rattle.byte_streams.specs.Streams.{change};
ghost use Rattle.byte_streams.specs.Sink.{Writes};
ghost use Rattle.certificate.specs.Certificates.{cost_of, plan_of, IsWithinLimit};
ghost use Rattle.certificate.specs.Spellings.{claim_of, beginning_text};
ghost use Rattle.certificate.specs.Spellings.{cost_kind_of, weights_text, opening_text};
ghost use Rattle.certificate.specs.Spellings.{number_text, count_text};
ghost use Rattle.certificate.specs.Spellings.{group_text, groups_text, plan_text, claimed_text};
ghost use Rattle.certificate.specs.Spellings.{row_text};
ghost use Rattle.certificate.specs.Spellings.{body_text, front_text, spelling};

use crate::certificate::{Certificate, Claim, Version, kind};
use crate::faults::WriteFault;
use board::{Board, Move, Weights};
use byte_streams::{Sink, WriteFailed};
use pattern_index::Group;

/// Writes a certificate: the bytes of its spelling. F8 where the sink fails; what went out is then
/// a beginning of them. The sink is not flushed. Nothing takes memory.
pub fn write<K: Sink>(sink: &mut K, certificate: &Certificate) -> Result<(), WriteFault>
    ensures { Writes (change K.state sink.old sink.new) (spelling certificate.now) result }
{
    match write_all(sink, certificate) {
        Ok(()) => Ok(()),
        Err(_) => Err(WriteFault::Failed),
    }
}

fn write_all<K: Sink>(sink: &mut K, certificate: &Certificate) -> Result<(), WriteFailed>
    ensures { Writes (change K.state sink.old sink.new) (spelling certificate.now) result }
{
    write_front(sink, certificate)?;
    write_rows(sink, certificate.rows())
}

// All before the number of rows.
fn write_front<K: Sink>(sink: &mut K, certificate: &Certificate) -> Result<(), WriteFailed>
    ensures { Writes (change K.state sink.old sink.new) (front_text certificate.now) result }
{
    write_beginning(sink, certificate)?;
    write_opening(sink, &certificate.costs())?;
    write_groups(sink, certificate.groups().groups())?;
    write_body(sink, certificate)
}

// The version, and what is claimed.
fn write_beginning<K: Sink>(sink: &mut K, certificate: &Certificate) -> Result<(), WriteFailed>
    ensures { Writes (change K.state sink.old sink.new)
        (beginning_text certificate.now.version (claim_of certificate.now.plan)) result }
{
    match certificate.version() {
        Version::One => sink.put(b"TILECRT1"),
        Version::Two => {
            sink.put(b"TILECRT2")?;
            sink.put(&[claim_byte(certificate.claim())])
        }
    }
}

// 0 for a plan, 1 for a bound.
fn claim_byte(claim: &Claim) -> u8
    ensures { result ≡ claim_of (plan_of claim.now) }
{
    match claim {
        Claim::Least { .. } => 0,
        Claim::Bound { .. } => 1,
    }
}

// The boards, and what is claimed.
fn write_body<K: Sink>(sink: &mut K, certificate: &Certificate) -> Result<(), WriteFailed>
    ensures { Writes (change K.state sink.old sink.new) (body_text certificate.now) result }
{
    write_tiles(sink, &certificate.start())?;
    write_tiles(sink, &certificate.goal())?;
    write_claim(sink, certificate.claim())
}

// A plan and its cost, or a bound.
fn write_claim<K: Sink>(sink: &mut K, claim: &Claim) -> Result<(), WriteFailed>
    requires { IfSome (plan_of claim.now) (λ plan. IsWithinLimit (length plan)) }
    ensures { Writes (change K.state sink.old sink.new)
        (claimed_text (cost_of claim.now) (plan_of claim.now)) result }
{
    match claim {
        Claim::Least { cost, plan } => {
            write_number(sink, *cost)?;
            write_plan(sink, plan.as_slice())
        }
        Claim::Bound { bound } => write_number(sink, *bound),
    }
}

// The sides of the boards, and the costs.
fn write_opening<K: Sink>(sink: &mut K, costs: &Weights) -> Result<(), WriteFailed>
    ensures { Writes (change K.state sink.old sink.new) (opening_text costs.now) result }
{
    let shape = costs.shape();
    sink.put(&[shape.rows(), shape.cols(), kind(costs)])?;
    sink.put(weights_behind(costs))
}

// The weights of tiles 1, 2, .., which follow kind 2; other kinds have none behind them.
fn weights_behind(costs: &Weights) -> &[u8]
    ensures { result.now ≡ weights_text (cost_kind_of costs.now) costs.now }
{
    if kind(costs) == 2 {
        costs.listed()
    } else {
        &[]
    }
}

// The number of groups, and the groups.
fn write_groups<K: Sink>(sink: &mut K, groups: &[Group]) -> Result<(), WriteFailed>
    requires { length groups.now ≤ 24 }
    ensures { Writes (change K.state sink.old sink.new) (groups_text groups.now) result }
{
    sink.put(&[groups.len() as u8])?;
    write_each_group(sink, groups)
}

// The groups, one after the other.
fn write_each_group<K: Sink>(sink: &mut K, groups: &[Group]) -> Result<(), WriteFailed>
    requires { (K.state sink.old).has_failed ≡ false }
    ensures { Writes (change K.state sink.old sink.new) (flat_map group_text groups.now) result }
{
    'groups: for group in groups {
        write_group(sink, group)?;
    }
    Ok(())
}

// The number of a group's tiles, and the tiles.
fn write_group<K: Sink>(sink: &mut K, group: &Group) -> Result<(), WriteFailed>
    ensures { Writes (change K.state sink.old sink.new) (group_text group.now) result }
{
    let tiles = group.tiles();
    sink.put(&[tiles.len() as u8])?;
    sink.put(tiles)
}

// The tiles of a board.
fn write_tiles<K: Sink>(sink: &mut K, board: &Board) -> Result<(), WriteFailed>
    ensures { Writes (change K.state sink.old sink.new) board.now.tiles result }
{
    sink.put(board.tiles())
}

// A cost, or the length of a plan.
fn write_number<K: Sink>(sink: &mut K, number: u32) -> Result<(), WriteFailed>
    ensures { Writes (change K.state sink.old sink.new) (number_text number) result }
{
    sink.put(&number_bytes(number))
}

// The four bytes of a number, the lowest first.
#[tactic(auto, unfolding(crate::specs::Spellings::number_text))]
fn number_bytes(number: u32) -> [u8; 4]
    ensures { result ≡ number_text number }
{
    number.to_le_bytes()
}

// The length of the plan, and a letter for each move.
fn write_plan<K: Sink>(sink: &mut K, plan: &[Move]) -> Result<(), WriteFailed>
    requires { IsWithinLimit (length plan.now) }
    ensures { Writes (change K.state sink.old sink.new) (plan_text plan.now) result }
{
    write_number(sink, plan.len() as u32)?;
    write_letters(sink, plan)
}

// A letter for each move.
fn write_letters<K: Sink>(sink: &mut K, plan: &[Move]) -> Result<(), WriteFailed>
    requires { (K.state sink.old).has_failed ≡ false }
    ensures { Writes (change K.state sink.old sink.new) (map letter_of plan.now) result }
{
    'letters: for direction in plan {
        sink.put(&[direction.letter()])?;
    }
    Ok(())
}

// The number of rows, and the rows.
fn write_rows<K: Sink>(sink: &mut K, rows: &[(Board, u32)]) -> Result<(), WriteFailed>
    ensures { Writes (change K.state sink.old sink.new)
        (count_text (length rows.now) ++ flat_map row_text rows.now) result }
{
    write_count(sink, rows.len() as u64)?;
    write_each_row(sink, rows)
}

// The number of rows.
fn write_count<K: Sink>(sink: &mut K, count: u64) -> Result<(), WriteFailed>
    ensures { Writes (change K.state sink.old sink.new) (count_text count) result }
{
    sink.put(&count_bytes(count))
}

// The eight bytes of a number, the lowest first.
#[tactic(auto, unfolding(crate::specs::Spellings::count_text))]
fn count_bytes(count: u64) -> [u8; 8]
    ensures { result ≡ count_text count }
{
    count.to_le_bytes()
}

// The rows, one after the other.
fn write_each_row<K: Sink>(sink: &mut K, rows: &[(Board, u32)]) -> Result<(), WriteFailed>
    requires { (K.state sink.old).has_failed ≡ false }
    ensures { Writes (change K.state sink.old sink.new) (flat_map row_text rows.now) result }
{
    'rows: for row in rows {
        write_row(sink, row)?;
    }
    Ok(())
}

// The tiles of a row, and its cost.
fn write_row<K: Sink>(sink: &mut K, row: &(Board, u32)) -> Result<(), WriteFailed>
    ensures { Writes (change K.state sink.old sink.new) (row_text row.now) result }
{
    write_tiles(sink, &row.0)?;
    write_number(sink, row.1)
}
