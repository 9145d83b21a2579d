//! Each fault by its code and its text.

use batch_cli::{BatchFault, CertifyFault, CheckFault, EntryFault, LinesFault, SolveFault};
use batch_lines::GroupsFault;
use board::{BoardFault, Move, ShapeFault, TilesFault, WeightsFault};
use byte_streams::{ReadFailed, WriteFailed};
use certificate::{FormatFault, ReadFault, WriteFault};
use certificate_check::Refusal;
use database_build::TableFault;
use lower_bound::PatternFault;
use memory::OutOfMemory;
use pattern_index::{GroupFault, PartitionFault};
use std::fmt::Display;
use std::io;

/// Prints each fault by its code and its text.
pub fn print(rt: &impl Print, refused: OutOfMemory) -> io::Result<()> {
    print_boards(rt)?;
    print_lines(rt)?;
    print_groups(rt, refused)?;
    print_certificates(rt, refused)?;
    print_refusals(rt)?;
    print_runs(rt, refused)?;
    print_streams(rt)
}

fn print_boards(rt: &impl Print) -> io::Result<()> {
    rt.println("\n# Faults of boards")?;
    for fault in [
        BoardFault::SideOutOfRange,
        BoardFault::WrongCount,
        BoardFault::TileOutOfRange(7),
        BoardFault::TileRepeated(0),
        BoardFault::WrongCountOfWeights,
        BoardFault::WeightOutOfRange(2),
    ] {
        print_fault(rt, fault.code(), fault)?;
    }
    rt.println("\n# Faults of each kind of call: making a shape, a board or weights")?;
    let fault = ShapeFault::SideOutOfRange;
    print_fault(rt, fault.code(), fault)?;
    for fault in [
        TilesFault::WrongCount,
        TilesFault::TileOutOfRange(7),
        TilesFault::TileRepeated(0),
    ] {
        print_fault(rt, fault.code(), fault)?;
    }
    for fault in [WeightsFault::WrongCount, WeightsFault::WeightOutOfRange(2)] {
        print_fault(rt, fault.code(), fault)?;
    }
    Ok(())
}

fn print_lines(rt: &impl Print) -> io::Result<()> {
    rt.println("\n# Faults of lines")?;
    for fault in [
        EntryFault::NoBoard(TilesFault::WrongCount),
        EntryFault::NoBoard(TilesFault::TileOutOfRange(24)),
        EntryFault::NoBoard(TilesFault::TileRepeated(1)),
        EntryFault::NoText,
    ] {
        print_fault(rt, fault.code(), fault)?;
    }
    Ok(())
}

fn print_groups(rt: &impl Print, refused: OutOfMemory) -> io::Result<()> {
    rt.println("\n# Faults of groups, partitions and tables")?;
    for fault in [
        PatternFault::Empty,
        PatternFault::NotATile,
        PatternFault::Repeated,
        PatternFault::TooManyViews,
        PatternFault::SharedTile,
        PatternFault::TooManyGroups,
        PatternFault::WrongCount,
    ] {
        print_fault(rt, fault.code(), fault)?;
    }
    rt.println("\n# Faults of each kind of call: making a group, a partition, a table or bound")?;
    for fault in [
        GroupFault::Empty,
        GroupFault::NotATile,
        GroupFault::Repeated,
        GroupFault::TooManyViews,
    ] {
        print_fault(rt, fault.code(), fault)?;
    }
    for fault in [PartitionFault::SharedTile, PartitionFault::TooManyGroups] {
        print_fault(rt, fault.code(), fault)?;
    }
    let fault = TableFault::WrongCount;
    print_fault(rt, fault.code(), fault)?;
    rt.println("\n# Faults of the text of --groups")?;
    for fault in [
        GroupsFault::NoGroup(GroupFault::Empty),
        GroupsFault::NoPartition(PartitionFault::SharedTile),
        GroupsFault::Memory(refused),
    ] {
        print_fault(rt, fault.code(), fault)?;
    }
    Ok(())
}

fn print_certificates(rt: &impl Print, refused: OutOfMemory) -> io::Result<()> {
    rt.println("\n# Faults of certificates that are read or written")?;
    for fault in [
        ReadFault::Format(FormatFault::OtherMagic),
        ReadFault::Format(FormatFault::Truncated),
        ReadFault::Format(FormatFault::OutOfRange),
        ReadFault::Format(FormatFault::NotRising),
        ReadFault::Format(FormatFault::BytesAfterEnd),
        ReadFault::Failed,
        ReadFault::NoMemory(refused),
    ] {
        print_fault(rt, fault.code(), fault)?;
    }
    let fault = WriteFault::Failed;
    print_fault(rt, fault.code(), fault)
}

fn print_refusals(rt: &impl Print) -> io::Result<()> {
    rt.println("\n# Refusals of the checker")?;
    for refusal in [
        Refusal::IllegalMove(3),
        Refusal::OtherEnd,
        Refusal::OtherCost,
        Refusal::UnfitGroup(1),
        Refusal::StartUnproved,
        Refusal::GoalRow(0),
        Refusal::OpenSuccessor(2, Move::U),
    ] {
        print_fault(rt, refusal.code(), refusal)?;
    }
    Ok(())
}

fn print_runs(rt: &impl Print, refused: OutOfMemory) -> io::Result<()> {
    rt.println("\n# Faults of searches and runs")?;
    for fault in [
        SolveFault::ShapesDiffer,
        SolveFault::WorkerCount,
        SolveFault::Memory(refused),
    ] {
        print_fault(rt, fault.code(), fault)?;
    }
    for fault in [
        BatchFault::Read,
        BatchFault::Write,
        BatchFault::CertificateRead,
        BatchFault::CertificateMemory(refused),
        BatchFault::CertificateWrite,
    ] {
        print_fault(rt, fault.code(), fault)?;
    }
    rt.println("\n# Faults of each kind of run: over lines, writing a certificate, checking one")?;
    for fault in [LinesFault::Read, LinesFault::Write] {
        print_fault(rt, fault.code(), fault)?;
    }
    for fault in [
        CertifyFault::Read,
        CertifyFault::Write,
        CertifyFault::CertificateWrite,
    ] {
        print_fault(rt, fault.code(), fault)?;
    }
    for fault in [
        CheckFault::CertificateRead,
        CheckFault::CertificateMemory(refused),
        CheckFault::Write,
    ] {
        print_fault(rt, fault.code(), fault)?;
    }
    Ok(())
}

fn print_streams(rt: &impl Print) -> io::Result<()> {
    rt.println("\n# Failures of streams, which have no code")?;
    rt.println(ReadFailed)?;
    rt.println(WriteFailed)
}

fn print_fault(rt: &impl Print, code: &str, fault: impl Display + Drop) -> io::Result<()> {
    println!(rt; "{code} {fault}")
}
