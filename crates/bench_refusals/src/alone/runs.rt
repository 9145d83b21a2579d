//! Runs over lines and with certificates, and certificates that are read.

ghost use Rattle.std.specs.Prelude.{IfSome};

use super::searches::bound_of;
use super::{Answer, refused_if, whole_if};
use batch_runs::{LinesFault, Setup};
use board::{Board, Shape, Weights};
use byte_streams::{ByteSink, ByteSource};
use certificate::{Claim, FormatFault, ReadFault, read};
use certificate_runs::{CertifyFault, CheckFault, run_check};
use hda_run::Free;
use memory::{OutOfMemory, with_capacity};
use setup_runs::{run_batch, run_cert};
use std::alloc::Global;
use std::sync::Wait;
use std::thread::Threads;

// 1 0 over 2 3, which one move to the left solves.
const ONE_MOVE: [u8; 46] = [
    0x54, 0x49, 0x4c, 0x45, 0x43, 0x52, 0x54, 0x32, 0, 2, 2, 0, 0, // the opening
    1, 0, 2, 3, 0, 1, 2, 3, // start and goal
    1, 0, 0, 0, 1, 0, 0, 0, 0x4c, // the cost and the plan
    1, 0, 0, 0, 0, 0, 0, 0, // the count of rows
    1, 0, 2, 3, 0, 0, 0, 0, // the row
];

// The same with the groups 1,2 and 3. Their sum is the cost, so no row is due.
const ONE_MOVE_BY_TABLES: [u8; 43] = [
    0x54, 0x49, 0x4c, 0x45, 0x43, 0x52, 0x54, 0x32, 0, 2, 2, 0, // the opening
    2, 2, 1, 2, 1, 3, // the groups
    1, 0, 2, 3, 0, 1, 2, 3, // start and goal
    1, 0, 0, 0, 1, 0, 0, 0, 0x4c, // the cost and the plan
    0, 0, 0, 0, 0, 0, 0, 0, // the count of rows
];

// A plan of nine moves, which outgrows its first places, and five rows.
const LONGER: [u8; 85] = [
    0x54, 0x49, 0x4c, 0x45, 0x43, 0x52, 0x54, 0x31, 0x02, 0x02, 0x00, 0x00, 0x01, 0x03, 0x00, 0x02,
    0x00, 0x01, 0x02, 0x03, 0x03, 0x00, 0x00, 0x00, 0x09, 0x00, 0x00, 0x00, 0x52, 0x55, 0x4c, 0x52,
    0x4c, 0x52, 0x4c, 0x52, 0x4c, 0x05, 0x00, 0x00, 0x00, 0x00, 0x00, 0x00, 0x00, 0x00, 0x03, 0x01,
    0x02, 0x01, 0x00, 0x00, 0x00, 0x01, 0x00, 0x02, 0x03, 0x02, 0x00, 0x00, 0x00, 0x01, 0x03, 0x00,
    0x02, 0x00, 0x00, 0x00, 0x00, 0x01, 0x03, 0x02, 0x00, 0x01, 0x00, 0x00, 0x00, 0x03, 0x00, 0x01,
    0x02, 0x02, 0x00, 0x00, 0x00,
];

// A certificate without moves that announces more rows than memory holds, and ends before them.
const CUT_OFF: [u8; 36] = [
    0x54, 0x49, 0x4c, 0x45, 0x43, 0x52, 0x54, 0x31, 2, 2, 0, 0, // the opening
    1, 0, 2, 3, 0, 1, 2, 3, // start and goal
    1, 0, 0, 0, 0, 0, 0, 0, // the cost, and the count of moves
    0, 0, 0, 0, 0, 0, 0, 1, // the count of rows
];

/// A sink over memory that was taken before.
pub type Page = ByteSink<Vec<u8>>;

/// How a run ended.
#[derive(Clone, Copy)]
pub enum End {
    /// With this status.
    Status(u8),
    /// Out of memory.
    NoMemory,
    /// By another fault, which is wrong here.
    Fault,
}

/// Makes the call of this name, or answers None where it is none of these.
pub fn call<R: Threads + Wait + AllocGlobal + Sync>(rt: &R, name: &str) -> Option<Answer> {
    match name {
        "read" => Some(read_certificate(rt.alloc())),
        "cut-off" => Some(read_announcement(rt.alloc())),
        "batch" => Some(run_two_lines(rt)),
        "batch-line" => Some(run_one_line(rt)),
        "write" => Some(write_certificate(rt)),
        "write-groups" => Some(write_groups(rt)),
        "check" => Some(check(rt, &ONE_MOVE)),
        "check-groups" => Some(check(rt, &ONE_MOVE_BY_TABLES)),
        _ => None,
    }
}

// Korf's goal of 2 by 2, at unit cost.
fn plain(alloc: Global) -> Setup {
    let shape = Shape::new(2, 2).unwrap();
    Setup::new(alloc, Board::goal(shape), Weights::unit(shape))
}

// The same with tables, or None where they find no memory.
fn guided<R: Threads + Sync>(rt: &R, alloc: Global) -> Option<Setup> {
    let shape = Shape::new(2, 2).unwrap();
    let goal = Board::goal(shape);
    let weights = Weights::unit(shape);
    let bound = bound_of(rt, alloc, &goal, &weights)?;
    Some(Setup::new(alloc, goal, weights).bound(bound))
}

/// A sink with room for all that is written here, so that no write takes memory.
pub fn page(alloc: Global) -> Result<Page, OutOfMemory> {
    Ok(ByteSink::new(with_capacity(alloc, 200)?))
}

// Reports two lines that need no search.
fn run_two_lines<R: Threads + Wait + AllocGlobal + Sync>(rt: &R) -> Answer {
    let Ok(mut page) = page(rt.alloc()) else {
        return Answer::Refused;
    };
    let end = report(rt, &plain(rt.alloc()), "a 0 2 1 3\nb 0\n", &mut page);
    judge_two_reports(end, &page.into_inner())
}

// Judges the reports of two lines. Where memory was refused they are a beginning of what is due.
fn judge_two_reports(end: End, written: &[u8]) -> Answer {
    let due = b"{\"id\":\"a\",\"status\":\"unsolvable\",\"why\":\"parity\"}\n\
        {\"fault\":\"E2\",\"line\":2,\"status\":\"refused\"}\n";
    match end {
        End::Status(_) => whole_if(written == due.as_slice(), "other reports"),
        End::NoMemory => refused_if(due.starts_with(written), "no beginning of the reports"),
        End::Fault => Answer::Wrong("no beginning of the reports"),
    }
}

// Reports a line whose board takes a search. Where memory is refused, the report may say so.
fn run_one_line<R: Threads + Wait + AllocGlobal + Sync>(rt: &R) -> Answer {
    match guided(rt, rt.alloc()) {
        Some(setup) => report_one_line(rt, &setup),
        None => Answer::Refused,
    }
}

// Reports the line by this setup.
fn report_one_line<R: Threads + Wait + AllocGlobal + Sync>(rt: &R, setup: &Setup) -> Answer {
    let Ok(mut page) = page(rt.alloc()) else {
        return Answer::Refused;
    };
    let end = report(rt, setup, "r 1 0 2 3\n", &mut page);
    judge_report(end, &page.into_inner())
}

// Judges the report of that line.
fn judge_report(end: End, written: &[u8]) -> Answer {
    let due = b"{\"cost\":1,\"id\":\"r\",\"plan\":\"L\",\"status\":\"optimal\"}\n";
    match end {
        End::Status(_) if written == due.as_slice() => Answer::Whole,
        End::Status(_) => refused_if(is_for_want_of_memory(written), "another report"),
        End::NoMemory => refused_if(written.is_empty(), "another fault"),
        End::Fault => Answer::Wrong("another fault"),
    }
}

/// Reports lines on a page.
pub fn report<R: Threads + Wait + AllocGlobal + Sync>(
    rt: &R,
    setup: &Setup,
    lines: &str,
    page: &mut Page,
) -> End {
    let mut source = ByteSource::new(lines.as_bytes());
    match run_batch(rt, rt.alloc(), &mut source, page, setup, &Free) {
        Ok(_) => End::Status(0),
        Err(LinesFault::Memory(_)) => End::NoMemory,
        Err(_) => End::Fault,
    }
}

// Writes the certificate of a line's board.
fn write_certificate<R: Threads + Wait + AllocGlobal + Sync>(rt: &R) -> Answer {
    certify(rt, &plain(rt.alloc()), &ONE_MOVE)
}

// The same with groups, whose tables are built before.
fn write_groups<R: Threads + Wait + AllocGlobal + Sync>(rt: &R) -> Answer {
    match guided(rt, rt.alloc()) {
        Some(setup) => certify(rt, &setup, &ONE_MOVE_BY_TABLES),
        None => Answer::Refused,
    }
}

// Writes the certificate of a line's board, whose bytes are known. Where memory is refused, it may
// write a report instead, or nothing.
fn certify<R: Threads + Wait + AllocGlobal + Sync>(rt: &R, setup: &Setup, due: &[u8]) -> Answer {
    let Ok(mut page) = page(rt.alloc()) else {
        return Answer::Refused;
    };
    let end = write(rt, setup, &mut page);
    judge_certificate(end, &page.into_inner(), due)
}

// Judges what was written of a certificate, whose bytes are known.
fn judge_certificate(end: End, written: &[u8], due: &[u8]) -> Answer {
    match end {
        End::Status(0) => whole_if(written == due, "another certificate"),
        End::Status(status) => refused_if(
            status == 1 && is_for_want_of_memory(written),
            "another report",
        ),
        End::NoMemory => refused_if(written.is_empty(), "another fault"),
        End::Fault => Answer::Wrong("another fault"),
    }
}

// Writes the certificate of a line's board on a page.
fn write<R: Threads + Wait + AllocGlobal + Sync>(rt: &R, setup: &Setup, page: &mut Page) -> End {
    let mut source = ByteSource::new("r 1 0 2 3\n".as_bytes());
    match run_cert(rt, rt.alloc(), &mut source, page, setup, &Free) {
        Ok(status) => End::Status(status),
        Err(CertifyFault::Memory(_)) => End::NoMemory,
        Err(CertifyFault::GroupsMemory(_)) => End::NoMemory,
        Err(_) => End::Fault,
    }
}

// Whether a report says that there was no memory for the line, or none for more than a bound.
fn is_for_want_of_memory(report: &[u8]) -> bool {
    report == b"{\"fault\":\"V3\",\"line\":1,\"status\":\"refused\"}\n".as_slice()
        || report.ends_with(b"\"cause\":\"memory\",\"id\":\"r\",\"status\":\"bounded\"}\n")
}

// Checks a certificate of cost 1 that is to be accepted.
fn check<R: Threads + AllocGlobal + Sync>(rt: &R, bytes: &[u8]) -> Answer {
    let Ok(mut page) = page(rt.alloc()) else {
        return Answer::Refused;
    };
    let end = write_verdict(rt, bytes, &mut page);
    judge_verdict(end, &page.into_inner())
}

// Judges the verdict on that certificate.
fn judge_verdict(end: End, written: &[u8]) -> Answer {
    let due = b"{\"cost\":1,\"status\":\"accepted\"}\n";
    match end {
        End::Status(status) => whole_if(
            status == 0 && written == due.as_slice(),
            "another verdict",
        ),
        End::NoMemory => refused_if(written.is_empty(), "another fault"),
        End::Fault => Answer::Wrong("another fault"),
    }
}

// Checks a certificate, and writes the verdict on a page.
fn write_verdict<R: Threads + AllocGlobal + Sync>(rt: &R, bytes: &[u8], page: &mut Page) -> End {
    match run_check(rt, rt.alloc(), &mut ByteSource::new(bytes), page) {
        Ok(status) => End::Status(status),
        Err(CheckFault::CertificateMemory(_)) => End::NoMemory,
        Err(CheckFault::Memory(_)) => End::NoMemory,
        Err(_) => End::Fault,
    }
}

// Reads the bytes that spell a certificate.
fn read_certificate(alloc: Global) -> Answer {
    let mut source = ByteSource::new(LONGER.as_slice());
    match read(alloc, &mut source) {
        Ok(certificate) => whole_if(
            move_count(certificate.claim()) == Some(9) && certificate.rows().len() == 5,
            "another certificate",
        ),
        Err(fault) => refused_if(matches!(fault, ReadFault::NoMemory(_)), "no certificate"),
    }
}

// The number of moves of the plan that is claimed, or None where only a bound is.
fn move_count(claim: &Claim) -> Option<usize> {
    match claim {
        Claim::Least { plan, .. } => Some(plan.len()),
        Claim::Bound { .. } => None,
    }
}

// Reads bytes that end where the rows are due. Memory is taken for rows that are there, so the end
// is answered whatever is refused.
fn read_announcement(alloc: Global) -> Answer {
    let mut source = ByteSource::new(CUT_OFF.as_slice());
    match read(alloc, &mut source) {
        Err(ReadFault::Format(FormatFault::Truncated)) => Answer::Whole,
        Err(ReadFault::NoMemory(_)) => Answer::Wrong("memory for rows that are not there"),
        _ => Answer::Wrong("the end is not answered"),
    }
}
