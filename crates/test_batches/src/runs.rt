//! The nine runs, with each call of each stream failing in turn.

ghost use Rattle.std.specs.Prelude.{◌≡◌, false};
ghost use Rattle.byte_streams.specs.ByteSink.{sink_has_failed};
ghost use Rattle.board.specs.Weights.{unit_rule};

use crate::certificates::{BOUND, ONE_MOVE, ONE_MOVE_ONE, SOLVED, THREE_MOVES};
use batch_cli::{
    BatchFault, Cause, CertifyFault, CheckFault, Free, Gate, Kind, LinesFault, Ruled, Setup,
    Solved, Solver, Stats, Style, Summary, Why, run_batch, run_cert, run_check, run_lines,
    run_program, run_replay, run_show, run_upgrade,
};
use board::{Board, Move, Shape, Weights};
use board_lists::{Choice, list_boards};
use byte_streams::{BufferedSource, ByteSink, ByteSource, Sink, Source};
use memory::{OutOfMemory, copy_of, push, with_capacity};
use outcomes::Ending;
use std::alloc::Global;
use std::io::ErrorKind;
use std::sync::Wait;
use std::sync::atomic::{AtomicU64, Ordering};
use std::thread::Threads;
use test_support::{FailingReader, FailingWriter, NEVER};

// So large that memory for 2^27 of it is refused: a refusal of memory can't be made up.
type TooLarge = [u64; 1 << 18];

// Answers by the blank's cell alone, and none ahead.
#[derive(Drop)]
struct ByBlank {
    alloc: Global,
    shape: Shape,
}

impl Ruled for ByBlank {
    ghost rules = { λ s. record {
      grid = s.shape;
      task = λ b. record { start = b; goal = b; rule = unit_rule s.shape; sum = λ _. 0 };
      allows = λ _ _. Unit {0};
    } };
}

impl Solver for ByBlank {
    ghost is_callable = { λ _. Unit {0} };

    ghost has_stats = { λ _ _ _. Unit {0} };

    fn shape(&self) -> Shape {
        self.shape
    }

    fn solve(&self, start: &Board) -> Result<Solved, OutOfMemory> {
        let ending = answer_by_blank(self.alloc, start)?;
        let stats = Stats {
            expanded: 0,
            known: 0,
            microseconds: 0,
            start_sum: 0,
        };
        Ok(Solved { ending, stats })
    }

    fn solve_ahead(&self, _start: &Board, _held: &[u8]) -> Vec<(Board, Option<Solved>)> {
        Vec::new(self.alloc)
    }

    fn observe(&self, _id: &str, _solved: &Solved) {}
}

fn answer_by_blank(alloc: Global, start: &Board) -> Result<Ending, OutOfMemory> {
    match start.blank() {
        0 => Ok(Ending::Optimal {
            cost: 2,
            plan: copy_of(alloc, &[Move::L, Move::U])?,
        }),
        1 => Ok(Ending::Unsolvable { why: Why::Parity }),
        2 => Ok(Ending::Bounded {
            bound: 21,
            best: None,
            cause: Cause::Limit,
        }),
        _ => {
            with_capacity::<TooLarge>(alloc, 1 << 27)?;
            Ok(Ending::Unsolvable {
                why: Why::Exhausted,
            })
        }
    }
}

#[derive(Clone, Copy, Debug, PartialEq, Eq)]
enum Run {
    // `run_lines` over boards of 2 by 2, answered by `ByBlank`.
    Lines,
    // `run_batch` over boards of 2 by 3, with a goal that is not Korf's and face costs.
    Batch,
    // `run_program` without words.
    Program,
    // `run_cert` over boards of 2 by 2, with Korf's goal and unit costs.
    Certify,
    // `run_check`.
    Check,
    // `run_show`, as text within 24 columns.
    Show,
    // `run_upgrade`.
    Upgrade,
    // `run_replay` over a board of 2 by 2, with one worker, Korf's goal and unit costs.
    Replay,
    // `list_boards` of walks of 12 moves over 2 by 2, which come round to the goal. It reads
    // nothing.
    Boards,
}

// A line for each answer of `ByBlank`, one that is refused before it is asked, and one that is
// passed over.
const LINES: &[u8] = b"a 0 1 2 3\nb 1 0 2 3\nc 1 2 0 3\nd 1 2 3 0\ne 1\n#\n";

// A run over an input, and how it ends where no stream fails.
#[derive(Clone, Copy)]
struct Case {
    run: Run,
    input: &'static [u8],
    // How many reads it makes: one for each byte, and one for the end where it comes there.
    reads: usize,
    output: &'static [u8],
    status: u8,
    // What is reported where the output cannot be written.
    unwritten: &'static str,
}

static CASES: [Case; 22] = [
    Case {
        run: Run::Lines,
        input: LINES,
        reads: 47,
        output: b"{\"cost\":2,\"id\":\"a\",\"plan\":\"LU\",\"status\":\"optimal\"}\n\
                {\"id\":\"b\",\"status\":\"unsolvable\",\"why\":\"parity\"}\n\
                {\"best\":null,\"bound\":21,\"cause\":\"limit\",\"id\":\"c\",\"status\":\"bounded\"}\n\
                {\"fault\":\"V3\",\"line\":4,\"status\":\"refused\"}\n\
                {\"fault\":\"E2\",\"line\":5,\"status\":\"refused\"}\n",
        status: 1,
        unwritten: "tilesolve: B2\n",
    },
    Case {
        run: Run::Batch,
        input: b"b 1 2 3 0 4 5\nc 1 2 0 4 5 3\n",
        reads: 29,
        output: b"{\"cost\":9,\"id\":\"b\",\"plan\":\"RR\",\"status\":\"optimal\"}\n\
                {\"cost\":3,\"id\":\"c\",\"plan\":\"D\",\"status\":\"optimal\"}\n",
        status: 0,
        unwritten: "tilesolve: B2\n",
    },
    Case {
        run: Run::Program,
        input: b"1 1 2 0 3 4 5 6 7 8\nb 1\n#\n",
        reads: 27,
        output: b"{\"cost\":2,\"id\":\"1\",\"plan\":\"LL\",\"status\":\"optimal\"}\n\
                {\"fault\":\"E2\",\"line\":2,\"status\":\"refused\"}\n",
        status: 1,
        unwritten: "tilesolve: B2\n",
    },
    // What follows the line is not read.
    Case {
        run: Run::Certify,
        input: b"\nr 1 0 2 3\n a 0 1 2 3",
        reads: 11,
        output: &ONE_MOVE,
        status: 0,
        unwritten: "tilesolve: F8\n",
    },
    Case {
        run: Run::Certify,
        input: b"a 0 1 2 3",
        reads: 10,
        output: &SOLVED,
        status: 0,
        unwritten: "tilesolve: F8\n",
    },
    Case {
        run: Run::Certify,
        input: b"x 1 3 0 2\n",
        reads: 10,
        output: &THREE_MOVES,
        status: 0,
        unwritten: "tilesolve: F8\n",
    },
    Case {
        run: Run::Certify,
        input: b"\nx 0 1 2\na 0 1 2 3\n",
        reads: 9,
        output: b"{\"fault\":\"E2\",\"line\":2,\"status\":\"refused\"}\n",
        status: 1,
        unwritten: "tilesolve: B2\n",
    },
    Case {
        run: Run::Certify,
        input: b"a 0 2 1 3\n",
        reads: 10,
        output: b"{\"id\":\"a\",\"status\":\"unsolvable\",\"why\":\"parity\"}\n",
        status: 0,
        unwritten: "tilesolve: B2\n",
    },
    Case {
        run: Run::Certify,
        input: b"# none\n",
        reads: 8,
        output: b"",
        status: 0,
        unwritten: "",
    },
    Case {
        run: Run::Check,
        input: &ONE_MOVE_ONE,
        reads: 46,
        output: b"{\"cost\":1,\"status\":\"accepted\"}\n",
        status: 0,
        unwritten: "tilesolve: B2\n",
    },
    Case {
        run: Run::Check,
        input: &SOLVED,
        reads: 38,
        output: b"{\"cost\":0,\"status\":\"accepted\"}\n",
        status: 0,
        unwritten: "tilesolve: B2\n",
    },
    Case {
        run: Run::Check,
        input: &BOUND,
        reads: 42,
        output: b"{\"bound\":1,\"status\":\"accepted\"}\n",
        status: 0,
        unwritten: "tilesolve: B2\n",
    },
    Case {
        run: Run::Check,
        input: b"TILECRT3",
        reads: 8,
        output: b"{\"fault\":\"F1\",\"status\":\"refused\"}\n",
        status: 5,
        unwritten: "tilesolve: B2\n",
    },
    Case {
        run: Run::Show,
        input: &ONE_MOVE_ONE,
        reads: 46,
        output: b"    start      1 L\n     1  .     .  1\n     2  3     2  3\n\n     \
                goal\n     .  1\n     2  3\n\nmoves: 1, cost: 1 (claimed to be least)\n",
        status: 0,
        unwritten: "tilesolve: B2\n",
    },
    Case {
        run: Run::Show,
        input: &BOUND,
        reads: 42,
        output: b"    start     goal\n     1  .     .  1\n     2  3     2  3\n\n\
                bound: 1 (claimed: no plan costs less)\n",
        status: 0,
        unwritten: "tilesolve: B2\n",
    },
    Case {
        run: Run::Show,
        input: b"TILECRT3",
        reads: 8,
        output: b"{\"fault\":\"F1\",\"status\":\"refused\"}\n",
        status: 5,
        unwritten: "tilesolve: B2\n",
    },
    Case {
        run: Run::Upgrade,
        input: &ONE_MOVE_ONE,
        reads: 46,
        output: &ONE_MOVE,
        status: 0,
        unwritten: "tilesolve: F8\n",
    },
    Case {
        run: Run::Upgrade,
        input: &BOUND,
        reads: 42,
        output: &BOUND,
        status: 0,
        unwritten: "tilesolve: F8\n",
    },
    Case {
        run: Run::Upgrade,
        input: b"TILECRT3",
        reads: 8,
        output: b"",
        status: 5,
        unwritten: "",
    },
    // A step is answered where its line is whole, and the report comes at the end of the input.
    Case {
        run: Run::Replay,
        input: b"r 1 0 2 3\ngrant 0\nrest 1\nexpand\nexpand 0\nannounce 0\nrest 0",
        reads: 59,
        output: b"ok\nS15\nB4\nok\nok\nok\n\
                {\"cost\":1,\"id\":\"r\",\"plan\":\"L\",\"status\":\"optimal\"}\n",
        status: 1,
        unwritten: "tilesolve: B2\n",
    },
    Case {
        run: Run::Replay,
        input: b"x 1 0 2\ngrant 0\n",
        reads: 8,
        output: b"{\"fault\":\"E2\",\"line\":1,\"status\":\"refused\"}\n",
        status: 1,
        unwritten: "tilesolve: B2\n",
    },
    Case {
        run: Run::Boards,
        input: b"",
        reads: 0,
        output: b"b1 0 1 2 3\nb2 0 1 2 3\nb3 0 1 2 3\nb4 0 1 2 3\nb5 0 1 2 3\nb6 0 1 2 3\n\
                b7 0 1 2 3\nb8 0 1 2 3\nb9 0 1 2 3\nb10 0 1 2 3\n",
        status: 0,
        unwritten: "tilesolve: B2\n",
    },
];

impl Case {
    // What is reported where the input cannot be read.
    fn unread(&self) -> &'static str {
        if matches!(self.run, Run::Check | Run::Show | Run::Upgrade) {
            "tilesolve: F6\n"
        } else {
            "tilesolve: B1\n"
        }
    }

    // What is due where the read after `read` others fails: of a batch the reports of the lines
    // that are whole, of a replay the answers to those behind the first, and else nothing.
    fn due_before(&self, read: usize) -> &'static [u8] {
        let lines = lines_of(beginning(self.input, read));
        match self.run {
            Run::Certify | Run::Check | Run::Show | Run::Upgrade => b"",
            Run::Replay => first_lines(self.output, lines.saturating_sub(1)),
            _ => first_lines(self.output, lines),
        }
    }

    // Whether it flushes after each report.
    fn reports_lines(&self) -> bool {
        matches!(
            self.run,
            Run::Lines | Run::Batch | Run::Program | Run::Replay
        )
    }

    // How many writes and flushes it makes for such a beginning of the output: one for each byte,
    // and a flush behind each report of a line.
    fn calls_for(&self, written: &[u8]) -> usize {
        let flushes = if self.reports_lines() {
            lines_of(written)
        } else {
            0
        };
        written.len().saturating_add(flushes)
    }

    // How many it makes in all: a certificate, or the report in its place, is flushed behind its
    // last byte, and so is a list of boards; the program flushes once more.
    fn calls(&self) -> usize {
        let flushes_last = match self.run {
            Run::Program => true,
            Run::Certify | Run::Upgrade | Run::Boards => !self.output.is_empty(),
            _ => false,
        };
        self.calls_for(self.output)
            .saturating_add(flushes_last as usize)
    }

    // What is written where the write or flush after `call` others fails.
    fn due_at(&self, call: usize) -> &'static [u8] {
        for place in 0..self.output.len() {
            let next = &self.output[..place + 1];
            if call < self.calls_for(next) {
                // The flush of a report fails behind its last byte.
                let whole = call + 1 == self.calls_for(next) && next[place] == b'\n';
                return if whole && self.reports_lines() {
                    next
                } else {
                    &self.output[..place]
                };
            }
        }
        self.output
    }
}

// How many line feeds a text has.
fn lines_of(text: &[u8]) -> usize {
    let mut lines: usize = 0;
    for byte in text {
        if *byte == b'\n' {
            lines = lines.saturating_add(1);
        }
    }
    lines
}

// The first lines of a text, this many, or all.
fn first_lines(text: &[u8], lines: usize) -> &[u8] {
    let mut left = lines;
    for (place, byte) in text.iter().enumerate() {
        if left == 0 {
            return &text[..place];
        }
        if *byte == b'\n' {
            left -= 1;
        }
    }
    text
}

// The first bytes of a text, this many, or all.
fn beginning(text: &[u8], count: usize) -> &[u8] {
    &text[..count.min(text.len())]
}

// How a run ended, and what it left.
#[derive(Drop)]
struct Ended {
    status: u8,
    told: Vec<u8>,
    written: Vec<u8>,
    flushes: usize,
    unread: usize,
}

// Runs a case over an input, an output and a standard error, where each fails at the call after
// this many others.
fn end<R: Threads + Wait + AllocGlobal + Sync>(
    rt: &R,
    case: &Case,
    read: usize,
    write: usize,
    tell: usize,
) -> Ended {
    let alloc = rt.alloc();
    let mut source = ByteSource::new(FailingReader {
        bytes: case.input,
        reads_before: read,
        kind: ErrorKind::Interrupted,
    });
    let mut sink = ByteSink::new(FailingWriter::new(alloc, write, None));
    let mut errors = ByteSink::new(FailingWriter::new(alloc, tell, None));
    let status = start(rt, case.run, &mut source, &mut sink, &mut errors);
    let writer = sink.into_inner();
    Ended {
        status,
        told: errors.into_inner().taken,
        written: writer.taken,
        flushes: writer.flushes,
        unread: source.into_inner().bytes.len(),
    }
}

// Starts a run, and tells how it ended. The answer is its status.
fn start<R: Threads + Wait + AllocGlobal + Sync>(
    rt: &R,
    run: Run,
    source: &mut ByteSource<FailingReader>,
    sink: &mut ByteSink<FailingWriter>,
    errors: &mut ByteSink<FailingWriter>,
) -> u8
    requires { sink_has_failed sink.old ≡ false }
{
    let alloc = rt.alloc();
    match run {
        Run::Lines => tell_counts(report_lines(alloc, source, sink), errors),
        Run::Batch => report_batch(rt, alloc, source, sink, errors),
        Run::Program => run_program(rt, alloc, &[], source, sink, errors),
        Run::Certify => tell_status(certify_square(rt, alloc, source, sink), errors),
        Run::Check => tell_status(run_check(rt, alloc, source, sink), errors),
        Run::Show => tell_status(show_narrow(alloc, source, sink), errors),
        Run::Upgrade => tell_status(run_upgrade(alloc, source, sink), errors),
        Run::Replay => tell_status(replay_square(rt, alloc, source, sink), errors),
        Run::Boards => list_walks(sink, errors),
    }
}

fn report_lines(
    alloc: Global,
    source: &mut ByteSource<FailingReader>,
    sink: &mut ByteSink<FailingWriter>,
) -> Result<Summary, LinesFault> {
    let shape = square();
    run_lines(alloc, source, sink, &ByBlank { alloc, shape })
}

fn report_batch<R: Threads + Wait + Sync>(
    rt: &R,
    alloc: Global,
    source: &mut ByteSource<FailingReader>,
    sink: &mut ByteSink<FailingWriter>,
    errors: &mut ByteSink<FailingWriter>,
) -> u8 {
    let Some(setup) = setup_of_faces(alloc) else {
        // No run ends so.
        return 255;
    };
    tell_counts(run_batch(rt, alloc, source, sink, &setup, &Free), errors)
}

fn certify_square<R: Threads + Wait + Sync>(
    rt: &R,
    alloc: Global,
    source: &mut ByteSource<FailingReader>,
    sink: &mut ByteSink<FailingWriter>,
) -> Result<u8, CertifyFault> {
    run_cert(rt, alloc, source, sink, &setup_of_square(alloc), &Free)
}

fn show_narrow(
    alloc: Global,
    source: &mut ByteSource<FailingReader>,
    sink: &mut ByteSink<FailingWriter>,
) -> Result<u8, CheckFault> {
    run_show(alloc, Style::Text { width: 24 }, source, sink)
}

fn replay_square<R: Threads + Sync>(
    rt: &R,
    alloc: Global,
    source: &mut ByteSource<FailingReader>,
    sink: &mut ByteSink<FailingWriter>,
) -> Result<u8, LinesFault> {
    run_replay(rt, alloc, source, sink, &setup_of_square(alloc))
}

fn list_walks(sink: &mut ByteSink<FailingWriter>, errors: &mut ByteSink<FailingWriter>) -> u8 {
    let walks = Choice::Walked {
        moves: 12,
        count: 10,
        seed: 0,
    };
    match list_boards(sink, &Board::goal(square()), walks) {
        Ok(()) => 0,
        Err(_) => batch_cli::Ending::Faulted(BatchFault::Write).tell(errors),
    }
}

fn tell_counts(counts: Result<Summary, LinesFault>, errors: &mut ByteSink<FailingWriter>) -> u8 {
    match counts {
        Ok(counts) => batch_cli::Ending::Ran(counts).tell(errors),
        Err(fault) => batch_cli::Ending::Faulted(BatchFault::from(fault)).tell(errors),
    }
}

fn tell_status<F: Into<BatchFault>>(
    status: Result<u8, F>,
    errors: &mut ByteSink<FailingWriter>,
) -> u8 {
    match status {
        Ok(status) => status,
        Err(fault) => batch_cli::Ending::Faulted(fault.into()).tell(errors),
    }
}

// 2 by 2.
fn square() -> Shape {
    Shape::new(2, 2).unwrap()
}

// Korf's goal, at unit cost.
fn setup_of_square(alloc: Global) -> Setup {
    let shape = square();
    Setup::new(alloc, Board::goal(shape), Weights::unit(shape))
}

// A goal of 2 by 3 with the blank in the last cell, at face cost.
fn setup_of_faces(alloc: Global) -> Option<Setup> {
    let shape = Shape::new(2, 3).ok()?;
    let goal = Board::from_tiles(shape, &[1, 2, 3, 4, 5, 0]).ok()?;
    Some(Setup::new(alloc, goal, Weights::face(shape)))
}

// Whether a run fails so, and not otherwise where that cannot be reported.
fn fails_so<R: Threads + Wait + AllocGlobal + Sync>(
    rt: &R,
    case: &Case,
    read: usize,
    write: usize,
    told: &str,
    due: &[u8],
) -> bool {
    for tell in [0, 1, NEVER] {
        let ended = end(rt, case, read, write, tell);
        if ended.status != 3
            || ended.told.as_slice() != beginning(told.as_bytes(), tell)
            || ended.written.as_slice() != due
        {
            return false;
        }
    }
    true
}

// Whether a run ends as is due where no call fails, and leaves what is behind the bytes that it is
// to read.
fn succeeds<R: Threads + Wait + AllocGlobal + Sync>(rt: &R, case: &Case) -> bool {
    let ended = end(rt, case, NEVER, NEVER, NEVER);
    ended.status == case.status
        && ended.told.is_empty()
        && ended.written.as_slice() == case.output
        && ended.flushes == case.calls().saturating_sub(case.output.len())
        && ended.unread == case.input.len().saturating_sub(case.reads)
}

// The read and the write, counted from 0, that first end a run otherwise than is due where they
// fail.
fn first_wrong_end<R: Threads + Wait + AllocGlobal + Sync>(
    rt: &R,
    case: &Case,
) -> Option<(usize, usize)> {
    if !succeeds(rt, case) {
        return Some((NEVER, NEVER));
    }
    for read in 0..case.reads {
        let due = case.due_before(read);
        // The first fault decides: the program's flush fails in vain behind it.
        for write in [NEVER, case.calls_for(due)] {
            if !fails_so(rt, case, read, write, case.unread(), due) {
                return Some((read, write));
            }
        }
    }
    for write in 0..case.calls() {
        if !fails_so(rt, case, NEVER, write, case.unwritten, case.due_at(write)) {
            return Some((NEVER, write));
        }
    }
    None
}

#[test]
fn each_call_of_a_run_fails_in_turn(rt: HostRuntime) {
    for case in &CASES {
        assert_eq!(rt; first_wrong_end(&rt, case), None, "{:?}", case.run);
    }
}

// The counts of the answers to `LINES`.
fn counts_of_lines(alloc: Global) -> Result<Summary, LinesFault> {
    let shape = square();
    let mut source = ByteSource::new(LINES);
    let mut sink = ByteSink::new(Vec::new(alloc));
    run_lines(alloc, &mut source, &mut sink, &ByBlank { alloc, shape })
}

#[test]
fn answers_are_counted(rt: HostRuntime) {
    let counts = Summary {
        optimal: 1,
        unsolvable: 1,
        bounded: 1,
        refused: 2,
    };
    assert_eq!(rt; counts_of_lines(rt.alloc()), Ok(counts));
}

// Lines of boards of 2 by 2, as many as several workers solve side by side.
const MANY_LINES: &[u8] = b"a 1 0 2 3\nb 1 3 2 0\nc 1 3 0 2\n# d 1 0 2 3\ne 2 1 0 3\nf 1 0 2\n\
    g 0 1 2 3\nh 2 1 0 3\ni 1 0 2 3\nj 1 3 2 0\nk 1 3 0 2\nl 0 1 2 3\nm 1 0 2 3\nn 1 3 2 0\n\
    o 1 3 0 2\np 0 1 2 3\nq 1 0 2 3\nr 1 3 2 0\ns 1 3 0 2\nt 0 1 2 3\nu 1 0 2 3";

// Lines of boards of 2 by 5, as many as several workers solve side by side.
const LARGER_LINES: &[u8] = b"a 1 0 2 3 4 5 6 7 8 9\nb 1 6 2 3 4 5 0 7 8 9\n\
    c 1 6 2 3 4 0 5 7 8 9\nd 0 2 1 3 4 5 6 7 8 9\ne 0 6 2 3 4 1 5 7 8 9\nf 1 0\n# g\n\
    h 0 1 2 3 4 5 6 7 8 9\ni 1 2 0 3 4 5 6 7 8 9\nj 1 2 3 0 4 5 6 7 8 9\n\
    k 1 2 3 4 0 5 6 7 8 9\nl 1 2 3 4 9 5 6 7 8 0\nm 1 2 3 4 9 5 6 7 0 8\n\
    n 1 2 3 4 9 5 6 0 7 8\no 5 1 2 3 4 0 6 7 8 9\np 5 1 2 3 4 6 0 7 8 9\n";

// Lines that are held together, how many times they come, and how many boards may be expanded for
// each.
struct Held {
    cols: u8,
    lines: &'static [u8],
    times: usize,
    limit: u64,
}

// The last ones are more than are looked at together, and fewer than a buffer has.
static HELD: [Held; 4] = [
    Held {
        cols: 2,
        lines: MANY_LINES,
        times: 1,
        limit: u64::MAX,
    },
    Held {
        cols: 5,
        lines: LARGER_LINES,
        times: 1,
        limit: u64::MAX,
    },
    Held {
        cols: 5,
        lines: LARGER_LINES,
        times: 1,
        limit: 2,
    },
    Held {
        cols: 2,
        lines: MANY_LINES,
        times: 300,
        limit: u64::MAX,
    },
];

// Lines that come again and again.
fn repeated(alloc: Global, lines: &[u8], times: usize) -> Option<Vec<u8>> {
    let mut all = Vec::new(alloc);
    'times: for _ in 0..times {
        'bytes: for k in 0..lines.len() {
            push(&mut all, lines[k]).ok()?;
        }
        push(&mut all, b'\n').ok()?;
    }
    Some(all)
}

// A gate that counts the boards that are expanded.
#[derive(Drop)]
struct Counter {
    expanded: AtomicU64,
}

impl Gate for Counter {
    fn pass(&self, _worker: usize, kind: Kind) {
        if kind == Kind::Expand {
            let _ = self.expanded.fetch_add(1, Ordering::SeqCst);
        }
    }
}

// What is reported of lines by `workers` workers, where each solves a board alone, and how many
// boards they expand.
fn reports_by<R: Threads + Wait + Sync>(
    rt: &R,
    alloc: Global,
    held: &Held,
    workers: usize,
) -> Option<(Vec<u8>, u64)> {
    let shape = Shape::new(2, held.cols).ok()?;
    let plain = Setup::new(alloc, Board::goal(shape), Weights::unit(shape));
    let setup = plain.limit(held.limit).workers(workers).ok()?;
    let lines = repeated(alloc, held.lines, held.times)?;
    reports_with(rt, alloc, &lines, &setup)
}

fn reports_with<R: Threads + Wait + Sync>(
    rt: &R,
    alloc: Global,
    lines: &[u8],
    setup: &Setup,
) -> Option<(Vec<u8>, u64)> {
    let mut source = BufferedSource::new(alloc, lines).ok()?;
    let mut sink = ByteSink::new(Vec::new(alloc));
    let gate = Counter {
        expanded: AtomicU64::new(0),
    };
    match run_batch(rt, alloc, &mut source, &mut sink, setup, &gate) {
        Ok(_) => Some((sink.into_inner(), gate.expanded.load(Ordering::SeqCst))),
        Err(_) => None,
    }
}

#[test]
fn held_lines_are_reported_alike(rt: HostRuntime) {
    for held in &HELD {
        let one = reports_by(&rt, rt.alloc(), held, 1);
        assert!(&rt; one.is_some());
        assert_eq!(rt; one, reports_by(&rt, rt.alloc(), held, 3));
    }
}
