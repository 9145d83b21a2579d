//! The texts of help.

/// The program's version.
pub(crate) const VERSION: &str = "1.0.0";

/// The usage of the program, which needs no subcommand: without arguments it solves 3 by 3 boards.
pub(crate) const USAGE: &str = "tilesolve [COMMAND]";

/// What the program does.
pub(crate) const PROGRAM: &str =
    "Solve sliding-tile puzzles optimally, and check certificates of the answers";

/// The same in detail.
pub(crate) const PROGRAM_LONG: &str = "\
Solve sliding-tile puzzles of 2 by 2 to 5 by 5 cells optimally, and check certificates of the
answers. Boards are read from standard input, and answers go to standard output. A board is
one line: an id, then the tile on each cell, row by row, with 0 for the blank. Blank lines and
lines that begin with # are skipped.";

/// Examples of the program, its statuses, and where its formats are described.
pub(crate) const PROGRAM_AFTER: &str = "\
Examples:
  echo 'easy 1 2 0 3 4 5 6 7 8' | tilesolve
  echo 'b 1 0 2 3' | tilesolve solve --rows 2 --cols 2
  echo 'b 1 0 2 3' | tilesolve solve --rows 2 --cols 2 --cert | tilesolve check
  echo 'b 1 0 2 3' | tilesolve solve --rows 2 --cols 2 --cert | tilesolve show
  tilesolve boards --rows 3 --cols 3 | tilesolve

Without arguments: tilesolve solve --rows 3 --cols 3

Exit status:
  0  every line optimal or unsolvable, a certificate accepted, shown or upgraded, or boards listed
  1  some line is bounded or refused, or a replay line is not a step (B4)
  2  invalid arguments, or a fault of --goal (E2 to E4), --cost (E13, E14) or --groups (E5 to E10)
  3  standard input can't be read (B1, F6) or standard output can't be written (B2, F8)
  4  out of memory (memory, B3, F7)
  5  the certificate is refused (F1 to F5, C1 to C7)

Formats: CLI.md and CERTIFICATE.md, in docs or share/doc/tilesolve";

/// What `solve` does.
pub(crate) const SOLVE: &str = "Report an optimal plan for each board";

/// The same in detail.
pub(crate) const SOLVE_LONG: &str = "\
Report an optimal plan for each board on standard input, or that no plan exists, or, if the search
ends early, a lower bound on the cost of every plan. The pattern databases that guide the search are
built once for all boards.";

/// Examples of `solve`, statuses of its reports and its own, codes, and where to read on.
pub(crate) const SOLVE_AFTER: &str = "\
Examples:
  echo 'a 8 0 6 5 4 7 2 3 1' | tilesolve solve --rows 3 --cols 3
  echo 'b 1 2 3 4 5 6 7 8 9 10 11 12 13 14 0 15' |
    tilesolve solve --rows 4 --cols 4 --goal 1,2,3,4,5,6,7,8,9,10,11,12,13,14,15,0
  echo 'c 3 2 1 0' | tilesolve solve --rows 2 --cols 2 --cost face --groups 1,2/3 --cert |
    tilesolve check
  echo 'd 8 0 6 5 4 7 2 3 1' | tilesolve solve --rows 3 --cols 3 --cost 255,255,1,1,1,1,1,1

Status of a report:
  optimal     with a plan of least cost, whose letters move the blank: U up, L left, R right, D down
  unsolvable  no plan exists
  bounded     the search ended early, and no plan costs less than the bound
  refused     the line is not a board (fault E2 to E4 or E12), or out of memory (V3)

Exit status:
  0  every line is optimal or unsolvable
  1  some line is bounded or refused
  2  invalid arguments, or a fault of --goal (E2 to E4), --cost (E13, E14) or --groups (E5 to E10)
  3  standard input can't be read (B1) or standard output can't be written (B2, F8)
  4  out of memory for the tables (memory) or for a report (B3)

Codes of a refused line and of --goal:
  E2   wrong number of tiles
  E3   a tile is not a number below the number of cells
  E4   duplicate tile

Codes of --groups:
  E5   empty group
  E6   not a tile
  E7   duplicate tile in a group
  E8   a group has more than 67108864 views
  E9   two groups share a tile
  E10  more than 24 groups

Codes of --cost:
  E13  not unit, face or one weight for each tile
  E14  a weight is not a number from 1 to 255

Codes of a refused line alone:
  E12  the line is longer than 1024 bytes or not UTF-8
  V3   out of memory before the search starts

Formats: CLI.md, in docs or share/doc/tilesolve";

/// What `check` does.
pub(crate) const CHECK: &str = "Check a certificate";

/// The same in detail.
pub(crate) const CHECK_LONG: &str = "\
Check that the certificate on standard input proves its claim: that its plan is optimal, or that no
plan costs less than its bound. The check trusts nothing of the run that wrote the certificate, and
builds the pattern databases of the certificate's groups itself.";

/// Examples of `check`, its statuses, and where its formats are described.
pub(crate) const CHECK_AFTER: &str = "\
Examples:
  echo 'a 1 0 2 3' | tilesolve solve --rows 2 --cols 2 --cert > a.cert
  tilesolve check < a.cert
  head -c 40 a.cert | tilesolve check

Exit status:
  0  the certificate is accepted
  2  invalid arguments
  3  standard input can't be read (F6) or standard output can't be written (B2)
  4  out of memory for the certificate or its tables (F7) or for the report (B3)
  5  the certificate is refused: malformed (F1 to F5) or not a proof (C1 to C7)

Format and codes: CERTIFICATE.md, in docs or share/doc/tilesolve";

/// What `show` does.
pub(crate) const SHOW: &str = "Draw the boards of a certificate";

/// The same in detail.
pub(crate) const SHOW_LONG: &str = "\
Draw the certificate on standard input: its start, the board after each move of its plan, and its
goal. Its plan is followed, but rows and groups are not checked.";

/// Examples of `show`, its statuses, and where its formats are described.
pub(crate) const SHOW_AFTER: &str = "\
Examples:
  echo 'a 1 2 0 3 4 5 6 7 8' | tilesolve solve --rows 3 --cols 3 --cert > a.cert
  tilesolve show --width 40 < a.cert
  tilesolve show --svg < a.cert > a.svg

Exit status:
  0  the certificate is drawn
  2  invalid arguments
  3  standard input can't be read (F6) or standard output can't be written (B2)
  4  out of memory for the certificate or its drawing (F7) or for the report (B3)
  5  the certificate is refused: malformed (F1 to F5) or its plan is wrong (C1 to C3)

Format and codes: CERTIFICATE.md, in docs or share/doc/tilesolve";

/// What `upgrade` does.
pub(crate) const UPGRADE: &str = "Rewrite a certificate in version 2";

/// The same in detail.
pub(crate) const UPGRADE_LONG: &str = "\
Read a certificate of version 1 or 2 on standard input and write it in version 2. Its claim is not
checked.";

/// Examples of `upgrade`, its statuses, and where its formats are described.
pub(crate) const UPGRADE_AFTER: &str = "\
Examples:
  tilesolve upgrade < old.cert > new.cert
  tilesolve upgrade < old.cert | tilesolve check

Exit status:
  0  the certificate is written
  2  invalid arguments
  3  standard input can't be read (F6) or standard output can't be written (F8)
  4  out of memory for the certificate (F7)
  5  standard input is not a certificate (F1 to F5), and nothing is written

Format and codes: CERTIFICATE.md, in docs or share/doc/tilesolve";

/// What `replay` does.
pub(crate) const REPLAY: &str = "Run the steps of a parallel search one by one";

/// The same in detail.
pub(crate) const REPLAY_LONG: &str = "\
Run the steps of workers that share the search for one board, as standard input lists them, and
answer each step. The first line is the board. At the end, report what the workers know.";

/// Examples of `replay`, its steps, its statuses, and where its formats are described.
pub(crate) const REPLAY_AFTER: &str = "\
Examples:
  printf 'a 1 0 2 3\\ngrant 0\\nexpand 0\\nannounce 0\\nrest 0\\n' |
    tilesolve replay --rows 2 --cols 2
  printf 'b 1 0 2 3\\ngrant 1\\nexpand 1\\ndraw 1\\nsend 1 0\\ndeliver 0 1\\nsettle 0\\n' |
    tilesolve replay --rows 2 --cols 2 --workers 2 --spread blank --groups none
  printf 'c 1 0 2 3\\nhalt 0 memory\\n' | tilesolve replay --rows 2 --cols 2

Steps of worker i, or of workers i and j:
  expand i, settle i, send i j, deliver i j, draw i, announce i, grant i, rest i,
  halt i limit, halt i memory, halt i start

Exit status:
  0  the report is optimal or unsolvable, and every line is a step
  1  the report is bounded or refused, or some line is not a step (B4)
  2  invalid arguments, or a fault of --goal (E2 to E4), --cost (E13, E14) or --groups (E5 to E10)
  3  standard input can't be read (B1) or standard output can't be written (B2)
  4  out of memory for the tables (memory) or for a report (B3)

What the steps do, answers and codes: CLI.md, in docs or share/doc/tilesolve";

/// What `boards` does.
pub(crate) const BOARDS: &str = "List boards to solve";

/// The same in detail.
pub(crate) const BOARDS_LONG: &str = "\
List boards with a plan to the goal, as lines for solve: drawn uniformly, reached by walks from the
goal (--moves), or all of them (--all). Nothing is read.";

/// Examples of `boards`, its statuses, and where its formats are described.
pub(crate) const BOARDS_AFTER: &str = "\
Examples:
  tilesolve boards --rows 3 --cols 3 | tilesolve
  tilesolve boards --rows 4 --cols 4 --moves 40 --count 3 --seed 7
  tilesolve boards --rows 2 --cols 3 --all --goal 1,2,3,4,5,0

Exit status:
  0  the boards are listed
  2  invalid arguments, a fault of --goal (E2 to E4), or --all with --count, --moves or over 9 cells
  3  standard output can't be written (B2)
  4  out of memory (memory)

Format: CLI.md, in docs or share/doc/tilesolve";

/// The option `--rows`.
pub(crate) const ROWS: &str = "Rows of each board, 2 to 5";

/// The option `--cols`.
pub(crate) const COLS: &str = "Columns of each board, 2 to 5";

/// The option `--cost`.
pub(crate) const COST: &str = "\
Cost of a move: unit (1), face (the number on the tile), or a weight from 1
to 255 for each tile, such as 3,1,2";

/// The option `--goal`.
pub(crate) const GOAL: &str = "Tiles of the goal, row by row, such as 1,2,3,0 [default: 0,1,2, ..]";

/// The option `--groups`.
pub(crate) const GROUPS: &str = "\
Groups of tiles, each with a pattern database, such as 1,2/3, or none
[default: the tiles in order, in groups of 2 (up to 6 cells), 4 (up to 10),
5 (up to 16) or 4 (more)]";

/// The option `--fold`.
pub(crate) const FOLD: &str = "\
Fold the pattern databases: for each placement of a group's tiles, keep
only the least value over the blank's cells. This takes less memory but
expands more boards. Plans cost the same";

/// The option `--workers`.
pub(crate) const WORKERS: &str = "1 to 16 workers: they solve lines side by side, or share one";

/// The option `--workers` of `replay`.
pub(crate) const REPLAYED_WORKERS: &str = "Number of workers that share the board, 1 to 16";

/// The option `--spread`.
pub(crate) const SPREAD: &str = "\
Divide boards among workers by a hash of all tiles (zobrist), the blank's
cell (blank) or a hash of every fourth tile (abstract, mostly the
fastest)";

/// The option `--limit`.
pub(crate) const LIMIT: &str = "\
Maximum number of boards to expand for each line, 0 or more
[default: 2^64 - 1]";

/// The option `--limit` of `replay`.
pub(crate) const REPLAYED_LIMIT: &str = "\
Maximum number of boards that the workers expand in all, 0 or more
[default: 2^64 - 1]";

/// The option `--cert`.
pub(crate) const CERT: &str = "\
Solve only the first board: write a certificate of its plan or bound, else
its report";

/// The option `--width`.
pub(crate) const WIDTH: &str = "Columns for boards side by side, from 20 to 1000";

/// The option `--svg`.
pub(crate) const SVG: &str = "Write an SVG file, in which the tiles slide move by move";

/// The option `--seconds`.
pub(crate) const SECONDS: &str = "Seconds of each move in an SVG file, from 1 to 60";

/// The option `--count`.
pub(crate) const COUNT: &str = "Number of boards [default: 10]";

/// The option `--seed`.
pub(crate) const SEED: &str = "Seed of the draws: the same seed gives the same boards";

/// The option `--moves`.
pub(crate) const MOVES: &str = "\
Walk this many moves from the goal to each board, 0 to 1000000; no move
undoes the last";

/// The option `--all`.
pub(crate) const ALL: &str = "\
List all boards with a plan to the goal, in rising order of their tiles (at
most 9 cells)";

/// The option `--progress`.
pub(crate) const PROGRESS: &str = "Print on standard error how far the search is, once a second";

/// The option `--stats`.
pub(crate) const STATS: &str = "\
Print figures of the search for each answered board on standard error, as
one line of JSON (none with --cert)";
