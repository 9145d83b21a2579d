//! Setups that words say.

ghost use Rattle.std.specs.Prelude.{◌≡◌, IfSome};
ghost use Rattle.batch_runs.specs.Setups.{Guides};

use batch_cli::{Setup, SpreadKind};
use board::{Board, Shape, Weights};
use lower_bound::Bound;
use std::alloc::Global;

// The values of a setup's words, each by its own name.
#[derive(Clone, Copy)]
struct Words<'a> {
    rows: &'a str,
    cols: &'a str,
    cost: &'a str,
    goal: &'a str,
    groups: &'a str,
    workers: &'a str,
    spread: &'a str,
    limit: &'a str,
}

/// The setup that words say, as `--rows 2 --cols 2 --groups none`, or `None` where they say none.
///
/// `--rows` and `--cols` are needed. `--cost` is `unit` or `face`, `--goal` has tiles with commas
/// between, `--groups` is `none` or one group of such tiles, `--workers` and `--limit` are numbers,
/// and `--spread` is `zobrist`, `blank` or `abstract`.
pub fn setup_of(alloc: Global, text: &str) -> Option<Setup> {
    let words = words_of(text)?;
    let limit = limit_of(words.limit)?;
    let spread = spread_of(words.spread)?;
    let workers = words.workers.parse().ok()?;
    let setup = guided_setup(alloc, &words)?;
    setup.limit(limit).spread(spread).workers(workers).ok()
}

// The setup of these words without its limit and workers.
fn guided_setup(alloc: Global, words: &Words<'_>) -> Option<Setup> {
    let shape = shape_of(words.rows, words.cols)?;
    let goal = goal_of(alloc, shape, words.goal)?;
    let weights = weights_of(shape, words.cost)?;
    if words.groups == "none" {
        return Some(Setup::new(alloc, goal, weights));
    }
    let bound = bound_of(alloc, &goal, &weights, words.groups)?;
    Some(Setup::new(alloc, goal, weights).bound(bound))
}

// The words by their names, with a default for each that is left out.
fn words_of(text: &str) -> Option<Words<'_>> {
    let mut words = Words {
        rows: "",
        cols: "",
        cost: "unit",
        goal: "korf",
        groups: "none",
        workers: "1",
        spread: "zobrist",
        limit: "none",
    };
    for option in text.strip_prefix("--")?.split(" --") {
        let (name, value) = option.split_once(' ')?;
        *word_named(&mut words, name)? = value;
    }
    Some(words)
}

// The word of this name, if there is one.
fn word_named<'a, 'b>(words: &'b mut Words<'a>, name: &str) -> Option<&'b mut &'a str> {
    match name {
        "rows" => Some(&mut words.rows),
        "cols" => Some(&mut words.cols),
        "cost" => Some(&mut words.cost),
        "goal" => Some(&mut words.goal),
        "groups" => Some(&mut words.groups),
        "workers" => Some(&mut words.workers),
        "spread" => Some(&mut words.spread),
        "limit" => Some(&mut words.limit),
        _ => None,
    }
}

fn shape_of(rows: &str, cols: &str) -> Option<Shape> {
    let rows = rows.parse().ok()?;
    let cols = cols.parse().ok()?;
    Shape::new(rows, cols).ok()
}

// Korf's goal, or the board of these tiles.
fn goal_of(alloc: Global, shape: Shape, word: &str) -> Option<Board>
    ensures { IfSome result (λ goal. goal.grid ≡ shape) }
{
    if word == "korf" {
        return Some(Board::goal(shape));
    }
    let tiles = tiles_of(alloc, word)?;
    Board::from_tiles(shape, tiles.as_slice()).ok()
}

// Numbers with commas between.
fn tiles_of(alloc: Global, word: &str) -> Option<Vec<u8>> {
    let mut tiles = Vec::new(alloc);
    for tile in word.split(',') {
        tiles.push(tile.parse().ok()?).ok()?;
    }
    Some(tiles)
}

fn weights_of(shape: Shape, word: &str) -> Option<Weights>
    ensures { IfSome result (λ weights. weights.grid ≡ shape) }
{
    match word {
        "unit" => Some(Weights::unit(shape)),
        "face" => Some(Weights::face(shape)),
        _ => None,
    }
}

fn limit_of(word: &str) -> Option<u64> {
    match word {
        "none" => Some(u64::MAX),
        _ => word.parse().ok(),
    }
}

fn spread_of(word: &str) -> Option<SpreadKind> {
    match word {
        "zobrist" => Some(SpreadKind::Zobrist),
        "blank" => Some(SpreadKind::Blank),
        "abstract" => Some(SpreadKind::Abstract),
        _ => None,
    }
}

// The bound of one group, or None where these tiles are no group or memory is refused.
fn bound_of(alloc: Global, goal: &Board, weights: &Weights, word: &str) -> Option<Bound>
    requires { weights.now.grid ≡ goal.now.grid }
    ensures { IfSome result (λ bound. Guides goal.now weights.now bound) }
{
    let tiles = tiles_of(alloc, word)?;
    test_worlds::bound_of(alloc, goal, weights, &[tiles.as_slice()])
}
