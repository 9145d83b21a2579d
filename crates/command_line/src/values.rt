//! The values of a subcommand's options, which the parser has judged.

ghost use Rattle.std.specs.Prelude.{ℕ, ◌≡◌, ◌≢◌, ◌↔◌, ◌<◌, IsTrue, IfSome, IfNone, Some, codes};
ghost use Rattle.board.specs.Shapes.{ShapeModel};
ghost use Rattle.batch_runs.specs.declared.setup.SpreadKind.{SpreadKind};
ghost use Rattle.drawings.specs.declared.drawing.Style.{Style};
ghost use Rattle.clap.specs.Words.{first_of, found_of, rows_of};
ghost use Rattle.command_line.specs.Requests.{HasNumber, HasShape, HasWorkers, AreValues, IsStyle};
ghost use Rattle.command_line.specs.Requests.{spread_text, LackValues};

use batch_runs::SpreadKind;
use board::Shape;
use clap::ArgMatches;
use drawings::Style;

/// The values of a subcommand's options. The texts of the goal, of the costs and of the groups are
/// not yet read.
#[derive(Clone, Copy, Debug)]
pub(crate) struct Values<'a> {
    pub shape: Shape,
    pub goal: Option<&'a str>,
    pub costs: Option<&'a str>,
    pub groups: Option<&'a str>,
    pub fold: bool,
    pub workers: u8,
    pub spread: SpreadKind,
    pub limit: u64,
    pub progress: bool,
    pub stats: bool,
}

// What the values of the options say. Nothing is answered only where they lack a value that an
// option may have.
pub(crate) fn values_in<'a>(matches: &ArgMatches<'a>) -> Option<Values<'a>>
    ensures value { IfSome result (AreValues (rows_of (found_of matches.now))) }
    ensures none { IfNone result (LackValues (rows_of (found_of matches.now))) }
{
    let shape = shape_in(matches)?;
    let workers = workers_in(matches)?;
    let spread = spread_in(matches)?;
    let limit = number_in(matches, "limit")?;
    Some(Values {
        shape,
        goal: matches.get_str("goal"),
        costs: matches.get_str("cost"),
        groups: matches.get_str("groups"),
        fold: is_set(matches, "fold"),
        workers,
        spread,
        limit,
        progress: is_set(matches, "progress"),
        stats: is_set(matches, "stats"),
    })
}

// How the values of the options of `show` say that a certificate is drawn.
pub(crate) fn style_in(matches: &ArgMatches<'_>) -> Option<Style>
    ensures value { IfSome result (IsStyle (rows_of (found_of matches.now))) }
    ensures none { IfNone result ((look : Style) → ¬ IsStyle (rows_of (found_of matches.now)) look) }
{
    if is_set(matches, "svg") {
        let seconds = byte_in(matches, "seconds")?;
        return Some(Style::Svg { seconds });
    }
    let width = short_in(matches, "width")?;
    Some(Style::Text { width })
}

// Whether the option without a value is there.
pub(crate) fn is_set(matches: &ArgMatches<'_>, id: &str) -> bool
    ensures { IsTrue result
        ↔ (first_of id.now (rows_of (found_of matches.now)) ≡ Some (codes "true")) }
{
    match matches.get_str(id) {
        Some(text) => text == "true",
        None => false,
    }
}

// The shape that the rows and columns say.
#[tactic(auto, using(crate::proofs::ParseLemmas::no_shape))]
pub(crate) fn shape_in(matches: &ArgMatches<'_>) -> Option<Shape>
    ensures value { IfSome result (HasShape (rows_of (found_of matches.now))) }
    ensures none { IfNone result ((grid : ShapeModel)
        → ¬ HasShape (rows_of (found_of matches.now)) grid) }
{
    let rows = byte_in(matches, "rows")?;
    let cols = byte_in(matches, "cols")?;
    let Ok(shape) = Shape::new(rows, cols) else {
        return None;
    };
    Some(shape)
}

// How many workers `--workers` says, from 1 to 16 as the parser takes them.
#[tactic(auto, using(crate::proofs::ParseLemmas::none_or_many))]
fn workers_in(matches: &ArgMatches<'_>) -> Option<u8>
    ensures value { IfSome result (HasWorkers (rows_of (found_of matches.now))) }
    ensures none { IfNone result ((n : ℕ) → ¬ HasWorkers (rows_of (found_of matches.now)) n) }
{
    let workers = byte_in(matches, "workers")?;
    if workers == 0 || workers > 16 {
        return None;
    }
    Some(workers)
}

// The number that the option's value says.
fn byte_in(matches: &ArgMatches<'_>, id: &str) -> Option<u8>
    ensures value { IfSome result (HasNumber (rows_of (found_of matches.now)) id.now) }
    ensures none { IfNone result ((n : ℕ)
        → n < 256 → ¬ HasNumber (rows_of (found_of matches.now)) id.now n) }
{
    matches.get_one::<u8>(id)
}

// The number that the option's value says.
fn short_in(matches: &ArgMatches<'_>, id: &str) -> Option<u16>
    ensures value { IfSome result (HasNumber (rows_of (found_of matches.now)) id.now) }
    ensures none { IfNone result ((n : ℕ)
        → n < 65536 → ¬ HasNumber (rows_of (found_of matches.now)) id.now n) }
{
    matches.get_one::<u16>(id)
}

// The number that the option's value says.
pub(crate) fn number_in(matches: &ArgMatches<'_>, id: &str) -> Option<u64>
    ensures value { IfSome result (HasNumber (rows_of (found_of matches.now)) id.now) }
    ensures none { IfNone result ((n : ℕ)
        → ¬ HasNumber (rows_of (found_of matches.now)) id.now n) }
{
    matches.get_one::<u64>(id)
}

// How `--spread` says that boards are spread over workers.
fn spread_in(matches: &ArgMatches<'_>) -> Option<SpreadKind>
    ensures value { IfSome result (λ spread.
        first_of (codes "spread") (rows_of (found_of matches.now)) ≡ Some (spread_text spread)) }
    ensures none { IfNone result ((spread : SpreadKind)
        → first_of (codes "spread") (rows_of (found_of matches.now)) ≢ Some (spread_text spread)) }
{
    let text = matches.get_str("spread")?;
    if text == "zobrist" {
        return Some(SpreadKind::Zobrist);
    }
    if text == "blank" {
        return Some(SpreadKind::Blank);
    }
    if text == "abstract" {
        return Some(SpreadKind::Abstract);
    }
    None
}
