//! Figures of the search for a board, and the line that says them.

ghost use Rattle.std.specs.Prelude.{◌≡◌, IfOk, string_bytes};
ghost use Rattle.serde_json.specs.View.{view};
ghost use Rattle.serde_json.specs.Written.{compact_text};
ghost use Rattle.batch_runs.specs.Stats.{stats_data};

use memory::{OutOfMemory, json_text, put, text_value};
use outcomes::Ending;
use serde_json::{Map, Value};
use std::alloc::Global;

/// Figures of the search for a board.
#[derive(Clone, Copy, Debug, PartialEq, Eq)]
pub struct Stats {
    /// How many boards all workers have expanded.
    pub expanded: u64,
    /// How many boards they know.
    pub known: u64,
    /// How long the search took.
    pub microseconds: u64,
    /// The heuristic value of the board.
    pub start_sum: u32,
}

/// The ending of a board, and the figures of its search.
#[derive(Debug, Drop)]
pub struct Solved {
    pub ending: Ending,
    pub stats: Stats,
}

/// The figures of the line with this id, as one JSON object without a line feed.
pub fn stats_text(alloc: Global, id: &str, stats: &Stats) -> Result<String, OutOfMemory>
    ensures { IfOk result (λ text. string_bytes text ≡ compact_text (stats_data id.now stats.now)) }
{
    let value = stats_value(alloc, id, stats)?;
    json_text(alloc, &value)
}

// The object of the figures.
fn stats_value(alloc: Global, id: &str, stats: &Stats) -> Result<Value, OutOfMemory>
    ensures { IfOk result (λ built. view built ≡ stats_data id.now stats.now) }
{
    let mut members = Map::new(alloc);
    put(&mut members, alloc, "expanded", stats.expanded.into())?;
    put(&mut members, alloc, "id", text_value(alloc, id)?)?;
    put(&mut members, alloc, "known", stats.known.into())?;
    put(
        &mut members,
        alloc,
        "microseconds",
        stats.microseconds.into(),
    )?;
    put(&mut members, alloc, "start_sum", stats.start_sum.into())?;
    Ok(Value::Object(members))
}
