//! The makers of reports: one JSON object on a line.

ghost use Rattle.std.specs.Prelude.{◌≡◌, ℕ, IfOk, Some, Vec, false, string_bytes};
ghost use Rattle.std.specs.declared.alloc.Global.{Global};
ghost use Rattle.serde_json.specs.Data.{Data};
ghost use Rattle.serde_json.specs.View.{view};
ghost use Rattle.serde_json.specs.Written.{has_float};
ghost use Rattle.board.specs.declared.moves.Move.{Move};
ghost use Rattle.outcomes.specs.Outcomes.{best_of};
ghost use Rattle.outcomes.specs.declared.outcome.Ending.TheVariants.{Optimal, Unsolvable, Bounded};
ghost use Rattle.batch_runs.specs.ReportReadings.{IsSmall, IsSmallBest, HasSmallNumbers};
ghost use Rattle.batch_runs.specs.Reports.{letters_of, best_data, outcome_data, refused_data};
ghost use Rattle.batch_runs.specs.Reports.{accepted_data, accepted_bound_data};
ghost use Rattle.batch_runs.specs.Reports.{refused_certificate_data, report_text};

use board::Move;
use memory::{OutOfMemory, json_text, push_char, put, text_value};
use outcomes::{Cause, Ending, Why};
use serde_json::{Map, Value};
use std::alloc::Global;

/// No report was made, since memory was refused. Only the makers of reports make one.
#[derive(Clone, Copy, Debug, PartialEq, Eq)]
pub struct NoReport {
    refused: OutOfMemory,
}

/// The report of an outcome for a line with this id: one JSON object and a line feed.
pub fn outcome_report(alloc: Global, id: &str, outcome: &Ending) -> Result<String, NoReport>
    ensures text { IfOk result (λ text.
        string_bytes text ≡ report_text (outcome_data id.now outcome.now)) }
    ensures small { IfOk result (λ _. HasSmallNumbers outcome.now) }
{
    let value = match outcome_value(alloc, id, outcome) {
        Ok(value) => value,
        Err(refused) => return Err(NoReport { refused }),
    };
    json_line(alloc, &value)
}

/// The report of a line that is refused by a fault with this code: one JSON object and a line feed.
pub fn refused_report(alloc: Global, code: &str, line: u64) -> Result<String, NoReport>
    ensures { IfOk result (λ text. string_bytes text ≡ report_text (refused_data code.now line)) }
{
    report_of(alloc, refused_value(alloc, code, line))
}

/// The report of a certificate that is accepted: one JSON object and a line feed. The cost is the
/// least.
pub fn accepted_report(alloc: Global, cost: u32) -> Result<String, NoReport>
    ensures { IfOk result (λ text. string_bytes text ≡ report_text (accepted_data cost)) }
{
    report_of(alloc, accepted_value(alloc, cost))
}

/// The report of a certificate of a bound that is accepted: one JSON object and a line feed. No
/// plan costs less.
pub fn accepted_bound_report(alloc: Global, bound: u32) -> Result<String, NoReport>
    ensures { IfOk result (λ text. string_bytes text ≡ report_text (accepted_bound_data bound)) }
{
    report_of(alloc, accepted_bound_value(alloc, bound))
}

/// The report of a certificate that is refused by a fault with this code: one JSON object and a
/// line feed.
pub fn refused_certificate_report(alloc: Global, code: &str) -> Result<String, NoReport>
    ensures { IfOk result (λ text.
        string_bytes text ≡ report_text (refused_certificate_data code.now)) }
{
    report_of(alloc, refused_certificate_value(alloc, code))
}

// The object of an outcome.
fn outcome_value(alloc: Global, id: &str, outcome: &Ending) -> Result<Value, OutOfMemory>
    ensures value { IfOk result (λ built. view built ≡ outcome_data id.now outcome.now) }
    ensures no_float { IfOk result (λ built. has_float (view built) ≡ false) }
    ensures small { IfOk result (λ _. HasSmallNumbers outcome.now) }
{
    match outcome {
        Ending::Optimal { cost, plan } => optimal_value(alloc, id, *cost, plan),
        Ending::Unsolvable { why } => unsolvable_value(alloc, id, *why),
        Ending::Bounded { bound, best, cause } => bounded_value(alloc, id, *bound, best, *cause),
    }
}

// The object of a plan of least cost.
fn optimal_value(alloc: Global, id: &str, cost: u32, plan: &[Move]) -> Result<Value, OutOfMemory>
    ensures value { (kept : Vec Move Global) →
        kept.items ≡ plan.now →
        IfOk result (λ built. view built ≡ outcome_data id.now (Optimal cost kept)) }
    ensures no_float { IfOk result (λ built. has_float (view built) ≡ false) }
    ensures small { IsSmall cost }
{
    let letters = plan_letters(alloc, plan)?;
    let mut members = Map::new(alloc);
    put(&mut members, alloc, "cost", cost.into())?;
    put(&mut members, alloc, "id", text_value(alloc, id)?)?;
    put(&mut members, alloc, "plan", Value::String(letters))?;
    put(&mut members, alloc, "status", text_value(alloc, "optimal")?)?;
    Ok(Value::Object(members))
}

// The object of a search that found no plan.
fn unsolvable_value(alloc: Global, id: &str, why: Why) -> Result<Value, OutOfMemory>
    ensures { IfOk result (λ built. view built ≡ outcome_data id.now (Unsolvable why)) }
{
    let mut members = Map::new(alloc);
    put(&mut members, alloc, "id", text_value(alloc, id)?)?;
    put(
        &mut members,
        alloc,
        "status",
        text_value(alloc, "unsolvable")?,
    )?;
    put(&mut members, alloc, "why", text_value(alloc, why.word())?)?;
    Ok(Value::Object(members))
}

// The object of a bound and the best plan found.
fn bounded_value(
    alloc: Global,
    id: &str,
    bound: u32,
    best: &Option<(u32, Vec<Move>)>,
    cause: Cause,
) -> Result<Value, OutOfMemory>
    ensures value { IfOk result (λ built.
        view built ≡ outcome_data id.now (Bounded bound best.now cause)) }
    ensures no_float { IfOk result (λ built. has_float (view built) ≡ false) }
    ensures small { IfOk result (λ _. IsSmall bound × IsSmallBest (best_of best.now)) }
{
    let plan = best_value(alloc, best)?;
    let mut members = Map::new(alloc);
    put(&mut members, alloc, "best", plan)?;
    put(&mut members, alloc, "bound", bound.into())?;
    put(
        &mut members,
        alloc,
        "cause",
        text_value(alloc, cause.word())?,
    )?;
    put(&mut members, alloc, "id", text_value(alloc, id)?)?;
    put(&mut members, alloc, "status", text_value(alloc, "bounded")?)?;
    Ok(Value::Object(members))
}

// The best plan and its cost, or null.
fn best_value(alloc: Global, best: &Option<(u32, Vec<Move>)>) -> Result<Value, OutOfMemory>
    ensures value { IfOk result (λ built. view built ≡ best_data (best_of best.now)) }
    ensures no_float { IfOk result (λ built. has_float (view built) ≡ false) }
    ensures small { IfOk result (λ _. IsSmallBest (best_of best.now)) }
{
    match best {
        Some(found) => plan_value(alloc, found.0, &found.1),
        None => Ok(Value::Null),
    }
}

// The object of a plan and its cost.
fn plan_value(alloc: Global, cost: u32, plan: &[Move]) -> Result<Value, OutOfMemory>
    ensures value { IfOk result (λ built. view built ≡ best_data (Some (cost, plan.now))) }
    ensures small { IsSmall cost }
{
    let letters = plan_letters(alloc, plan)?;
    let mut members = Map::new(alloc);
    put(&mut members, alloc, "cost", cost.into())?;
    put(&mut members, alloc, "plan", Value::String(letters))?;
    Ok(Value::Object(members))
}

// The object of a line that is refused.
fn refused_value(alloc: Global, code: &str, line: u64) -> Result<Value, OutOfMemory>
    ensures value { IfOk result (λ built. view built ≡ refused_data code.now line) }
    ensures no_float { IfOk result (λ built. has_float (view built) ≡ false) }
{
    let mut members = Map::new(alloc);
    put(&mut members, alloc, "fault", text_value(alloc, code)?)?;
    put(&mut members, alloc, "line", line.into())?;
    put(&mut members, alloc, "status", text_value(alloc, "refused")?)?;
    Ok(Value::Object(members))
}

// The object of a certificate that is accepted.
fn accepted_value(alloc: Global, cost: u32) -> Result<Value, OutOfMemory>
    ensures value { IfOk result (λ built. view built ≡ accepted_data cost) }
    ensures no_float { IfOk result (λ built. has_float (view built) ≡ false) }
{
    let mut members = Map::new(alloc);
    put(&mut members, alloc, "cost", cost.into())?;
    put(
        &mut members,
        alloc,
        "status",
        text_value(alloc, "accepted")?,
    )?;
    Ok(Value::Object(members))
}

// The object of a certificate of a bound that is accepted.
fn accepted_bound_value(alloc: Global, bound: u32) -> Result<Value, OutOfMemory>
    ensures value { IfOk result (λ built. view built ≡ accepted_bound_data bound) }
    ensures no_float { IfOk result (λ built. has_float (view built) ≡ false) }
{
    let mut members = Map::new(alloc);
    put(&mut members, alloc, "bound", bound.into())?;
    put(
        &mut members,
        alloc,
        "status",
        text_value(alloc, "accepted")?,
    )?;
    Ok(Value::Object(members))
}

// The object of a certificate that is refused.
fn refused_certificate_value(alloc: Global, code: &str) -> Result<Value, OutOfMemory>
    ensures value { IfOk result (λ built. view built ≡ refused_certificate_data code.now) }
    ensures no_float { IfOk result (λ built. has_float (view built) ≡ false) }
{
    let mut members = Map::new(alloc);
    put(&mut members, alloc, "fault", text_value(alloc, code)?)?;
    put(&mut members, alloc, "status", text_value(alloc, "refused")?)?;
    Ok(Value::Object(members))
}

// The letters of the moves of a plan.
fn plan_letters(alloc: Global, plan: &[Move]) -> Result<String, OutOfMemory>
    ensures { IfOk result (λ text. string_bytes text ≡ letters_of plan.now) }
{
    let mut text = String::new(alloc);
    for direction in plan {
        push_char(&mut text, direction.letter() as char)?;
    }
    Ok(text)
}

// The report that an object makes, where there was memory for the object.
fn report_of(alloc: Global, value: Result<Value, OutOfMemory>) -> Result<String, NoReport>
    requires { IfOk value (λ built. has_float (view built) ≡ false) }
    ensures { (said : Data) → IfOk value (λ built. view built ≡ said) →
        IfOk result (λ text. string_bytes text ≡ report_text said) }
{
    match value {
        Ok(value) => json_line(alloc, &value),
        Err(refused) => Err(NoReport { refused }),
    }
}

// A value without floats as compact JSON on a line of its own.
fn json_line(alloc: Global, value: &Value) -> Result<String, NoReport>
    requires { has_float (view value.now) ≡ false }
    ensures { IfOk result (λ text. string_bytes text ≡ report_text (view value.now)) }
{
    let mut text = match json_text(alloc, value) {
        Ok(text) => text,
        Err(refused) => return Err(NoReport { refused }),
    };
    match push_char(&mut text, '\n') {
        Ok(()) => Ok(text),
        Err(refused) => Err(NoReport { refused }),
    }
}
