//! Which boards the options of `boards` ask for.

ghost use Rattle.std.specs.Prelude.{ℕ, ◌≡◌, ◌↔◌, IsTrue, IfOk, IfErr, IfSome, IfNone, codes};
ghost use Rattle.board_lists.specs.declared.choices.Choice.{Choice};
ghost use Rattle.board.specs.Shapes.{ShapeModel};
ghost use Rattle.clap.specs.Words.{found_of, rows_of};
ghost use Rattle.board_lists.specs.Lists.{MayBeListed};
ghost use Rattle.command_line.specs.Requests.{HasShape, HasCount, IsSet, IsLeftOut};
ghost use Rattle.command_line.specs.Requests.{IsChoice, SaysListing, ListingFails};

use crate::faults::{ListFault, NoRequest};
use crate::matches::goal_said;
use crate::requests::Listing;
use crate::values::{is_set, number_in, shape_in};
use board::Shape;
use board_lists::{Choice, MOST_CELLS};
use clap::ArgMatches;

// How many boards are listed where the arguments don't say.
const COUNT: u64 = 10;

// What the options of `boards` say. Which boards is judged first, then the goal's text.
pub(crate) fn listing_in(matches: &ArgMatches<'_>) -> Result<Listing, NoRequest>
    ensures listing { IfOk result (SaysListing (rows_of (found_of matches.now))) }
    ensures refusal { IfErr result (ListingFails (rows_of (found_of matches.now))) }
{
    let Some(shape) = shape_in(matches) else {
        return Err(NoRequest::NoMatch);
    };
    let choice = match choice_in(matches, shape) {
        Ok(choice) => choice,
        Err(refusal) => return Err(refusal),
    };
    match goal_said(shape, matches.get_str("goal")) {
        Ok(goal) => Ok(Listing { goal, choice }),
        Err(fault) => Err(NoRequest::Goal(fault)),
    }
}

// Which boards the options say.
fn choice_in(matches: &ArgMatches<'_>, shape: Shape) -> Result<Choice, NoRequest>
    requires { HasShape (rows_of (found_of matches.now)) shape }
    ensures choice { IfOk result (IsChoice (rows_of (found_of matches.now))) }
    ensures small { IfOk result (MayBeListed shape) }
    ensures refusal { IfErr result (ListingFails (rows_of (found_of matches.now))) }
{
    if is_set(matches, "all") {
        return whole_in(matches, shape);
    }
    match draws_in(matches) {
        Some(choice) => Ok(choice),
        None => Err(NoRequest::NoMatch),
    }
}

// The whole class, which `--all` asks for.
fn whole_in(matches: &ArgMatches<'_>, shape: Shape) -> Result<Choice, NoRequest>
    requires shape { HasShape (rows_of (found_of matches.now)) shape }
    requires all { IsSet (rows_of (found_of matches.now)) (codes "all") }
    ensures choice { IfOk result (IsChoice (rows_of (found_of matches.now))) }
    ensures small { IfOk result (MayBeListed shape) }
    ensures refusal { IfErr result (ListingFails (rows_of (found_of matches.now))) }
{
    if !is_left_out(matches, "count") {
        return Err(NoRequest::NoListing(ListFault::NotAlone));
    }
    if !is_left_out(matches, "moves") {
        return Err(NoRequest::NoListing(ListFault::NotAlone));
    }
    if shape.cells() > MOST_CELLS {
        return Err(NoRequest::NoListing(ListFault::TooManyCells));
    }
    Ok(Choice::Whole)
}

// Boards drawn or walked to. Nothing is answered only where the options say no such boards.
fn draws_in(matches: &ArgMatches<'_>) -> Option<Choice>
    requires { ¬ IsSet (rows_of (found_of matches.now)) (codes "all") }
    ensures choice { IfSome result (IsChoice (rows_of (found_of matches.now))) }
    ensures small { (shape : ShapeModel) → IfSome result (MayBeListed shape) }
    ensures none { IfNone result ((choice : Choice)
        → ¬ IsChoice (rows_of (found_of matches.now)) choice) }
{
    let count = count_in(matches)?;
    let seed = number_in(matches, "seed")?;
    if is_left_out(matches, "moves") {
        return Some(Choice::Drawn { count, seed });
    }
    let moves = number_in(matches, "moves")?;
    Some(Choice::Walked { moves, count, seed })
}

// How many boards are said.
#[tactic(auto, using(crate::proofs::ParseLemmas::no_count))]
fn count_in(matches: &ArgMatches<'_>) -> Option<u64>
    ensures value { IfSome result (HasCount (rows_of (found_of matches.now))) }
    ensures none { IfNone result ((n : ℕ) → ¬ HasCount (rows_of (found_of matches.now)) n) }
{
    if is_left_out(matches, "count") {
        return Some(COUNT);
    }
    number_in(matches, "count")
}

// Whether the option is left out.
fn is_left_out(matches: &ArgMatches<'_>, id: &str) -> bool
    ensures { IsTrue result ↔ IsLeftOut (rows_of (found_of matches.now)) id.now }
{
    matches.get_str(id).is_none()
}
