//! Boards to begin with, as the lines that `solve` reads: drawn at random from a goal's class, by
//! walks from the goal, or all of the class.
//!
//! That boards are drawn uniformly is tested, and no contract says it. A seed decides every draw.
#![tactic(auto)]

mod choices;
mod draws;
pub mod laws;
mod lines;
mod lists;
mod walks;

pub use choices::{Choice, list_boards};
pub use lists::MOST_CELLS;
