//! What programs that try workers share:
//!
//! - steps of one of two workers, where a step whose requirements are not met is left out;
//! - groups of tiles, and their tables;
//! - gates that count expansions or bounds that are shown, or slow a worker down;
//! - what workers in threads answer.
//!
//! A plan with rows, or a bound with rows, counts as found where the checker accepts its
//! certificate.
#![tactic(auto)]

mod gates;
mod problems;
mod solving;
mod steps;
mod tables;

pub use gates::{Counter, Delay, Shown};
pub use problems::{
    Answer, ByRow, Division, FAR_GROUPS, FAR_START, Job, Problem, Team, far_problem,
};
pub use solving::{answer_of_threads, answer_with_rows, answer_without_rows};
pub use steps::{expand, hire, meet, settle};
pub use tables::{bound_of, groups_of};
