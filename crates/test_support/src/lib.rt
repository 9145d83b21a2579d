//! What tests share: a second opinion on least costs, and streams that fail at one call.
#![tactic(auto)]

mod breadth_first;
mod failing_streams;

pub use breadth_first::least_costs;
pub use failing_streams::{FailingReader, FailingWriter, NEVER};
