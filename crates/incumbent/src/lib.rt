//! The incumbent, the best plan that is known so far: its cost, which only falls.
//!
//! - `Best` is the best cost, absent at first. `announce` takes a lower cost and refuses any other
//!   by `NotLower`; `limit` is `limit_of`.
#![tactic(auto)]

mod best;

pub use best::{Best, NotLower};
