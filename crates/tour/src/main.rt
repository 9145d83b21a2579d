//! A tour of the library: each step prints what it answers.
#![tactic(auto)]

mod guided;
mod patterns;
mod puzzle;
mod replays;
mod runs;

use std::io;

fn main(rt: HostRuntime) -> io::Result<()> {
    puzzle::visit(&rt)?;
    runs::visit(&rt)?;
    patterns::visit(&rt)?;
    guided::visit(&rt)?;
    replays::visit(&rt)
}
