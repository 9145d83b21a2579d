//! Tests of streams, lines and runs: streams that fail at each of their calls in turn, how an input
//! is cut into lines, the runs over lines and with certificates, and the program. Also of what
//! options say: texts of goals and of groups, the groups of each shape where none are named, and
//! the tables of such groups.
#![tactic(auto)]

#[cfg(test)]
mod certificates;
#[cfg(test)]
mod lines;
#[cfg(test)]
mod runs;
#[cfg(test)]
mod streams;
#[cfg(test)]
mod tables;
#[cfg(test)]
mod texts;
