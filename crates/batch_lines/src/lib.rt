//! How an input is cut into lines, and what the words of a line and the texts of options spell.
//!
//! - `LineReader::next_line` is `ReadsLine`: the next line, its number, and whether it is passed
//!   over, too long or to be read.
//! - The reader keeps 1,025 bytes in an `ArrayVec` and takes no memory. Blank lines and comments
//!   are followed in four states, whatever their length.
//! - `read_entry` gives id and board or the first fault (`IsFirstEntryFault`). It reads at most 26
//!   words of a line, one more than a board has cells.
//! - One carriage return at a line's end is dropped before the line is measured.
//! - The byte past the input's limit is taken and answered as a failure to read.
//! - `read_goal`, `read_costs`, `read_groups`: the texts of `--goal`, `--cost` and `--groups`, or
//!   exactly the first fault. Words are read as those of a line.
//! - A weight that is no number from 1 to 255 is read as 0, which is no weight. So E14 follows from
//!   `Weights::list`.
//! - The first faulty group decides, then the partition. `none` is no group; an empty text is E5.
//! - `default_groups` can be refused for memory alone: rising tiles make small groups that share
//!   none.
//! - Start with `specs/Lines.antt`, `specs/Readings.antt`, `specs/Words.antt`; for options with
//!   `specs/Texts.antt`, `specs/GroupFaults.antt`, `specs/Defaults.antt`.
#![tactic(auto)]

mod defaults;
mod goals;
mod group_faults;
mod groups;
pub mod laws;
mod lines;
pub mod option_laws;
mod option_words;
mod option_worked;
mod weights;
mod words;
mod worked;

pub use defaults::default_groups;
pub use goals::read_goal;
pub use group_faults::GroupsFault;
pub use groups::read_groups;
pub use lines::{INPUT_LIMIT, LINE_LIMIT, Line, LineKind, LineReader};
pub use weights::read_costs;
pub use words::{Entry, EntryFault, cut_word, read_entry};
