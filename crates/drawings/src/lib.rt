//! Drawings of certificates: the boards that a plan passes, side by side in plain text, or an SVG
//! file whose tiles slide. Only the plan is looked at, not rows and groups.
//!
//! - `draw` makes the whole drawing in memory, as text or as an SVG file, and writes nothing.
//!   `IsDrawing` says each byte of the text. Of a file it says how it begins and ends, and that it
//!   has the line of the claim; `checks/show-svg` looks at some in Chromium.
//! - The plan must lead to the goal (`requires`), which `check_plan` of `certificate_check` tests.
//!   Rows and groups are not looked at.
//! - `Picture` is a board under a caption. `ArePictures` gets each board from the one before it by
//!   `Moves`.
//! - Each function adds its part at the end of a text. Band k has the pictures from k·n on; the law
//!   `bands_are_whole` says that each picture is in one.
//! - By the law `drawings_are_determined` a certificate has one drawing in each width. The worked
//!   rows draw boards of 2 by 2, 3 by 3 and 3 by 4.
//! - Start with `specs/Pictures.antt`, `specs/Drawings.antt`, then `src/drawing.rt`,
//!   `src/bands.rt`.
#![tactic(auto)]

mod bands;
mod claims;
mod drawing;
pub mod laws;
mod pictures;
mod pushes;
mod svg;

pub use drawing::{Style, draw};
