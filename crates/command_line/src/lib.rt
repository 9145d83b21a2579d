//! What the arguments ask for: boards to be solved or listed, a certificate to
//! be written or checked, steps to be replayed, or a text of help.
//!
//! - `read_words` makes a `Request` of the arguments, or a `NoRequest` with status and text.
//!   `commands` builds the clap program, one function an option (`Rule`); `help` has the texts.
//! - No arguments bypass clap (`default_options`), so only a refused allocation refuses them.
//! - clap judges first; then goal, costs and groups are read, in the order of `options_in`.
//! - `NoRequest::Memory` has clap's error, whose kind says that memory was refused. Anyone can make
//!   such an error: clap has no refusal that `memory` could pass on.
//! - Start with `specs/Commands.antt`, `specs/Requests.antt`, then `src/requests.rt`.
#![tactic(auto)]

mod commands;
mod faults;
mod help;
pub mod laws;
mod listings;
mod matches;
mod requests;
mod values;
mod worked;

pub use faults::{ListFault, NoRequest};
pub use requests::{Listing, Options, Request, read_words};
