//! Certificates: answers written down so that any program can check them, with one spelling each.
//!
//! - A `Certificate` is seen as a `CertificateModel`; its type keeps that it has an encoding.
//!   Fields come in and go out by `Parts`, so a new field breaks no signature.
//! - `new` answers `None` exactly where the fields have no encoding. `write` puts exactly the bytes
//!   and does not flush. `read` gives the certificate or the first fault; only it takes memory.
//! - `specs/Readings.antt` has a list reader for each field; `fields.rt`, `groups.rt` and
//!   `reading.rt` do the same over a `Source`.
//! - Laws: reading and encoding are inverse; no encoding begins another; what is before the first
//!   fault begins some encoding.
//! - No byte behind a fault is read, since one that failed to come would hide the fault behind F6.
//! - A row is judged as a whole, and so are a group's tiles, since a part of it may begin no
//!   encoding.
//! - Start with `specs/Certificates.antt`, `specs/Spellings.antt`, `specs/Laws.antt`, then
//!   `src/reading.rt`.
#![tactic(auto)]

mod certificate;
mod faults;
mod fields;
mod groups;
pub mod laws;
mod reading;
mod writing;

pub use certificate::{Certificate, Claim, GREATEST_BOUND, Parts, Version};
pub use faults::{FormatFault, ReadFault, WriteFault};
pub use reading::read;
pub use writing::write;
