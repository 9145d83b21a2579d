//! A certificate in, a drawing of its plan out.

ghost use Rattle.std.specs.Prelude.{◌≡◌, ◌⊎◌};
ghost use Rattle.byte_streams.specs.Streams.{change};
ghost use Rattle.certificate_runs.specs.Showing.{Shows, PutsRefusal};
ghost use Rattle.certificate_runs.specs.Headline.{IsTrueShow};

use crate::checking::{put_output, put_verdict, refuse};
use crate::faults::CheckFault;
use byte_streams::{Sink, Source};
use certificate::{ReadFault, read};
use certificate_check::check_plan;
use drawings::{Style, draw};
use std::alloc::Global;

/// Draws the certificate that the source spells, whose plan leads from its start to its goal at its
/// cost, or which claims a bound; else writes one line with the code of the first fault. Rows and
/// groups are not checked. Answers the status: 0 where it is drawn, 5 where it is refused.
///
/// Nothing is written where the source fails, or where there is no memory for the certificate, for
/// the drawing or for the line. Nothing is flushed.
pub fn run_show<S: Source, K: Sink>(
    alloc: Global,
    style: Style,
    source: &mut S,
    sink: &mut K,
) -> Result<u8, CheckFault>
    ensures shows { Shows style (change S.state source.old source.new)
        (change K.state sink.old sink.new) result }
    ensures truth { IsTrueShow style (change S.state source.old source.new)
        (change K.state sink.old sink.new) result }
{
    show_source(alloc, style, source, sink)
}

// The same, by what was read.
fn show_source<S: Source, K: Sink>(
    alloc: Global,
    style: Style,
    source: &mut S,
    sink: &mut K,
) -> Result<u8, CheckFault>
    ensures { Shows style (change S.state source.old source.new)
        (change K.state sink.old sink.new) result }
{
    match read(alloc, source) {
        Ok(certificate) => match check_plan(&certificate) {
            Ok(()) => match draw(alloc, &certificate, style) {
                Ok(text) => put_output(sink, text.as_slice(), 0),
                Err(refused) => Err(CheckFault::CertificateMemory(refused)),
            },
            Err(refusal) => put_refusal(alloc, sink, refusal.code()),
        },
        Err(ReadFault::Format(fault)) => put_refusal(alloc, sink, fault.code()),
        Err(ReadFault::Failed) => Err(CheckFault::CertificateRead),
        Err(ReadFault::NoMemory(refused)) => Err(CheckFault::CertificateMemory(refused)),
    }
}

// Writes the line of a fault, and answers its status.
fn put_refusal<K: Sink>(alloc: Global, sink: &mut K, code: &str) -> Result<u8, CheckFault>
    ensures { PutsRefusal code.now (change K.state sink.old sink.new) result }
{
    match refuse(alloc, code) {
        Ok((text, status)) => put_verdict(sink, text.as_str(), status),
        Err(lacking) => Err(CheckFault::Memory(lacking)),
    }
}
