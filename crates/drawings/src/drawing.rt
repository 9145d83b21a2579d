//! A certificate drawn as text, or as a file with an animation.

ghost use Rattle.std.specs.Prelude.{ℕ, ◌≡◌, ◌<◌, ◌++◌, IfOk, IfSome};
ghost use Rattle.board.specs.Plans.{Leads};
ghost use Rattle.drawings.specs.Pictures.{ArePictures};
ghost use Rattle.drawings.specs.Drawings.{IsDrawing, boards_within, drawing_text};

use crate::bands::push_bands;
use crate::claims::push_claim;
use crate::pictures::{Picture, pictures_of};
use crate::svg::draw_svg;
use board::Shape;
use certificate::Certificate;
use memory::OutOfMemory;
use std::alloc::Global;

/// What a certificate is drawn as.
#[derive(Clone, Copy, Debug)]
pub enum Style {
    /// Plain text, in which boards are side by side within `width` columns.
    Text { width: u16 },
    /// An SVG 1.1 file, in which each move takes `seconds` seconds.
    Svg { seconds: u8 },
}

/// The drawing of a certificate: its start, the board after each move of its plan, its goal, and
/// what it claims. The error: out of memory.
pub fn draw(alloc: Global, certificate: &Certificate, style: Style) -> Result<Vec<u8>, OutOfMemory>
    requires leads { IfSome certificate.now.plan (λ plan. (k : ℕ)
        × Leads certificate.now.costs certificate.now.start plan certificate.now.goal k) }
    ensures { IfOk result (λ text. IsDrawing style certificate.now text.items) }
{
    let pictures = pictures_of(alloc, certificate)?;
    match style {
        Style::Text { width } => draw_text(alloc, certificate, pictures.as_slice(), width),
        Style::Svg { seconds } => draw_svg(alloc, certificate, pictures.as_slice(), seconds),
    }
}

// The pictures as text within `width` columns, and the claim.
fn draw_text(
    alloc: Global,
    certificate: &Certificate,
    pictures: &[Picture],
    width: u16,
) -> Result<Vec<u8>, OutOfMemory>
    ensures { IfOk result (λ text. text.items
        ≡ drawing_text width certificate.now pictures.now) }
{
    let shape = certificate.shape();
    let mut text = Vec::new(alloc);
    push_bands(&mut text, shape, count_within(width, shape), pictures)?;
    push_claim(&mut text, certificate.claim())?;
    Ok(text)
}

// How many boards are side by side.
fn count_within(width: u16, shape: Shape) -> usize
    ensures count { result ≡ boards_within width shape }
    ensures some { 0 < result }
{
    (width as usize / (3 * (shape.cols() as usize + 1))).max(1)
}
