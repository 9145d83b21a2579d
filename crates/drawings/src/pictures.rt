//! The pictures of a certificate: boards under captions.

ghost use Rattle.std.specs.Prelude.{ℕ, ◌≡◌, ◌≤◌, ◌++◌, List, IfOk, IfSome, OnOk, length};
ghost use Rattle.board.specs.Boards.{BoardModel};
ghost use Rattle.board.specs.Plans.{Leads};
ghost use Rattle.certificate.specs.Certificates.{IsWithinLimit, cost_of, plan_of};
ghost use Rattle.drawings.specs.Pictures.{ArePictures, AreSteps, AreStepsOf};
ghost use Rattle.drawings.specs.declared.pictures.Picture.{Picture};

use board::{Board, Move, Weights};
use certificate::{Certificate, Claim};
use memory::{OutOfMemory, push};
use std::alloc::Global;

/// The caption of a board.
#[derive(Clone, Copy, Debug)]
pub(crate) enum Caption {
    Start,
    /// The number of a move, from 1, and the move before the board.
    Step(u32, Move),
    Goal,
}

/// A board under a caption.
#[derive(Clone, Copy, Debug)]
pub(crate) struct Picture {
    pub caption: Caption,
    pub board: Board,
}

/// The start, the board after each move of the plan, and the goal.
pub(crate) fn pictures_of(
    alloc: Global,
    certificate: &Certificate,
) -> Result<Vec<Picture>, OutOfMemory>
    requires leads { IfSome certificate.now.plan (λ plan. (k : ℕ)
        × Leads certificate.now.costs certificate.now.start plan certificate.now.goal k) }
    ensures { IfOk result (λ pictures. ArePictures certificate.now pictures.items) }
{
    // The contract of this call says what holds of every certificate, such as that its boards are
    // of one shape.
    let _ = certificate.shape();
    let start = certificate.start();
    let mut pictures = Vec::new(alloc);
    push(
        &mut pictures,
        Picture {
            caption: Caption::Start,
            board: start,
        },
    )?;
    push_claimed(
        &mut pictures,
        &start,
        &certificate.costs(),
        certificate.claim(),
    )?;
    push(
        &mut pictures,
        Picture {
            caption: Caption::Goal,
            board: certificate.goal(),
        },
    )?;
    Ok(pictures)
}

// The board after each move of the plan that is claimed, if one is.
fn push_claimed(
    pictures: &mut Vec<Picture>,
    start: &Board,
    weights: &Weights,
    claim: &Claim,
) -> Result<(), OutOfMemory>
    requires sides { weights.now.grid ≡ start.now.grid }
    requires short { IfSome (plan_of claim.now) (λ plan. IsWithinLimit (length plan)) }
    requires leads { IfSome (plan_of claim.now)
        (λ plan. (q : BoardModel) × (k : ℕ) × Leads weights.now start.now plan q k) }
    ensures { OnOk result ((steps : List Picture)
        × AreStepsOf weights.now start.now (plan_of claim.now) steps
        × (pictures.new.items ≡ pictures.old.items ++ steps)) }
{
    match claim {
        Claim::Least { plan, .. } => push_steps(pictures, start, weights, plan.as_slice()),
        Claim::Bound { .. } => Ok(()),
    }
}

// The board after each move.
fn push_steps(
    pictures: &mut Vec<Picture>,
    start: &Board,
    weights: &Weights,
    plan: &[Move],
) -> Result<(), OutOfMemory>
    requires sides { weights.now.grid ≡ start.now.grid }
    requires short { IsWithinLimit (length plan.now) }
    requires leads { (q : BoardModel) × (k : ℕ) × Leads weights.now start.now plan.now q k }
    ensures { OnOk result ((steps : List Picture)
        × AreSteps weights.now 1 start.now plan.now steps
        × (pictures.new.items ≡ pictures.old.items ++ steps)) }
{
    let mut board = *start;
    let mut number = 0;
    'moves: for direction in plan {
        board = board.step(*direction, weights).unwrap().0;
        number += 1;
        push(
            pictures,
            Picture {
                caption: Caption::Step(number, *direction),
                board,
            },
        )?;
    }
    Ok(())
}
