//! A part that goes from one thread to another.

ghost use Rattle.std.specs.Prelude.{◌≡◌};
ghost use Rattle.thread_parts.specs.Parts.{IsSoundPart, face_of};

use crate::part::Part;
use message_ledger::Tokens;
use owners::Spread;
use std::marker::Model;

/// A part that keeps what joined parts rest on. Contracts see what its steps leave as it is.
#[derive(Drop)]
pub struct Sealed<'a, S: Spread, C: Tokens> {
    part: Part<'a, S, C>,
}

impl<'a, S: Spread, C: Tokens> Model for Sealed<'a, S, C> {
    ghost use Rattle.thread_parts.specs.Parts.{SealedModel, IsSoundPart, face_of};

    ghost Value = { SealedModel S };

    ghost view = { λ s. face_of s.part };

    ghost invariant = { λ s. IsSoundPart S.owner_of C.workers s.part };
}

impl<'a, S: Spread, C: Tokens> Sealed<'a, S, C> {
    /// Seals a part.
    pub fn new(part: Part<'a, S, C>) -> Self
        requires { IsSoundPart S.owner_of C.workers part }
        ensures { result ≡ face_of part.entry }
    {
        Sealed { part }
    }

    /// The part.
    pub fn open(self) -> Part<'a, S, C>
        ensures holds { IsSoundPart S.owner_of C.workers result }
        ensures face { face_of result ≡ self.entry }
    {
        let Sealed { part } = self;
        part
    }
}
