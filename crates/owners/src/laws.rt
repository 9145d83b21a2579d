//! The law of spreads: the contract of a function that does nothing.

ghost use Rattle.std.specs.Prelude.{◌≡◌, Some, None};
ghost use Rattle.owners.specs.Owners.{hash_of, owner_by_blank, owner_by_hash};
ghost use Rattle.owners.specs.Owners.{abstract_hash_of, owner_by_abstract_hash};

use crate::spread::{ByBlank, Spread};
use crate::zobrist::{Abstract, Zobrist};

/// `Zobrist` divides boards by their hashes, `Abstract` by those of every fourth tile from tile 1 on,
/// and `ByBlank` by the cells of their blanks, with no hash.
pub fn spreads_are_as_named()
    ensures zobrist { ⟦<Zobrist as Spread>⟧.owner_of ≡ λ spread. owner_by_hash }
    ensures hash { ⟦<Zobrist as Spread>⟧.hash_of ≡ λ spread b. Some (hash_of b) }
    ensures abstract_owner { ⟦<Abstract as Spread>⟧.owner_of ≡ λ spread. owner_by_abstract_hash }
    ensures abstract_hash { ⟦<Abstract as Spread>⟧.hash_of
        ≡ λ spread b. Some (abstract_hash_of b) }
    ensures blank { ⟦<ByBlank as Spread>⟧.owner_of ≡ λ spread. owner_by_blank }
    ensures blank_hash { ⟦<ByBlank as Spread>⟧.hash_of ≡ λ spread b. None }
{}
