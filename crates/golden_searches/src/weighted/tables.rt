//! The tables that guide the searches, and those of a certificate's groups.

ghost use Rattle.std.specs.Prelude.{◌≡◌, IfSome};
ghost use Rattle.lower_bound.specs.Tables.{ArePotentials};

use board::{Board, Weights};
use certificate::Certificate;
use lower_bound::Bound;
use std::alloc::Global;
use test_worlds::bound_of;

/// Groups of tiles, and whether their tables are folded.
#[derive(Clone, Copy)]
pub struct Tables {
    pub groups: &'static [&'static [u8]],
    pub fold: bool,
}

/// For boards of 2 by 2: no tables, and those of two groups and of one.
pub static TABLES_OF_2_BY_2: [Tables; 5] = [
    Tables {
        groups: &[],
        fold: false,
    },
    Tables {
        groups: &[&[1, 2], &[3]],
        fold: false,
    },
    Tables {
        groups: &[&[1, 2], &[3]],
        fold: true,
    },
    Tables {
        groups: &[&[1, 2, 3]],
        fold: false,
    },
    Tables {
        groups: &[&[1, 2, 3]],
        fold: true,
    },
];

/// For boards of 2 by 3: no tables, and those of three groups and of two.
pub static TABLES_OF_2_BY_3: [Tables; 5] = [
    Tables {
        groups: &[],
        fold: false,
    },
    Tables {
        groups: &[&[1, 2], &[3, 4], &[5]],
        fold: false,
    },
    Tables {
        groups: &[&[1, 2], &[3, 4], &[5]],
        fold: true,
    },
    Tables {
        groups: &[&[1, 2, 3], &[4, 5]],
        fold: false,
    },
    Tables {
        groups: &[&[1, 2, 3], &[4, 5]],
        fold: true,
    },
];

/// The bound that guides the search, or None where memory was refused.
pub fn guide_of(alloc: Global, goal: &Board, weights: &Weights, tables: &Tables) -> Option<Bound>
    requires { weights.now.grid ≡ goal.now.grid }
    ensures { IfSome result (λ bound. ArePotentials weights.now goal.now bound) }
{
    let whole = bound_of(alloc, goal, weights, tables.groups)?;
    if tables.fold {
        return whole.folded(alloc).ok();
    }
    Some(whole)
}

/// The whole tables of a certificate's groups for its goal and its costs, or None where memory was
/// refused.
pub fn bound_for(alloc: Global, certificate: &Certificate) -> Option<Bound> {
    let goal = certificate.goal();
    let costs = certificate.costs();
    let mut lists = Vec::new(alloc);
    for group in certificate.groups().groups() {
        lists.push(group.tiles()).ok()?;
    }
    if costs.shape() != goal.shape() {
        return None;
    }
    bound_of(alloc, &goal, &costs, lists.as_slice())
}
