//! The tables of a bound are compared with the groups of a certificate, and tested.

ghost use Rattle.std.specs.Prelude.{◌≡◌, ◌<◌, ◌↔◌, length, slice_get, Some, None};
ghost use Rattle.std.specs.Prelude.{IsTrue, IsNone, IfSome, MatchOption};
ghost use Rattle.lower_bound.specs.Tables.{IsTables};
ghost use Rattle.certificate.specs.Certificates.{IsCertificate};
ghost use Rattle.certificate_check.specs.Refusals.{AreTablesFit, IsFitAt, IsFirstUnfit};

use certificate::Certificate;
use database_build::Table;
use lower_bound::{Bound, TableList, is_potential};

// The first place at which the groups differ, or the table is folded or no potential for the
// certificate's goal and costs.
pub(crate) fn find_unfit(certificate: &Certificate, bound: &Bound) -> Option<usize>
    requires { IsCertificate certificate.now }
    ensures first { IfSome result (IsFirstUnfit certificate.now bound.now) }
    ensures none { IsNone result → AreTablesFit certificate.now bound.now }
    ensures tables { IsTables bound.now }
{
    if !is_of_shape(certificate, bound) {
        return Some(0);
    }
    let groups = certificate.groups().groups();
    'groups: for place in 0..groups.len() {
        if !is_fit(certificate, bound, place) {
            return Some(place);
        }
    }
    if groups.len() < bound.partition().groups().len() {
        return Some(groups.len());
    }
    None
}

// Whether the tables are of boards of the certificate's shape.
fn is_of_shape(certificate: &Certificate, bound: &Bound) -> bool
    requires { IsCertificate certificate.now }
    ensures shape { IsTrue result ↔ (certificate.now.groups.grid ≡ bound.now.split.grid) }
    ensures tables { IsTables bound.now }
{
    certificate.groups().shape() == bound.partition().shape()
}

// The table at a place; None where there is none, or where it is folded, since the checker knows
// no table that it may have been folded from.
fn whole_table(bound: &Bound, place: usize) -> Option<&Table>
    ensures table { MatchOption result (slice_get bound.now.lookups place ≡ None)
        (λ table. slice_get bound.now.lookups place ≡ Some table.now) }
    ensures tables { IsTables bound.now }
{
    match bound.tables() {
        TableList::Whole(tables) => tables.get(place),
        TableList::Folded(_) => None,
    }
}

// Whether the table at the place of a group is one of it, whole, and a potential for the
// certificate's goal and costs.
fn is_fit(certificate: &Certificate, bound: &Bound, place: usize) -> bool
    requires certificate { IsCertificate certificate.now }
    requires shape { certificate.now.groups.grid ≡ bound.now.split.grid }
    requires place { place < length certificate.now.groups.groups }
    ensures { IsTrue result ↔ IsFitAt certificate.now bound.now place }
{
    let groups = certificate.groups().groups();
    let goal = certificate.goal();
    let costs = certificate.costs();
    let Some(table) = whole_table(bound, place) else {
        return false;
    };
    is_potential(table, &groups[place], &goal, &costs)
}
