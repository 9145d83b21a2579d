//! Places among rows that rise by their keys.

ghost use Rattle.std.specs.Prelude.{◌<◌, ◌≤◌, length};
ghost use Rattle.std.specs.List.Sorted.{IsNonDecreasingBy, IsPartitionPoint};
ghost use Rattle.board.specs.Keys.{key_of};
ghost use Rattle.certificate_check.specs.Lookups.{AreLower, AreNotLower};

use board::Board;

// The first place from which on no key is below this one. The search begins at `near` and doubles
// its steps, so the nearer the place is, the fewer rows are looked at.
pub(crate) fn first_from(rows: &[(Board, u32)], key: u128, near: usize) -> usize
    requires { IsNonDecreasingBy (λ row. key_of row.0) rows.now }
    ensures { IsPartitionPoint (λ row. key_of row.0 < key) (λ row. key ≤ key_of row.0)
        rows.now result }
{
    if near >= rows.len() {
        return first_before(rows, key, rows.len());
    }
    if rows[near].0.key() < key {
        return first_behind(rows, key, near + 1);
    }
    first_before(rows, key, near)
}

// The same, from a place on before which all keys are below this one.
fn first_behind(rows: &[(Board, u32)], key: u128, start: usize) -> usize
    requires sorted { IsNonDecreasingBy (λ row. key_of row.0) rows.now }
    requires within { start ≤ length rows.now }
    requires lower { AreLower rows.now key start }
    ensures { IsPartitionPoint (λ row. key_of row.0 < key) (λ row. key ≤ key_of row.0)
        rows.now result }
{
    let mut low = start;
    let mut step = 1;
    'steps: while step <= rows.len() - low {
        let at = low + (step - 1);
        if key <= rows[at].0.key() {
            return first_between(rows, key, low, at);
        }
        low = at + 1;
        step = step.saturating_mul(2);
    }
    first_between(rows, key, low, rows.len())
}

// The same, from a place back from which on no key is below this one.
fn first_before(rows: &[(Board, u32)], key: u128, end: usize) -> usize
    requires sorted { IsNonDecreasingBy (λ row. key_of row.0) rows.now }
    requires within { end ≤ length rows.now }
    requires not_lower { AreNotLower rows.now key end }
    ensures { IsPartitionPoint (λ row. key_of row.0 < key) (λ row. key ≤ key_of row.0)
        rows.now result }
{
    let mut high = end;
    let mut step = 1;
    'steps: while step <= high {
        let at = high - step;
        if rows[at].0.key() < key {
            return first_between(rows, key, at + 1, high);
        }
        high = at;
        step = step.saturating_mul(2);
    }
    first_between(rows, key, 0, high)
}

// The same between two places: the rows between them are halved until none is left.
pub(crate) fn first_between(rows: &[(Board, u32)], key: u128, start: usize, end: usize) -> usize
    requires sorted { IsNonDecreasingBy (λ row. key_of row.0) rows.now }
    requires between { start ≤ end }
    requires within { end ≤ length rows.now }
    requires lower { AreLower rows.now key start }
    requires not_lower { AreNotLower rows.now key end }
    ensures { IsPartitionPoint (λ row. key_of row.0 < key) (λ row. key ≤ key_of row.0)
        rows.now result }
{
    let mut low = start;
    let mut high = end;
    'halves: while low < high {
        let middle = low + (high - low) / 2;
        if rows[middle].0.key() < key {
            low = middle + 1;
        } else {
            high = middle;
        }
    }
    low
}
