//! A certificate, and whether fields have a spelling.

ghost use Rattle.std.specs.Prelude.{◌≡◌, ◌≤◌, ◌↔◌, length, None, IsSome, IfSome, IsTrue};
ghost use Rattle.std.specs.List.{AllByRecursion};
ghost use Rattle.certificate.specs.Certificates.{CertificateModel, statement_of, AreCostsOf};
ghost use Rattle.certificate.specs.Certificates.{IsSplitOf};
ghost use Rattle.certificate.specs.Certificates.{Allows, greatest, upgraded, IsBoardOf};
ghost use Rattle.certificate.specs.Certificates.{cost_of, plan_of};
ghost use Rattle.certificate.specs.Certificates.{IsWithinLimit, IsRow, Follows};
ghost use Rattle.certificate.specs.Certificates.{RiseAfter, IsCertificate};
ghost use Rattle.certificate.specs.Readings.{may_follow};
ghost use Rattle.certificate.specs.Spellings.{cost_kind_of};

use board::{Board, GREATEST_COST, Move, Shape, Weights};
use pattern_index::Partition;
use std::marker::Model;

/// The greatest bound that a certificate can state: the greatest cost of a row, and 65,535 for each
/// of 24 groups.
pub const GREATEST_BOUND: u32 = 2_621_415;

/// The version of a certificate. In version 1 a plan is claimed, in version 2 that or a bound.
#[derive(Clone, Copy, Debug, PartialEq, Eq)]
pub enum Version {
    One,
    Two,
}

/// What a certificate claims of the plans from its start to its goal.
#[derive(Debug, Drop)]
pub enum Claim {
    /// The moves of a plan, and what it costs, which is least.
    Least { cost: u32, plan: Vec<Move> },
    /// No plan costs less than the bound.
    Bound { bound: u32 },
}

impl Claim {
    /// The plan's cost, or the bound.
    pub fn cost(&self) -> u32
        ensures { result ≡ cost_of self.now }
    {
        match self {
            Claim::Least { cost, .. } => *cost,
            Claim::Bound { bound } => *bound,
        }
    }
}

/// The fields of a certificate.
#[derive(Debug, Drop)]
pub struct Parts {
    pub version: Version,
    /// The shape of all boards.
    pub shape: Shape,
    /// What moves cost.
    pub costs: Weights,
    /// The groups of tiles whose tables bound the cost from below.
    pub groups: Partition,
    pub start: Board,
    pub goal: Board,
    /// A plan and its cost, which is least, or a bound.
    pub claim: Claim,
    /// Boards, and what it costs at most to reach them, that prove with the sums of the groups'
    /// tables that no plan costs less than is claimed.
    pub rows: Vec<(Board, u32)>,
}

/// An answer that any program can check. It has a spelling:
///
/// - A bound is claimed in version 2 only.
/// - The costs, the groups and all boards are of one shape.
/// - No cost is above `GREATEST_COST`, and the plan has no more moves than that.
/// - No bound is above `GREATEST_BOUND`.
/// - The rows rise by their lists of tiles.
#[derive(Debug, Drop)]
pub struct Certificate {
    parts: Parts,
}

impl Model for Certificate {
    ghost use Rattle.certificate.specs.Certificates.{CertificateModel, statement_of, IsCertificate};

    ghost Value = { CertificateModel };

    ghost view = { λ s. statement_of s.parts };

    ghost invariant = { λ s. IsCertificate (statement_of s.parts) };
}

impl Certificate {
    /// The certificate with these fields, or None where they have no spelling:
    ///
    /// - Shapes differ.
    /// - A cost or the plan's length is above `GREATEST_COST`.
    /// - A bound is above `GREATEST_BOUND`, or it is claimed in version 1.
    /// - A row does not come after the row before it.
    pub fn new(parts: Parts) -> Option<Self>
        ensures accepted { IsSome result ↔ IsCertificate (statement_of parts) }
        ensures value { IfSome result (λ c. c ≡ statement_of parts) }
    {
        if has_spelling(&parts) {
            Some(Certificate { parts })
        } else {
            None
        }
    }

    /// The shape of all boards.
    pub fn shape(&self) -> Shape
        ensures value { result ≡ self.now.grid }
        ensures certificate { IsCertificate self.now }
    {
        self.parts.shape
    }

    /// What moves cost.
    pub fn costs(&self) -> Weights
        ensures { result ≡ self.now.costs }
    {
        self.parts.costs
    }

    /// The groups of tiles whose tables bound the cost from below.
    pub fn groups(&self) -> &Partition
        ensures value { result.now ≡ self.now.groups }
        ensures partition { IsSplitOf self.now.grid self.now.groups }
    {
        &self.parts.groups
    }

    /// The start.
    pub fn start(&self) -> Board
        ensures { result ≡ self.now.start }
    {
        self.parts.start
    }

    /// The goal.
    pub fn goal(&self) -> Board
        ensures { result ≡ self.now.goal }
    {
        self.parts.goal
    }

    /// The version.
    pub fn version(&self) -> Version
        ensures { result ≡ self.now.version }
    {
        self.parts.version
    }

    /// A plan and its cost, which is least, or a bound.
    pub fn claim(&self) -> &Claim
        ensures cost { cost_of result.now ≡ self.now.cost }
        ensures plan { plan_of result.now ≡ self.now.plan }
        ensures within { IfSome self.now.plan (λ plan. IsWithinLimit (length plan)) }
    {
        &self.parts.claim
    }

    /// The plan's cost, or the bound: no plan costs less, as is claimed.
    pub fn cost(&self) -> u32
        ensures { result ≡ self.now.cost }
    {
        self.parts.claim.cost()
    }

    /// Boards with costs, which prove that no plan costs less than is claimed.
    pub fn rows(&self) -> &[(Board, u32)]
        ensures { result.now ≡ self.now.rows }
    {
        self.parts.rows.as_slice()
    }

    // The certificate of fields that have a spelling.
    pub(crate) fn from_parts(parts: Parts) -> Self
        requires { IsCertificate (statement_of parts) }
        ensures { result ≡ statement_of parts }
    {
        Certificate { parts }
    }

    /// The same certificate in version 2, for which no memory is taken.
    pub fn upgrade(self) -> Self
        ensures { result ≡ upgraded self }
    {
        let Certificate { mut parts } = self;
        parts.version = Version::Two;
        Certificate { parts }
    }

    /// The fields.
    pub fn into_parts(self) -> Parts
        ensures { statement_of result ≡ self }
    {
        let Certificate { parts } = self;
        parts
    }
}

// Whether fields have a spelling.
fn has_spelling(parts: &Parts) -> bool
    ensures { IsTrue result ↔ IsCertificate (statement_of parts.now) }
{
    let shape = parts.shape;
    if !are_costs_of(shape, &parts.costs) {
        return false;
    }
    if !is_partition_of(shape, &parts.groups) {
        return false;
    }
    if !is_board_of(shape, &parts.start) || !is_board_of(shape, &parts.goal) {
        return false;
    }
    if !is_claim(parts.version, &parts.claim) {
        return false;
    }
    are_rows(shape, parts.rows.as_slice())
}

// Whether this may be claimed in a certificate of the version.
fn is_claim(version: Version, claim: &Claim) -> bool
    ensures { IsTrue result
        ↔ (Allows version (plan_of claim.now) × (cost_of claim.now ≤ greatest (plan_of claim.now))
        × IfSome (plan_of claim.now) (λ plan. IsWithinLimit (length plan))) }
{
    match claim {
        Claim::Least { cost, plan } => {
            *cost <= GREATEST_COST && plan.len() <= GREATEST_COST as usize
        }
        Claim::Bound { bound } => version == Version::Two && *bound <= GREATEST_BOUND,
    }
}

// Whether costs are of the shape.
fn are_costs_of(shape: Shape, costs: &Weights) -> bool
    ensures { IsTrue result ↔ AreCostsOf shape costs.now }
{
    costs.shape() == shape
}

// 0 for unit costs, 1 for face costs, else 2.
pub(crate) fn kind(costs: &Weights) -> u8
    ensures { result ≡ cost_kind_of costs.now }
{
    let shape = costs.shape();
    if *costs == Weights::unit(shape) {
        return 0;
    }
    if *costs == Weights::face(shape) {
        return 1;
    }
    2
}

// Whether groups are of the shape.
fn is_partition_of(shape: Shape, groups: &Partition) -> bool
    ensures { IsTrue result ↔ IsSplitOf shape groups.now }
{
    groups.shape() == shape
}

// Whether a board is of the shape.
fn is_board_of(shape: Shape, board: &Board) -> bool
    ensures { IsTrue result ↔ IsBoardOf shape board.now }
{
    board.shape() == shape
}

// Whether these are rows of the shape that rise by their lists of tiles.
fn are_rows(shape: Shape, rows: &[(Board, u32)]) -> bool
    ensures { IsTrue result ↔ (AllByRecursion (IsRow shape) rows.now × RiseAfter None rows.now) }
{
    let mut before = None;
    'rows: for row in rows {
        if !is_next_row(shape, before, row) {
            return false;
        }
        before = Some(row.0);
    }
    true
}

// Whether this is a row of the shape that comes after the one with this board, if there is one.
fn is_next_row(shape: Shape, before: Option<Board>, row: &(Board, u32)) -> bool
    requires { IfSome before (IsBoardOf shape) }
    ensures { IsTrue result
        ↔ (IsRow shape row.now × Follows before row.now.0) }
{
    if !is_row(shape, row) {
        return false;
    }
    comes_after(before, &row.0)
}

// Whether this is a row of the shape.
fn is_row(shape: Shape, row: &(Board, u32)) -> bool
    ensures { IsTrue result ↔ IsRow shape row.now }
{
    is_board_of(shape, &row.0) && row.1 <= GREATEST_COST
}

// Whether the tiles of a board come after those of the one before it, if there is one.
pub(crate) fn comes_after(before: Option<Board>, board: &Board) -> bool
    ensures { result ≡ may_follow before board.now }
{
    match before {
        None => true,
        Some(before) => before.key() < board.key(),
    }
}
