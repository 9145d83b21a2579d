//! How shares are counted.

ghost use Rattle.std.specs.Prelude.{ℕ, ◌≡◌, ◌≢◌, ◌+◌, ◌^◌, ◌<◌, ◌≤◌};
ghost use Rattle.outcomes.specs.declared.outcome.Want.{Want};
ghost use Rattle.outcomes.specs.declared.outcome.Want.TheVariants.{Stated};

/// A way of counting: parts of a credit and the sum of all of them, and in the same way what is
/// granted of a limit.
///
/// Only amounts are seen in contracts. That a part is among those that a sum counts is known by
/// the part itself, or owed by the caller: `counts` says which.
pub trait Counting {
    /// A part of a credit.
    type Part: Drop + Send;

    /// A credit: the sum of all its parts.
    type Sum: Drop + Send;

    /// What was granted to one worker.
    type Ticket: Drop + Send;

    /// What was granted to all workers.
    type Total: Drop + Send;

    /// The amount of a part.
    ghost amount: { Self.Part → ℕ };

    /// The amount of all parts together.
    ghost sum: { Self.Sum → ℕ };

    /// What was granted by a ticket.
    ghost granted: { Self.Ticket → ℕ };

    /// What was granted by all tickets together.
    ghost total: { Self.Total → ℕ };

    /// What a caller owes to show that a share of the second amount is one of those whose sum is
    /// the first.
    ghost counts: { ℕ → ℕ → Type 0 };

    /// Which limits a book may have.
    ghost allows_limit: { ℕ → Type 0 };

    /// How many workers may share a book.
    ghost allows_workers: { ℕ → Type 0 };

    /// For which `Want` a book may stop.
    ghost allows_want: { Want → Type 0 };

    /// The amount of a part.
    fn amount_of(part: &Self::Part) -> u64
        ensures { result ≡ amount part.now };

    /// The amount of all parts together.
    fn sum_of(all: &Self::Sum) -> u64
        ensures { result ≡ sum all.now };

    /// A part of amount 0.
    fn empty(all: &mut Self::Sum) -> Self::Part
        ensures empty { amount result ≡ 0 }
        ensures kept { sum all.new ≡ sum all.old };

    /// Takes a part of amount 1 off.
    fn split_one(part: &mut Self::Part) -> Self::Part
        requires { 0 < amount part.old }
        ensures one { amount result ≡ 1 }
        ensures left { amount part.new + 1 ≡ amount part.old };

    /// Puts two parts together.
    fn join(part: &mut Self::Part, other: Self::Part)
        requires { amount part.old + amount other < 2 ^ 64 }
        ensures { amount part.new ≡ amount part.old + amount other };

    /// Adds to a part and to the sum.
    fn draw(all: &mut Self::Sum, part: &mut Self::Part, more: u64)
        requires some { 0 < more }
        requires room { sum all.old + more < 2 ^ 64 }
        requires counted { counts (sum all.old) (amount part.old) }
        ensures amount { amount part.new ≡ amount part.old + more }
        ensures sum { sum all.new ≡ sum all.old + more };

    /// Takes all of a part from the sum.
    fn give_back(all: &mut Self::Sum, part: &mut Self::Part)
        requires counted { counts (sum all.old) (amount part.old) }
        ensures bound { amount part.old ≤ sum all.old }
        ensures amount { amount part.new ≡ 0 }
        ensures sum { sum all.new + amount part.old ≡ sum all.old };

    /// Changes nothing, and tells that a part is within the sum.
    fn audit(all: &mut Self::Sum, part: &mut Self::Part)
        requires counted { counts (sum all.old) (amount part.old) }
        ensures bound { amount part.old ≤ sum all.old }
        ensures amount { amount part.new ≡ amount part.old }
        ensures sum { sum all.new ≡ sum all.old };

    /// What was granted by all tickets together.
    fn total_of(all: &Self::Total) -> u64
        ensures { result ≡ total all.now };

    /// Adds to a ticket and to the total.
    fn grant(all: &mut Self::Total, ticket: &mut Self::Ticket, more: u64)
        requires room { total all.old + more < 2 ^ 64 }
        requires counted { counts (total all.old) (granted ticket.old) }
        ensures bound { granted ticket.old ≤ total all.old }
        ensures granted { granted ticket.new ≡ granted ticket.old + more }
        ensures total { total all.new ≡ total all.old + more };
}

/// A way of counting for threads. A caller owes nothing. A book behind a lock has this limit and
/// this number of workers, and no list of steps stopped it. A book with these may be made, and any
/// refusal of memory may stop it.
pub trait Tokens: Counting {
    /// The limit.
    ghost limit: { ℕ };

    /// How many workers there are.
    ghost workers: { ℕ };

    /// Each share is counted.
    ghost counted: { (sum amount : ℕ) → Self.counts sum amount };

    /// A book may have this limit.
    ghost its_limit: { Self.allows_limit limit };

    /// There is no other limit.
    ghost one_limit: { (n : ℕ) → Self.allows_limit n → n ≡ limit };

    /// This number of workers may share a book.
    ghost its_count: { Self.allows_workers workers };

    /// There is no other number of workers.
    ghost one_count: { (n : ℕ) → Self.allows_workers n → n ≡ workers };

    /// Each refusal of memory may stop a book.
    ghost each_refusal: { (want : Want) → want ≢ Stated → Self.allows_want want };

    /// Each want is a refusal of memory.
    ghost no_list: { ¬ Self.allows_want Stated };
}
