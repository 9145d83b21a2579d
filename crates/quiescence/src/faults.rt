//! The codes of refused calls.

ghost use Rattle.std.specs.Prelude.{◌≡◌};
ghost use Rattle.quiescence.specs.Faults as faults;

use world_model::BookFault;

/// The code that a refused call is reported by: `Q1` to `Q7`.
pub fn book_code(fault: BookFault) -> &'static str
    ensures { result.now ≡ faults.book_code fault }
{
    match fault {
        BookFault::RunStopped => "Q1",
        BookFault::NoPurse => "Q2",
        BookFault::CreditFull => "Q3",
        BookFault::NotLower => "Q4",
        BookFault::NothingLeft => "Q5",
        BookFault::FloorBelowLimit => "Q6",
        BookFault::AllowanceRemains => "Q7",
    }
}

/// No two faults have the same code.
pub fn codes_differ()
    ensures { faults.CodesDiffer }
{}
