// Why a sheet call was refused: each reason has a number and can be printed in words.
ghost use Rattle.std.specs.Prelude.{◌≡◌};
ghost use Rattle.sheet.specs.Refusals.{number_of};

use thiserror::Error;

#[derive(Clone, Copy, PartialEq, Eq, Debug, Error)]
pub enum Refusal {
    #[error("there is no such move number")]
    NumberTooHigh = 1,
    #[error("that number is on the sheet already")]
    NumberTaken = 2,
    #[error("a named move is not on the sheet")]
    MoveAbsent = 3,
    #[error("a release, a length or a curve number is outside its range")]
    OutOfRange = 4,
    // the greatest release and all lengths together would pass the last tick
    #[error("the sheet would no longer fit before the last tick")]
    SpanTooLong = 5,
    // both moves are one, or ties already lead from the second to the first
    #[error("the first would have to wait for itself")]
    ChainReturns = 6,
    #[error("there is no such tie")]
    TieAbsent = 7,
}

impl Refusal {
    // The number by which the refusal is known. `PricingRefusal` has the same method: a line each, of two enums that no caller has as one.
    pub fn number(self) -> u8
        ensures { result ≡ number_of self }
    {
        self as u8
    }
}
