// Why a cost, a curve or the number of a layer was refused: each reason has a number and can be printed in words.
ghost use Rattle.std.specs.Prelude.{◌≡◌};
ghost use Rattle.costs.specs.Refusals.{number_of};

use thiserror::Error;

#[derive(Clone, Copy, PartialEq, Eq, Debug, Error)]
pub enum PricingRefusal {
    #[error("a number is outside its range")]
    OutOfRange = 12,
    // there is no row, there are more than eight, their ticks do not rise or their points fall
    #[error("one to eight rows are wanted, with rising ticks and points that never fall")]
    RowsUnfit = 13,
}

impl PricingRefusal {
    // The number by which the refusal is known. The sheet's `Refusal` has the same method: a line each, of two enums that no caller has as one.
    pub fn number(self) -> u8
        ensures { result ≡ number_of self }
    {
        self as u8
    }
}
