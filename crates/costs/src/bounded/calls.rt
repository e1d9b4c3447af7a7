// Making checked numbers, and reading them. By `new` and `get`, and not by `TryFrom` and `From`: they answer the same, and `Ticks::new(7)?` says
// which number is made, where `7.try_into()?` does not.
ghost use Rattle.std.specs.Prelude.{◌≡◌, ◌≤◌, IfOk, Some, None, decimal};
ghost use Rattle.costs.specs.Bounded.{value_of, capped_at, is_within};
ghost use Rattle.costs.specs.Factor.{times};
ghost use Rattle.costs.specs.Refusals.{refused, unless};

use super::{Bounded, Factor};
use crate::refusal::PricingRefusal;
use std::fmt;

impl<const LOW: u64, const HIGH: u64> Bounded<LOW, HIGH> {
    // That number, or a refusal where it is out of range.
    pub fn new(value: u64) -> Result<Self, PricingRefusal>
        ensures answer { refused result ≡ unless (is_within LOW HIGH value) PricingRefusal.OutOfRange None }
        ensures made { IfOk result (λ b. value_of b ≡ value) }
    {
        if value < LOW || value > HIGH {
            return Err(PricingRefusal::OutOfRange);
        }
        Ok(Bounded { value })
    }

    // The number.
    pub fn get(self) -> u64
        ensures number { result ≡ value_of self.entry }
        ensures within { (LOW ≤ result) × (result ≤ HIGH) }
    {
        self.value
    }
}

impl<const HIGH: u64> Bounded<0, HIGH> {
    // That number, and the high bound where it is more.
    pub fn capped(value: u64) -> Self
        ensures { result ≡ capped_at HIGH value }
    {
        Bounded {
            value: value.min(HIGH),
        }
    }
}

impl Factor {
    // The factor that changes nothing.
    pub fn one() -> Factor
        ensures { times result ≡ 1 }
    {
        Bounded { value: 1 }
    }
}

impl<const LOW: u64, const HIGH: u64> fmt::Display for Bounded<LOW, HIGH> {
    ghost output = { λ b. Some (decimal (value_of b)) };

    fn fmt<W: fmt::Write>(&self, f: &mut fmt::Formatter<W>) -> fmt::Result {
        let value = self.get();
        write!(f, "{value}")
    }
}
