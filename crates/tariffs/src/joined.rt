// Two tariffs of one kind, joined: the curves of the first, then those of the second.
ghost use Rattle.tariffs.specs.Joined.{joined_count, joined_at};

use crate::tariff::{MOST_CURVES, Tariff};
use costs::CostKind;

#[derive(Clone, Copy, Drop)]
pub struct Joined<A, B> {
    // whose curves have the lower numbers
    pub first: A,
    // whose curves come after them
    pub second: B,
}

impl<C: CostKind, A: Tariff<Cost = C>, B: Tariff<Cost = C>> Tariff for Joined<A, B> {
    type Cost = C;

    ghost curve_count = { λ s. joined_count (A.Tariff.curve_count s.first) (B.Tariff.curve_count s.second) };

    ghost curve_at = { λ s. joined_at (A.Tariff.curve_count s.first) (A.Tariff.curve_at s.first) (B.Tariff.curve_at s.second) };

    fn count(&self) -> u8 {
        (MOST_CURVES as u8).min(self.first.count() + self.second.count())
    }

    fn cost(&self, k: u8, t: u32) -> C {
        let n = self.first.count();
        // asked for its promise alone: the part that is not read promises nothing
        let _ = self.second.count();
        if k < n {
            self.first.cost(k, t)
        } else {
            self.second.cost(k - n, t)
        }
    }
}
