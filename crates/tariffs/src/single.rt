// A single curve as a tariff: it stands for every number.
use crate::tariff::Tariff;
use curves::Curve;

#[derive(Clone, Copy, Drop)]
pub struct Single<F> {
    // what every number stands for
    pub curve: F,
}

impl<F: Curve> Tariff for Single<F> {
    type Cost = F::Cost;

    ghost curve_count = { λ _. 1 };

    ghost curve_at = { λ s _. F.Curve.cost_at s.curve };

    fn count(&self) -> u8 {
        // read for its promise alone: a curve that is not read promises nothing
        let _ = self.curve.cost(0);
        1u8
    }

    fn cost(&self, _k: u8, t: u32) -> F::Cost {
        self.curve.cost(t)
    }
}
