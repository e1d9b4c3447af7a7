// Ceiling: the cost of the curve below, and never more than a given one.
ghost use Rattle.layers.specs.Layers.{under_ceiling};

use costs::{CostKind, lesser};
use curves::Curve;

// C is a parameter of its own: a struct that holds an `F::Cost` cannot be `Copy` yet.
#[derive(Clone, Copy, Drop)]
pub struct Ceiling<F, C> {
    // the curve below
    pub curve: F,
    // the most that is answered
    pub most: C,
}

impl<C: CostKind, F: Curve<Cost = C>> Curve for Ceiling<F, C> {
    type Cost = C;

    ghost cost_at = { λ s. under_ceiling C.CostKind.not_above s.most (F.Curve.cost_at s.curve) };

    fn cost(&self, t: u32) -> C {
        lesser(self.curve.cost(t), self.most)
    }
}
