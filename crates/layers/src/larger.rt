// Larger: the greater of the costs of two curves of one kind.
ghost use Rattle.layers.specs.Layers as layers;

use costs::{CostKind, greater};
use curves::Curve;

#[derive(Clone, Copy, Drop)]
pub struct Larger<F, G> {
    // the two curves
    pub one: F,
    pub other: G,
}

impl<C: CostKind, F: Curve<Cost = C>, G: Curve<Cost = C>> Curve for Larger<F, G> {
    type Cost = C;

    ghost cost_at = { λ s. layers.larger C.CostKind.not_above (F.Curve.cost_at s.one) (G.Curve.cost_at s.other) };

    fn cost(&self, t: u32) -> C {
        greater(self.one.cost(t), self.other.cost(t))
    }
}
