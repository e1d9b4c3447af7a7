// Weight: so many times the points of the curve below, and no more than the highest points.
ghost use Rattle.costs.specs.Factor.{times};
ghost use Rattle.layers.specs.Layers.{weighted};

use costs::Points;
use curves::{Curve, Factor};

#[derive(Clone, Copy, Drop)]
pub struct Weight<F> {
    // the curve below
    pub curve: F,
    // how many times its points count
    pub factor: Factor,
}

impl<F: Curve<Cost = Points>> Curve for Weight<F> {
    type Cost = Points;

    ghost cost_at = { λ s. weighted (times s.factor) (F.Curve.cost_at s.curve) };

    #[tactic(auto, using(crate::proofs::Keeps::weighted_rises))]
    fn cost(&self, t: u32) -> Points {
        Points::capped(self.factor.get() * self.curve.cost(t).get())
    }
}
