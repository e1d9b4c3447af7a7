// Delay: the curve below is read some ticks later, for a bar whose cost counts from when it comes to rest.
ghost use Rattle.costs.specs.Ticks.{tick_count};
ghost use Rattle.layers.specs.Layers.{delayed};

use costs::Ticks;
use curves::Curve;
use time::LAST_TICK;

#[derive(Clone, Copy, Drop)]
pub struct Delay<F> {
    // the curve below
    pub curve: F,
    // by how many ticks it is read later
    pub by: Ticks,
}

impl<F: Curve> Curve for Delay<F> {
    type Cost = F::Cost;

    ghost cost_at = { λ s. delayed (tick_count s.by) (F.Curve.cost_at s.curve) };

    fn cost(&self, t: u32) -> F::Cost {
        // the delay is no more than the last tick, so it fits
        self.curve.cost(t.min(LAST_TICK) + self.by.get() as u32)
    }
}
