// Late: no points up to the due tick, then so many for each tick. A type of its own beside `GradedLate`: a rate is multiplied and a grade is not, and
// one struct for both would have a field that is named by neither.
ghost use Rattle.std.specs.Prelude.{◌≡◌, ◌*◌, ◌≤◌, min, ◌&&◌, IfOk, None, nat_le};
ghost use Rattle.time.specs.Ticks.{last_tick};
ghost use Rattle.costs.specs.Points.{amount, points_of, points_not_above};
ghost use Rattle.costs.specs.Refusals.{refused, unless};
ghost use Rattle.costs.specs.Factor.{is_factor};
ghost use Rattle.curves.specs.Late.{due_of, rate_of, late_at, late_points};
ghost use Rattle.curves.specs.Meaning.{NeverFalls, reading};

use crate::curve::Curve;
use costs::{Factor, Points, PricingRefusal, Ticks};
use time::LAST_TICK;

#[derive(Clone, Copy)]
pub struct Late {
    // the tick up to which an end costs nothing
    due: Ticks,
    // the points of each tick after it
    rate: Factor,
}

impl Late {
    // The curve with that due tick and that rate, or a refusal where one of them is out of range.
    // What is refused and what is made are two clauses at each maker: they are what an auditor looks for.
    pub fn new(due: u64, rate: u64) -> Result<Late, PricingRefusal>
        ensures answer { refused result ≡ unless (nat_le due last_tick && is_factor rate) PricingRefusal.OutOfRange None }
        ensures made { IfOk result (λ f. (due_of f ≡ due) × (rate_of f ≡ rate)) }
    {
        Ok(Late {
            due: Ticks::new(due)?,
            rate: Factor::new(rate)?,
        })
    }
}

impl Curve for Late {
    type Cost = Points;

    ghost cost_at = { late_at };

    // the trait's clauses are repeated: where an implementation adds a clause, they have to follow from its own
    fn cost(&self, t: u32) -> Points
        ensures value { result ≡ reading (late_at self.now) t }
        ensures rises { NeverFalls points_not_above (late_at self.now) }
        ensures formula { amount result ≡ late_points (due_of self.now) (rate_of self.now) (min t last_tick) }
    {
        let late = u64::from(t.min(LAST_TICK)).saturating_sub(self.due.get());
        Points::capped(self.rate.get() * late)
    }
}
