// A curve: what it costs to end a move at each tick. Scheduling texts call it the cost function of a job.
ghost use Rattle.std.specs.Prelude.{◌≡◌, ℕ};
ghost use Rattle.curves.specs.Meaning.{NeverFalls, reading};

use costs::CostKind;

pub trait Curve {
    // the kind of cost that it answers
    type Cost: CostKind;

    // what it means: a cost for each tick from 0 to the last one
    ghost cost_at: { Self → ℕ → Self.Cost };

    // That costs never fall is promised by each call, of the whole meaning, and is not a law of the trait: a layer has it from the curve that it reads.
    // The cost of an end at tick t; an end after the last tick costs what one at the last tick does. Costs never fall as the tick grows.
    fn cost(&self, t: u32) -> Self::Cost
        ensures value { result ≡ reading (cost_at self.now) t }
        ensures rises { NeverFalls Self.Cost.CostKind.not_above (cost_at self.now) };
}
