// A curve of a cue text as a plain record: a base, with a delay, a weight and a ceiling over it.
ghost use Rattle.tariffs.specs.Cue.{base_at, cue_at};

use costs::{Points, Ticks};
use curves::{Curve, Factor, Late, Steps};
use layers::{Ceiling, Delay, Weight};

// The base of a record, with its tag.
#[derive(Clone, Copy)]
pub enum CueBase {
    Late(Late),
    Steps(Steps),
}

#[derive(Clone, Copy)]
pub struct CueCurve {
    // the curve below the layers
    pub base: CueBase,
    // by how many ticks it is read later
    pub delay: Ticks,
    // how many times its points count
    pub weight: Factor,
    // the most that is answered
    pub ceiling: Points,
}

impl Curve for CueBase {
    type Cost = Points;

    ghost cost_at = { base_at };

    // by its tag, and not through `dyn`: records are plain data in a table of a fixed size
    fn cost(&self, t: u32) -> Points {
        match self {
            CueBase::Late(late) => late.cost(t),
            CueBase::Steps(steps) => steps.cost(t),
        }
    }
}

impl Curve for CueCurve {
    type Cost = Points;

    ghost cost_at = { cue_at };

    fn cost(&self, t: u32) -> Points {
        let delayed = Delay {
            curve: self.base,
            by: self.delay,
        };
        let weighted = Weight {
            curve: delayed,
            factor: self.weight,
        };
        let ceiled = Ceiling {
            curve: weighted,
            most: self.ceiling,
        };
        ceiled.cost(t)
    }
}
