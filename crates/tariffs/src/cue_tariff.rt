// The tariff of a cue text: at most 16 curves in points, each a plain record.
ghost use Rattle.std.specs.Prelude.{◌≡◌, min, [], ◌∷◌, ◌++◌, length, MatchOption};
ghost use Rattle.time.specs.Ticks.{last_tick};
ghost use Rattle.costs.specs.Points.{points_not_above};
ghost use Rattle.curves.specs.Meaning.{reading};
ghost use Rattle.tariffs.specs.Meaning.{NoneFalls};
ghost use Rattle.tariffs.specs.Table.{records_of, record_at, next_number, RecordLaw};

use crate::cue_curve::{CueBase, CueCurve};
use crate::tariff::{MOST_CURVES, Tariff};
use costs::{Points, Ticks};
use curves::{Curve, Factor, Steps};
use tables::Filled;

#[derive(Clone, Copy)]
pub struct CueTariff {
    records: Filled<CueCurve, MOST_CURVES>,
}

impl CueTariff {
    // A tariff with no curve.
    pub fn new() -> CueTariff
        ensures { records_of result ≡ [] }
    {
        let base = CueBase::Steps(Steps::new());
        let unused = CueCurve {
            base,
            delay: Ticks::capped(0),
            weight: Factor::one(),
            ceiling: Points::capped(0),
        };
        CueTariff {
            records: Filled::new(unused),
        }
    }

    // The number that the next curve gets, or nothing where all numbers are taken.
    pub fn next_number(&self) -> Option<u8>
        ensures { result ≡ next_number (records_of self.now) }
    {
        let next = self.count();
        (usize::from(next) < MOST_CURVES).then_some(next)
    }

    // Adds the next curve and answers its number; where all numbers are taken it answers nothing and leaves the tariff as it was.
    pub fn add(&mut self, curve: CueCurve) -> Option<u8>
        ensures number { result ≡ next_number (records_of self.old) }
        ensures records { MatchOption result (self.new ≡ self.old) (λ _. records_of self.new ≡ records_of self.old ++ curve ∷ []) }
    {
        let place = self.records.push(curve)?;
        Some(place as u8)
    }
}

impl Tariff for CueTariff {
    type Cost = Points;

    ghost curve_count = { λ s. length (records_of s) };

    ghost curve_at = { λ s. record_at (records_of s) };

    #[tactic(auto, using(crate::proofs::Records::records_rise))]
    fn count(&self) -> u8 {
        self.records.len() as u8
    }

    // the trait's clauses are repeated: where an implementation adds a clause, they have to follow from its own
    #[tactic(auto, using(crate::proofs::Records::records_rise, crate::proofs::Records::record_law))]
    fn cost(&self, k: u8, t: u32) -> Points
        ensures value { result ≡ reading (record_at (records_of self.now) k) t }
        ensures rises { NoneFalls points_not_above (record_at (records_of self.now)) }
        ensures law { RecordLaw (records_of self.now) k (min t last_tick) result }
    {
        self.records
            .as_slice()
            .get(usize::from(k))
            .map_or(Points::capped(0), |curve| curve.cost(t))
    }
}
