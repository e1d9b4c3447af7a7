// Making steps, and reading them.
ghost use Rattle.std.specs.Prelude.{◌≡◌, min, true, [], ◌∷◌, IfOk, MatchResult, OnOk};
ghost use Rattle.time.specs.Ticks.{last_tick};
ghost use Rattle.costs.specs.Points.{amount, points_not_above};
ghost use Rattle.costs.specs.Refusals.{refused};
ghost use Rattle.curves.specs.Meaning.{NeverFalls, reading};
ghost use Rattle.curves.specs.Rows.{free_row, in_range, fit, RowsLaw, PointsLaw, rows_refusal};
ghost use Rattle.curves.specs.Steps.{rows_of, steps_at};

use super::Steps;
use super::rows::{all_climb, all_in_range, points_at};
use crate::curve::Curve;
use crate::row::Row;
use costs::{Points, PricingRefusal};
use tables::Filled;
use time::LAST_TICK;

impl Steps {
    // A place to be filled. It has the one row of no points from the beginning, so it costs nothing at any tick.
    pub fn new() -> Steps
        ensures { rows_of result ≡ free_row ∷ [] }
    {
        let mut rows = Filled::new(Row::NOTHING);
        let _ = rows.push(Row::NOTHING);
        Steps { rows }
    }

    // Fills the place with those rows, or refuses them and leaves it as it was.
    #[tactic(auto, using(crate::proofs::Rows::rows_law))]
    pub fn fill(&mut self, rows: &[Row]) -> Result<(), PricingRefusal>
        ensures answer { refused result ≡ rows_refusal rows.now }
        ensures place { MatchResult result (λ _. rows_of self.new ≡ rows.now) (λ _. self.new ≡ self.old) }
        ensures law { RowsLaw rows.now }
    {
        if !all_in_range(rows) {
            return Err(PricingRefusal::OutOfRange);
        }
        let table = Filled::from_slice(Row::NOTHING, rows).ok_or(PricingRefusal::RowsUnfit)?;
        if rows.is_empty() || !all_climb(rows) {
            return Err(PricingRefusal::RowsUnfit);
        }
        *self = Steps { rows: table };
        Ok(())
    }
}

impl Curve for Steps {
    type Cost = Points;

    ghost cost_at = { steps_at };

    // the trait's clauses are repeated: where an implementation adds a clause, they have to follow from its own
    #[tactic(auto, using(crate::proofs::Rises::steps_rises, crate::proofs::Rises::steps_low, crate::proofs::Rows::points_law))]
    fn cost(&self, t: u32) -> Points
        ensures value { result ≡ reading (steps_at self.now) t }
        ensures rises { NeverFalls points_not_above (steps_at self.now) }
        ensures law { PointsLaw (rows_of self.now) (min t last_tick) (amount result) }
    {
        Points::capped(points_at(self.rows.as_slice(), u64::from(t.min(LAST_TICK))))
    }
}
