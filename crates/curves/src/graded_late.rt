// Graded Late: grade 0 and no ticks up to the due tick, then a grade with the ticks since.
ghost use Rattle.std.specs.Prelude.{◌≡◌, min, ◌&&◌, IfOk, None, nat_le};
ghost use Rattle.time.specs.Ticks.{last_tick};
ghost use Rattle.costs.specs.Graded.{grade_of, ticks_in, graded_not_above};
ghost use Rattle.costs.specs.Refusals.{refused, unless};
ghost use Rattle.curves.specs.Late.{graded_due_of, grade_after, graded_late_at, is_late_grade, late_by, late_grade};
ghost use Rattle.curves.specs.Meaning.{NeverFalls, reading};

use crate::curve::Curve;
use costs::{Graded, LateGrade, PricingRefusal, Ticks};
use time::LAST_TICK;

#[derive(Clone, Copy)]
pub struct GradedLate {
    // the tick up to which an end costs nothing
    due: Ticks,
    // the grade of a later end
    grade: LateGrade,
}

impl GradedLate {
    // The curve with that due tick and that grade, or a refusal where one of them is out of range.
    // What is refused and what is made are two clauses at each maker: they are what an auditor looks for.
    pub fn new(due: u64, grade: u64) -> Result<GradedLate, PricingRefusal>
        ensures answer { refused result ≡ unless (nat_le due last_tick && is_late_grade grade) PricingRefusal.OutOfRange None }
        ensures made { IfOk result (λ f. (graded_due_of f ≡ due) × (grade_after f ≡ grade)) }
    {
        Ok(GradedLate {
            due: Ticks::new(due)?,
            grade: LateGrade::new(grade)?,
        })
    }
}

impl Curve for GradedLate {
    type Cost = Graded;

    ghost cost_at = { graded_late_at };

    // the trait's clauses are repeated: where an implementation adds a clause, they have to follow from its own
    fn cost(&self, t: u32) -> Graded
        ensures value { result ≡ reading (graded_late_at self.now) t }
        ensures rises { NeverFalls graded_not_above (graded_late_at self.now) }
        ensures grade { grade_of result ≡ late_grade (graded_due_of self.now) (grade_after self.now) (min t last_tick) }
        ensures ticks { ticks_in result ≡ late_by (graded_due_of self.now) (min t last_tick) }
    {
        let end = u64::from(t.min(LAST_TICK));
        let due = self.due.get();
        let grade = if end <= due { 0 } else { self.grade.get() };
        Graded::capped(grade, end.saturating_sub(due))
    }
}
