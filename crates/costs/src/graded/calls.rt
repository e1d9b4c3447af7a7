// Making graded costs, reading them and comparing them.
ghost use Rattle.std.specs.Prelude.{◌≡◌, ◌&&◌, ◌++◌, IfOk, Some, None, codes, decimal, nat_le};
ghost use Rattle.time.specs.Ticks.{last_tick};
ghost use Rattle.costs.specs.Graded.{grade_of, ticks_in, graded_of, graded_not_above};
ghost use Rattle.costs.specs.Limits.{last_grade};
ghost use Rattle.costs.specs.Refusals.{refused, unless};
ghost use Rattle.std.proofs.Common.{arith, rules};
ghost use Rattle.std.proofs.lemmas.Bool.Decides.{nat_tests};
ghost use Rattle.costs.specs.Same.{same_graded};

use super::Graded;
use crate::bounded::{Grade, Ticks};
use crate::kind::CostKind;
use crate::refusal::PricingRefusal;
use std::fmt;

impl Graded {
    // The cost of that grade and that many ticks, or a refusal where one of them is out of range.
    // What is refused and what is made are two clauses at each maker: they are what an auditor looks for.
    pub fn new(grade: u64, ticks: u64) -> Result<Graded, PricingRefusal>
        ensures answer { refused result ≡ unless (nat_le grade last_grade && nat_le ticks last_tick) PricingRefusal.OutOfRange None }
        ensures made { IfOk result (λ c. (grade_of c ≡ grade) × (ticks_in c ≡ ticks)) }
    {
        // each is no more than its bound, so it fits
        Ok(Graded {
            grade: Grade::new(grade)?.get() as u8,
            ticks: Ticks::new(ticks)?.get() as u32,
        })
    }

    // The cost of that grade and that many ticks, each no more than its greatest.
    pub fn capped(grade: u64, ticks: u64) -> Graded
        ensures { result ≡ graded_of grade ticks }
    {
        Graded {
            grade: Grade::capped(grade).get() as u8,
            ticks: Ticks::capped(ticks).get() as u32,
        }
    }

    // The grade.
    pub fn grade(self) -> u64
        ensures { result ≡ grade_of self }
    {
        u64::from(self.grade)
    }

    // The ticks.
    pub fn ticks(self) -> u32
        ensures { result ≡ ticks_in self }
    {
        self.ticks
    }
}

impl CostKind for Graded {
    ghost not_above = { graded_not_above };

    ghost total = { Prim.search rules };

    ghost same = { λ a b h k. same_graded a b (Prim.grind (arith, nat_tests)) (Prim.grind (arith, nat_tests)) };

    ghost chain = { Prim.search rules };

    fn not_above(self, other: Graded) -> bool {
        self <= other
    }
}

impl fmt::Display for Graded {
    ghost output = { λ c. Some (decimal (grade_of c) ++ (codes "/" ++ decimal (ticks_in c))) };

    fn fmt<W: fmt::Write>(&self, f: &mut fmt::Formatter<W>) -> fmt::Result {
        let grade = self.grade();
        let ticks = self.ticks();
        write!(f, "{grade}/{ticks}")
    }
}
