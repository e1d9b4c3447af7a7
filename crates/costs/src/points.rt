// Points: the plain kind of cost, a whole number from 0 to 10^15.
ghost use Rattle.costs.specs.Points.{points_not_above};
ghost use Rattle.std.proofs.Common.{arith, rules};
ghost use Rattle.std.proofs.lemmas.Bool.Decides.{nat_tests};
ghost use Rattle.costs.specs.Bounded.{same};

use crate::bounded::Bounded;
use crate::kind::CostKind;

// The highest points.
pub const HIGHEST: u64 = 1_000_000_000_000_000;

pub type Points = Bounded<0, HIGHEST>;

impl CostKind for Points {
    ghost not_above = { points_not_above };

    ghost total = { Prim.search rules };

    ghost same = { λ a b h k. same a b (Prim.grind (arith, nat_tests)) };

    ghost chain = { Prim.search rules };

    fn not_above(self, other: Points) -> bool {
        self <= other
    }
}
