// The lesser and the greater of two costs, of any kind.
ghost use Rattle.std.specs.Prelude.{◌≡◌};
ghost use Rattle.costs.specs.Order as order;
ghost use Rattle.costs.specs.Order.{IsLesser, IsGreater};

use crate::kind::CostKind;

// The lesser of two costs.
pub fn lesser<C: CostKind>(a: C, b: C) -> C
    ensures cost { result ≡ order.lesser C.not_above a b }
    ensures law { IsLesser C.not_above a b result }
{
    if a.not_above(b) { a } else { b }
}

// The greater of two costs.
pub fn greater<C: CostKind>(a: C, b: C) -> C
    ensures cost { result ≡ order.greater C.not_above a b }
    ensures law { IsGreater C.not_above a b result }
{
    if a.not_above(b) { b } else { a }
}
