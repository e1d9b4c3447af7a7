// A kind of cost: a type whose values can be compared. Scheduling texts call it a totally ordered set of values of the objective.
ghost use Rattle.std.specs.Prelude.{◌≡◌, Bool};
ghost use Rattle.costs.specs.Order.{Total, Antisymmetric, Transitive};

// A trait of its own, and not `Ord`: a house that brings a kind owes this test and three laws, and no `Ordering` and no `==`.
pub trait CostKind: Copy {
    // whether the first cost is not above the second
    ghost not_above: { Self → Self → Bool };

    // Whether this cost is not above the other.
    fn not_above(self, other: Self) -> bool
        ensures { result ≡ not_above self other };

    // any two costs compare
    ghost total: { Total not_above };

    // costs that compare both ways are one and the same
    ghost same: { Antisymmetric not_above };

    // the order goes on through a middle cost
    ghost chain: { Transitive not_above };
}
