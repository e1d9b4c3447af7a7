// A tariff: the curves of a sheet by their numbers. Scheduling texts have a cost function for each job in its place.
ghost use Rattle.std.specs.Prelude.{◌≡◌, ℕ, ◌≤◌};
ghost use Rattle.curves.specs.Meaning.{reading};
ghost use Rattle.tariffs.specs.Meaning.{most_curves, NoneFalls};

use costs::CostKind;

// The most curves that a tariff has.
pub const MOST_CURVES: usize = 16;

pub trait Tariff {
    // the kind of cost that it answers
    type Cost: CostKind;

    // how many curves it has
    ghost curve_count: { Self → ℕ };

    // what it means: for each number from 0 to 255 a cost for each tick from 0 to the last one
    ghost curve_at: { Self → ℕ → ℕ → Self.Cost };

    // Both calls promise that no curve falls, as a curve's call does: it is no law of the trait.
    // How many curves there are, at most 16. No curve falls as the tick grows.
    fn count(&self) -> u8
        ensures value { result ≡ curve_count self.now }
        ensures few { curve_count self.now ≤ most_curves }
        ensures rises { NoneFalls Self.Cost.CostKind.not_above (curve_at self.now) };

    // The cost by curve k of an end at tick t; an end after the last tick costs what one at the last tick does. No curve falls as the tick
    // grows.
    fn cost(&self, k: u8, t: u32) -> Self::Cost
        ensures value { result ≡ reading (curve_at self.now k) t }
        ensures rises { NoneFalls Self.Cost.CostKind.not_above (curve_at self.now) };
}
