// Checked whole numbers: each is from its low bound to its high one, and the type carries that.
ghost use Rattle.std.specs.Prelude.{◌≤◌};

use time::LAST_TICK;

mod calls;

#[derive(Clone, Copy, PartialEq, Eq, PartialOrd, Ord)]
pub struct Bounded<const LOW: u64, const HIGH: u64> {
    value: u64,
    ghost low: { LOW ≤ value },
    ghost high: { value ≤ HIGH },
}

// The last tick, in the width of a checked number.
const LAST: u64 = LAST_TICK as u64;

// The greatest factor.
const GREATEST: u64 = 1_000;

// The highest grade.
pub const LAST_GRADE: u64 = 9;

// Numbers with the same bounds are one type, so each of these names is a type of its own only as far as its bounds are.

// A number of ticks up to the last one: when a bar is due, by how much a curve is read later, how late a bar is.
pub type Ticks = Bounded<0, LAST>;

// A factor: the points of each late tick, or by how much points are multiplied.
pub type Factor = Bounded<1, GREATEST>;

// A grade of harm.
pub type Grade = Bounded<0, LAST_GRADE>;

// The grade of an end that is late.
pub type LateGrade = Bounded<1, LAST_GRADE>;
