// Graded costs: a grade from 0 to 9, and ticks that decide where the grades are the same.
ghost use Rattle.std.specs.Prelude.{◌≤◌};
ghost use Rattle.time.specs.Ticks.{last_tick};
ghost use Rattle.costs.specs.Limits.{last_grade};

mod calls;

// The fields are a checked grade and a checked number of ticks, each in as few bytes as it fits in: prices come in lists, and with `Grade` and `Ticks`
// themselves each would take twice the memory.
#[derive(Clone, Copy, PartialEq, Eq, PartialOrd, Ord)]
pub struct Graded {
    // what decides first
    grade: u8,
    // what decides where the grades are the same
    ticks: u32,
    ghost grade_high: { grade ≤ last_grade },
    ghost ticks_high: { ticks ≤ last_tick },
}
