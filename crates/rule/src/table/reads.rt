// Making a table of ready times, and reading it.
ghost use Rattle.std.specs.Prelude.{◌≡◌, ℕ, slice_index};
ghost use Rattle.moves.specs.Number.{number};
ghost use Rattle.rule.specs.Table.{time_of};

use super::ReadyTable;
use moves::{MoveNumber, ROOM};

impl ReadyTable {
    // The table of those times.
    pub(crate) fn new(times: [u32; ROOM]) -> ReadyTable
        ensures { (j : ℕ) → time_of result j ≡ slice_index times j }
    {
        ReadyTable { times }
    }

    // The ready time of that move, 0 where it was not on the sheet.
    pub fn at(&self, m: MoveNumber) -> u32
        ensures { result ≡ time_of self.now (number m) }
    {
        self.times[m.index()]
    }
}
