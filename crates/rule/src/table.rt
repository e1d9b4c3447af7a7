// A table of ready times, with a place for each number.
ghost use Rattle.std.specs.Prelude.{◌≡◌, length};
ghost use Rattle.moves.specs.Room.{room};

use moves::ROOM;

mod reads;

#[derive(Clone, Copy)]
pub struct ReadyTable {
    // an array by number: it is read in one function, `at`
    times: [u32; ROOM],
    ghost places: { length times ≡ room },
}
