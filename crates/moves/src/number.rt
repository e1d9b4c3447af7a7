// The number of a move on its sheet. The caller chooses it; the type keeps it below the room.
ghost use Rattle.std.specs.Prelude.{◌≡◌, ◌<◌, ◌≤◌, MatchOption};
ghost use Rattle.moves.specs.Room.{room};

// How many numbers there are for moves: 0 to 63.
pub const ROOM: usize = 64;

// A type of its own beside the checked numbers of costs: it is a place in tables too, has no refusal, and stands below no cost.
#[derive(Clone, Copy, PartialEq, Eq, PartialOrd, Ord)]
pub struct MoveNumber {
    value: u8,
    ghost below: { value < room },
}

impl MoveNumber {
    // The move number of that value, or nothing where there is no such number.
    // `new`, and not `TryFrom`: what a number that there is not means is for each caller to say, so there is no error to convert.
    pub fn new(value: u64) -> Option<MoveNumber>
        ensures { MatchOption result (room ≤ value) (λ m. m.value ≡ value) }
    {
        if value < ROOM as u64 {
            Some(MoveNumber { value: value as u8 })
        } else {
            None
        }
    }

    // The number itself.
    pub fn get(self) -> u64
        ensures { result ≡ self.value }
    {
        u64::from(self.value)
    }

    // The number as a place in a table with a place for each number.
    pub fn index(self) -> usize
        ensures place { result ≡ self.value }
        ensures within { result < room }
    {
        usize::from(self.value)
    }
}
