// A walk over the moves of a set, from the lowest number to the highest.
ghost use Rattle.std.specs.Prelude.{◌≡◌, length};
ghost use Rattle.moves.specs.Members.{members};
ghost use Rattle.moves.specs.Walk.{Step, left_of};
ghost use Rattle.std.specs.Iterator.{at_most};

use crate::number::MoveNumber;
use crate::set::MoveSet;

#[derive(Clone, Copy)]
pub struct Members {
    rest: MoveSet,
}

impl MoveSet {
    // The moves of the set, from the lowest number to the highest.
    pub fn iter(self) -> Members
        ensures { left_of result ≡ self }
    {
        Members { rest: self }
    }
}

impl Iterator for Members {
    type Item = MoveNumber;

    ghost next_gives = { λ s r t. Step (left_of s) r (left_of t) };

    ghost remaining = { λ s. at_most (length (members (left_of s))) };

    fn next(&mut self) -> Option<MoveNumber> {
        self.rest.take_lowest()
    }
}
