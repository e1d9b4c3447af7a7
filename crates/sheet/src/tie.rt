// A tie between two moves; scheduling texts call it a precedence constraint.
ghost use Rattle.std.specs.Prelude.{◌≡◌, ◌≤◌, ◌⊎◌, MatchOption};
ghost use Rattle.moves.specs.Number.{number};
ghost use Rattle.moves.specs.Room.{room};

use moves::MoveNumber;

#[derive(Clone, Copy, PartialEq, Eq)]
pub(crate) struct Tie {
    // the move that has to be finished first
    pub(crate) before: MoveNumber,
    // the move that may not run before that
    pub(crate) after: MoveNumber,
}

impl Tie {
    // The tie between the moves of those numbers, or nothing where there is no such number.
    pub(crate) fn new(before: u64, after: u64) -> Option<Tie>
        ensures { MatchOption result ((room ≤ before) ⊎ (room ≤ after)) (λ t. (number t.before ≡ before) × (number t.after ≡ after)) }
    {
        Some(Tie {
            before: MoveNumber::new(before)?,
            after: MoveNumber::new(after)?,
        })
    }
}
