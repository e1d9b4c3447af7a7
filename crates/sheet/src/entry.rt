// What a sheet has under a number: the figures of the move that stands there, and the moves that have to wait for it.
ghost use Rattle.std.specs.Prelude.{◌≡◌, ℕ, Some, None, false, not, ◌&&◌, ◌||◌, ◌==◌, unwrap_or};
ghost use Rattle.moves.specs.Members.{holds};
ghost use Rattle.moves.specs.Number.{number};
ghost use Rattle.sheet.specs.Ledger.{nothing};

use crate::figures::Move;
use moves::{MoveNumber, MoveSet};

#[derive(Clone, Copy)]
pub(crate) struct Entry {
    // the figures of the move, or nothing where no move stands here
    pub(crate) figures: Option<Move>,
    // the moves that may not run before this one is finished
    pub(crate) followers: MoveSet,
}

impl Entry {
    // The entry of a number that no move has.
    pub(crate) fn vacant() -> Entry
        ensures figures { result.figures ≡ None }
        ensures followers { (k : ℕ) → holds result.followers k ≡ false }
    {
        Entry {
            figures: None,
            followers: MoveSet::empty(),
        }
    }

    // The figures of the move; all 0 where no move stands here.
    pub(crate) fn figures_or_nothing(self) -> Move
        ensures { result ≡ unwrap_or self.figures nothing }
    {
        self.figures.unwrap_or(Move::NOTHING)
    }

    // The same entry, where a move with those figures stands.
    pub(crate) fn with_figures(self, figures: Move) -> Entry
        ensures figures { result.figures ≡ Some figures }
        ensures followers { result.followers ≡ self.followers }
    {
        Entry {
            figures: Some(figures),
            ..self
        }
    }

    // The same entry, where m too waits for its move. With and without are two functions, as of a set: they promise different things.
    pub(crate) fn with_follower(self, m: MoveNumber) -> Entry
        ensures figures { result.figures ≡ self.figures }
        ensures waits { (k : ℕ) → holds result.followers k ≡ (k == number m || holds self.followers k) }
    {
        Entry {
            followers: self.followers.with(m),
            ..self
        }
    }

    // The same entry, where m does not wait for its move.
    pub(crate) fn without_follower(self, m: MoveNumber) -> Entry
        ensures figures { result.figures ≡ self.figures }
        ensures waits { (k : ℕ) → holds result.followers k ≡ (not (k == number m) && holds self.followers k) }
    {
        Entry {
            followers: self.followers.without(m),
            ..self
        }
    }
}
