// What can be asked of a sheet. Nothing here changes it or refuses: every number may be asked about.
ghost use Rattle.std.specs.Prelude.{◌≡◌, ℕ};
ghost use Rattle.finite.specs.Below.{count};
ghost use Rattle.moves.specs.Room.{room};
ghost use Rattle.moves.specs.Number.{number};
ghost use Rattle.moves.specs.Members.{holds};
ghost use Rattle.sheet.specs.Ledger.{on, figures};
ghost use Rattle.sheet.specs.Meaning.{meaning};

use super::Sheet;
use crate::entry::Entry;
use crate::figures::Move;
use crate::tie::Tie;
use moves::{MoveNumber, MoveSet};

impl Sheet {
    // What the sheet has under that number.
    #[tactic(auto, using(crate::proofs::Equations::move_of, crate::proofs::Equations::tie_of))]
    pub(super) fn entry(&self, m: MoveNumber) -> Entry
        ensures figures { result.figures ≡ (meaning self.now).move (number m) }
        ensures waits { (k : ℕ) → holds result.followers k ≡ (meaning self.now).tie (number m) k }
    {
        self.entries[m.index()]
    }

    // Whether a move of that number is on the sheet.
    #[tactic(auto, using(crate::proofs::Sheets::on_beyond))]
    pub fn has(&self, n: u64) -> bool
        ensures { result ≡ on (meaning self.now) n }
    {
        MoveNumber::new(n).is_some_and(|m| self.moves().contains(m))
    }

    // The figures of the move of that number, or nothing where it is not on the sheet.
    #[tactic(auto, using(crate::proofs::Sheets::move_beyond))]
    pub fn figures(&self, n: u64) -> Option<Move>
        ensures { result ≡ (meaning self.now).move n }
    {
        self.entry(MoveNumber::new(n)?).figures
    }

    // The figures of that move; all 0 where it is not on the sheet.
    pub fn figures_of(&self, m: MoveNumber) -> Move
        ensures { result ≡ figures (meaning self.now) (number m) }
    {
        self.entry(m).figures_or_nothing()
    }

    // Whether there is a tie from the first to the second.
    #[tactic(auto, using(crate::proofs::Sheets::tie_beyond))]
    pub fn tied(&self, before: u64, after: u64) -> bool
        ensures { result ≡ (meaning self.now).tie before after }
    {
        Tie::new(before, after).is_some_and(|tie| self.waiting_for(tie.before).contains(tie.after))
    }

    // The moves on the sheet.
    pub fn moves(&self) -> MoveSet
        ensures { (k : ℕ) → holds result k ≡ on (meaning self.now) k }
    {
        self.present
    }

    // The moves that are tied to that one: they may not run before it is finished.
    pub fn waiting_for(&self, m: MoveNumber) -> MoveSet
        ensures { (k : ℕ) → holds result k ≡ (meaning self.now).tie (number m) k }
    {
        self.entry(m).followers
    }

    // How many moves are on the sheet.
    #[tactic(auto, using(moves::proofs::Sets::count_as))]
    pub fn count(&self) -> u32
        ensures { result ≡ count room (on (meaning self.now)) }
    {
        self.moves().count()
    }
}
