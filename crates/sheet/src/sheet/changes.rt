// The four changes of a sheet. Each gives the changed sheet whole; where a change could break what a sheet keeps, the caller has to know that it
// does not.
ghost use Rattle.std.specs.Prelude.{◌≡◌, ◌≤◌, true, false};
ghost use Rattle.moves.specs.Number.{number};
ghost use Rattle.time.specs.Ticks.{last_tick};
ghost use Rattle.sheet.specs.Chains.{closes};
ghost use Rattle.sheet.specs.Facts.{Sound, ranged};
ghost use Rattle.sheet.specs.Ledger.{on, span_with, entered, tied, untied, struck};
ghost use Rattle.sheet.specs.Meaning.{meaning};
ghost use Rattle.sheet.specs.Parts.{ledger_of, HoldsMoves};

use super::Sheet;
use crate::entry::Entry;
use crate::figures::Move;
use crate::tie::Tie;
use moves::{MoveNumber, MoveSet, ROOM};

impl Sheet {
    // The sheet with those moves and entries, which keep what every sheet keeps: the one place where a sheet is put together.
    pub(super) fn with_parts(present: MoveSet, entries: [Entry; ROOM]) -> Sheet
        requires listed { HoldsMoves present (ledger_of entries) }
        requires sound { Sound (ledger_of entries) }
        ensures { meaning result ≡ ledger_of entries }
    {
        Sheet { present, entries }
    }

    // The sheet with one move more.
    #[tactic(auto, using(crate::proofs::Changes::with_move_parts, crate::proofs::Changes::holds_more))]
    pub(super) fn with_move(&self, m: MoveNumber, figures: Move) -> Sheet
        requires free { on (meaning self.now) (number m) ≡ false }
        requires fit { ranged figures ≡ true }
        requires short { span_with (meaning self.now) figures ≤ last_tick }
        ensures { meaning result ≡ entered (number m) figures (meaning self.now) }
    {
        let mut entries = self.entries;
        entries[m.index()] = self.entry(m).with_figures(figures);
        Sheet::with_parts(self.present.with(m), entries)
    }

    // The sheet with that tie.
    #[tactic(auto, using(crate::proofs::Changes::with_tie_parts))]
    pub(super) fn with_tie(&self, tie: Tie) -> Sheet
        requires before { on (meaning self.now) (number tie.before) ≡ true }
        requires after { on (meaning self.now) (number tie.after) ≡ true }
        requires open { closes (meaning self.now).tie (number tie.before) (number tie.after) ≡ false }
        ensures { meaning result ≡ tied (number tie.before) (number tie.after) (meaning self.now) }
    {
        let mut entries = self.entries;
        entries[tie.before.index()] = self.entry(tie.before).with_follower(tie.after);
        Sheet::with_parts(self.present, entries)
    }

    // The sheet without that tie.
    pub(super) fn without_tie(&self, tie: Tie) -> Sheet
        ensures { meaning result ≡ untied (number tie.before) (number tie.after) (meaning self.now) }
    {
        let mut entries = self.entries;
        entries[tie.before.index()] = self.entry(tie.before).without_follower(tie.after);
        Sheet::with_parts(self.present, entries)
    }

    // The sheet without that move and without every tie at it.
    pub(super) fn without_move(&self, m: MoveNumber) -> Sheet
        ensures { meaning result ≡ struck (number m) (meaning self.now) }
    {
        Sheet::with_parts(self.present.without(m), self.entries_without(m))
    }

    // The entries of the sheet without that move: that of its number is vacant, and it waits for none of the others.
    #[tactic(auto, using(crate::proofs::Frees::freeing))]
    fn entries_without(&self, m: MoveNumber) -> [Entry; ROOM]
        ensures { ledger_of result ≡ struck (number m) (meaning self.now) }
    {
        let mut entries = self.entries;
        for place in &mut entries {
            *place = place.without_follower(m);
        }
        entries[m.index()] = Entry::vacant();
        entries
    }
}
