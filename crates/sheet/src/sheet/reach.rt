// Where chains of ties lead.
ghost use Rattle.std.specs.Prelude.{◌≡◌, ℕ};
ghost use Rattle.moves.specs.Number.{number};
ghost use Rattle.moves.specs.Members.{holds};
ghost use Rattle.sheet.specs.Chains.{leads, closes};
ghost use Rattle.sheet.specs.Meaning.{meaning};

use super::Sheet;
use crate::tie::Tie;
use moves::{MoveNumber, MoveSet};

impl Sheet {
    // The moves to which ties lead from that one, over one tie or over several.
    #[tactic(auto, using(crate::proofs::Reach::search_begins, crate::proofs::Sheets::sheet_sound, moves::proofs::Sets::length_without))]
    fn led_to(&self, from: MoveNumber) -> MoveSet
        ensures { (k : ℕ) → holds result k ≡ leads (meaning self.now).tie (number from) k }
    {
        let mut found = self.waiting_for(from);
        let mut unseen = self.moves();
        while let Some(m) = found.intersection(unseen).lowest() {
            unseen = unseen.without(m);
            found = found.union(self.waiting_for(m));
        }
        found
    }

    // Whether that tie would let a chain return: both are one move, or ties already lead from the second to the first.
    pub(super) fn chain_returns(&self, tie: Tie) -> bool
        ensures { result ≡ closes (meaning self.now).tie (number tie.before) (number tie.after) }
    {
        tie.before == tie.after || self.led_to(tie.after).contains(tie.before)
    }
}
