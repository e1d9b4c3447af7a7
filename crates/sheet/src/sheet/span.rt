// The span of a sheet: its greatest release and all its lengths together.
ghost use Rattle.std.specs.Prelude.{◌≡◌, nat_lt};
ghost use Rattle.finite.specs.Below.{sum, greatest};
ghost use Rattle.moves.specs.Room.{room};
ghost use Rattle.time.specs.Ticks.{last_tick};
ghost use Rattle.sheet.specs.Ledger.{release_of, length_of, span_with};
ghost use Rattle.sheet.specs.Meaning.{meaning};

use super::Sheet;
use crate::figures::Move;
use time::LAST_TICK;

impl Sheet {
    // The greatest release of a move on the sheet, 0 where there is none.
    #[tactic(auto, using(finite::proofs::Walks::comparing, crate::proofs::Spans::release_off))]
    fn latest_release(&self) -> u32
        ensures { result ≡ greatest room (release_of (meaning self.now)) }
    {
        let mut latest: u32 = 0;
        for m in self.moves().iter() {
            latest = latest.max(self.figures_of(m).release);
        }
        latest
    }

    // The lengths of all moves on the sheet together.
    #[tactic(auto, using(finite::proofs::Walks::summing, crate::proofs::Spans::length_off))]
    fn total_length(&self) -> u32
        ensures { result ≡ sum room (length_of (meaning self.now)) }
    {
        let mut total: u32 = 0;
        for m in self.moves().iter() {
            total += self.figures_of(m).length;
        }
        total
    }

    // The span that the sheet would have with one move more.
    fn span_with(&self, more: Move) -> u64
        ensures { result ≡ span_with (meaning self.now) more }
    {
        u64::from(self.latest_release().max(more.release))
            + (u64::from(self.total_length()) + u64::from(more.length))
    }

    // Whether the sheet's span would pass the last tick with one move more.
    pub(super) fn too_long_with(&self, more: Move) -> bool
        ensures { result ≡ nat_lt last_tick (span_with (meaning self.now) more) }
    {
        self.span_with(more) > u64::from(LAST_TICK)
    }
}
