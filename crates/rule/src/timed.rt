// A sheet with the ready times of its moves, and the work of one drive that is added up from them.
ghost use Rattle.std.specs.Prelude.{◌≡◌, if◌then◌else◌, nat_le};
ghost use Rattle.moves.specs.Number.{number};
ghost use Rattle.sheet.specs.Ledger.{length_of};
ghost use Rattle.sheet.specs.Meaning.{meaning};
ghost use Rattle.rule.specs.Over.{over, through_from, work_from, OverLaw};
ghost use Rattle.rule.specs.Ready.{ready};
ghost use Rattle.rule.specs.Table.{Tabled};

use crate::sweep::ready_times;
use crate::table::ReadyTable;
use moves::MoveNumber;
use sheet::Sheet;

#[derive(Clone, Copy)]
pub(crate) struct Timed<'a> {
    sheet: &'a Sheet,
    times: ReadyTable,
    ghost right: { Tabled (meaning sheet.now) times },
}

impl<'a> Timed<'a> {
    // That sheet with its ready times.
    pub(crate) fn new(sheet: &'a Sheet) -> Timed<'a>
        ensures { result.sheet.now ≡ sheet.now }
    {
        Timed {
            sheet,
            times: ready_times(sheet),
        }
    }

    // The tick by which one drive is through.
    #[tactic(auto, using(finite::proofs::Walks::comparing, sheet::proofs::Sheets::sheet_sound, crate::proofs::Ends::over_law), unfolding(crate::specs::Over::over))]
    pub(crate) fn through(&self) -> u32
        ensures tick { result ≡ over (meaning self.now.sheet.now) }
        ensures law { OverLaw (meaning self.now.sheet.now) }
    {
        let mut latest: u32 = 0;
        for j in self.sheet.moves().iter() {
            latest = latest.max(self.through_from(j));
        }
        latest
    }

    // The tick by which the drive is through if it is never idle from the ready time of that move on.
    #[tactic(auto, using(crate::proofs::Ends::through_in_time, sheet::proofs::Sheets::sheet_sound))]
    fn through_from(&self, j: MoveNumber) -> u32
        ensures { result ≡ through_from (meaning self.now.sheet.now) (number j) }
    {
        let start = self.times.at(j);
        start + self.work_from(start)
    }

    // The lengths of all moves that are not ready before that tick.
    #[tactic(auto, using(finite::proofs::Walks::summing, crate::proofs::Ends::work_off, crate::proofs::Ends::work_short, sheet::proofs::Sheets::sheet_sound))]
    fn work_from(&self, start: u32) -> u32
        ensures { result ≡ work_from (meaning self.now.sheet.now) start }
    {
        let mut work: u32 = 0;
        for k in self.sheet.moves().iter() {
            work += self.length_from(start, k);
        }
        work
    }

    // The length of a move, or 0 where it is ready before that tick.
    fn length_from(&self, start: u32, k: MoveNumber) -> u32
        ensures { result ≡ (if nat_le start (ready (meaning self.now.sheet.now) (number k)) then length_of (meaning self.now.sheet.now) (number k) else 0) }
    {
        if start <= self.times.at(k) {
            self.sheet.figures_of(k).length
        } else {
            0
        }
    }
}
