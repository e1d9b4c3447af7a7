// The sweep that finds the ready times: one move after another, each when all that it waits for is done.
ghost use Rattle.std.specs.Prelude.{◌≡◌, ℕ, ◌+◌, true, false, not, ◌&&◌, if◌then◌else◌, MatchOption, ◌==◌};
ghost use Rattle.moves.specs.Members.{holds};
ghost use Rattle.moves.specs.Number.{number};
ghost use Rattle.sheet.specs.Ledger.{length_of};
ghost use Rattle.sheet.specs.Meaning.{meaning};
ghost use Rattle.rule.specs.Ready.{ready, ReadyLaw};
ghost use Rattle.rule.specs.Sweep.{Swept, Free};
ghost use Rattle.rule.specs.Table.{Tabled};

use crate::table::ReadyTable;
use moves::{MoveNumber, MoveSet, ROOM};
use sheet::Sheet;

// A sweep on its way.
#[derive(Clone, Copy)]
struct Sweep<'a> {
    sheet: &'a Sheet,
    // the moves that have no time yet: a set, since the next move is found by set operations, and at the end every place of the times is read
    left: MoveSet,
    // the times of the others
    times: [u32; ROOM],
    ghost so_far: { Swept (meaning sheet.now) (holds left) times },
}

// A turn of a sweep: the move that gets its time waits for none that is left.
#[derive(Clone, Copy)]
struct Turn<'s, 'a> {
    sweep: &'s Sweep<'a>,
    m: MoveNumber,
    ghost free: { Free (meaning sweep.now.sheet.now) (holds sweep.now.left) (number m) },
}

// The ready time of every move of the sheet: a turn for each of n moves, and each turn goes through the moves twice at most.
#[tactic(auto, using(crate::proofs::Steps::sheet_law, moves::proofs::Sets::length_without))]
pub fn ready_times(sheet: &Sheet) -> ReadyTable
    ensures times { Tabled (meaning sheet.now) result }
    ensures law { ReadyLaw (meaning sheet.now) }
{
    let mut sweep = Sweep::new(sheet);
    while sweep.advance().is_some() {}
    ReadyTable::new(sweep.times)
}

impl<'a> Sweep<'a> {
    // The sweep before its first turn.
    #[tactic(auto, using(crate::proofs::Steps::sheet_begins))]
    fn new(sheet: &'a Sheet) -> Sweep<'a>
        ensures { result.sheet.now ≡ sheet.now }
    {
        Sweep {
            sheet,
            left: sheet.moves(),
            times: [0; ROOM],
        }
    }

    // Makes the next turn and answers its move, which has its time now; answers nothing where no move is left. The time is written in its place: a
    // copy of the table in each turn took about as long as the turn, on a small sheet.
    fn advance(&mut self) -> Option<MoveNumber>
        ensures sheet { self.new.sheet.now ≡ self.old.sheet.now }
        ensures left { MatchOption result ((k : ℕ) → holds self.new.left k ≡ false) (λ m. (holds self.old.left (number m) ≡ true) × ((k : ℕ) → holds self.new.left k ≡ (not (k == number m) && holds self.old.left k))) }
    {
        let turn = self.next_turn()?;
        let m = turn.m;
        let time = turn.earliest();
        self.times[m.index()] = time;
        self.left = self.left.without(m);
        Some(m)
    }

    // The next turn. While a move is left there is one, since no chain of ties returns to its start.
    fn next_turn(&self) -> Option<Turn<'_, 'a>>
        ensures { MatchOption result ((k : ℕ) → holds self.now.left k ≡ false) (λ t. (t.sweep.now.sheet.now ≡ self.now.sheet.now) × (t.sweep.now.left ≡ self.now.left) × (holds self.now.left (number t.m) ≡ true)) }
    {
        let m = self.next_free()?;
        Some(Turn { sweep: self, m })
    }

    // A move that waits for none that is left.
    fn next_free(&self) -> Option<MoveNumber>
        ensures { MatchOption result ((k : ℕ) → holds self.now.left k ≡ false) (λ m. (holds self.now.left (number m) ≡ true) × Free (meaning self.now.sheet.now) (holds self.now.left) (number m)) }
    {
        self.left.difference(self.held_up()).lowest()
    }

    // The moves that wait for one that is left.
    #[tactic(auto, using(crate::proofs::Steps::held_begins, crate::proofs::Steps::held_goes_on))]
    fn held_up(&self) -> MoveSet
        ensures some { (k : ℕ) → holds result k ≡ true → (i : ℕ) × (holds self.now.left i ≡ true) × ((meaning self.now.sheet.now).tie i k ≡ true) }
        ensures all { (i k : ℕ) → holds self.now.left i ≡ true → (meaning self.now.sheet.now).tie i k ≡ true → holds result k ≡ true }
    {
        let mut held = MoveSet::empty();
        for m in self.left.iter() {
            held = held.union(self.sheet.waiting_for(m));
        }
        held
    }
}

impl Turn<'_, '_> {
    // The ready time of the move.
    #[tactic(auto, using(crate::proofs::Steps::finishes_off, crate::proofs::Times::ready_equation, finite::proofs::Walks::comparing, sheet::proofs::Sheets::sheet_sound))]
    fn earliest(&self) -> u32
        ensures { result ≡ ready (meaning self.now.sweep.now.sheet.now) (number self.now.m) }
    {
        let sheet = self.sweep.sheet;
        let mut time = sheet.figures_of(self.m).release;
        for i in sheet.moves().iter() {
            time = time.max(self.finish(i));
        }
        time
    }

    // When i could be finished, where the move waits for it; 0 where it does not.
    #[tactic(auto, using(crate::proofs::Steps::tied_in_time, sheet::proofs::Sheets::sheet_sound))]
    fn finish(&self, i: MoveNumber) -> u32
        ensures { result ≡ (if (meaning self.now.sweep.now.sheet.now).tie (number i) (number self.now.m) then ready (meaning self.now.sweep.now.sheet.now) (number i) + length_of (meaning self.now.sweep.now.sheet.now) (number i) else 0) }
    {
        if self.sweep.sheet.waiting_for(i).contains(self.m) {
            self.sweep.times[i.index()] + self.sweep.sheet.figures_of(i).length
        } else {
            0
        }
    }
}
