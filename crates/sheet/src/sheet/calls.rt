// The five calls. Each answers for every argument, and its promise is two equations: what it answers, and what the sheet means
// afterwards, both from what the sheet meant before. A refusal leaves the sheet as it was. The two equations stand at each call, and not in a
// record, because they are what an auditor looks for. The numbers of a call stay apart: a caller has any numbers, and they are a move's figures or a tie
// once they are in range.
ghost use Rattle.std.specs.Prelude.{◌≡◌, ℕ, true, Some, Ok, Err, Option};
ghost use Rattle.moves.specs.Number.{number};
ghost use Rattle.sheet.specs.Chains.{TellsChains};
ghost use Rattle.sheet.specs.Ledger.{blank, on};
ghost use Rattle.sheet.specs.Meaning.{meaning, refused};
ghost use Rattle.sheet.specs.Refusals.{both_named, number_of, refusal, feed};

use super::Sheet;
use crate::call::Call;
use crate::entry::Entry;
use crate::figures::Move;
use crate::refusal::Refusal;
use crate::tie::Tie;
use moves::{MoveNumber, MoveSet, ROOM};

impl Sheet {
    // A sheet with no move and no tie.
    #[tactic(auto, using(crate::proofs::Changes::unused_parts, crate::proofs::Changes::holds_none))]
    pub fn open() -> Sheet
        ensures { meaning result ≡ blank }
    {
        Sheet::with_parts(MoveSet::empty(), [Entry::vacant(); ROOM])
    }

    // Puts a move on the sheet, with a number that the caller chooses.
    #[tactic(auto, using(crate::proofs::Spans::span_entered, crate::proofs::Spans::same_figures))]
    pub fn enter(&mut self, n: u64, release: u64, length: u64, curve: u64) -> Result<(), Refusal>
        ensures answer { refused result ≡ refusal (Call.Enter n release length curve) (meaning self.old) }
        ensures fed { meaning self.new ≡ feed (Call.Enter n release length curve) (meaning self.old) }
    {
        let m = MoveNumber::new(n).ok_or(Refusal::NumberTooHigh)?;
        if self.has(n) {
            return Err(Refusal::NumberTaken);
        }
        let figures = Move::ranged(release, length, curve).ok_or(Refusal::OutOfRange)?;
        if self.too_long_with(figures) {
            return Err(Refusal::SpanTooLong);
        }
        *self = self.with_move(m, figures);
        Ok(())
    }

    // Adds a tie: `after` may not run before `before` is finished. One that is there already is accepted.
    #[tactic(auto, using(crate::proofs::Sheets::sheet_chains))]
    pub fn tie(&mut self, before: u64, after: u64) -> Result<(), Refusal>
        ensures answer { refused result ≡ refusal (Call.Tie before after) (meaning self.old) }
        ensures fed { meaning self.new ≡ feed (Call.Tie before after) (meaning self.old) }
        ensures chains { TellsChains (meaning self.old).tie }
    {
        let added = self.both_named(before, after)?;
        if self.chain_returns(added) {
            return Err(Refusal::ChainReturns);
        }
        *self = self.with_tie(added);
        Ok(())
    }

    // Takes one tie away.
    pub fn cut(&mut self, before: u64, after: u64) -> Result<(), Refusal>
        ensures answer { refused result ≡ refusal (Call.Cut before after) (meaning self.old) }
        ensures fed { meaning self.new ≡ feed (Call.Cut before after) (meaning self.old) }
    {
        let gone = self.both_named(before, after)?;
        if !self.tied(before, after) {
            return Err(Refusal::TieAbsent);
        }
        *self = self.without_tie(gone);
        Ok(())
    }

    // Takes a move away, with every tie at it. Its number may be entered again.
    pub fn strike(&mut self, n: u64) -> Result<(), Refusal>
        ensures answer { refused result ≡ refusal (Call.Strike n) (meaning self.old) }
        ensures fed { meaning self.new ≡ feed (Call.Strike n) (meaning self.old) }
    {
        let m = MoveNumber::new(n).ok_or(Refusal::NumberTooHigh)?;
        if !self.has(n) {
            return Err(Refusal::MoveAbsent);
        }
        *self = self.without_move(m);
        Ok(())
    }

    // Makes whatever call it is given. Plan, Floor and Check are questions to the planner: the sheet has nothing to refuse in them.
    // The calls are values, and a closure would not do: a run is any list of them, and its promise speaks of what each is.
    pub fn apply(&mut self, call: Call) -> Result<(), Refusal>
        ensures answer { refused result ≡ refusal call (meaning self.old) }
        ensures fed { meaning self.new ≡ feed call (meaning self.old) }
    {
        match call {
            Call::Enter {
                number,
                release,
                length,
                curve,
            } => self.enter(number, release, length, curve),
            Call::Tie { before, after } => self.tie(before, after),
            Call::Cut { before, after } => self.cut(before, after),
            Call::Strike { number } => self.strike(number),
            Call::Plan | Call::Floor | Call::Check => Ok(()),
        }
    }

    // The tie between the two moves that a call names, where both are on the sheet.
    fn both_named(&self, before: u64, after: u64) -> Result<Tie, Refusal>
        ensures { elim result [
          | Ok t ↦ (number t.before ≡ before) × (number t.after ≡ after) × (on (meaning self.now) before ≡ true) × (on (meaning self.now) after ≡ true)
              × ((later : Option ℕ) → both_named before after (meaning self.now) later ≡ later)
          | Err e ↦ (later : Option ℕ) → both_named before after (meaning self.now) later ≡ Some (number_of e)
        ] }
    {
        let tie = Tie::new(before, after).ok_or(Refusal::NumberTooHigh)?;
        if !self.has(before) || !self.has(after) {
            return Err(Refusal::MoveAbsent);
        }
        Ok(tie)
    }
}
