// A run: any list of calls, made one after another on a sheet that is opened for them.
ghost use Rattle.std.specs.Prelude.{◌≡◌, List, length, slice_set};
ghost use Rattle.sheet.specs.Facts.{Sound};
ghost use Rattle.sheet.specs.Ledger.{blank};
ghost use Rattle.sheet.specs.Meaning.{meaning, Answers, Later};
ghost use Rattle.sheet.specs.Runs.{ledger, fed, answered};

use crate::call::Call;
use crate::refusal::Refusal;
use crate::sheet::Sheet;

// Makes the calls on a sheet that it opens, and writes what each answered into the place of its number as far as there are places. Calls and
// answers are two lists, because a caller lends the second.
pub fn replay(calls: &[Call], answers: &mut [Result<(), Refusal>]) -> Sheet
    ensures sheet { meaning result ≡ ledger calls.now }
    ensures answers { Answers answers.new (answered calls.now blank) }
    ensures later { Later (length calls.now) answers.old answers.new }
    ensures facts { (cs : List Call) → Sound (ledger cs) }
{
    let mut sheet = Sheet::open();
    make_all(&mut sheet, calls, answers);
    sheet
}

// Makes the calls on that sheet; apart from `replay`, because its loop needs answers, and an edit of `replay` has to fail by its promise.
#[tactic(auto, using(crate::proofs::Replays::running))]
fn make_all(sheet: &mut Sheet, calls: &[Call], answers: &mut [Result<(), Refusal>])
    ensures sheet { meaning sheet.new ≡ fed calls.now (meaning sheet.old) }
    ensures answers { Answers answers.new (answered calls.now (meaning sheet.old)) }
    ensures later { Later (length calls.now) answers.old answers.new }
    ensures facts { (cs : List Call) → Sound (ledger cs) }
{
    for (i, call) in calls.iter().enumerate() {
        let answer = sheet.apply(*call);
        put(answers, i, answer);
    }
}

// Writes an answer into its place, where there is one. By its index: of a place that `get_mut` or an adapter over `iter_mut` lends, nothing is
// known once it is written, and a plain loop over the places would leave out the calls past them.
#[tactic(auto, using(std::proofs::lemmas::List::set_past))]
fn put(answers: &mut [Result<(), Refusal>], i: usize, answer: Result<(), Refusal>)
    ensures { answers.new ≡ slice_set answers.old i answer }
{
    if i < answers.len() {
        answers[i] = answer;
    }
}
