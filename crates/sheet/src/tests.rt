// Tables of calls, each with the number of the refusal that it answers, or 0 where it is accepted: every refusal at its edges.
use crate::call::Call;
use crate::figures::Move;
use crate::refusal::Refusal;
use crate::runs::replay;
use crate::sheet::Sheet;
use moves::MoveNumber;
use std::process::Abort;
use std::test::Fail;

const MAX: u64 = u64::MAX;

// The calls in short, with all their numbers; the programs have the like for their own lists.
fn enter(number: u64, release: u64, length: u64, curve: u64) -> Call {
    Call::Enter {
        number,
        release,
        length,
        curve,
    }
}

fn tie(before: u64, after: u64) -> Call {
    Call::Tie { before, after }
}

fn cut(before: u64, after: u64) -> Call {
    Call::Cut { before, after }
}

fn strike(number: u64) -> Call {
    Call::Strike { number }
}

// The number of the refusal, or 0 where there is none; `pricing_tests` has the same of its own refusals.
fn answer(r: Result<(), Refusal>) -> u8 {
    r.err().map_or(0, |refusal| refusal.number())
}

// The sheet after the calls of a table, each of which answers as the table says.
fn after(rt: &impl Abort, rows: &[(Call, u8)]) -> Sheet {
    let mut sheet = Sheet::open();
    for (call, number) in rows {
        assert_eq!(rt; answer(sheet.apply(*call)), *number);
    }
    sheet
}

#[test]
fn figures_at_their_edges(rt: HostRuntime) {
    let sheet = after(
        &rt,
        &[
            (enter(64, 0, 1, 0), 1),
            (enter(MAX, MAX, MAX, MAX), 1),
            (enter(63, 0, 1, 0), 0),
            (enter(63, 0, 1, 0), 2),
            // a taken number comes before a range
            (enter(63, MAX, 0, 16), 2),
            (enter(0, 1_000_000, 1, 0), 4),
            (enter(0, 4_294_967_296, 1, 0), 4),
            (enter(0, MAX, 1, 0), 4),
            (enter(0, 0, 0, 0), 4),
            (enter(0, 0, 65_536, 0), 4),
            (enter(0, 0, MAX, 0), 4),
            (enter(0, 0, 1, 16), 4),
            (enter(0, 0, 1, 256), 4),
            (enter(0, 0, 1, MAX), 4),
            // a range comes before the span
            (enter(0, 999_999, 65_536, 0), 4),
            (enter(0, 0, 65_535, 15), 0),
        ],
    );
    assert!(rt; sheet.has(63) && sheet.has(0) && !sheet.has(1));
    assert!(rt; !sheet.has(64) && !sheet.has(MAX));
    assert_eq!(rt; sheet.count(), 2);
    assert!(rt;
        sheet.figures(0)
            == Some(Move {
                release: 0,
                length: 65_535,
                curve: 15,
            })
    );
    assert!(rt; sheet.figures(1).is_none() && sheet.figures(MAX).is_none());
}

#[test]
fn the_span(rt: HostRuntime) {
    let sheet = after(
        &rt,
        &[
            (enter(0, 999_999, 2, 0), 5),
            (enter(0, 934_466, 65_535, 0), 5),
            (enter(0, 999_999, 1, 0), 0),
            (enter(1, 0, 1, 0), 5),
            (strike(0), 0),
            (enter(1, 934_465, 65_535, 0), 0),
            (enter(0, 0, 1, 0), 5),
            (strike(1), 0),
            (enter(0, 0, 1, 0), 0),
        ],
    );
    assert!(rt; sheet.has(0) && !sheet.has(1));
}

#[test]
fn ties_and_chains(rt: HostRuntime) -> Result<(), Fail> {
    let sheet = after(
        &rt,
        &[
            (enter(1, 0, 1, 0), 0),
            (enter(2, 0, 1, 0), 0),
            (enter(3, 7, 5, 1), 0),
            (tie(1, 1), 6),
            (tie(1, 2), 0),
            (tie(1, 2), 0),
            (tie(2, 1), 6),
            (tie(2, 3), 0),
            (tie(3, 1), 6),
            (cut(2, 1), 7),
            (cut(1, 3), 7),
            (cut(1, 2), 0),
            (cut(1, 2), 7),
            (tie(3, 1), 0),
            (tie(1, 2), 6),
            // no tie at a move outlives it
            (strike(3), 0),
            (tie(1, 2), 0),
            (enter(3, 9, 4, 2), 0),
            (cut(3, 1), 7),
            (cut(2, 3), 7),
            (tie(1, 3), 0),
        ],
    );
    assert!(rt; sheet.tied(1, 2) && sheet.tied(1, 3) && !sheet.tied(2, 1));
    assert!(rt; !sheet.tied(64, 1) && !sheet.tied(1, MAX));
    assert!(rt; sheet.count() == 3 && sheet.moves().count() == 3);
    let m = MoveNumber::new(1).ok_or_else(|| Fail::new("no such number"))?;
    assert!(rt; sheet.moves().contains(m) && sheet.waiting_for(m).count() == 2);
    assert!(rt; sheet.figures_of(m).length == 1);
    Ok(())
}

#[test]
fn moves_that_are_not_there(rt: HostRuntime) {
    let sheet = after(
        &rt,
        &[
            (enter(1, 0, 1, 0), 0),
            // a number that is too high comes before a move that is absent, and that before a chain or a tie
            (tie(64, 5), 1),
            (tie(5, 64), 1),
            (tie(MAX, MAX), 1),
            (tie(5, 1), 3),
            (tie(1, 5), 3),
            (tie(5, 5), 3),
            (cut(64, 5), 1),
            (cut(5, MAX), 1),
            (cut(5, 1), 3),
            (cut(1, 5), 3),
            (cut(1, 1), 7),
            (strike(64), 1),
            (strike(MAX), 1),
            (strike(63), 3),
            (Call::Plan, 0),
            (Call::Floor, 0),
            (Call::Check, 0),
        ],
    );
    assert!(rt; sheet.has(1) && sheet.count() == 1);
}

#[test]
fn a_run(rt: HostRuntime) {
    let calls = [enter(4, 0, 1, 0), enter(4, 0, 1, 0), tie(4, 4), strike(4)];
    let mut answers = [Ok(()); 5];
    let sheet = replay(&calls, &mut answers);
    assert!(rt; answer(answers[0]) == 0 && answer(answers[1]) == 2);
    assert!(rt; answer(answers[2]) == 6 && answer(answers[3]) == 0);
    assert_eq!(rt; sheet.count(), 0);
    let mut few = [Ok(()); 2];
    assert_eq!(rt; replay(&calls, &mut few).count(), 0);
    assert!(rt; answer(few[0]) == 0 && answer(few[1]) == 2);
}
