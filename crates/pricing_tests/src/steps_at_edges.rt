// Steps: how many rows there may be, which are refused and with which number, and what they cost.
use crate::answers::{HIGH, LAST, MAX, answer};
use curves::{Curve, Row, Steps};

fn row(tick: u64, points: u64) -> Row {
    Row { tick, points }
}

// Nine rows that rise.
fn nine() -> [Row; 9] {
    [
        row(0, 0),
        row(1, 1),
        row(2, 2),
        row(3, 3),
        row(4, 4),
        row(5, 5),
        row(6, 6),
        row(7, 7),
        row(LAST, HIGH),
    ]
}

// What filling a new place with those rows answers.
fn filling(rows: &[Row]) -> u8 {
    let mut place = Steps::new();
    answer(place.fill(rows))
}

#[test]
fn how_many_rows(rt: HostRuntime) {
    let rows = nine();
    assert_eq!(rt; filling(&rows[0..0]), 13);
    assert_eq!(rt; filling(&rows[0..1]), 0);
    assert_eq!(rt; filling(&rows[0..8]), 0);
    assert_eq!(rt; filling(&rows[1..9]), 0);
    assert_eq!(rt; filling(&rows), 13);
}

#[test]
fn which_rows(rt: HostRuntime) {
    assert_eq!(rt; filling(&[row(4, 1), row(4, 2)]), 13);
    assert_eq!(rt; filling(&[row(5, 1), row(4, 2)]), 13);
    assert_eq!(rt; filling(&[row(4, 2), row(5, 1)]), 13);
    assert_eq!(rt; filling(&[row(4, 2), row(5, 2)]), 0);
    assert_eq!(rt; filling(&[row(LAST + 1, 0)]), 12);
    assert_eq!(rt; filling(&[row(0, HIGH + 1)]), 12);
    assert_eq!(rt; filling(&[row(MAX, MAX)]), 12);
    // a range comes before the order of the rows, and before their number
    assert_eq!(rt; filling(&[row(4, 2), row(4, 1), row(LAST + 1, 3)]), 12);
    let mut rows = nine();
    rows[8] = row(LAST, HIGH + 1);
    assert_eq!(rt; filling(&rows), 12);
}

#[test]
fn costs(rt: HostRuntime) {
    let mut f = Steps::new();
    assert!(rt; f.cost(0).get() == 0 && f.cost(u32::MAX).get() == 0);
    assert_eq!(rt; answer(f.fill(&[row(0, 5), row(10, 7)])), 0);
    assert!(rt; f.cost(0).get() == 5 && f.cost(9).get() == 5);
    assert!(rt; f.cost(10).get() == 7 && f.cost(u32::MAX).get() == 7);
    // a refusal leaves the place as it was
    assert_eq!(rt; answer(f.fill(&[row(4, 1), row(4, 2)])), 13);
    assert!(rt; f.cost(9).get() == 5 && f.cost(10).get() == 7);
    assert_eq!(rt; answer(f.fill(&[row(3, 1)])), 0);
    assert!(rt; f.cost(2).get() == 0 && f.cost(3).get() == 1);
    let rows = nine();
    assert_eq!(rt; answer(f.fill(&rows[1..9])), 0);
    assert!(rt; f.cost(0).get() == 0 && f.cost(7).get() == 7);
    assert!(rt; f.cost(999_999).get() == 7 && f.cost(1_000_000).get() == HIGH);
    assert_eq!(rt; f.cost(u32::MAX).get(), HIGH);
}
