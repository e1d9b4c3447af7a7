// Late and Graded Late at their edges.
use crate::answers::{LAST, MAX, answer};
use costs::Graded;
use curves::{Curve, Factor, GradedLate, Late};
use std::test::Fail;

#[test]
fn ranges(rt: HostRuntime) {
    for (factor, number) in [
        (0, 12),
        (1, 0),
        (1_000, 0),
        (1_001, 12),
        (4_294_967_297, 12),
        (MAX, 12),
    ] {
        assert_eq!(rt; answer(Factor::new(factor)), number);
        assert_eq!(rt; answer(Late::new(0, factor)), number);
    }
    for (due, number) in [(0, 0), (LAST, 0), (LAST + 1, 12), (MAX, 12)] {
        assert_eq!(rt; answer(Late::new(due, 1)), number);
        assert_eq!(rt; answer(GradedLate::new(due, 1)), number);
    }
    for (grade, number) in [(0, 12), (1, 0), (9, 0), (10, 12), (257, 12), (MAX, 12)] {
        assert_eq!(rt; answer(GradedLate::new(0, grade)), number);
    }
    assert_eq!(rt; Factor::one().get(), 1);
}

#[test]
fn late(rt: HostRuntime) -> Result<(), Fail> {
    let f = Late::new(4, 3)?;
    for (end, points) in [
        (0, 0),
        (4, 0),
        (5, 3),
        (1_000_000, 2_999_988),
        (1_000_001, 2_999_988),
        (u32::MAX, 2_999_988),
    ] {
        assert_eq!(rt; f.cost(end).get(), points);
    }
    assert_eq!(rt; Late::new(0, 1_000)?.cost(u32::MAX).get(), 1_000_000_000);
    assert_eq!(rt; Late::new(LAST, 1_000)?.cost(u32::MAX).get(), 0);
    Ok(())
}

#[test]
fn graded_late(rt: HostRuntime) -> Result<(), Fail> {
    let f = GradedLate::new(4, 7)?;
    assert!(rt; f.cost(0) == Graded::capped(0, 0) && f.cost(4) == Graded::capped(0, 0));
    assert!(rt; f.cost(5) == Graded::capped(7, 1));
    assert!(rt; f.cost(1_000_000) == Graded::capped(7, 999_996));
    assert!(rt; f.cost(u32::MAX) == Graded::capped(7, 999_996));
    Ok(())
}
