// Each layer alone, and a stack of them.
use crate::answers::{HIGH, LAST};
use costs::{Graded, Points, Ticks};
use curves::{Curve, Factor, GradedLate, Late, Row, Steps};
use layers::{Ceiling, Delay, Larger, Weight};
use std::test::Fail;

// Late with due 10 and rate 2, read by so many ticks later.
fn delayed(by: u64) -> Result<Delay<Late>, Fail> {
    Ok(Delay {
        curve: Late::new(10, 2)?,
        by: Ticks::new(by)?,
    })
}

#[test]
fn delay(rt: HostRuntime) -> Result<(), Fail> {
    let f = delayed(3)?;
    assert!(rt; f.cost(7).get() == 0 && f.cost(8).get() == 2);
    assert_eq!(rt; f.cost(999_997).get(), 1_999_980);
    assert_eq!(rt; f.cost(999_998).get(), 1_999_980);
    assert_eq!(rt; f.cost(u32::MAX).get(), 1_999_980);
    let none = delayed(0)?;
    assert!(rt; none.cost(10).get() == 0 && none.cost(11).get() == 2);
    let all = delayed(LAST)?;
    assert!(rt; all.cost(0).get() == 1_999_980 && all.cost(u32::MAX).get() == 1_999_980);
    let graded = Delay {
        curve: GradedLate::new(10, 2)?,
        by: Ticks::new(3)?,
    };
    assert!(rt; graded.cost(8) == Graded::capped(2, 1));
    Ok(())
}

// Late with due 10 and rate 2, and never more than so many points.
fn under(most: u64) -> Result<Ceiling<Late, Points>, Fail> {
    Ok(Ceiling {
        curve: Late::new(10, 2)?,
        most: Points::new(most)?,
    })
}

#[test]
fn ceiling(rt: HostRuntime) -> Result<(), Fail> {
    let f = under(5)?;
    assert!(rt; f.cost(10).get() == 0 && f.cost(12).get() == 4);
    assert!(rt; f.cost(13).get() == 5 && f.cost(u32::MAX).get() == 5);
    assert_eq!(rt; under(0)?.cost(u32::MAX).get(), 0);
    assert_eq!(rt; under(HIGH)?.cost(u32::MAX).get(), 1_999_980);
    let graded = Ceiling {
        curve: GradedLate::new(10, 2)?,
        most: Graded::new(1, 40)?,
    };
    assert!(rt; graded.cost(10) == Graded::capped(0, 0));
    assert!(rt; graded.cost(11) == Graded::capped(1, 40));
    Ok(())
}

#[test]
fn larger(rt: HostRuntime) -> Result<(), Fail> {
    let f = Larger {
        one: Late::new(10, 1)?,
        other: Late::new(20, 3)?,
    };
    assert!(rt; f.cost(20).get() == 10 && f.cost(25).get() == 15);
    assert!(rt; f.cost(26).get() == 18 && f.cost(u32::MAX).get() == 2_999_940);
    let graded = Larger {
        one: GradedLate::new(10, 1)?,
        other: GradedLate::new(20, 3)?,
    };
    assert!(rt; graded.cost(20) == Graded::capped(1, 10));
    assert!(rt; graded.cost(21) == Graded::capped(3, 1));
    Ok(())
}

// Steps up to the highest points, so many times over.
fn weighted(factor: u64) -> Result<Weight<Steps>, Fail> {
    let mut steps = Steps::new();
    let rows = [
        Row {
            tick: 5,
            points: HIGH / 1_000,
        },
        Row {
            tick: 6,
            points: HIGH / 1_000 + 1,
        },
        Row {
            tick: 7,
            points: HIGH,
        },
    ];
    steps.fill(&rows)?;
    Ok(Weight {
        curve: steps,
        factor: Factor::new(factor)?,
    })
}

#[test]
fn weight(rt: HostRuntime) -> Result<(), Fail> {
    let heavy = weighted(1_000)?;
    assert!(rt; heavy.cost(4).get() == 0 && heavy.cost(5).get() == HIGH);
    assert!(rt; heavy.cost(6).get() == HIGH && heavy.cost(7).get() == HIGH);
    assert_eq!(rt; heavy.cost(u32::MAX).get(), HIGH);
    let plain = weighted(1)?;
    assert!(rt; plain.cost(6).get() == 1_000_000_000_001 && plain.cost(7).get() == HIGH);
    assert_eq!(rt; weighted(999)?.cost(5).get(), 999_000_000_000_000);
    Ok(())
}
