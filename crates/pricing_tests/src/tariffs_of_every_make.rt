// One generic function, asked of tariffs of every make: in points, in graded costs, joined, and over a stack of layers.
use costs::{Graded, Points, Ticks};
use curves::{Factor, GradedLate, Late, Row, Steps};
use layers::{Ceiling, Delay, Larger, Weight};
use std::test::Fail;
use tariffs::{CueBase, CueCurve, CueTariff, Joined, Single, Tariff, price_list};

// What it costs by curve k to end at ticks 0, 11, 30 and the last that can be given.
fn four<T: Tariff<Cost = Points>>(tariff: &T, k: u8) -> [u64; 4] {
    let mut prices = [Points::capped(1); 4];
    price_list(tariff, k, &[0, 11, 30, u32::MAX], &mut prices);
    prices.map(|price| price.get())
}

#[test]
fn a_single_curve(rt: HostRuntime) -> Result<(), Fail> {
    let tariff = Single {
        curve: Late::new(10, 2)?,
    };
    assert_eq!(rt; tariff.count(), 1);
    assert!(rt; four(&tariff, 0) == [0, 2, 40, 1_999_980]);
    assert!(rt; four(&tariff, 255) == [0, 2, 40, 1_999_980]);
    Ok(())
}

#[test]
fn in_graded_costs(rt: HostRuntime) -> Result<(), Fail> {
    let tariff = Joined {
        first: Single {
            curve: GradedLate::new(10, 2)?,
        },
        second: Single {
            curve: GradedLate::new(11, 9)?,
        },
    };
    let mut prices = [Graded::capped(9, 9); 3];
    price_list(&tariff, 0, &[11, 4], &mut prices);
    assert!(rt; prices[0] == Graded::capped(2, 1) && prices[1] == Graded::capped(0, 0));
    // a place past the ticks stays as it was
    assert!(rt; prices[2] == Graded::capped(9, 9));
    price_list(&tariff, 1, &[12, 13, u32::MAX, 15], &mut prices);
    assert!(rt; prices[0] == Graded::capped(9, 1) && prices[2] == Graded::capped(9, 999_989));
    Ok(())
}

#[test]
fn a_stack_of_four_layers(rt: HostRuntime) -> Result<(), Fail> {
    let below = Larger {
        one: Late::new(10, 2)?,
        other: Late::new(30, 9)?,
    };
    let delayed = Delay {
        curve: below,
        by: Ticks::new(5)?,
    };
    let weighted = Weight {
        curve: delayed,
        factor: Factor::new(10)?,
    };
    let tariff = Single {
        curve: Ceiling {
            curve: weighted,
            most: Points::new(470)?,
        },
    };
    assert!(rt; four(&tariff, 0) == [0, 120, 470, 470]);
    Ok(())
}

// A record of the cue tariff: no delay, weight 2 and a ceiling of 90 over Late.
fn doubled(due: u64) -> Result<CueCurve, Fail> {
    Ok(CueCurve {
        base: CueBase::Late(Late::new(due, 1)?),
        delay: Ticks::new(0)?,
        weight: Factor::new(2)?,
        ceiling: Points::new(90)?,
    })
}

#[test]
fn a_cue_tariff(rt: HostRuntime) -> Result<(), Fail> {
    let mut tariff = CueTariff::new();
    assert!(rt; tariff.count() == 0 && four(&tariff, 0) == [0, 0, 0, 0]);
    for k in 0..15 {
        assert!(rt; tariff.add(doubled(u64::from(k))?) == Some(k));
    }
    let mut steps = Steps::new();
    assert!(rt;
        steps
            .fill(&[Row {
                tick: 31,
                points: 7,
            }],)
            .is_ok()
    );
    let stepped = CueCurve {
        base: CueBase::Steps(steps),
        delay: Ticks::new(1)?,
        weight: Factor::new(3)?,
        ceiling: Points::new(20)?,
    };
    assert!(rt; tariff.next_number() == Some(15) && tariff.add(stepped) == Some(15));
    assert!(rt; tariff.count() == 16 && tariff.next_number() == None);
    assert!(rt; tariff.add(stepped) == None && tariff.count() == 16);
    assert!(rt; four(&tariff, 0) == [0, 22, 60, 90] && four(&tariff, 14) == [0, 0, 32, 90]);
    assert!(rt; four(&tariff, 15) == [0, 0, 20, 20]);
    assert!(rt; four(&tariff, 16) == [0, 0, 0, 0] && four(&tariff, 255) == [0, 0, 0, 0]);
    Ok(())
}

#[test]
fn joined(rt: HostRuntime) -> Result<(), Fail> {
    let mut first = CueTariff::new();
    assert!(rt; first.add(doubled(0)?) == Some(0));
    let tariff = Joined {
        first,
        second: Single {
            curve: Late::new(10, 2)?,
        },
    };
    assert_eq!(rt; tariff.count(), 2);
    assert!(rt; four(&tariff, 0) == [0, 22, 60, 90]);
    assert!(rt; four(&tariff, 1) == [0, 2, 40, 1_999_980]);
    assert!(rt; four(&tariff, 255) == [0, 2, 40, 1_999_980]);
    let mut full = CueTariff::new();
    for k in 0..16 {
        assert!(rt; full.add(doubled(10)?) == Some(k));
    }
    let both = Joined {
        first: full,
        second: tariff,
    };
    assert_eq!(rt; both.count(), 16);
    assert!(rt; four(&both, 15) == [0, 2, 40, 90] && four(&both, 16) == [0, 22, 60, 90]);
    Ok(())
}
