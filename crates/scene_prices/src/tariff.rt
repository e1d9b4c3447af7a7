// What a late bar of the scene costs, once in points and once by grades of harm.
use costs::{Points, PricingRefusal, Ticks};
use curves::{Factor, GradedLate, Late, Row, Steps};
use tariffs::{CueBase, CueCurve, CueTariff, Joined, Single};

// The curves of the bars in points, each with its layers, in the order of their numbers.
pub(crate) fn in_points() -> Result<CueTariff, PricingRefusal> {
    let curves = [
        layered(late(80, 2)?, 0, 1, 300)?,
        layered(late(150, 1)?, 0, 1, 1_000)?,
        layered(jumps()?, 10, 2, 250)?,
        layered(late(200, 3)?, 15, 1, 1_000)?,
        layered(late(230, 1)?, 0, 5, 400)?,
    ];
    let mut tariff = CueTariff::new();
    for curve in curves {
        let _ = tariff.add(curve);
    }
    Ok(tariff)
}

// A curve over that base, with a delay, a weight and a ceiling.
fn layered(
    base: CueBase,
    delay: u64,
    weight: u64,
    ceiling: u64,
) -> Result<CueCurve, PricingRefusal> {
    Ok(CueCurve {
        base,
        delay: Ticks::new(delay)?,
        weight: Factor::new(weight)?,
        ceiling: Points::new(ceiling)?,
    })
}

// The base Late.
fn late(due: u64, rate: u64) -> Result<CueBase, PricingRefusal> {
    Ok(CueBase::Late(Late::new(due, rate)?))
}

// The palace cloth: a little late is seen by few, later the lights are up.
fn jumps() -> Result<CueBase, PricingRefusal> {
    let mut steps = Steps::new();
    steps.fill(&[
        Row {
            tick: 160,
            points: 20,
        },
        Row {
            tick: 210,
            points: 120,
        },
    ])?;
    Ok(CueBase::Steps(steps))
}

// Two graded curves, the first of them for number 0.
pub(crate) type ByGrade = Joined<Single<GradedLate>, Single<GradedLate>>;

// The first two bars by grades of harm: the forest cloth hangs over the singers, the tree border is only seen.
pub(crate) fn by_grade() -> Result<ByGrade, PricingRefusal> {
    Ok(Joined {
        first: Single {
            curve: GradedLate::new(80, 7)?,
        },
        second: Single {
            curve: GradedLate::new(150, 2)?,
        },
    })
}
