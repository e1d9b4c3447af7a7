// Costs at the edges of their ranges, and how they compare.
use crate::answers::{HIGH, LAST, MAX, answer};
use costs::{CostKind, Graded, Points, Ticks, greater, lesser};

#[test]
fn ranges(rt: HostRuntime) {
    for (points, number) in [(0, 0), (HIGH, 0), (HIGH + 1, 12), (MAX, 12)] {
        assert_eq!(rt; answer(Points::new(points)), number);
    }
    for (ticks, number) in [
        (0, 0),
        (LAST, 0),
        (LAST + 1, 12),
        (4_294_967_296, 12),
        (MAX, 12),
    ] {
        assert_eq!(rt; answer(Ticks::new(ticks)), number);
    }
    for (grade, ticks, number) in [
        (0, 0, 0),
        (9, LAST, 0),
        (10, 0, 12),
        (256, 0, 12),
        (0, LAST + 1, 12),
        (MAX, MAX, 12),
    ] {
        assert_eq!(rt; answer(Graded::new(grade, ticks)), number);
    }
}

#[test]
fn points_compare_by_number(rt: HostRuntime) {
    let few = Points::capped(7);
    let most = Points::capped(MAX);
    assert_eq!(rt; few.get(), 7);
    assert_eq!(rt; most.get(), HIGH);
    assert!(rt; few.not_above(few) && few.not_above(most) && !most.not_above(few));
    assert!(rt; lesser(few, most) == few && lesser(most, few) == few);
    assert!(rt; greater(few, most) == most && greater(most, few) == most);
}

#[test]
fn graded_costs_compare_by_grade_first(rt: HostRuntime) {
    let long = Graded::capped(1, MAX);
    let short = Graded::capped(2, 0);
    let longer = Graded::capped(2, 1);
    assert!(rt; long.grade() == 1 && long.ticks() == 1_000_000);
    assert!(rt; Graded::capped(MAX, 0).grade() == 9);
    assert!(rt; long.not_above(short) && !short.not_above(long));
    assert!(rt; short.not_above(longer) && !longer.not_above(short));
    assert!(rt; lesser(longer, long) == long && greater(longer, long) == longer);
}
