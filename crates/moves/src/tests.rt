// Numbers at the edges, and sets of a few moves.
use crate::number::MoveNumber;
use crate::set::MoveSet;
use std::test::Fail;

fn number(value: u64) -> Result<MoveNumber, Fail> {
    MoveNumber::new(value).ok_or_else(|| Fail::new("no such number"))
}

#[test]
fn edges(rt: HostRuntime) -> Result<(), Fail> {
    assert_eq!(rt; number(63)?.get(), 63);
    assert!(rt; MoveNumber::new(64).is_none());
    assert!(rt; MoveNumber::new(u64::MAX).is_none());
    let (low, high) = (number(0)?, number(63)?);
    let set = MoveSet::empty().with(low).with(high);
    assert!(rt; set.contains(low) && set.contains(high));
    assert!(rt; !set.without(low).contains(low));
    assert!(rt; !set.without(high).contains(high));
    assert_eq!(rt; set.without(low).with(low).count(), 2);
    Ok(())
}

#[test]
fn three_moves_in_order(rt: HostRuntime) -> Result<(), Fail> {
    let set = MoveSet::empty()
        .with(number(41)?)
        .with(number(7)?)
        .with(number(63)?);
    assert_eq!(rt; set.count(), 3);
    assert!(rt; set.lowest() == Some(number(7)?));
    let mut moves = set.iter();
    assert!(rt; moves.next() == Some(number(7)?));
    assert!(rt; moves.next() == Some(number(41)?));
    assert!(rt; moves.next() == Some(number(63)?));
    assert!(rt; moves.next().is_none() && MoveSet::empty().lowest().is_none());
    Ok(())
}

#[test]
fn two_sets(rt: HostRuntime) -> Result<(), Fail> {
    let (a, b, c) = (number(1)?, number(2)?, number(3)?);
    let left = MoveSet::empty().with(a).with(b);
    let right = MoveSet::empty().with(b).with(c);
    assert!(rt; left.union(right) == left.with(c));
    assert!(rt; left.intersection(right) == MoveSet::empty().with(b));
    assert!(rt; left.difference(right) == MoveSet::empty().with(a));
    assert!(rt; left.difference(left).is_empty() && !left.is_empty());
    assert!(rt; left.is_subset(left.union(right)) && !left.is_subset(right));
    Ok(())
}

#[test]
fn every_move(rt: HostRuntime) -> Result<(), Fail> {
    let (low, high) = (number(0)?, number(63)?);
    let all = MoveSet::all();
    assert_eq!(rt; all.count(), 64);
    assert!(rt; all.contains(low) && all.contains(high));
    assert!(rt; all.lowest() == Some(low));
    assert!(rt; MoveSet::empty().with(high).is_subset(all));
    assert!(rt; all.difference(all) == MoveSet::empty());
    Ok(())
}
