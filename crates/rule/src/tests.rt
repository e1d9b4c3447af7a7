// Ready times and earliest ends on small sheets, and on the longest chain that a sheet can have.
use crate::{earliest_over, ready_times};
use moves::{MoveNumber, ROOM};
use sheet::Sheet;

// The ready time that the sheet gives that move.
fn ready_at(sheet: &Sheet, n: u64) -> u32 {
    MoveNumber::new(n).map_or(0, |m| ready_times(sheet).at(m))
}

// Two moves wait for a third, and one for both of them; one more is free.
#[test]
fn waits_for_the_latest(rt: HostRuntime) {
    let mut sheet = Sheet::open();
    assert!(rt; sheet.enter(5, 10, 40, 0).is_ok());
    assert!(rt; sheet.enter(0, 0, 30, 0).is_ok());
    assert!(rt; sheet.enter(1, 45, 7, 0).is_ok());
    assert!(rt; sheet.enter(63, 0, 1, 0).is_ok());
    assert!(rt; sheet.enter(9, 300, 1, 0).is_ok());
    assert!(rt; sheet.tie(5, 0).is_ok());
    assert!(rt; sheet.tie(5, 1).is_ok());
    assert!(rt; sheet.tie(0, 63).is_ok());
    assert!(rt; sheet.tie(1, 63).is_ok());
    assert_eq!(rt; ready_at(&sheet, 5), 10);
    assert_eq!(rt; ready_at(&sheet, 0), 50);
    assert_eq!(rt; ready_at(&sheet, 1), 50);
    assert_eq!(rt; ready_at(&sheet, 63), 80);
    assert_eq!(rt; ready_at(&sheet, 9), 300);
    assert_eq!(rt; earliest_over(&sheet), 301);
}

// A sheet with no move is over at once; one drive has to do one move after the other.
#[test]
fn one_drive(rt: HostRuntime) {
    let mut sheet = Sheet::open();
    assert_eq!(rt; earliest_over(&sheet), 0);
    assert!(rt; sheet.enter(0, 20, 30, 0).is_ok());
    assert!(rt; sheet.enter(1, 5, 10, 0).is_ok());
    assert!(rt; sheet.enter(2, 21, 4, 0).is_ok());
    assert_eq!(rt; ready_at(&sheet, 2), 21);
    assert_eq!(rt; earliest_over(&sheet), 54);
    assert!(rt; sheet.enter(3, 999_890, 66, 0).is_ok());
    assert_eq!(rt; earliest_over(&sheet), 999_956);
}

// Every number in one chain, from the highest to the lowest.
#[test]
fn longest_chain(rt: HostRuntime) {
    let mut sheet = Sheet::open();
    for n in 0..ROOM as u64 {
        assert!(rt; sheet.enter(n, 3, 10, 0).is_ok());
    }
    for n in 1..ROOM as u64 {
        assert!(rt; sheet.tie(n, n - 1).is_ok());
    }
    assert_eq!(rt; ready_at(&sheet, 63), 3);
    assert_eq!(rt; ready_at(&sheet, 0), 633);
    assert_eq!(rt; earliest_over(&sheet), 643);
}
