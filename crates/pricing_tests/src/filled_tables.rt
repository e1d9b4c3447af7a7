// Tables that are filled from the front: up to their last place, and not past it.
use std::test::Fail;
use tables::Filled;

#[test]
fn one_item_after_another(rt: HostRuntime) -> Result<(), Fail> {
    let mut table: Filled<u8, 3> = Filled::new(0);
    assert!(rt; table.len() == 0 && table.as_slice().is_empty());
    assert!(rt; table.push(7) == Some(0) && table.push(8) == Some(1));
    let copy = table.clone()?;
    assert!(rt; table.push(9) == Some(2) && table.push(10) == None);
    assert!(rt; table.len() == 3 && table.as_slice() == [7, 8, 9].as_slice());
    assert!(rt; copy.len() == 2 && copy.as_slice() == [7, 8].as_slice());
    Ok(())
}

#[test]
fn all_items_at_once(rt: HostRuntime) -> Result<(), Fail> {
    let full = Filled::<u8, 3>::from_slice(0, &[1, 2, 3]).ok_or_else(|| Fail::new("three fit"))?;
    assert!(rt; full.as_slice() == [1, 2, 3].as_slice());
    let none = Filled::<u8, 3>::from_slice(0, &[]).ok_or_else(|| Fail::new("none fit"))?;
    assert_eq!(rt; none.len(), 0);
    assert!(rt; Filled::<u8, 3>::from_slice(0, &[1, 2, 3, 4]).is_none());
    Ok(())
}
