use lists::Stacks;
use std::alloc::AllocError;

#[test]
fn numbers_come_back_the_last_first(rt: HostRuntime) -> Result<(), AllocError> {
    let mut stacks = Stacks::new(rt.alloc(), 3)?;
    assert!(rt; stacks.is_empty(0) && stacks.is_empty(2));
    assert_eq!(rt; stacks.pop(1), None);
    stacks.make_room(5)?;
    stacks.push(1, 4);
    stacks.push(1, 0);
    stacks.push(2, 2);
    stacks.push(1, 3);
    assert_eq!(rt; stacks.pop(1), Some(3));
    if let Some(number) = stacks.pop(2) {
        stacks.push(0, number);
    }
    assert_eq!(rt; stacks.pop(0), Some(2));
    assert_eq!(rt; stacks.pop(2), None);
    assert_eq!(rt; stacks.pop(1), Some(0));
    assert!(rt; !stacks.is_empty(1));
    assert_eq!(rt; stacks.pop(1), Some(4));
    assert!(rt; stacks.is_empty(1));
    Ok(())
}

#[test]
fn room_is_made_for_more_and_never_less(rt: HostRuntime) -> Result<(), AllocError> {
    let mut stacks = Stacks::new(rt.alloc(), 1)?;
    stacks.make_room(1)?;
    stacks.push(0, 0);
    stacks.make_room(100)?;
    stacks.make_room(3)?;
    stacks.push(0, 99);
    assert!(rt; stacks.make_room(u32::MAX as usize + 1).is_err());
    assert_eq!(rt; stacks.pop(0), Some(99));
    assert_eq!(rt; stacks.pop(0), Some(0));
    assert_eq!(rt; stacks.pop(0), None);
    Ok(())
}
