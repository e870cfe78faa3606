use lists::Ready;
use std::test::Fail;

#[test]
fn the_least_block_with_a_number_is_found(rt: HostRuntime) -> Result<(), Fail> {
    let mut ready = Ready::new(rt.alloc(), 100)?;
    assert_eq!(rt; ready.least(), None);
    ready.make_room(3)?;
    ready.push(70, 2);
    ready.push(5, 0);
    ready.push(70, 1);
    assert_eq!(rt; ready.least(), Some(5));
    assert_eq!(rt;
        (ready.next(6), ready.next(70), ready.next(71)),
        (Some(70), Some(70), None)
    );
    assert_eq!(rt; ready.pop(5), Some(0));
    assert_eq!(rt; ready.least(), Some(70));
    assert_eq!(rt;
        (ready.pop(70), ready.pop(70), ready.pop(70)),
        (Some(1), Some(2), None)
    );
    assert_eq!(rt; ready.least(), None);
    Ok(())
}
