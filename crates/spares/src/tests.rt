use crate::Spares;
use layout::BLOCK_BYTES;
use std::test::Fail;

#[test]
fn the_memory_of_a_spare_block_serves_again(rt: HostRuntime) -> Result<(), Fail> {
    let alloc = rt.alloc();
    let mut spares = Spares::new(alloc)?;
    let first = spares.share(alloc, &[1; BLOCK_BYTES])?;
    spares.add(first);
    assert_eq!(rt; spares.blocks.len(), 1);
    let second = spares.share(alloc, &[2; BLOCK_BYTES])?;
    assert_eq!(rt; spares.blocks.len(), 0);
    assert!(rt; *second == [2; BLOCK_BYTES]);
    Ok(())
}

#[test]
fn a_block_with_another_owner_is_left_alone(rt: HostRuntime) -> Result<(), Fail> {
    let alloc = rt.alloc();
    let mut spares = Spares::new(alloc)?;
    let first = spares.share(alloc, &[1; BLOCK_BYTES])?;
    spares.add(first.clone()?);
    assert_eq!(rt; spares.blocks.len(), 0);
    let second = spares.share(alloc, &[2; BLOCK_BYTES])?;
    assert!(rt; *first == [1; BLOCK_BYTES]);
    assert!(rt; *second == [2; BLOCK_BYTES]);
    Ok(())
}

#[test]
fn no_more_are_kept_than_there_is_room_for(rt: HostRuntime) -> Result<(), Fail> {
    let alloc = rt.alloc();
    let mut spares = Spares::none(alloc);
    let block = spares.share(alloc, &[1; BLOCK_BYTES])?;
    spares.add(block);
    assert_eq!(rt; spares.blocks.len(), 0);
    Ok(())
}
