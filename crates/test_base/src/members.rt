use crate::expect::{holds, same};
use sets::{Members, in_order};
use std::alloc::{AllocError, Global};
use std::collections::BTreeSet;
use std::process::Abort;

/// Five numbers.
fn five(alloc: Global) -> Result<BTreeSet<u32>, AllocError> {
    let mut set = BTreeSet::new(alloc);
    for number in [0, 3, 7, 8, 1_000] {
        set.insert(number)?;
    }
    Ok(set)
}

/// The first number at which the members are not those of the set.
fn first_other(members: &Members, set: &BTreeSet<u32>) -> Option<u32> {
    for number in 0..1_010 {
        if members.has(number) != set.contains(&number) {
            return Some(number);
        }
    }
    None
}

/// Aborts unless the members are those of the set, and the greatest number is none.
fn expect_those_of(rt: &impl Abort, members: &Members, set: &BTreeSet<u32>) {
    assert_eq!(rt; first_other(members, set), None);
    assert!(rt; !members.has(u32::MAX));
}

#[test]
fn numbers_of_a_set_are_members_up_to_the_greatest(rt: HostRuntime) -> Result<(), AllocError> {
    let set = five(rt.alloc())?;
    let members = Members::of_set(rt.alloc(), &set)?;
    expect_those_of(&rt, &members, &set);
    Ok(())
}

#[test]
fn numbers_of_a_list_are_members_up_to_the_greatest(rt: HostRuntime) -> Result<(), AllocError> {
    let set = five(rt.alloc())?;
    let list = vec![in rt.alloc(); 1_000, 3, 8, 0, 7, 3]?;
    let members = Members::new(rt.alloc(), list)?;
    expect_those_of(&rt, &members, &set);
    Ok(())
}

#[test]
fn an_empty_set_has_no_members(rt: HostRuntime) -> Result<(), AllocError> {
    let none = BTreeSet::new(rt.alloc());
    let members = Members::of_set(rt.alloc(), &none)?;
    holds(&rt, "of none", !members.has(0));
    Ok(())
}

#[test]
fn lists_are_put_in_order_and_each_once(rt: HostRuntime) -> Result<(), AllocError> {
    let list = in_order(vec![in rt.alloc(); 5, 1, 3, 1, 9]?)?;
    same(&rt, "in order", list.as_slice(), &[1, 3, 5, 9][..]);
    Ok(())
}

#[test]
fn an_empty_list_is_in_order(rt: HostRuntime) -> Result<(), AllocError> {
    let none: Vec<u32> = Vec::new(rt.alloc());
    holds(&rt, "empty", in_order(none)?.is_empty());
    Ok(())
}
