use crate::expect::{holds, same};
use lists::{Chain, Chains, Link};
use std::alloc::AllocError;

/// The most links that a table has.
const MOST_LINKS: usize = u32::MAX as usize;

#[test]
fn lists_share_what_they_were_made_of(rt: HostRuntime) -> Result<(), AllocError> {
    let mut chains = Chains::new(rt.alloc());
    same(&rt, "none", chains.first(Chain::empty()), None);
    chains.reserve(3)?;
    let one = chains.put(7, Chain::empty());
    let two = chains.put(8, one);
    let other = chains.put(u32::MAX, one);
    let link = |number, rest| Some(Link { number, rest });
    same(&rt, "one", chains.first(one), link(7, Chain::empty()));
    same(&rt, "two", chains.first(two), link(8, one));
    same(&rt, "another", chains.first(other), link(u32::MAX, one));
    chains.clear();
    chains.reserve(1)?;
    let again = chains.put(9, Chain::empty());
    same(&rt, "again", chains.first(again), link(9, Chain::empty()));
    Ok(())
}

#[test]
fn refuses_more_links_than_have_a_number(rt: HostRuntime) {
    let mut chains = Chains::new(rt.alloc());
    holds(&rt, "one too many", chains.reserve(MOST_LINKS + 1).is_err());
    holds(&rt, "the most", chains.reserve(usize::MAX).is_err());
    holds(&rt, "none", chains.reserve(0).is_ok());
}
