//! Tests of the check and of the rules, and worked examples across crates: small images that are made by hand, and what a check finds
//! on them. The crate has nothing but tests.
#![tactic(auto)]

#[cfg(test)]
mod checked;
#[cfg(test)]
mod expect;
#[cfg(test)]
mod image;
#[cfg(test)]
mod names;
#[cfg(test)]
mod obeyed;
#[cfg(test)]
mod shared;
#[cfg(test)]
mod used_blocks;
#[cfg(test)]
mod whole;
