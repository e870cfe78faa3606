//! Tests of viewing and serving: sessions of Linux's FUSE as bytes, over a channel in memory. The crate has nothing but tests.
#![tactic(auto)]

#[cfg(test)]
mod asking;
#[cfg(test)]
mod keeping;
#[cfg(test)]
mod served;
#[cfg(test)]
mod sessions;
#[cfg(test)]
mod spelling;
#[cfg(test)]
mod volumes;
#[cfg(test)]
mod writing;
