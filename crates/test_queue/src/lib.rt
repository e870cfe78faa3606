//! Tests of updates, and of their queue over a device that fails on purpose. The crate has nothing but tests.
#![tactic(auto)]

#[cfg(test)]
mod cells;
#[cfg(test)]
mod expect;
#[cfg(test)]
mod queued;
