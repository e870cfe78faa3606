//! Tests of a mounted volume of which snapshots are taken, of the upgrade of a volume, and of what is told where a stop leaves less than was
//! synced. The crate has nothing but tests.
#![tactic(auto)]

#[cfg(test)]
mod attributes;
#[cfg(test)]
mod changed;
#[cfg(test)]
mod expect;
#[cfg(test)]
mod four_snapshots;
#[cfg(test)]
mod frozen_volume;
#[cfg(test)]
mod refused;
#[cfg(test)]
mod smaller_volumes;
#[cfg(test)]
mod stopped;
#[cfg(test)]
mod synced;
#[cfg(test)]
mod upgraded;
#[cfg(test)]
mod volumes;
