//! Tests of the single phases, and images that are made to hurt: of lengths and geometries that no volume has, with numbers at each
//! limit and one past it, and with random bytes behind a good frame. The crate has nothing but tests.
#![tactic(auto)]

#[cfg(test)]
mod claimed;
#[cfg(test)]
mod expect;
#[cfg(test)]
mod frames;
#[cfg(test)]
mod image;
#[cfg(test)]
mod images;
#[cfg(test)]
mod limits;
#[cfg(test)]
mod links;
#[cfg(test)]
mod marked;
#[cfg(test)]
mod namings;
#[cfg(test)]
mod random;
#[cfg(test)]
mod reached;
#[cfg(test)]
mod slots;
#[cfg(test)]
mod tables;
