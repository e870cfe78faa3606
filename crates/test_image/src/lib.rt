//! Tests of the bytes of an image, of devices, of reports, and of what is kept of an image. The crate has nothing but tests.
#![tactic(auto)]

#[cfg(test)]
mod alike;
#[cfg(test)]
mod attribute_numbers;
#[cfg(test)]
mod cached;
#[cfg(test)]
mod devices;
#[cfg(test)]
mod expect;
#[cfg(test)]
mod geometries;
#[cfg(test)]
mod group_maps;
#[cfg(test)]
mod left;
#[cfg(test)]
mod loading;
#[cfg(test)]
mod recorded;
#[cfg(test)]
mod records;
#[cfg(test)]
mod reports;
#[cfg(test)]
mod slots;
