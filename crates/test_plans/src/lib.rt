//! Tests of paths, of what stands in an image, of where a new entry goes, and of the plans of commands and of repairs. The crate has
//! nothing but tests.
#![tactic(auto)]

#[cfg(test)]
mod chosen;
#[cfg(test)]
mod counted;
#[cfg(test)]
mod creations;
#[cfg(test)]
mod entering;
#[cfg(test)]
mod expect;
#[cfg(test)]
mod mended;
#[cfg(test)]
mod read;
#[cfg(test)]
mod removals;
#[cfg(test)]
mod renames;
#[cfg(test)]
mod settling;
#[cfg(test)]
mod walks;
#[cfg(test)]
mod writes;
