//! Tests of pictures of an image, of what goes into one, of how commands and answers are spelled, and of the messages of Linux's FUSE as
//! bytes, the channels that carry them, and the nodes that the kernel was told. The crate has nothing but tests.
#![tactic(auto)]

#[cfg(test)]
mod drawn;
#[cfg(test)]
mod expect;
#[cfg(test)]
mod items;
#[cfg(test)]
mod messages;
#[cfg(test)]
mod passing;
#[cfg(test)]
mod told;
#[cfg(test)]
mod words;
