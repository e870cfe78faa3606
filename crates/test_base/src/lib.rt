//! Tests of lists, of sets of numbers, of workers, of archives, of files that are written beside, and of lines that show how far
//! work has come: of what knows nothing of an image. The crate has nothing but tests.
#![tactic(auto)]

#[cfg(test)]
mod archived;
#[cfg(test)]
mod at_work;
#[cfg(test)]
mod chained;
#[cfg(test)]
mod claimed;
#[cfg(test)]
mod expect;
#[cfg(test)]
mod least_ready;
#[cfg(test)]
mod marked;
#[cfg(test)]
mod members;
#[cfg(test)]
mod progressing;
#[cfg(test)]
mod pushed;
#[cfg(test)]
mod stacked;
