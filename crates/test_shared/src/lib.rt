//! Tests of a volume that threads share, of scripts of users, and of what they are answered. The crate has nothing but tests.
#![tactic(auto)]

#[cfg(test)]
mod answered;
#[cfg(test)]
mod expect;
#[cfg(test)]
mod parsed;
#[cfg(test)]
mod threads;
