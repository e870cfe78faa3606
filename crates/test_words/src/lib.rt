//! Tests alone: which lines are read, as what, and with which texts the others are refused.
#![tactic(auto)]

#[cfg(test)]
mod accepting;
#[cfg(test)]
mod owners;
#[cfg(test)]
mod refusing;
#[cfg(test)]
mod telling;
