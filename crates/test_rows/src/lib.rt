//! Tests alone: what the lines of `fsvol` print and give, on files of the tests' own.
#![tactic(auto)]

#[cfg(test)]
mod checking;
#[cfg(test)]
mod demoing;
#[cfg(test)]
mod everyday;
#[cfg(test)]
mod formats;
#[cfg(test)]
mod hosting;
#[cfg(test)]
mod making;
#[cfg(test)]
mod mounting;
#[cfg(test)]
mod printing;
#[cfg(test)]
mod progressing;
#[cfg(test)]
mod reports;
#[cfg(test)]
mod scripts;
#[cfg(test)]
mod trying;
