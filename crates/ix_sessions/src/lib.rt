//! Tests that go through several crates.
#![tactic(auto)]

#[cfg(test)]
mod cores;
#[cfg(test)]
mod gens;
#[cfg(test)]
mod programs;
#[cfg(test)]
mod reports;
#[cfg(test)]
mod scripts;
