//! Tests of files and sinks, in memory and of the system.
#![tactic(auto)]

#[cfg(test)]
mod fakes;
#[cfg(test)]
mod memory;
#[cfg(test)]
mod real;
