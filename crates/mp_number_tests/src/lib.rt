//! Tests of numbers: exact fractions, fixed point, and the literals of a file; and of elimination: small systems, dense
//! and as bands, and two large systems in one band.
#![tactic(auto)]

#[cfg(test)]
mod fractions;
#[cfg(test)]
mod large_systems;
#[cfg(test)]
mod literals;
#[cfg(test)]
mod points;
#[cfg(test)]
mod systems;
