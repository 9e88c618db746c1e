//! Tests of whole runs: worked rows, words, calls that fail, and hostile texts.
#![tactic(auto)]

#[cfg(test)]
mod bombs;
#[cfg(test)]
mod calls;
#[cfg(test)]
mod rows;
#[cfg(test)]
mod running;
#[cfg(test)]
mod tell;
#[cfg(test)]
mod words;
