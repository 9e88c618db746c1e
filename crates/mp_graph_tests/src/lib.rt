//! Tests of the shared graph, a small pass that reads, and derivatives and evaluation over it.
#![tactic(auto)]

#[cfg(test)]
mod depth;
#[cfg(test)]
mod derivatives;
#[cfg(test)]
mod evaluations;
#[cfg(test)]
mod graph;
