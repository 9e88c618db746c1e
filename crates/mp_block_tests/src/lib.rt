//! Tests of matchings, short sets and blocks, over models that are read from their texts.
#![tactic(auto)]

#[cfg(test)]
mod models;
