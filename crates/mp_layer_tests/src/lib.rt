//! Tests of the layers over a text: tokens, files and their print, and the sizes of trees.
#![tactic(auto)]

#[cfg(test)]
mod files;
#[cfg(test)]
mod sizes;
#[cfg(test)]
mod tokens;
