//! Formats: productions as values, with one relation, one reading from left to right, trees with their texts, and laws
//! once for all.
#![tactic(auto)]
