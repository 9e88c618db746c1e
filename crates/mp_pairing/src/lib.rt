//! Which equations are paired with which variables, what is short of variables, and in which order blocks of equations
//! stand: definitions.
#![tactic(auto)]
