//! The productions of expressions with choices as formats, over whatever stands inside parentheses, with their trees and
//! their laws.
#![tactic(auto)]
