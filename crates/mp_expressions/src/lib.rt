//! The productions of expressions as formats, over whatever stands inside parentheses, with their trees and their laws.
#![tactic(auto)]
