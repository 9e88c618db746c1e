//! Tokens, terminals and literals as definitions over lists of bytes. The code here is the small enums that the
//! definitions and every layer above share, and a call whose contract is the law of tokens.
#![tactic(auto)]

ghost use Rattle.std.specs.Prelude.{◌≡◌, ℕ, List, Ok};
ghost use Rattle.mp_tokens.specs.Tokens.{Tok, tokens};
ghost use Rattle.mp_tokens.specs.Forms.{Spelled};

pub mod terminal;
pub mod token;

pub use terminal::Terminal;
pub use token::TokenKind;

/// The tokens of a text are, one after the other, the longest ones that stand there, with blanks and comments between.
pub fn tokens_law()
    ensures { (text : List ℕ) (ts : List Tok) → tokens text ≡ Ok ts → Spelled 0 text ts }
{}
