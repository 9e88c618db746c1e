// What a token is to the grammar.
ghost use Rattle.std.specs.Prelude.{◌≡◌, map};
ghost use Rattle.mp_tokens.specs.Terminals.{is_reserved, terminal_of, word_in, word_of};
ghost use Rattle.mp_tokens.specs.declared.terminal.Terminal.TheVariants as t;
ghost use Rattle.mp_lex.specs.Shown.{tok_of};

use crate::tokens::Token;
use mp_tokens::{Terminal, TokenKind};

// The words that are no names, by their number of bytes, with what each is.
const OF_2: [(&[u8], Terminal); 1] = [(b"ln", Terminal::Reserved)];

const OF_3: [(&[u8], Terminal); 11] = [
    (b"var", Terminal::Var),
    (b"end", Terminal::End),
    (b"min", Terminal::Min),
    (b"max", Terminal::Max),
    (b"abs", Terminal::Abs),
    (b"exp", Terminal::Reserved),
    (b"log", Terminal::Reserved),
    (b"sin", Terminal::Reserved),
    (b"cos", Terminal::Reserved),
    (b"tan", Terminal::Reserved),
    (b"erf", Terminal::Reserved),
];

const OF_4: [(&[u8], Terminal); 12] = [
    (b"diff", Terminal::Diff),
    (b"pick", Terminal::Pick),
    (b"sqrt", Terminal::Reserved),
    (b"cbrt", Terminal::Reserved),
    (b"sign", Terminal::Reserved),
    (b"asin", Terminal::Reserved),
    (b"acos", Terminal::Reserved),
    (b"atan", Terminal::Reserved),
    (b"sinh", Terminal::Reserved),
    (b"cosh", Terminal::Reserved),
    (b"tanh", Terminal::Reserved),
    (b"erfc", Terminal::Reserved),
];

const OF_5: [(&[u8], Terminal); 8] = [
    (b"model", Terminal::Model),
    (b"check", Terminal::Check),
    (b"resid", Terminal::Resid),
    (b"rplot", Terminal::Rplot),
    (b"log10", Terminal::Reserved),
    (b"asinh", Terminal::Reserved),
    (b"acosh", Terminal::Reserved),
    (b"atanh", Terminal::Reserved),
];

const OF_6: [(&[u8], Terminal); 4] = [
    (b"varexo", Terminal::Varexo),
    (b"endval", Terminal::Endval),
    (b"shocks", Terminal::Shocks),
    (b"steady", Terminal::Steady),
];

const OF_7: [(&[u8], Terminal); 4] = [
    (b"initval", Terminal::Initval),
    (b"histval", Terminal::Histval),
    (b"normcdf", Terminal::Reserved),
    (b"normpdf", Terminal::Reserved),
];

const OF_10: [(&[u8], Terminal); 1] = [(b"parameters", Terminal::Parameters)];

const OF_12: [(&[u8], Terminal); 3] = [
    (b"occbin_setup", Terminal::OccbinSetup),
    (b"STEADY_STATE", Terminal::SteadyState),
    (b"steady_state", Terminal::SteadyState),
];

const OF_13: [(&[u8], Terminal); 1] = [(b"occbin_solver", Terminal::OccbinSolver)];

const OF_17: [(&[u8], Terminal); 1] = [(b"model_diagnostics", Terminal::ModelDiagnostics)];

const OF_18: [(&[u8], Terminal); 2] = [
    (b"steady_state_model", Terminal::SteadyStateModel),
    (b"occbin_constraints", Terminal::OccbinConstraints),
];

const OF_23: [(&[u8], Terminal); 1] = [(
    b"perfect_foresight_setup",
    Terminal::PerfectForesightSetup,
)];

const OF_24: [(&[u8], Terminal); 1] = [(
    b"perfect_foresight_solver",
    Terminal::PerfectForesightSolver,
)];

impl Token<'_> {
    /// What this token is to the grammar: its kind, or for a word the terminal that the table of keywords says (Dynare
    /// manual, "The model file"; the profile is modpath's own).
    #[tactic(auto, unfolding(mp_tokens::specs::Terminals::terminal_of))]
    pub fn terminal(&self) -> Terminal
        ensures { result ≡ terminal_of (tok_of self.now) }
    {
        match self.kind {
            TokenKind::Name => word_of(self.text),
            TokenKind::Whole => Terminal::Whole,
            TokenKind::Number => Terminal::Number,
            TokenKind::Text => Terminal::Text,
            TokenKind::Tex => Terminal::Tex,
            TokenKind::Semicolon => Terminal::Semicolon,
            TokenKind::Comma => Terminal::Comma,
            TokenKind::Equals => Terminal::Equals,
            TokenKind::Open => Terminal::Open,
            TokenKind::Close => Terminal::Close,
            TokenKind::OpenBracket => Terminal::OpenBracket,
            TokenKind::CloseBracket => Terminal::CloseBracket,
            TokenKind::Plus => Terminal::Plus,
            TokenKind::Minus => Terminal::Minus,
            TokenKind::Star => Terminal::Star,
            TokenKind::Slash => Terminal::Slash,
            TokenKind::Caret => Terminal::Caret,
            TokenKind::Hash => Terminal::Hash,
            TokenKind::Colon => Terminal::Colon,
            TokenKind::Less => Terminal::Less,
            TokenKind::Greater => Terminal::Greater,
            TokenKind::AtMost => Terminal::AtMost,
            TokenKind::AtLeast => Terminal::AtLeast,
        }
    }
}

// The terminal that a word is. Only the words of its length are compared.
fn word_of(text: &[u8]) -> Terminal
    ensures { result ≡ word_of text.now }
{
    match text.len() {
        2 => word_in(text, &OF_2),
        3 => word_in(text, &OF_3),
        4 => word_in(text, &OF_4),
        5 => word_in(text, &OF_5),
        6 => word_in(text, &OF_6),
        7 => word_in(text, &OF_7),
        10 => word_in(text, &OF_10),
        12 => word_in(text, &OF_12),
        13 => word_in(text, &OF_13),
        17 => word_in(text, &OF_17),
        18 => word_in(text, &OF_18),
        23 => word_in(text, &OF_23),
        24 => word_in(text, &OF_24),
        _ => Terminal::Name,
    }
}

/// Whether the text is a reserved word.
pub fn is_reserved(text: &[u8]) -> bool
    ensures { result ≡ is_reserved text.now }
{
    match word_of(text) {
        Terminal::Name => false,
        _ => true,
    }
}

// What the text is among these words, or a name.
fn word_in(text: &[u8], words: &[(&[u8], Terminal)]) -> Terminal
    ensures { result ≡ word_in (map (λ w. (w.0.now, w.1)) words.now) t.Name text.now }
{
    for (word, terminal) in words {
        if text == *word {
            return *terminal;
        }
    }
    Terminal::Name
}
