// From a text to the file that its tokens read as.
ghost use Rattle.std.specs.Prelude.{◌≡◌, ◌<◌, ◌≤◌, ◌-◌, ◌^◌, [], drop, length, take, IfOk, MatchResult};
ghost use Rattle.mp_tokens.specs.Tokens.{tokens};
ghost use Rattle.mp_grammar.specs.Grammar.{ReadsFile, file_read};
ghost use Rattle.mp_file.specs.Shown.{file_of};
ghost use Rattle.mp_lex.specs.Shown.{tok_of};
ghost use Rattle.mp_transform.specs.Steps.{Says, TextShows};
ghost use Rattle.mp_transform.specs.Text.{token_step, file_step, wrong_token};

use mp_base::{Label, Refusal, TextKind};
use mp_file::File;
use mp_gram::ParseFault;
use mp_lex::{LexFault, Token, Tokens};
use std::alloc::Global;

/// The tokens of the text.
pub(crate) fn lexed<'t>(alloc: Global, text: &'t [u8]) -> Result<Tokens<'t>, Refusal>
    requires { length text.now < 2 ^ 32 - 1 }
    ensures says { Says (λ ts. ts) (token_step (tokens text.now)) result }
    ensures few { IfOk result (λ ts. length ts ≤ length text.now) }
    ensures shows { MatchResult result (λ _. Unit {0}) TextShows }
{
    match mp_lex::lex(alloc, text) {
        Ok(tokens) => Ok(tokens),
        Err(LexFault::BadByte { at }) => Err(wrong_byte(TextKind::BadByte, at)),
        Err(LexFault::LongName { at }) => Err(wrong_byte(TextKind::LongName, at)),
        Err(LexFault::OpenComment { at }) => Err(wrong_byte(TextKind::OpenComment, at)),
        Err(LexFault::OpenText { at }) => Err(wrong_byte(TextKind::OpenText, at)),
        Err(LexFault::NoMemory) => Err(Refusal::NoMemory),
    }
}

// A text has no tokens or no reading for this reason, which no token shows.
fn wrong_byte(kind: TextKind, at: u32) -> Refusal
    ensures { result ≡ Refusal.Text kind at [] }
{
    Refusal::Text {
        kind,
        at,
        token: Label::of(b""),
    }
}

/// The file that the tokens read as. The text ends at `end`.
pub(crate) fn parsed<'t>(alloc: Global, tokens: &Tokens<'t>, end: u32) -> Result<File<'t>, Refusal>
    requires { length tokens.now < 2 ^ 32 - 1 }
    ensures says { Says file_of (file_step end (file_read tokens.now)) result }
    ensures found { IfOk result (λ f. ReadsFile tokens.now (file_of f)) }
    ensures shows { MatchResult result (λ _. Unit {0}) TextShows }
{
    match mp_gram::parse(alloc, tokens) {
        Ok(file) => Ok(file),
        Err(ParseFault::Token { index }) => Err(wrong_token(tokens, index, end)),
        Err(ParseFault::NoMemory) => Err(Refusal::NoMemory),
    }
}

// The token with this number, from 1, is wrong, or the end of the text.
fn wrong_token(tokens: &Tokens, index: u32, end: u32) -> Refusal
    requires { 1 ≤ index }
    ensures { result ≡ wrong_token end (drop (index - 1) tokens.now) }
{
    let all = tokens.as_slice();
    let before = index as usize - 1;
    if before >= all.len() {
        return wrong_byte(TextKind::Token, end);
    }
    stops_at(&all[before])
}

// The reading stops at this token.
fn stops_at(token: &Token) -> Refusal
    ensures { result ≡ Refusal.Text TextKind.Token (tok_of token.now).at (take 128 (tok_of token.now).bytes) }
{
    Refusal::Text {
        kind: TextKind::Token,
        at: token.at,
        token: Label::of(token.text),
    }
}
