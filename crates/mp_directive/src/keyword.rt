// The words of directives.
ghost use Rattle.std.specs.Prelude.{◌≡◌};
ghost use Rattle.mp_directive.specs.Directives.{keyword_of};

/// The word of a directive.
#[derive(Clone, Copy, Debug, PartialEq, Eq)]
pub enum Keyword {
    Define,
    If,
    ElseIf,
    Else,
    EndIf,
    IfDef,
    IfNDef,
    For,
    EndFor,
    Include,
    Echo,
    Error,
}

// The keyword of this word.
#[tactic(auto, unfolding(crate::specs::Directives::keyword_of))]
pub(crate) fn keyword_of(word: &[u8]) -> Option<Keyword>
    ensures { result ≡ keyword_of word.now }
{
    if word == b"define".as_slice() {
        return Some(Keyword::Define);
    }
    if word == b"if".as_slice() {
        return Some(Keyword::If);
    }
    if word == b"elseif".as_slice() {
        return Some(Keyword::ElseIf);
    }
    if word == b"else".as_slice() {
        return Some(Keyword::Else);
    }
    if word == b"endif".as_slice() {
        return Some(Keyword::EndIf);
    }
    if word == b"ifdef".as_slice() {
        return Some(Keyword::IfDef);
    }
    if word == b"ifndef".as_slice() {
        return Some(Keyword::IfNDef);
    }
    if word == b"for".as_slice() {
        return Some(Keyword::For);
    }
    if word == b"endfor".as_slice() {
        return Some(Keyword::EndFor);
    }
    if word == b"include".as_slice() {
        return Some(Keyword::Include);
    }
    if word == b"echo".as_slice() {
        return Some(Keyword::Echo);
    }
    if word == b"error".as_slice() {
        return Some(Keyword::Error);
    }
    None
}
