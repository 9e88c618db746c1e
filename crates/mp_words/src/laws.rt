// A law of the definitions that the contracts cite. The code here does nothing.
ghost use Rattle.std.specs.Prelude.{◌≡◌, ◌⊎◌, ℕ, List, Err};
ghost use Rattle.mp_words.specs.Refusals.{IsWrong, IsMissing};
ghost use Rattle.mp_words.specs.Words.{request_of};

/// Words are refused at the first word with which no list that is read begins; or, where they begin one, a word is
/// missing, and the number is one more than how many there are.
pub fn refusal_law()
    ensures { (words : List (List ℕ)) (word : ℕ) → request_of words ≡ Err word → IsWrong words word ⊎ IsMissing words word }
{}
