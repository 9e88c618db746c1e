// A law of the definitions that the contracts cite. The code here does nothing.
ghost use Rattle.std.specs.Prelude.{◌≡◌, ℕ, List, false, Some};
ghost use Rattle.mp_mvalue.specs.Environments.{Names};
ghost use Rattle.mp_mvalue.specs.Made.{Valued};
ghost use Rattle.mp_mexpr.specs.Grammar.{expression_of, meaning};
ghost use Rattle.mp_mexpr.specs.Readings.{Reads, Means};
ghost use Rattle.mp_mexpr.specs.Syntax.{Expr};
ghost use Rattle.mp_mexpr.specs.Tokens.{Tok, is_deep, tokens};

/// Where no more than 100 brackets are open, an expression is read exactly as the grammar says, which knows no limit;
/// any token list is one expression of the grammar at most; and a text means exactly what the grammar says of its tokens.
pub fn grammar_law()
    ensures found { (ts : List Tok) (e : Expr) → expression_of ts ≡ Some e → Reads ts e }
    ensures only { (ts : List Tok) (e : Expr) → is_deep ts ≡ false → Reads ts e → expression_of ts ≡ Some e }
    ensures one_expression { (ts : List Tok) (e other : Expr) → Reads ts e → Reads ts other → e ≡ other }
    ensures means { (names : Names) (text : List ℕ) → Means names (tokens text) (meaning names text) }
    ensures one_meaning { (names : Names) (text : List ℕ) (value : Valued) → Means names (tokens text) value → value ≡ meaning names text }
{}
