// Statements.
ghost use Rattle.std.specs.Prelude.{◌≡◌, ◌<◌, ◌≤◌, length, map, IfOk};
ghost use Rattle.mp_tokens.specs.declared.terminal.Terminal.TheVariants as t;
ghost use Rattle.mp_file.specs.Shown.{item_of, statement_of};
ghost use Rattle.mp_format.specs.Format.{many, read};
ghost use Rattle.mp_format.specs.Notation.{of, line, ◌◂◌};
ghost use Rattle.mp_grammar.specs.Productions.{declared, declares, assigns, item, model, noted, notes, statement};
ghost use Rattle.mp_grammar.specs.Levels.{expression};
ghost use Rattle.mp_gram_expr.specs.Shown.{toks};
ghost use Rattle.mp_gram_expr.specs.Gives.{Gives};

use crate::choice::choices_of;
use crate::item::items_of;
use crate::name::{decl_of, decls_of, name_of, names_of};
use crate::repeated::{Repeated, all_of};
use mp_file::{Item, Statement};
use mp_gram_expr::{Rest, Wrong, expect, expr_of, past, wrong_at};
use mp_statements::{Command, NameKind};
use mp_tokens::Terminal;
use sqlite_items::Items;
use std::alloc::Global;

// What stands after a word that declares names of this kind.
#[tactic(auto, unfolding(mp_format::specs::Format::read))]
fn declared_of<'a, 't>(
    alloc: Global,
    kind: NameKind,
    tokens: Rest<'a, 't>,
) -> Result<(Statement<'t>, Rest<'a, 't>), Wrong<'a, 't>>
    ensures value { Gives (λ x. (statement_of x.0, toks x.1.now)) result (read (declared kind) (toks tokens.now)) }
    ensures fewer { IfOk result (λ x. length x.1.now < length tokens.now) }
{
    let (first, rest) = decl_of(alloc, tokens)?;
    let names = Items::from_slice(alloc, &[first])?;
    let (names, rest) = decls_of(alloc, names, rest)?;
    let (names, _, rest) = past(names, rest, Terminal::Semicolon)?;
    Ok((Statement::Declares { kind, names }, rest))
}

// A declaration.
#[tactic(auto, unfolding(mp_format::specs::Format::read, mp_format::specs::Format::first, mp_format::specs::Format::empty, mp_format::specs::Format::tok_at, mp_grammar::specs::Productions::declares))]
fn declares_of<'a, 't>(
    alloc: Global,
    tokens: Rest<'a, 't>,
) -> Result<(Statement<'t>, Rest<'a, 't>), Wrong<'a, 't>>
    ensures value { Gives (λ x. (statement_of x.0, toks x.1.now)) result (read declares (toks tokens.now)) }
    ensures fewer { IfOk result (λ x. length x.1.now < length tokens.now) }
{
    let Some((t, rest)) = tokens.split_first() else {
        return wrong_at(tokens);
    };
    match t.terminal() {
        Terminal::Var => return declared_of(alloc, NameKind::Endogenous, rest),
        Terminal::Varexo => return declared_of(alloc, NameKind::Exogenous, rest),
        Terminal::Parameters => return declared_of(alloc, NameKind::Parameter, rest),
        _ => {}
    }
    wrong_at(tokens)
}

// A parameter that is given a value.
#[tactic(auto, unfolding(mp_format::specs::Format::read, mp_grammar::specs::Productions::assigns))]
fn assigns_of<'a, 't>(
    alloc: Global,
    tokens: Rest<'a, 't>,
) -> Result<(Statement<'t>, Rest<'a, 't>), Wrong<'a, 't>>
    ensures value { Gives (λ x. (statement_of x.0, toks x.1.now)) result (read (assigns (expression 500)) (toks tokens.now)) }
    ensures fewer { IfOk result (λ x. length x.1.now < length tokens.now) }
{
    let (name, rest) = name_of(tokens)?;
    let (_, rest) = expect(rest, Terminal::Equals)?;
    let (value, rest) = expr_of(alloc, rest)?;
    let (value, _, rest) = past(value, rest, Terminal::Semicolon)?;
    Ok((Statement::Assigns { name, value }, rest))
}

// The items of a model block, and its end.
#[tactic(auto, unfolding(mp_format::specs::Format::read))]
fn block_of<'a, 't>(
    alloc: Global,
    tokens: Rest<'a, 't>,
) -> Result<(Items<Item<'t>>, Rest<'a, 't>), Wrong<'a, 't>>
    ensures value { Gives (λ x. (map item_of x.0, toks x.1.now)) result
        (read (many (item (expression 500)) ◂ of t.End ◂ line t.Semicolon) (toks tokens.now)) }
    ensures fewer { IfOk result (λ x. length x.1.now < length tokens.now) }
{
    let (items, rest) = items_of(alloc, tokens)?;
    let (items, _, rest) = past(items, rest, Terminal::End)?;
    let (items, _, rest) = past(items, rest, Terminal::Semicolon)?;
    Ok((items, rest))
}

// A model block.
#[tactic(auto, unfolding(mp_format::specs::Format::read, mp_grammar::specs::Productions::model))]
fn model_of<'a, 't>(
    alloc: Global,
    tokens: Rest<'a, 't>,
) -> Result<(Statement<'t>, Rest<'a, 't>), Wrong<'a, 't>>
    ensures value { Gives (λ x. (statement_of x.0, toks x.1.now)) result (read (model (expression 500)) (toks tokens.now)) }
    ensures fewer { IfOk result (λ x. length x.1.now < length tokens.now) }
{
    let (word, rest) = expect(tokens, Terminal::Model)?;
    let at = word.at;
    let (choices, rest) = choices_of(alloc, rest)?;
    let (choices, _, rest) = past(choices, rest, Terminal::Semicolon)?;
    let (items, rest) = block_of(alloc, rest)?;
    Ok((Statement::Model { at, choices, items }, rest))
}

// The word of a command that is noted.
#[tactic(auto, unfolding(mp_format::specs::Format::read, mp_format::specs::Format::first, mp_format::specs::Format::empty, mp_format::specs::Format::tok_at, mp_grammar::specs::Productions::noted))]
fn command_of<'a, 't>(tokens: Rest<'a, 't>) -> Result<(Command, Rest<'a, 't>), Wrong<'a, 't>>
    ensures value { Gives (λ x. (x.0, toks x.1.now)) result (read noted (toks tokens.now)) }
    ensures fewer { IfOk result (λ x. length x.1.now < length tokens.now) }
{
    let Some((t, rest)) = tokens.split_first() else {
        return wrong_at(tokens);
    };
    match t.terminal() {
        Terminal::Check => return Ok((Command::Check, rest)),
        Terminal::Resid => return Ok((Command::Resid, rest)),
        Terminal::Rplot => return Ok((Command::Rplot, rest)),
        Terminal::ModelDiagnostics => return Ok((Command::ModelDiagnostics, rest)),
        Terminal::OccbinSetup => return Ok((Command::OccbinSetup, rest)),
        Terminal::OccbinSolver => return Ok((Command::OccbinSolver, rest)),
        _ => {}
    }
    wrong_at(tokens)
}

// A noted command, past its options.
#[tactic(auto, unfolding(mp_format::specs::Format::read, mp_grammar::specs::Productions::notes))]
fn notes_of<'a, 't>(
    alloc: Global,
    tokens: Rest<'a, 't>,
) -> Result<(Statement<'t>, Rest<'a, 't>), Wrong<'a, 't>>
    ensures value { Gives (λ x. (statement_of x.0, toks x.1.now)) result (read notes (toks tokens.now)) }
    ensures fewer { IfOk result (λ x. length x.1.now < length tokens.now) }
{
    let (command, rest) = command_of(tokens)?;
    let (_, rest) = choices_of(alloc, rest)?;
    let (names, rest) = names_of(alloc, rest)?;
    let (names, _, rest) = past(names, rest, Terminal::Semicolon)?;
    Ok((Statement::Notes { command, names }, rest))
}

// A statement.
#[tactic(auto, unfolding(mp_format::specs::Format::read, mp_format::specs::Format::first, mp_format::specs::Format::empty, mp_format::specs::Format::tok_at, mp_grammar::specs::Productions::statement, mp_grammar::specs::Productions::declares, mp_grammar::specs::Productions::assigns, mp_grammar::specs::Productions::model, mp_grammar::specs::Productions::notes, mp_grammar::specs::Productions::noted))]
fn statement_of<'a, 't>(
    alloc: Global,
    tokens: Rest<'a, 't>,
) -> Result<(Statement<'t>, Rest<'a, 't>), Wrong<'a, 't>>
    ensures value { Gives (λ x. (statement_of x.0, toks x.1.now)) result (read (statement (expression 500)) (toks tokens.now)) }
    ensures fewer { IfOk result (λ x. length x.1.now < length tokens.now) }
{
    let Some((t, _)) = tokens.split_first() else {
        return wrong_at(tokens);
    };
    match t.terminal() {
        Terminal::Var | Terminal::Varexo | Terminal::Parameters => {
            return declares_of(alloc, tokens);
        }
        Terminal::Name => return assigns_of(alloc, tokens),
        Terminal::Model => return model_of(alloc, tokens),
        Terminal::Check
        | Terminal::Resid
        | Terminal::Rplot
        | Terminal::ModelDiagnostics
        | Terminal::OccbinSetup
        | Terminal::OccbinSolver => return notes_of(alloc, tokens),
        _ => {}
    }
    wrong_at(tokens)
}

// A statement where one begins.
struct StatementHere;

impl<'t> Repeated<'t> for StatementHere {
    ghost use Rattle.std.specs.Prelude.{◌≡◌, ◌<◌, false, length, IfOk};
    ghost use Rattle.mp_statements.specs.Statements.{Statement};
    ghost use Rattle.mp_file.specs.Shown.{statement_of};
    ghost use Rattle.mp_format.specs.Format.{read, meets, first, empty};
    ghost use Rattle.mp_grammar.specs.Productions.{statement};
    ghost use Rattle.mp_grammar.specs.Levels.{expression};
    ghost use Rattle.mp_gram_expr.specs.Shown.{toks};
    ghost use Rattle.mp_gram_expr.specs.Gives.{Gives};

    type Item = Statement<'t>;

    ghost Value = { Statement };

    ghost shown = { statement_of };

    ghost format = { statement (expression 500) };

    #[tactic(auto, unfolding(mp_format::specs::Format::first, mp_format::specs::Format::empty, mp_grammar::specs::Productions::statement, mp_grammar::specs::Productions::declares, mp_grammar::specs::Productions::assigns, mp_grammar::specs::Productions::model, mp_grammar::specs::Productions::notes, mp_grammar::specs::Productions::noted))]
    fn begins(tokens: Rest) -> bool
        ensures begun { result ≡ meets (first (statement (expression 500))) (toks tokens.now) }
        ensures full { empty (statement (expression 500)) ≡ false }
    {
        let Some((t, _)) = tokens.split_first() else {
            return false;
        };
        match t.terminal() {
            Terminal::Var
            | Terminal::Varexo
            | Terminal::Parameters
            | Terminal::Name
            | Terminal::Model
            | Terminal::Check
            | Terminal::Resid
            | Terminal::Rplot
            | Terminal::ModelDiagnostics
            | Terminal::OccbinSetup
            | Terminal::OccbinSolver => true,
            _ => false,
        }
    }

    fn next<'a>(
        alloc: Global,
        tokens: Rest<'a, 't>,
    ) -> Result<(Statement<'t>, Rest<'a, 't>), Wrong<'a, 't>>
        ensures value { Gives (λ x. (statement_of x.0, toks x.1.now)) result (read (statement (expression 500)) (toks tokens.now)) }
        ensures fewer { IfOk result (λ x. length x.1.now < length tokens.now) }
    {
        statement_of(alloc, tokens)
    }
}

/// All statements that follow.
pub fn statements_of<'a, 't>(
    alloc: Global,
    tokens: Rest<'a, 't>,
) -> Result<(Items<Statement<'t>>, Rest<'a, 't>), Wrong<'a, 't>>
    ensures value { Gives (λ x. (map statement_of x.0, toks x.1.now)) result (read (many (statement (expression 500))) (toks tokens.now)) }
    ensures fewer { IfOk result (λ x. length x.1.now ≤ length tokens.now) }
{
    all_of::<StatementHere>(alloc, tokens)
}
