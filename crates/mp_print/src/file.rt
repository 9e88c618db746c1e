// The bytes of a file.
ghost use Rattle.std.specs.Prelude.{◌≡◌, ◌++◌, map, OnOk, IfOk, option_map};
ghost use Rattle.std.specs.List.{flat_map};
ghost use Rattle.mp_statements.specs.declared.kind.NameKind.TheVariants as kind;
ghost use Rattle.mp_statements.specs.Statements as s;
ghost use Rattle.mp_grammar.specs.Statements.{IsFile};
ghost use Rattle.mp_grammar.specs.Grammar.{file_text, ReadsBack};
ghost use Rattle.mp_file.specs.Shown.{named_of, choice_of, equation_of, item_of, expr_of, statement_of, file_of};
ghost use Rattle.mp_canonical.specs.Spelled.{kind_word, command_word, right_text, item_text, statement_text, lines_of};
ghost use Rattle.mp_print.specs.Parts.{named_text};

use crate::expression::put_expression;
use crate::listed::{put_choices, put_tags};
use mp_base::{Bytes, NoMemory};
use mp_file::{Choice, Equation, Expression, File, Item, Named, Statement};
use mp_statements::{Command, NameKind};
use std::alloc::Global;

/// The text of a file as it was read: each statement and each item of a model on a line of its own, expressions without
/// blanks, names, numbers, texts and parentheses as written, and a shift with its sign. What a file does not keep, as
/// the TeX names of its variables, is not printed. It reads back to the same file. The layout is modpath's own.
pub fn print(alloc: Global, file: &File) -> Result<Bytes, NoMemory>
    ensures spelled { IfOk result (λ text. text ≡ file_text (file_of file.now)) }
    ensures back { IfOk result (λ text. IsFile (file_of file.now) → ReadsBack text (file_of file.now)) }
{
    mp_grammar::back_law();
    put_file(alloc, file)
}

fn put_file(alloc: Global, file: &File) -> Result<Bytes, NoMemory>
    ensures { IfOk result (λ text. text ≡ file_text (file_of file.now)) }
{
    let mut out = Bytes::new(alloc);
    put_statements(&mut out, file.statements.as_slice())?;
    Ok(out)
}

fn put_statements(out: &mut Bytes, statements: &[Statement]) -> Result<(), NoMemory>
    ensures { OnOk result (out.new ≡ out.old ++ lines_of (map statement_of statements.now)) }
{
    'turns: for statement in statements {
        put_statement(out, statement)?;
    }
    Ok(())
}

fn put_statement(out: &mut Bytes, statement: &Statement) -> Result<(), NoMemory>
    ensures { OnOk result (out.new ≡ out.old ++ statement_text (statement_of statement.now)) }
{
    match statement {
        Statement::Declares { kind, names } => put_declares(out, *kind, names.as_slice()),
        Statement::Assigns { name, value } => put_assigns(out, name, value),
        Statement::Model { at, choices, items } => {
            put_model(out, *at, choices.as_slice(), items.as_slice())
        }
        Statement::Notes { command, names } => put_notes(out, *command, names.as_slice()),
    }
}

// The line of a declaration. One of nothing, which no text has, keeps the blank of a name.
fn put_declares(out: &mut Bytes, kind: NameKind, names: &[Named]) -> Result<(), NoMemory>
    ensures { OnOk result (out.new ≡ out.old ++ statement_text (s.Declares kind (map named_of names.now))) }
{
    put_kind(out, kind)?;
    if names.is_empty() {
        return out.add(b" ;\n");
    }
    put_names(out, names)?;
    out.add(b";\n")
}

// The word that begins a declaration.
fn put_kind(out: &mut Bytes, kind: NameKind) -> Result<(), NoMemory>
    ensures { OnOk result (out.new ≡ out.old ++ kind_word kind) }
{
    match kind {
        NameKind::Endogenous => out.add(b"var"),
        NameKind::Exogenous => out.add(b"varexo"),
        NameKind::Parameter => out.add(b"parameters"),
    }
}

fn put_names(out: &mut Bytes, names: &[Named]) -> Result<(), NoMemory>
    ensures { OnOk result (out.new ≡ out.old ++ flat_map named_text (map named_of names.now)) }
{
    'turns: for name in names {
        out.add(b" ")?;
        out.add(name.name)?;
    }
    Ok(())
}

// The line that gives a parameter its value.
fn put_assigns(out: &mut Bytes, name: &Named, value: &Expression) -> Result<(), NoMemory>
    ensures { OnOk result (out.new ≡ out.old ++ statement_text (s.Assigns (named_of name.now) (expr_of value.now))) }
{
    out.add(name.name)?;
    out.add(b" = ")?;
    put_expression(out, value)?;
    out.add(b";\n")
}

// A model block, which begins at this place.
fn put_model(out: &mut Bytes, at: u32, choices: &[Choice], items: &[Item]) -> Result<(), NoMemory>
    ensures { OnOk result (out.new ≡ out.old ++ statement_text (s.Model at (map choice_of choices.now) (map item_of items.now))) }
{
    out.add(b"model")?;
    put_choices(out, choices)?;
    out.add(b";\n")?;
    put_items(out, items)?;
    out.add(b"end;\n")
}

fn put_items(out: &mut Bytes, items: &[Item]) -> Result<(), NoMemory>
    ensures { OnOk result (out.new ≡ out.old ++ flat_map item_text (map item_of items.now)) }
{
    'turns: for item in items {
        put_item(out, item)?;
    }
    Ok(())
}

fn put_item(out: &mut Bytes, item: &Item) -> Result<(), NoMemory>
    ensures { OnOk result (out.new ≡ out.old ++ item_text (item_of item.now)) }
{
    match item {
        Item::Local { name, value } => put_local(out, name, value),
        Item::Equates { equation } => put_equation(out, equation),
    }
}

// The line of a local variable.
fn put_local(out: &mut Bytes, name: &Named, value: &Expression) -> Result<(), NoMemory>
    ensures { OnOk result (out.new ≡ out.old ++ item_text (s.Local (named_of name.now) (expr_of value.now))) }
{
    out.add(b"# ")?;
    out.add(name.name)?;
    out.add(b" = ")?;
    put_expression(out, value)?;
    out.add(b";\n")
}

// The line of an equation.
fn put_equation(out: &mut Bytes, equation: &Equation) -> Result<(), NoMemory>
    ensures { OnOk result (out.new ≡ out.old ++ item_text (s.Equates (equation_of equation.now))) }
{
    put_tags(out, equation.tags.as_slice())?;
    put_expression(out, &equation.left)?;
    put_right(out, &equation.right)?;
    out.add(b";\n")
}

// The line of a noted command.
fn put_notes(out: &mut Bytes, command: Command, names: &[Named]) -> Result<(), NoMemory>
    ensures { OnOk result (out.new ≡ out.old ++ statement_text (s.Notes command (map named_of names.now))) }
{
    put_command(out, command)?;
    put_names(out, names)?;
    out.add(b";\n")
}

// The word of a noted command.
fn put_command(out: &mut Bytes, command: Command) -> Result<(), NoMemory>
    ensures { OnOk result (out.new ≡ out.old ++ command_word command) }
{
    match command {
        Command::Check => out.add(b"check"),
        Command::Resid => out.add(b"resid"),
        Command::Rplot => out.add(b"rplot"),
        Command::ModelDiagnostics => out.add(b"model_diagnostics"),
        Command::OccbinSetup => out.add(b"occbin_setup"),
        Command::OccbinSolver => out.add(b"occbin_solver"),
    }
}

// A right side that is written.
fn put_right(out: &mut Bytes, right: &Option<Expression>) -> Result<(), NoMemory>
    ensures { OnOk result (out.new ≡ out.old ++ right_text (option_map expr_of right.now)) }
{
    let Some(expression) = right else {
        return Ok(());
    };
    out.add(b" = ")?;
    put_expression(out, expression)
}
