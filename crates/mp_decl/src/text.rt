// What a text declares.
ghost use Rattle.std.specs.Prelude.{◌≡◌, None, Ok, map, IfOk, IfErr};
ghost use Rattle.mp_tokens.specs.Literals.{far_literal, is_far, is_number};
ghost use Rattle.mp_statements.specs.Parts.{items_of};
ghost use Rattle.mp_lex.specs.Shown.{tok_of};
ghost use Rattle.mp_file.specs.Shown.{statement_of, file_of};
ghost use Rattle.mp_values.specs.Names.{names_of};
ghost use Rattle.mp_values.specs.Exponents.{all_exponents};
ghost use Rattle.mp_values.specs.Table.{unset};
ghost use Rattle.mp_declared.specs.Declared.{declared_fault};
ghost use Rattle.mp_fold.specs.Shown.{stuck_of};
ghost use Rattle.mp_decl.specs.Given.{whole_told, values_told, declared_given, refusal, Tells};
ghost use Rattle.mp_decl.specs.Exponents.{Collects};

use crate::fault::DeclFault;
use crate::file::declared_names;
use crate::known::wrong;
use mp_base::{DataKind, DataRefusal, DeclKind, Reduced};
use mp_file::{File, Named, Statement};
use mp_fold::{Exponent, ExponentFault, FoldFault, add_exponents, assign_values, lowest_terms};
use mp_lex::{Token, Tokens};
use mp_literal::decimal;
use mp_names::{Names, Table};
use mp_tokens::TokenKind;
use std::alloc::Global;

/// The names that a text declares, its parameters with their values, and the exponents of its locals and equations in
/// text order.
#[derive(Drop)]
pub struct Declared<'t> {
    pub names: Names<'t>,
    pub values: Table<'t>,
    pub exponents: Vec<Exponent>,
}

/// What a text declares, by its tokens, its file and its length in bytes, or its first refusal: the first fault in
/// declaring (see `declared_names`); the first number that is out of range, as Literal with 0 and 37; the first
/// assignment, in text order, whose expression has no value; the first exponent of a local or an equation that is no
/// whole number from -16 to 16. A later assignment of a parameter replaces an earlier one (Dynare manual, "Parameter
/// initialization"; the limits and the order are modpath's own).
pub fn declare<'t>(
    alloc: Global,
    tokens: &Tokens<'t>,
    file: &File<'t>,
    end: u32,
) -> Result<Declared<'t>, DeclFault>
    ensures values { IfOk result (λ d. declared_given end tokens.now (file_of file.now) ≡ Ok d.values) }
    ensures names { IfOk result (λ d. d.names ≡ names_of (file_of file.now)) }
    ensures exponents { IfOk result (λ d. all_exponents d.values (items_of (file_of file.now)) ≡ Ok d.exponents.items) }
    ensures without_fault { IfOk result (λ d. declared_fault end (file_of file.now) ≡ None) }
    ensures refused { IfErr result (λ e. Tells e (declared_given end tokens.now (file_of file.now))) }
{
    let names = match declared_names(alloc, file, end) {
        Ok(names) => names,
        Err(fault) => return Err(fault),
    };
    match far_literal(tokens) {
        None => valued(alloc, names, file.statements.as_slice(), end),
        Some(at) => {
            drop(names);
            Err(literal_fault(at))
        }
    }
}

// The place of the first number that is out of range.
fn far_literal(tokens: &Tokens) -> Option<u32>
    ensures { result ≡ far_literal tokens.now }
{
    'turns: for token in tokens.as_slice() {
        if is_far(token) {
            return Some(token.at);
        }
    }
    None
}

// Whether the token is a number that is out of range.
fn is_far(token: &Token) -> bool
    ensures { result ≡ is_far (tok_of token.now) }
{
    is_number(token.kind) && decimal(token.text).is_none()
}

fn is_number(kind: TokenKind) -> bool
    ensures { result ≡ is_number kind }
{
    kind == TokenKind::Whole || kind == TokenKind::Number
}

// The refusal of a number at this place.
fn literal_fault(at: u32) -> DeclFault
    ensures { result ≡ DeclFault.Data (record { kind = DataKind.Literal; at = at; first = whole_told 0; second = whole_told 37 }) }
{
    DeclFault::Data(DataRefusal {
        kind: DataKind::Literal,
        at,
        first: Reduced::whole(0),
        second: Reduced::whole(37),
    })
}

// These names, the parameters with their values, and the exponents of the model.
fn valued<'t>(
    alloc: Global,
    names: Names<'t>,
    statements: &[Statement<'t>],
    end: u32,
) -> Result<Declared<'t>, DeclFault>
    requires { names.parameters ≡ (names_of (map statement_of statements.now)).parameters }
    ensures names { IfOk result (λ d. d.names ≡ names.entry) }
    ensures given { IfOk result (λ d. values_told end (map statement_of statements.now) ≡ Ok d.values) }
    ensures exponents { IfOk result (λ d. all_exponents d.values (items_of (map statement_of statements.now)) ≡ Ok d.exponents.items) }
    ensures refused { IfErr result (λ e. Tells e (values_told end (map statement_of statements.now))) }
{
    match values_of(alloc, &names, statements, end) {
        Ok((values, exponents)) => Ok(Declared {
            names,
            values,
            exponents,
        }),
        Err(fault) => {
            drop(names);
            Err(fault)
        }
    }
}

// The parameters of these names with their values, and the exponents of the model.
fn values_of<'t>(
    alloc: Global,
    names: &Names<'t>,
    statements: &[Statement<'t>],
    end: u32,
) -> Result<(Table<'t>, Vec<Exponent>), DeclFault>
    requires { names.now.parameters ≡ (names_of (map statement_of statements.now)).parameters }
    ensures given { IfOk result (λ x. values_told end (map statement_of statements.now) ≡ Ok x.0) }
    ensures exponents { IfOk result (λ x. all_exponents x.0 (items_of (map statement_of statements.now)) ≡ Ok x.1.items) }
    ensures refused { IfErr result (λ e. Tells e (values_told end (map statement_of statements.now))) }
{
    let mut values = Table::of_parameters(alloc, names)?;
    match assign(alloc, &mut values, statements, end) {
        Ok(exponents) => Ok((values, exponents)),
        Err(fault) => {
            drop(values);
            Err(fault)
        }
    }
}

// Gives the parameters, none of which has a value yet, their values, and tells the exponents of the model.
fn assign<'t>(
    alloc: Global,
    values: &mut Table<'t>,
    statements: &[Statement<'t>],
    end: u32,
) -> Result<Vec<Exponent>, DeclFault>
    requires { values.old ≡ unset (names_of (map statement_of statements.now)).parameters }
    ensures given { IfOk result (λ _. values_told end (map statement_of statements.now) ≡ Ok values.new) }
    ensures exponents { IfOk result (λ found. all_exponents values.new (items_of (map statement_of statements.now)) ≡ Ok found.items) }
    ensures refused { IfErr result (λ e. Tells e (values_told end (map statement_of statements.now))) }
{
    if let Err(fault) = assign_values(values, statements) {
        return Err(told(fault, end));
    }
    match exponents(alloc, values, statements) {
        Ok(exponents) => Ok(exponents),
        Err(ExponentFault::Refused(fault)) => Err(told(fault, end)),
        Err(ExponentFault::NoMemory) => Err(DeclFault::NoMemory),
    }
}

// The exponents of the model in text order.
fn exponents<'t>(
    alloc: Global,
    table: &Table<'t>,
    statements: &[Statement<'t>],
) -> Result<Vec<Exponent>, ExponentFault<'t>>
    ensures { Collects (λ v. v.items) result (all_exponents table.now (items_of (map statement_of statements.now))) }
{
    let mut found = Vec::new(alloc);
    'turns: for statement in statements {
        if let Err(fault) = add_exponents(table, statement.items(), &mut found) {
            return Err(fault);
        }
    }
    Ok(found)
}

// Why there is no value, with the end of the text as the place of a name.
fn told(fault: FoldFault, end: u32) -> DeclFault
    ensures told { Tells result (refusal end (stuck_of fault.entry)) }
{
    match fault {
        FoldFault::Unvalued { name } => {
            let name = name.bytes();
            wrong(DeclKind::NoValue, &Named { name, at: end })
        }
        FoldFault::Refused(refused) => {
            lowest_terms(&refused);
            DeclFault::Data(refused)
        }
    }
}
