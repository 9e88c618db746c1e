// The text of a model.
ghost use Rattle.std.specs.Prelude.{◌≡◌, [], ◌∷◌, ◌++◌, map, option_map, OnOk, IfOk};
ghost use Rattle.std.specs.List.{flat_map, AllByRecursion};
ghost use Rattle.mp_model_data.specs.Shown.{IsWithin, parameter_of, sides_of, equation_in, model_data};
ghost use Rattle.mp_canonical.specs.Files.{quote_of, tags_part, names_part, value_part, equation_part, equations_part, canonical_text};
ghost use Rattle.mp_canonical.specs.Means.{MeansModel};
ghost use Rattle.mp_canonical.specs.Printable.{stands_in, IsPrintable};
ghost use Rattle.mp_canonical.specs.Spelled.{item_text, kind_word, tags_text, name_text, statement_text, lines_of};

use crate::node::put_node;
use crate::number::put_fraction;
use mp_base::{Bytes, NoMemory};
use mp_graph::Graph;
use mp_model_data::{Equation, Model, Parameter};
use mp_names::NameList;
use mp_statements::NameKind;
use std::alloc::Global;

/// The canonical text of a model: its names, the values of its parameters, and its equations, each part where it has
/// content and each equation on a line of its own, after the tag of its name if it has one. The text of a model that
/// needs no more than the 500 parentheses that may be open at once, and that a text can write, reads back as one file,
/// which means this model. The layout is modpath's own.
pub fn print_model(alloc: Global, model: &Model) -> Result<Bytes, NoMemory>
    ensures text { IfOk result (λ text. text ≡ canonical_text (model_data model.now)) }
    ensures reads { IfOk result (λ text. IsPrintable 500 (model_data model.now) → MeansModel text (model_data model.now)) }
{
    mp_canonical::canonical_law();
    let graph = model.graph();
    let names = graph.names();
    let mut out = Bytes::new(alloc);
    put_names(
        &mut out,
        NameKind::Endogenous,
        names.of_kind(NameKind::Endogenous),
    )?;
    put_names(
        &mut out,
        NameKind::Exogenous,
        names.of_kind(NameKind::Exogenous),
    )?;
    put_names(
        &mut out,
        NameKind::Parameter,
        names.of_kind(NameKind::Parameter),
    )?;
    put_values(&mut out, model.parameters())?;
    put_equations(&mut out, graph, model.equations())?;
    Ok(out)
}

// The line that declares these names, if there are any.
fn put_names(out: &mut Bytes, kind: NameKind, names: &NameList) -> Result<(), NoMemory>
    ensures { OnOk result (out.new ≡ out.old ++ lines_of (names_part kind names.now)) }
{
    let names = names.as_slice();
    if names.is_empty() {
        return Ok(());
    }
    put_kind(out, kind)?;
    put_each(out, names)?;
    out.add(b";\n")
}

// The word that begins a declaration.
fn put_kind(out: &mut Bytes, kind: NameKind) -> Result<(), NoMemory>
    ensures { OnOk result (out.new ≡ out.old ++ kind_word kind) }
{
    match kind {
        NameKind::Endogenous => out.add(b"var"),
        NameKind::Exogenous => out.add(b"varexo"),
        NameKind::Parameter => out.add(b"parameters"),
    }
}

fn put_each(out: &mut Bytes, names: &[&[u8]]) -> Result<(), NoMemory>
    ensures { OnOk result (out.new ≡ out.old ++ flat_map name_text (map (λ n. n.now) names.now)) }
{
    'turns: for name in names {
        out.add(b" ")?;
        out.add(name)?;
    }
    Ok(())
}

// The lines that give the parameters their values.
fn put_values(out: &mut Bytes, parameters: &[Parameter]) -> Result<(), NoMemory>
    ensures { OnOk result (out.new ≡ out.old ++ lines_of (map value_part (map parameter_of parameters.now))) }
{
    'turns: for parameter in parameters {
        put_value(out, parameter)?;
    }
    Ok(())
}

fn put_value(out: &mut Bytes, parameter: &Parameter) -> Result<(), NoMemory>
    ensures { OnOk result (out.new ≡ out.old ++ statement_text (value_part (parameter_of parameter.now))) }
{
    out.add(parameter.name)?;
    out.add(b" = ")?;
    put_fraction(out, &parameter.value)?;
    out.add(b";\n")
}

// The model block, if there are equations.
fn put_equations(out: &mut Bytes, graph: &Graph, equations: &[Equation]) -> Result<(), NoMemory>
    requires { AllByRecursion (IsWithin graph.now) (map sides_of equations.now) }
    ensures { OnOk result (out.new ≡ out.old ++ lines_of (equations_part graph.now.names (map (equation_in graph.now.terms) (map sides_of equations.now)))) }
{
    if equations.is_empty() {
        return Ok(());
    }
    out.add(b"model;\n")?;
    put_each_equation(out, graph, equations)?;
    out.add(b"end;\n")
}

fn put_each_equation(out: &mut Bytes, graph: &Graph, equations: &[Equation]) -> Result<(), NoMemory>
    requires { AllByRecursion (IsWithin graph.now) (map sides_of equations.now) }
    ensures { OnOk result (out.new ≡ out.old ++ flat_map item_text (map (equation_part graph.now.names) (map (equation_in graph.now.terms) (map sides_of equations.now)))) }
{
    'turns: for equation in equations {
        put_equation(out, graph, equation)?;
    }
    Ok(())
}

// The line of an equation, with the tag of its name before it, if it has one.
fn put_equation(out: &mut Bytes, graph: &Graph, equation: &Equation) -> Result<(), NoMemory>
    requires { IsWithin graph.now (sides_of equation.now) }
    ensures { OnOk result (out.new ≡ out.old ++ item_text (equation_part graph.now.names (equation_in graph.now.terms (sides_of equation.now)))) }
{
    put_tag(out, equation.name)?;
    put_node(out, graph, equation.left)?;
    out.add(b" = ")?;
    put_node(out, graph, equation.right)?;
    out.add(b";\n")
}

fn put_tag(out: &mut Bytes, name: Option<&[u8]>) -> Result<(), NoMemory>
    ensures { OnOk result (out.new ≡ out.old ++ tags_text (tags_part (option_map (λ n. n.now) name.entry))) }
{
    let Some(name) = name else {
        return Ok(());
    };
    let quote = quote_of(name);
    out.add(b"[name=")?;
    out.add(quote)?;
    out.add(name)?;
    out.add(quote)?;
    out.add(b"] ")
}

// A double quote, where the name does not stand between single ones.
fn quote_of(name: &[u8]) -> &'static [u8]
    ensures { result.now ≡ quote_of name.now ∷ [] }
{
    if stands_in_single(name) { b"'" } else { b"\"" }
}

fn stands_in_single(name: &[u8]) -> bool
    ensures { result ≡ stands_in 39 name.now }
{
    name.iter().all(|b| *b != b'\'' && *b != b'\n')
}
