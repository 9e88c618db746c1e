// A model, seen as its graph, parameters and equations.
ghost use Rattle.std.specs.Prelude.{◌≡◌, ◌≤◌, length, map};
ghost use Rattle.std.specs.List.{AllByRecursion};
ghost use Rattle.mp_solutions.specs.Laws.{IsClosed};
ghost use Rattle.mp_model_data.specs.Shown.{parameter_of, sides_of, model_data, IsWithin};

use crate::parts::{Equation, Parameter, Parts};
use mp_graph::Graph;
use mp_statements::NameKind;

/// A model: a graph with the names of its variables and parameters, its parameters with their values, and its
/// equations, whose sides are nodes of the graph, each in order. A transformed model also has the equations of its
/// source, whose endogenous variables come first; a model that was not transformed is its own source.
#[derive(Drop)]
pub struct Model<'t> {
    graph: Graph<'t>,
    parameters: Vec<Parameter<'t>>,
    equations: Vec<Equation<'t>>,
    source: Option<Vec<Equation<'t>>>,
    variables: u32,
}

impl<'t> std::marker::Model for Model<'t> {
    ghost use Rattle.std.specs.Prelude.{map, option_map, unwrap_or};
    ghost use Rattle.mp_model_data.specs.Shown.{Held, held_code, parameter_of, sides_of, IsWhole};

    ghost Value = { Held };

    ghost coded = { held_code };

    ghost view = { λ m. record { graph = m.graph; parameters = map parameter_of m.parameters.items; equations = map sides_of m.equations.items; source = map sides_of (unwrap_or (option_map (λ v. v.items) m.source) m.equations.items); variables = m.variables } };

    ghost invariant = { λ m. IsWhole (record { graph = m.graph; parameters = map parameter_of m.parameters.items; equations = map sides_of m.equations.items; source = map sides_of (unwrap_or (option_map (λ v. v.items) m.source) m.equations.items); variables = m.variables }) };
}

impl<'t> Model<'t> {
    /// The model of these parameters, which the graph names, and of these equations, which stand in it.
    pub fn new(
        graph: Graph<'t>,
        parameters: Vec<Parameter<'t>>,
        equations: Vec<Equation<'t>>,
    ) -> Model<'t>
        requires named { map (λ p. p.name) (map parameter_of parameters.items) ≡ graph.names.parameters }
        requires within { AllByRecursion (IsWithin graph) (map sides_of equations.items) }
        ensures { result ≡ record { graph = graph.entry; parameters = map parameter_of parameters.entry.items; equations = map sides_of equations.entry.items; source = map sides_of equations.entry.items; variables = length graph.entry.names.endogenous } }
    {
        let variables = graph.names().count(NameKind::Endogenous);
        Model {
            graph,
            parameters,
            equations,
            source: None,
            variables,
        }
    }

    /// The model of these equations that was made from a source with those ones and the first so many endogenous
    /// variables.
    pub fn with_source(
        graph: Graph<'t>,
        parameters: Vec<Parameter<'t>>,
        equations: Vec<Equation<'t>>,
        source: Vec<Equation<'t>>,
        variables: u32,
    ) -> Model<'t>
        requires named { map (λ p. p.name) (map parameter_of parameters.items) ≡ graph.names.parameters }
        requires within { AllByRecursion (IsWithin graph) (map sides_of equations.items) }
        requires source_within { AllByRecursion (IsWithin graph) (map sides_of source.items) }
        requires few { variables ≤ length graph.names.endogenous }
        ensures { result ≡ record { graph = graph.entry; parameters = map parameter_of parameters.entry.items; equations = map sides_of equations.entry.items; source = map sides_of source.entry.items; variables = variables } }
    {
        Model {
            graph,
            parameters,
            equations,
            source: Some(source),
            variables,
        }
    }

    /// The model taken apart.
    pub fn into_parts(self) -> Parts<'t>
        ensures graph { result.graph ≡ self.entry.graph }
        ensures parameters { map parameter_of result.parameters.items ≡ self.entry.parameters }
        ensures equations { map sides_of result.equations.items ≡ self.entry.equations }
        ensures named { map (λ p. p.name) self.entry.parameters ≡ self.entry.graph.names.parameters }
        ensures within { AllByRecursion (IsWithin self.entry.graph) self.entry.equations }
    {
        let Model {
            graph,
            parameters,
            equations,
            source: _,
            variables: _,
        } = self;
        Parts {
            graph,
            parameters,
            equations,
        }
    }

    /// The graph, lent. It names the parameters in the order in which they have their values.
    pub fn graph(&self) -> &Graph<'t>
        ensures graph { result.now ≡ self.now.graph }
        ensures named { map (λ p. p.name) self.now.parameters ≡ self.now.graph.names.parameters }
    {
        &self.graph
    }

    /// The parameters, lent.
    pub fn parameters(&self) -> &[Parameter<'t>]
        ensures { map parameter_of result.now ≡ self.now.parameters }
    {
        self.parameters.as_slice()
    }

    /// The equations, lent, each side by its number in the graph.
    pub fn equations(&self) -> &[Equation<'t>]
        ensures equations { map sides_of result.now ≡ self.now.equations }
        ensures within { AllByRecursion (IsWithin self.now.graph) self.now.equations }
    {
        self.equations.as_slice()
    }

    /// The equations of the source, lent, each side by its number in the graph.
    pub fn source_equations(&self) -> &[Equation<'t>]
        ensures equations { map sides_of result.now ≡ self.now.source }
        ensures within { AllByRecursion (IsWithin self.now.graph) self.now.source }
    {
        match &self.source {
            None => self.equations.as_slice(),
            Some(source) => source.as_slice(),
        }
    }

    /// How many endogenous variables the source has. They are the first that the graph names.
    pub fn source_variables(&self) -> u32
        ensures count { result ≡ self.now.variables }
        ensures few { self.now.variables ≤ length self.now.graph.names.endogenous }
    {
        self.variables
    }

    /// The equations read variables that the model has, and no others.
    pub fn closed(&self)
        ensures { IsClosed (model_data self.now) }
    {
        self.graph.whole();
        self.graph.readable();
    }
}
