// The parts of a model.

use mp_frac::Frac;
use mp_graph::{Graph, NodeId};

/// An equation: its name, if it has one, and its two sides, nodes of a graph.
#[derive(Clone, Copy)]
pub struct Equation<'t> {
    pub name: Option<&'t [u8]>,
    pub left: NodeId,
    pub right: NodeId,
}

/// A parameter with its value.
#[derive(Clone, Copy, Debug)]
pub struct Parameter<'t> {
    pub name: &'t [u8],
    pub value: Frac,
}

/// A model taken apart, without its source.
#[derive(Drop)]
pub struct Parts<'t> {
    pub graph: Graph<'t>,
    pub parameters: Vec<Parameter<'t>>,
    pub equations: Vec<Equation<'t>>,
}
