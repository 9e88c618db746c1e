// The graph.
ghost use Rattle.std.specs.Prelude.{◌≡◌, ◌<◌, [], length, slice_index, EachIndex, IfOk, OnOk, OnErr};
ghost use Rattle.std.specs.List.{AllByRecursion};
ghost use Rattle.mp_graph.specs.Op.{arity, IsLawful, over};
ghost use Rattle.mp_names.specs.Naming.{IsNamed, name_of};
ghost use Rattle.mp_graph.specs.Part.{HasParts};
ghost use Rattle.mp_graph.specs.Shared.{term_at, Says, Keeps, GrowsBy, IsEachOnce};

use crate::kids::Kids;
use crate::node_id::NodeId;
use crate::op::NodeOp;
use indexmap::IndexSet;
use mp_base::NoMemory;
use mp_names::{NameId, Names};
use std::alloc::Global;
use std::marker::Model;

/// An operator over its kids.
#[derive(Clone, Copy, PartialEq, Eq, Hash)]
pub struct Node {
    pub op: NodeOp,
    pub kids: Kids,
}

/// A node that is lent.
#[derive(Clone, Copy)]
pub struct Ref<'g> {
    pub op: NodeOp,
    pub kids: &'g [NodeId],
}

/// Nodes, each once, over names. It is seen as the names and the list of the nodes' terms. The kids of a node stand
/// before it.
#[derive(Drop)]
pub struct Graph<'t> {
    pub(crate) names: Names<'t>,
    pub(crate) nodes: IndexSet<Node>,
}

impl<'t> Model for Graph<'t> {
    ghost use Rattle.mp_graph.specs.Shared.{Shared, shared_code};
    ghost use Rattle.mp_graph.specs.Nodes.{terms_of, IsSound};

    ghost Value = { Shared };

    ghost coded = { shared_code };

    ghost view = { λ g. record { names = g.names; terms = terms_of g.nodes.keys } };

    ghost invariant = { λ g. IsSound g.names g.nodes.keys };
}

impl<'t> Graph<'t> {
    /// No nodes over these names. They grow in this allocator.
    pub fn new(alloc: Global, names: Names<'t>) -> Graph<'t>
        ensures { result ≡ record { names = names.entry; terms = [] } }
    {
        Graph {
            names,
            nodes: IndexSet::new(alloc),
        }
    }

    /// The names.
    pub fn names(&self) -> &Names<'t>
        ensures { result.now ≡ self.now.names }
    {
        &self.names
    }

    /// The name of this number.
    pub fn name(&self, id: NameId) -> &'t [u8]
        requires { IsNamed self.now.names id }
        ensures { result.now ≡ name_of self.now.names id }
    {
        self.names.name(id)
    }

    /// How many nodes there are.
    pub fn nodes(&self) -> usize
        ensures { result ≡ length self.now.terms }
    {
        self.nodes.len()
    }

    /// The node of this number, lent.
    pub fn node(&self, id: NodeId) -> Ref<'_>
        requires { id < length self.now.terms }
        ensures term { term_at self.now.terms id ≡ over self.now.terms result.op result.kids.now }
        ensures count { length result.kids.now ≡ arity result.op }
        ensures below { EachIndex result.kids.now (λ j. slice_index result.kids.now j < id) }
        ensures lawful { IsLawful self.now.names result.op }
    {
        let node = &self.nodes[id.index()];
        Ref {
            op: node.op,
            kids: node.kids.as_slice(),
        }
    }

    /// The number of the node with this operator and these kids: its own if it is there, else a new last one.
    pub fn intern(&mut self, op: NodeOp, kids: &[NodeId]) -> Result<NodeId, NoMemory>
        requires below { AllByRecursion (λ k. k < length self.old.terms) kids.now }
        requires count { length kids.now ≡ arity op }
        requires lawful { IsLawful self.old.names op }
        ensures says { IfOk result (λ id. Says self.new id (over self.old.terms op kids.now)) }
        ensures grown { IfOk result (λ id. GrowsBy (over self.old.terms op kids.now) id self.old.terms self.new.terms) }
        ensures kept { OnOk result (Keeps self.old self.new) }
        ensures err { OnErr result (self.new ≡ self.old) }
    {
        let node = Node {
            op,
            kids: Kids::of(kids),
        };
        let Ok((index, _)) = self.nodes.insert_full(node) else {
            return Err(NoMemory);
        };
        Ok(NodeId::of(index))
    }

    /// Each term stands at one number: two numbers are equal exactly when their terms are.
    pub fn unique(&self)
        ensures { IsEachOnce self.now.terms }
    {
        let _ = self.nodes.len();
    }

    /// The operands of each term stand before it.
    pub fn whole(&self)
        ensures { HasParts self.now.terms }
    {
        let _ = self.nodes.len();
    }

    /// The same names, and the same nodes under the same numbers.
    pub fn copy(&self) -> Result<Graph<'t>, NoMemory>
        ensures { IfOk result (λ g. g ≡ self.now) }
    {
        let names = self.names.copy()?;
        match self.nodes.clone() {
            Ok(nodes) => Ok(Graph { names, nodes }),
            Err(_) => Err(NoMemory),
        }
    }
}
