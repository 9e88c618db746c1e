// Local variables.
ghost use Rattle.std.specs.Prelude.{◌≡◌, ℕ, List, [], Some, if◌then◌else◌, OnOk};
ghost use Rattle.std.specs.Str.{bytes_eq};
ghost use Rattle.mp_trees.specs.Locals.{node_in};

use indexmap::IndexMap;
use mp_base::NoMemory;
use mp_graph::NodeId;
use std::alloc::Global;
use std::marker::Model;

/// Local variables, each with the node of its expression (Dynare manual, "The model block"). A local is found by hash.
#[derive(Drop)]
pub struct Locals<'t> {
    nodes: IndexMap<&'t [u8], NodeId>,
}

impl<'t> Model for Locals<'t> {
    ghost use Rattle.std.specs.Prelude.{ℕ, List, map};

    ghost Value = { List (List ℕ × ℕ) };

    ghost view = { λ l. map (λ e. (e.0.now, e.1)) l.nodes.entries };
}

impl<'t> Locals<'t> {
    /// No locals. They grow in this allocator.
    pub fn new(alloc: Global) -> Locals<'t>
        ensures { result ≡ [] }
    {
        Locals {
            nodes: IndexMap::new(alloc),
        }
    }

    /// From now on the name stands for this node.
    pub fn add(&mut self, name: &'t [u8], node: NodeId) -> Result<(), NoMemory>
        ensures { OnOk result ((n : List ℕ) → node_in self.new n ≡ (if bytes_eq n name.now then Some node else node_in self.old n)) }
    {
        let Ok(_) = self.nodes.insert(name, node) else {
            return Err(NoMemory);
        };
        Ok(())
    }

    /// The node of the local variable of this name, if there is one.
    pub fn find(&self, name: &[u8]) -> Option<NodeId>
        ensures { result ≡ node_in self.now name.now }
    {
        match self.nodes.get(&name) {
            Some(node) => Some(*node),
            None => None,
        }
    }
}
