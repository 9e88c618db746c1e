// The nodes that stand in one node.
ghost use Rattle.std.specs.Prelude.{◌≡◌, ◌<◌, ℕ, List, length, slice_index, IfOk, OnOk};
ghost use Rattle.mp_semantics.specs.Term.{Term};
ghost use Rattle.mp_graph.specs.Part.{IsIn};
ghost use Rattle.mp_graph.specs.Shared.{Keeps, Shared, term_at};
ghost use Rattle.mp_graph.specs.Own.{AreOwn, AreFalling, AddsEach};

use crate::graph::Graph;
use crate::node_id::NodeId;
use mp_base::NoMemory;
use std::alloc::Global;
use std::collections::BTreeSet;

impl<'t> Graph<'t> {
    /// The numbers of the nodes that stand in this one, itself among them, rising. It costs those nodes, and not all
    /// of the graph.
    pub fn own_nodes(&self, alloc: Global, root: NodeId) -> Result<Vec<NodeId>, NoMemory>
        requires { root < length self.now.terms }
        ensures { IfOk result (λ ids. AreOwn self.now.terms root ids.items) }
    {
        let mut ids = self.falling_nodes(alloc, root)?;
        ids.reverse();
        Ok(ids)
    }

    // The same, falling.
    fn falling_nodes(&self, alloc: Global, root: NodeId) -> Result<Vec<NodeId>, NoMemory>
        requires { root < length self.now.terms }
        ensures { IfOk result (λ ids. AreFalling self.now.terms root ids.items) }
    {
        let mut pending = BTreeSet::new(alloc);
        let mut ids = Vec::new(alloc);
        let Ok(_) = pending.insert(root.index()) else {
            return Err(NoMemory);
        };
        'turns: while let Some(last) = pending.pop_last() {
            let id = NodeId::of(last);
            add_each(&mut pending, self.node(id).kids)?;
            let Ok(()) = ids.push(id) else {
                return Err(NoMemory);
            };
        }
        Ok(ids)
    }
}

/// Own nodes are all that stands in a node, and stay its own while the graph grows.
pub fn own_laws()
    ensures all { (ts : List Term) (root : ℕ) (ids : List ℕ) → AreOwn ts root ids → (t : Term) → IsIn t (term_at ts root) → (k : ℕ) × (k < length ids) × (term_at ts (slice_index ids k) ≡ t) }
    ensures kept { (old new : Shared) (root : ℕ) (ids : List ℕ) → root < length old.terms → Keeps old new → AreOwn old.terms root ids → AreOwn new.terms root ids }
{}

// Adds these numbers.
pub(crate) fn add_each(pending: &mut BTreeSet<usize>, kids: &[NodeId]) -> Result<(), NoMemory>
    ensures { OnOk result (AddsEach kids.now pending.old.keys pending.new.keys) }
{
    'kids: for kid in kids {
        let Ok(_) = pending.insert(kid.index()) else {
            return Err(NoMemory);
        };
    }
    Ok(())
}
