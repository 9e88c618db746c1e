// Images of nodes that are remembered.
ghost use Rattle.std.specs.Prelude.{◌≡◌, ◌<◌, ◌≤◌, ℕ, [], false, length, slice_index_or, IfOk, OnOk};
ghost use Rattle.std.specs.List.{Contains};
ghost use Rattle.mp_semantics.specs.Term.{Term};
ghost use Rattle.mp_graph.specs.Shared.{term_at, Says, Keeps, Shared};
ghost use Rattle.mp_graph.specs.Images.{IsKnown, IsUnknown, IsKid, AreImages, AreOpen};
ghost use Rattle.mp_graph.specs.declared.images.Images as declared;

use crate::graph::Graph;
use crate::node_id::NodeId;
use crate::own::add_each;
use crate::rewrite::Rewrite;
use mp_base::NoMemory;
use std::alloc::Global;
use std::collections::BTreeSet;

/// What a rewriting has made of the nodes that it met so far: the numbers of their images.
#[derive(Drop)]
pub struct Images {
    table: Vec<NodeId>,
    known: Vec<bool>,
}

impl Images {
    /// No images yet. They stand in this allocator.
    pub fn new(alloc: Global) -> Images
        ensures { (g : Shared) (image : Term → Term) → AreImages g result image }
    {
        Images {
            table: Vec::new(alloc),
            known: Vec::new(alloc),
        }
    }

    /// The image of this node. Only nodes that were not met before are rewritten, so that all calls together cost each
    /// node once.
    pub fn image<W: Rewrite>(
        &mut self,
        alloc: Global,
        graph: &mut Graph<'_>,
        root: NodeId,
        rewrite: &W,
    ) -> Result<NodeId, NoMemory>
        requires within { root < length graph.old.terms }
        requires images { AreImages graph.old self.old (W.image rewrite.now) }
        requires takes { W.takes rewrite.now (term_at graph.old.terms root) }
        ensures says { IfOk result (λ r. Says graph.new r (W.image rewrite.now (term_at graph.old.terms root))) }
        ensures kept { Keeps graph.old graph.new }
        ensures images { AreImages graph.new self.new (W.image rewrite.now) }
    {
        self.make_room(graph.nodes())?;
        let mut open = self.open_nodes(alloc, graph, root)?;
        'turns: while let Some(id) = open.pop() {
            self.settle(graph, id, rewrite)?;
        }
        Ok(self.table[root.index()])
    }

    // Makes the table this long at least.
    fn make_room(&mut self, nodes: usize) -> Result<(), NoMemory>
        ensures table { (i : ℕ) → slice_index_or self.new.table.items i 0 ≡ slice_index_or self.old.table.items i 0 }
        ensures known { (i : ℕ) → slice_index_or self.new.known.items i false ≡ slice_index_or self.old.known.items i false }
        ensures longer { length self.old.table.items ≤ length self.new.table.items }
        ensures table_length { OnOk result (nodes ≤ length self.new.table.items) }
        ensures known_length { OnOk result (nodes ≤ length self.new.known.items) }
    {
        lengthen(&mut self.table, nodes, NodeId::of(0))?;
        lengthen(&mut self.known, nodes, false)
    }

    // The nodes that have to be known before this one is, the last ones first.
    fn open_nodes(
        &self,
        alloc: Global,
        graph: &Graph<'_>,
        root: NodeId,
    ) -> Result<Vec<NodeId>, NoMemory>
        requires { root < length graph.now.terms }
        ensures { IfOk result (λ ids. AreOpen graph.now.terms self.now.known.items root ids.items) }
    {
        let mut pending = BTreeSet::new(alloc);
        let mut ids = Vec::new(alloc);
        let Ok(_) = pending.insert(root.index()) else {
            return Err(NoMemory);
        };
        'turns: while let Some(last) = pending.pop_last() {
            let id = NodeId::of(last);
            add_each(&mut pending, self.open_kids(graph, id))?;
            let Ok(()) = ids.push(id) else {
                return Err(NoMemory);
            };
        }
        Ok(ids)
    }

    // The kids of a node that is not known; none of one that is.
    fn open_kids<'g>(&self, graph: &'g Graph<'_>, id: NodeId) -> &'g [NodeId]
        requires { id < length graph.now.terms }
        ensures each { IsUnknown self.now.known.items id → (i : ℕ) → IsKid graph.now.terms i id → Contains result.now i }
        ensures only { (i : ℕ) → Contains result.now i → IsKid graph.now.terms i id }
    {
        graph.unique();
        if self.has(id) {
            return &[];
        }
        graph.node(id).kids
    }

    // Whether this node has an image.
    fn has(&self, id: NodeId) -> bool
        ensures { result ≡ slice_index_or self.now.known.items id false }
    {
        match self.known.get(id.index()) {
            Some(known) => *known,
            None => false,
        }
    }

    // Gives this node its image, if it has none yet, by those of its kids.
    fn settle<W: Rewrite>(
        &mut self,
        graph: &mut Graph<'_>,
        id: NodeId,
        rewrite: &W,
    ) -> Result<(), NoMemory>
        requires within { id < length graph.old.terms }
        requires table { id < length self.old.table.items }
        requires marks { id < length self.old.known.items }
        requires images { AreImages graph.old self.old (W.image rewrite.now) }
        requires kids { IsUnknown self.old.known.items id → (i : ℕ) → IsKid graph.old.terms i id → IsKnown self.old.known.items i }
        requires takes { W.takes rewrite.now (term_at graph.old.terms id) }
        ensures known { OnOk result (IsKnown self.new.known.items id) }
        ensures stay { (i : ℕ) → IsKnown self.old.known.items i → IsKnown self.new.known.items i }
        ensures kept { Keeps graph.old graph.new }
        ensures images { AreImages graph.new self.new (W.image rewrite.now) }
        ensures table_length { length self.new.table.items ≡ length self.old.table.items }
        ensures known_length { length self.new.known.items ≡ length self.old.known.items }
    {
        if self.has(id) {
            return Ok(());
        }
        let image = rewrite.image_of(graph, id, self.table.as_slice())?;
        self.table[id.index()] = image;
        self.known[id.index()] = true;
        Ok(())
    }
}

// Makes a list this long at least; what is new is blank.
fn lengthen<T: Copy>(items: &mut Vec<T>, least: usize, blank: T) -> Result<(), NoMemory>
    ensures same { (i : ℕ) → slice_index_or items.new.items i blank ≡ slice_index_or items.old.items i blank }
    ensures longer { length items.old.items ≤ length items.new.items }
    ensures room { OnOk result (least ≤ length items.new.items) }
{
    if items.len() >= least {
        return Ok(());
    }
    let Ok(()) = items.resize(least, blank) else {
        return Err(NoMemory);
    };
    Ok(())
}

/// Images stay images while the graph grows.
pub fn images_law()
    ensures { (old new : Shared) (images : declared.Images) (image : Term → Term) → Keeps old new → AreImages old images image → AreImages new images image }
{}
