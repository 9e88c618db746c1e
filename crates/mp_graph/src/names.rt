// The names of a graph that has nodes.
ghost use Rattle.std.specs.Prelude.{◌≡◌, ◌<◌, ℕ, None, length, OnOk, OnErr};
ghost use Rattle.mp_semantics.specs.Term.{Leaf, leaf};
ghost use Rattle.mp_statements.specs.declared.kind.NameKind.TheVariants.{Endogenous};
ghost use Rattle.mp_names.specs.Named.{kind_in, with_name};
ghost use Rattle.mp_graph.specs.Shared.{term_at};
ghost use Rattle.mp_graph.specs.Readable.{IsNamedLeaf};

use crate::graph::Graph;
use mp_base::NoMemory;
use mp_statements::NameKind;

impl<'t> Graph<'t> {
    /// Names one more endogenous variable, as the last one. Every node stays, and keeps its number.
    pub fn add_endogenous(&mut self, name: &'t [u8]) -> Result<(), NoMemory>
        requires { kind_in self.old.names name.now ≡ None }
        ensures names { OnOk result (self.new ≡ record { names = with_name Endogenous name.now self.old.names; terms = self.old.terms }) }
        ensures err { OnErr result (self.new ≡ self.old) }
    {
        self.names.add_another(NameKind::Endogenous, name)?;
        Ok(())
    }

    /// Every leaf reads a name that the graph has.
    pub fn readable(&self)
        ensures { (i : ℕ) (l : Leaf) → i < length self.now.terms → term_at self.now.terms i ≡ leaf l → IsNamedLeaf self.now.names l }
    {
        let _ = self.nodes.len();
    }
}
