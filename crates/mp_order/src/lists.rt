// Lists of lists of numbers.
ghost use Rattle.std.specs.Prelude.{◌≡◌, ◌<◌, [], ◌∷◌, ◌++◌, ℕ, length, slice_index_or, OnOk, OnErr};

use mp_base::NoMemory;
use mp_incidence::Numbers;
use std::alloc::Global;
use std::marker::Model;

/// A list of lists of numbers.
#[derive(Drop)]
pub struct BlockList {
    blocks: Vec<Numbers>,
}

impl Model for BlockList {
    ghost use Rattle.std.specs.Prelude.{List, ℕ};

    ghost Value = { List (List ℕ) };

    ghost view = { λ b. b.blocks.items };
}

impl BlockList {
    /// No lists.
    pub fn new(alloc: Global) -> BlockList
        ensures { result ≡ [] }
    {
        BlockList {
            blocks: Vec::new(alloc),
        }
    }

    /// Appends a list, or changes nothing.
    pub fn add(&mut self, block: Numbers) -> Result<(), NoMemory>
        ensures ok { OnOk result (self.new ≡ self.old ++ block ∷ []) }
        ensures err { OnErr result (self.new ≡ self.old) }
    {
        self.blocks.push(block)?;
        Ok(())
    }

    /// How many lists there are.
    pub fn len(&self) -> usize
        ensures { result ≡ length self.now }
    {
        self.blocks.len()
    }

    /// The list at `i`, from 0.
    pub fn block(&self, i: usize) -> &Numbers
        requires { i < length self.now }
        ensures { result.now ≡ slice_index_or self.now i [] }
    {
        &self.blocks[i]
    }
}
