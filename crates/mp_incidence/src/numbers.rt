// Lists of numbers.
ghost use Rattle.std.specs.Prelude.{◌≡◌, ◌↔◌, ◌<◌, ◌≤◌, ◌^◌, [], ◌∷◌, ◌++◌, ℕ, true, false, length, slice_index, slice_index_or, IfOk, OnOk, OnErr};
ghost use Rattle.mp_pairing.specs.Lists.{IsMarked, IsRising, Has};

use mp_base::NoMemory;
use std::alloc::Global;
use std::marker::Model;

/// A list of numbers.
#[derive(Drop)]
pub struct Numbers {
    items: Vec<u32>,
}

impl Model for Numbers {
    ghost use Rattle.std.specs.Prelude.{List, ℕ};

    ghost Value = { List ℕ };

    ghost view = { λ n. n.items.items };
}

impl Numbers {
    /// No numbers.
    pub fn new(alloc: Global) -> Numbers
        ensures { result ≡ [] }
    {
        Numbers {
            items: Vec::new(alloc),
        }
    }

    /// Appends a number, or changes nothing.
    pub fn add(&mut self, item: u32) -> Result<(), NoMemory>
        ensures ok { OnOk result (self.new ≡ self.old ++ item ∷ []) }
        ensures err { OnErr result (self.new ≡ self.old) }
    {
        self.items.push(item)?;
        Ok(())
    }

    /// How many there are.
    pub fn len(&self) -> usize
        ensures { result ≡ length self.now }
    {
        self.items.len()
    }

    /// The number at `i`, from 0.
    pub fn get(&self, i: usize) -> u32
        requires { i < length self.now }
        ensures { result ≡ slice_index self.now i }
    {
        self.items[i]
    }
}

/// The places of the marks that are set, rising.
pub fn marked(alloc: Global, marks: &[bool]) -> Result<Numbers, NoMemory>
    requires { length marks.now < 2 ^ 32 }
    ensures { IfOk result (λ xs. IsMarked marks.now (length marks.now) xs) }
{
    let mut xs = Numbers::new(alloc);
    'marks: for i in 0..marks.len() {
        if marks[i] {
            xs.add(i as u32)?;
        }
    }
    Ok(xs)
}

/// These numbers.
pub fn copied(alloc: Global, items: &[usize]) -> Result<Numbers, NoMemory>
    requires { (k : ℕ) → k < length items.now → slice_index items.now k < 2 ^ 32 }
    ensures { IfOk result (λ xs. xs ≡ items.now) }
{
    let mut xs = Numbers::new(alloc);
    'items: for i in 0..items.len() {
        xs.add(items[i] as u32)?;
    }
    Ok(xs)
}
