// Tables of marks.
ghost use Rattle.std.specs.Prelude.{◌≡◌, ◌<◌, [], ◌∷◌, ◌++◌, ℕ, false, length, slice_index_or, OnOk, OnErr};
ghost use Rattle.mp_incidence.specs.Tables.{cell};

use mp_base::NoMemory;
use std::alloc::Global;
use std::marker::Model;

#[derive(Drop)]
struct Row {
    marks: Vec<bool>,
}

impl Model for Row {
    ghost use Rattle.std.specs.Prelude.{List, Bool};

    ghost Value = { List Bool };

    ghost view = { λ r. r.marks.items };
}

impl Row {
    fn get(&self, i: usize) -> bool
        requires { i < length self.now }
        ensures { result ≡ slice_index_or self.now i false }
    {
        self.marks[i]
    }
}

/// A list of rows of marks.
#[derive(Drop)]
pub struct Table {
    rows: Vec<Row>,
}

impl Model for Table {
    ghost use Rattle.std.specs.Prelude.{List, Bool};

    ghost Value = { List (List Bool) };

    ghost view = { λ t. t.rows.items };
}

impl Table {
    /// No rows.
    pub fn new(alloc: Global) -> Table
        ensures { result ≡ [] }
    {
        Table {
            rows: Vec::new(alloc),
        }
    }

    /// Appends a row, or changes nothing.
    pub fn add(&mut self, marks: Vec<bool>) -> Result<(), NoMemory>
        ensures ok { OnOk result (self.new ≡ self.old ++ marks.items ∷ []) }
        ensures err { OnErr result (self.new ≡ self.old) }
    {
        self.rows.push(Row { marks })?;
        Ok(())
    }

    /// How many rows there are.
    pub fn len(&self) -> usize
        ensures { result ≡ length self.now }
    {
        self.rows.len()
    }

    /// The mark in row `a` at `b`, both from 0.
    pub fn at(&self, a: usize, b: usize) -> bool
        requires row { a < length self.now }
        requires column { b < length (slice_index_or self.now a []) }
        ensures { result ≡ cell self.now a b }
    {
        self.rows[a].get(b)
    }
}
