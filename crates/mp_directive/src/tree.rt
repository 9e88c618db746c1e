// The tree of a file's lines.
ghost use Rattle.std.specs.Prelude.{◌≡◌};
ghost use Rattle.mp_directive.specs.Tree as t;
ghost use Rattle.mp_directive.specs.Shown.{condition_of, nodes_of, branch_of};

use crate::content::Condition;
use sqlite_items::{Boxed, Items};

/// The line that opens a loop: a name, and the expression of the array.
#[derive(Clone, Copy, Debug)]
pub struct Head<'t> {
    pub line: u32,
    pub name: &'t [u8],
    pub array: &'t [u8],
}

/// Lines by themselves one after the other, an include, a choice of branches, or a body for each element of an array;
/// lines are numbered from 1. A run's text goes on to the end of the file; its lines are those before `end`.
#[cycle(tree)]
#[derive(Drop)]
pub enum Node<'t> {
    Run {
        first: u32,
        end: u32,
        text: &'t [u8],
    },
    Included {
        line: u32,
        expr: &'t [u8],
    },
    Choice {
        branches: Items<Branch<'t>>,
    },
    Loop {
        head: Boxed<Head<'t>>,
        body: Items<Node<'t>>,
    },
}

/// The lines that are taken under a condition, or where no earlier branch is, with the line that begins them.
#[cycle(tree)]
#[derive(Drop)]
pub enum Branch<'t> {
    When {
        line: u32,
        condition: Condition<'t>,
        body: Items<Node<'t>>,
    },
    Otherwise {
        line: u32,
        body: Items<Node<'t>>,
    },
}

/// The line of a branch's condition, the condition and the lines.
pub fn parts_of<'a, 't>(branch: &'a Branch<'t>) -> (u32, Condition<'t>, &'a [Node<'t>])
    ensures { (more : t.Branches) → branch_of branch.now more ≡ t.Branch result.0 (condition_of result.1) (nodes_of result.2.now) more }
{
    match branch {
        Branch::When {
            line,
            condition,
            body,
        } => (*line, *condition, body.as_slice()),
        Branch::Otherwise { line, body } => (*line, Condition::Otherwise, body.as_slice()),
    }
}
