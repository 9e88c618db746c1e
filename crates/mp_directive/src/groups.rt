// How lines stand in groups.
ghost use Rattle.std.specs.Prelude.{◌≡◌, ◌≤◌, ◌+◌, [], length, false, Result, Err, IfOk};
ghost use Rattle.mp_base.specs.Answers.{Gives};
ghost use Rattle.mp_directive.specs.Lines.{lines};
ghost use Rattle.mp_directive.specs.Tree.{nodes_weight, with_branch, joined, is_alone, Branches};
ghost use Rattle.mp_directive.specs.Tree as t;
ghost use Rattle.mp_directive.specs.Groups.{Reading, AreAlone, nothing_read, at, is_otherwise, further, choice_ended, loop_ended, after_line, opener, whole, groups};
ghost use Rattle.mp_directive.specs.Directives.{If, For};
ghost use Rattle.mp_directive.specs.Shown.{condition_of, shown, node_before, nodes_of, branch_of, branches_of, group_of};
ghost use Rattle.mp_directive.specs.Structure.{GivesMeant};
ghost use Rattle.mp_base.specs.declared.kinds.MacroKind.{MacroKind};
ghost use Rattle.mp_directive.specs.Gives.{reading_of, told_kind, told};

use crate::content::{Condition, Content, content_of};
use crate::fault::{LineFault, TreeFault};
use crate::scan::first_line;
use crate::tree::{Branch, Head, Node};
use mp_base::{MacroKind, NoMemory};
use sqlite_items::{Boxed, Items};
use std::alloc::Global;

// How many groups may be open.
const MOST_OPEN: usize = 100;

// A group that is open, with the nodes before it in the body around it and the line that opened it: a choice with its
// finished branches and the head of the one that is being read, or a loop.
#[derive(Drop)]
pub(crate) enum Group<'t> {
    Choice {
        outer: Items<Node<'t>>,
        opener: u32,
        finished: Items<Branch<'t>>,
        line: u32,
        condition: Condition<'t>,
    },
    Loop {
        outer: Items<Node<'t>>,
        head: Head<'t>,
    },
}

// The groups that are open, the innermost last, and the nodes read in its body.
#[derive(Drop)]
pub(crate) struct Reader<'t> {
    alloc: Global,
    groups: Items<Group<'t>>,
    nodes: Items<Node<'t>>,
}

impl<'t> Reader<'t> {
    fn new(alloc: Global) -> Reader<'t>
        ensures { reading_of result ≡ nothing_read }
    {
        Reader {
            alloc,
            groups: Items::new(alloc),
            nodes: Items::new(alloc),
        }
    }

    // One node more.
    fn with(self, node: Node<'t>) -> Result<Reader<'t>, NoMemory>
        ensures { IfOk result (λ r. reading_of r ≡ record { groups = (reading_of self.entry).groups; nodes = joined (reading_of self.entry).nodes (node_before node.entry t.Done) }) }
    {
        let Reader {
            alloc,
            groups,
            mut nodes,
        } = self;
        nodes.push(node)?;
        Ok(Reader {
            alloc,
            groups,
            nodes,
        })
    }

    // A choice opens.
    fn choice_opened(self, line: u32, condition: Condition<'t>) -> Result<Reader<'t>, LineFault>
        ensures { Gives reading_of told_kind result (after_line line (If (condition_of condition.entry)) (reading_of self.entry)) }
    {
        let Reader {
            alloc,
            mut groups,
            nodes,
        } = self;
        if groups.len() >= MOST_OPEN {
            return refused(MacroKind::NestDeep);
        }
        groups.push(Group::Choice {
            outer: nodes,
            opener: line,
            finished: short_list(alloc)?,
            line,
            condition,
        })?;
        Ok(Reader {
            alloc,
            groups,
            nodes: short_list(alloc)?,
        })
    }

    // A loop opens.
    fn loop_opened(self, head: Head<'t>) -> Result<Reader<'t>, LineFault>
        ensures { Gives reading_of told_kind result (after_line head.entry.line (For head.entry.name.now head.entry.array.now) (reading_of self.entry)) }
    {
        let Reader {
            alloc,
            mut groups,
            nodes,
        } = self;
        if groups.len() >= MOST_OPEN {
            return refused(MacroKind::NestDeep);
        }
        groups.push(Group::Loop { outer: nodes, head })?;
        Ok(Reader {
            alloc,
            groups,
            nodes: short_list(alloc)?,
        })
    }

    // A further branch: in a choice, and not after its `@#else`.
    fn further(self, line: u32, condition: Condition<'t>) -> Result<Reader<'t>, LineFault>
        ensures { Gives reading_of told_kind result (further line (condition_of condition.entry) (reading_of self.entry).nodes (reading_of self.entry).groups) }
    {
        let Reader {
            alloc,
            mut groups,
            nodes,
        } = self;
        let Some(
            Group::Choice {
                outer,
                opener,
                finished,
                line: head,
                condition: was,
            },
        ) = groups.pop()
        else {
            return refused(MacroKind::Unbalanced);
        };
        if is_otherwise(was) {
            return refused(MacroKind::Unbalanced);
        }
        let finished = with_branch(finished, head, was, nodes)?;
        groups.push(Group::Choice {
            outer,
            opener,
            finished,
            line,
            condition,
        })?;
        Ok(Reader {
            alloc,
            groups,
            nodes: short_list(alloc)?,
        })
    }

    // The end of a choice.
    fn choice_ended(self) -> Result<Reader<'t>, LineFault>
        ensures { Gives reading_of told_kind result (choice_ended (reading_of self.entry).nodes (reading_of self.entry).groups) }
    {
        let Reader {
            alloc,
            mut groups,
            nodes,
        } = self;
        let Some(
            Group::Choice {
                outer,
                finished,
                line,
                condition,
                ..
            },
        ) = groups.pop()
        else {
            return refused(MacroKind::Unbalanced);
        };
        let branches = with_branch(finished, line, condition, nodes)?;
        let mut nodes = outer;
        nodes.push(Node::Choice { branches })?;
        Ok(Reader {
            alloc,
            groups,
            nodes,
        })
    }

    // The end of a loop.
    fn loop_ended(self) -> Result<Reader<'t>, LineFault>
        ensures { Gives reading_of told_kind result (loop_ended (reading_of self.entry).nodes (reading_of self.entry).groups) }
    {
        let Reader {
            alloc,
            mut groups,
            nodes,
        } = self;
        let Some(Group::Loop { outer, head }) = groups.pop() else {
            return refused(MacroKind::Unbalanced);
        };
        let body = nodes;
        let mut nodes = outer;
        let head = Boxed::new(alloc, head)?;
        nodes.push(Node::Loop { head, body })?;
        Ok(Reader {
            alloc,
            groups,
            nodes,
        })
    }

    // What is read after a line more, which is none by itself.
    #[tactic(auto, using(crate::proofs::Joined::lasts))]
    fn after(self, line: u32, content: Content<'t>) -> Result<Reader<'t>, LineFault>
        requires { is_alone (shown content) ≡ false }
        ensures { Gives reading_of told_kind result (after_line line (shown content.entry) (reading_of self.entry)) }
    {
        match content {
            Content::Alone(_) => Ok(self),
            Content::Include(expr) => Ok(self.with(Node::Included { line, expr })?),
            Content::If(condition) => self.choice_opened(line, condition),
            Content::Further(condition) => self.further(line, condition),
            Content::EndIf => self.choice_ended(),
            Content::For { name, array } => self.loop_opened(Head { line, name, array }),
            Content::EndFor => self.loop_ended(),
            Content::IllFormed => refused(MacroKind::BadDirective),
        }
    }

    // No group may be open at the end.
    fn whole(self) -> Result<Items<Node<'t>>, TreeFault>
        ensures { Gives nodes_of told result (whole (reading_of self.entry)) }
    {
        let Reader { groups, nodes, .. } = self;
        match groups.as_slice().first() {
            None => Ok(nodes),
            Some(outermost) => Err(TreeFault::Refused {
                kind: MacroKind::Unbalanced,
                line: opener_of(outermost),
            }),
        }
    }
}

fn refused<T>(kind: MacroKind) -> Result<T, LineFault>
    ensures { result ≡ Err (LineFault.Refused kind) }
{
    Err(LineFault::Refused { kind })
}

// A list without elements that has room for one, since most branches are few and most bodies short.
fn short_list<T>(alloc: Global) -> Result<Items<T>, NoMemory>
    ensures { IfOk result (λ items. items ≡ []) }
{
    Ok(Items::from_vec(Vec::with_capacity(alloc, 1)?))
}

fn is_otherwise(condition: Condition) -> bool
    ensures { result ≡ is_otherwise (condition_of condition.entry) }
{
    match condition {
        Condition::Otherwise => true,
        _ => false,
    }
}

fn with_branch<'t>(
    finished: Items<Branch<'t>>,
    line: u32,
    condition: Condition<'t>,
    body: Items<Node<'t>>,
) -> Result<Items<Branch<'t>>, LineFault>
    ensures { Gives branches_of told_kind result (Ok (with_branch (branches_of finished.entry) line (condition_of condition.entry) (nodes_of body.entry))) }
{
    let mut branches = finished;
    branches.push(branch_with(line, condition, body))?;
    Ok(branches)
}

fn branch_with<'t>(line: u32, condition: Condition<'t>, body: Items<Node<'t>>) -> Branch<'t>
    ensures { (more : Branches) → branch_of result more ≡ t.Branch line (condition_of condition.entry) (nodes_of body.entry) more }
{
    match condition {
        Condition::Otherwise => Branch::Otherwise { line, body },
        _ => Branch::When {
            line,
            condition,
            body,
        },
    }
}

fn opener_of(group: &Group) -> u32
    ensures { result ≡ opener (group_of group.now) }
{
    match group {
        Group::Choice { opener, .. } => *opener,
        Group::Loop { head, .. } => head.line,
    }
}

// What one line more makes, at its line.
fn placed<'t>(answer: Result<Reader<'t>, LineFault>, line: u32) -> Result<Reader<'t>, TreeFault>
    ensures { (meant : Result Reading MacroKind) → Gives reading_of told_kind answer.entry meant → Gives reading_of told result (at line meant) }
{
    match answer {
        Ok(reader) => Ok(reader),
        Err(LineFault::Refused { kind }) => Err(TreeFault::Refused { kind, line }),
        Err(LineFault::NoMemory) => Err(TreeFault::NoMemory),
    }
}

// Whether the line stands by itself.
fn is_alone(content: &Content) -> bool
    ensures { result ≡ is_alone (shown content.now) }
{
    match content {
        Content::Alone(_) => true,
        _ => false,
    }
}

// How many lines stand by themselves at the front, and what follows them.
fn run_length<'t>(text: &'t [u8]) -> (u32, &'t [u8])
    requires { length text.now ≤ 8388608 }
    ensures alone { AreAlone (lines text.now) result.0 (lines result.1.now) }
    ensures fewer { result.0 + length result.1.now ≤ length text.now }
{
    let (_, mut rest) = text.split_at(0);
    let mut count: u32 = 0;
    'lines: while !rest.is_empty() {
        let (first, more) = first_line(rest);
        if !is_alone(&content_of(first)) {
            return (count, rest);
        }
        rest = more;
        count += 1;
    }
    (count, rest)
}

/// The tree of a file's lines, or the first line that is at fault: BadDirective, Unbalanced or NestDeep. A missing end
/// is placed at the opener of the outermost open group and comes after all lines (Dynare manual, "Macro processing
/// language"; at most 100 groups are open, which is modpath's own).
pub fn tree_of<'t>(alloc: Global, text: &'t [u8]) -> Result<Items<Node<'t>>, TreeFault>
    requires { length text.now ≤ 8388608 }
    ensures by_grammar { GivesMeant text.now result }
    ensures tree { Gives nodes_of told result (groups text.now) }
    ensures few { IfOk result (λ nodes. nodes_weight (nodes_of nodes) ≤ length text.now) }
{
    read_lines(alloc, text)
}

fn read_lines<'t>(alloc: Global, text: &'t [u8]) -> Result<Items<Node<'t>>, TreeFault>
    requires { length text.now ≤ 8388608 }
    ensures tree { Gives nodes_of told result (groups text.now) }
    ensures few { IfOk result (λ nodes. nodes_weight (nodes_of nodes) ≤ length text.now) }
{
    let mut reader = Reader::new(alloc);
    let (_, mut rest) = text.split_at(0);
    let mut line: u32 = 1;
    'lines: while !rest.is_empty() {
        let (first, more) = first_line(rest);
        let content = content_of(first);
        if is_alone(&content) {
            let (further, after) = run_length(more);
            let end = line + 1 + further;
            reader = reader.with(Node::Run {
                first: line,
                end,
                text: rest,
            })?;
            rest = after;
            line = end;
            continue;
        }
        reader = placed(reader.after(line, content), line)?;
        rest = more;
        line += 1;
    }
    reader.whole()
}
