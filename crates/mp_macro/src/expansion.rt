// The expansion of a file.
ghost use Rattle.std.specs.Prelude.{◌≡◌, ◌≤◌, ◌-◌, ℕ, List, length, IfOk, MatchResult, None};
ghost use Rattle.mp_outside.specs.Outside.{Later};
ghost use Rattle.mp_mvalue.specs.Environments.{value_in};
ghost use Rattle.mp_directive.specs.Tree.{Done, Included, Loop, run_before, nodes_weight, branches_weight};
ghost use Rattle.mp_directive.specs.Groups.{groups};
ghost use Rattle.mp_directive.specs.Lines.{lines};
ghost use Rattle.mp_directive.specs.Structure.{Means, contents};
ghost use Rattle.mp_directive.specs.Shown.{node_before, nodes_of, branches_of};
ghost use Rattle.mp_macro.specs.Expansion.{Including, after_node, after_nodes, after_branches, after_main, include, defined, expands};
ghost use Rattle.mp_macro.specs.Says.{state_of, SaysHere, Says, SaysText, ShowsCause};

use crate::fault::{ExpandFault, Stop};
use crate::reading::{fetch, placed, refusal, tree};
use crate::state::State;
use crate::statement::{begin_turn, carry_line, elements, file_name, holds};
use mp_base::{Bytes, Label, MacroKind, NoMemory};
use mp_directive::{Branch, Head, Node, first_line, parts_of};
use mp_mvalue::{Defines, Env, shared};
use mp_outside::Files;
use std::alloc::Global;

// How many files may be open beside the main one.
const MOST_INCLUDED: u8 = 31;

// Lines by themselves, from the first to the one before the end.
fn expand_run(
    alloc: Global,
    file: &[u8],
    first: u32,
    end: u32,
    text: &[u8],
    state: &mut State,
) -> Result<(), Stop>
    requires { length file.now ≤ 128 }
    ensures { (including : Including) → SaysHere (λ u. state_of state.new) result (after_nodes including file.now (run_before first (end - first) (lines text.now) Done) (state_of state.old)) }
{
    let (_, mut rest) = text.split_at(0);
    'lines: for line in first..end {
        if rest.is_empty() {
            return Ok(());
        }
        let (here, more) = first_line(rest);
        placed(alloc, carry_line(alloc, here, state), file, line)?;
        rest = more;
    }
    Ok(())
}

// Nodes in order.
#[cycle(expansion)]
fn expand_nodes<F: Files>(
    alloc: Global,
    files: &mut F,
    file: &[u8],
    room: u8,
    nodes: &[Node],
    state: &mut State,
) -> Result<(), Stop>
    requires short { length file.now ≤ 128 }
    requires light { nodes_weight (nodes_of nodes.now) ≤ 8388608 }
    ensures says { Says (state_of state.new) (F.outside files.old) (F.outside files.new) (λ l. after_nodes (include l room) file.now (nodes_of nodes.now) (state_of state.old)) result }
    ensures later { Later (F.outside files.old) (F.outside files.new) }
{
    let (_, mut rest) = nodes.split_at(0);
    'nodes: while let Some((node, more)) = rest.split_first() {
        expand_node(alloc, files, file, room, node, state)?;
        rest = more;
    }
    Ok(())
}

#[cycle(expansion)]
fn expand_node<F: Files>(
    alloc: Global,
    files: &mut F,
    file: &[u8],
    room: u8,
    node: &Node,
    state: &mut State,
) -> Result<(), Stop>
    requires short { length file.now ≤ 128 }
    requires light { nodes_weight (node_before node.now Done) ≤ 8388608 }
    ensures says { Says (state_of state.new) (F.outside files.old) (F.outside files.new) (λ l. after_nodes (include l room) file.now (node_before node.now Done) (state_of state.old)) result }
    ensures later { Later (F.outside files.old) (F.outside files.new) }
{
    match node {
        Node::Run { first, end, text } => expand_run(alloc, file, *first, *end, text, state),
        Node::Included { line, expr } => {
            expand_included(alloc, files, file, room, *line, expr, state)
        }
        Node::Choice { branches } => {
            expand_branches(alloc, files, file, room, branches.as_slice(), state)
        }
        Node::Loop { head, body } => {
            expand_loop(alloc, files, file, room, head.get(), body.as_slice(), state)
        }
    }
}

// An include, by the expression of the file's name.
#[cycle(expansion)]
fn expand_included<F: Files>(
    alloc: Global,
    files: &mut F,
    file: &[u8],
    room: u8,
    line: u32,
    expr: &[u8],
    state: &mut State,
) -> Result<(), Stop>
    requires short { length file.now ≤ 128 }
    ensures says { Says (state_of state.new) (F.outside files.old) (F.outside files.new) (λ l. after_node (include l room) file.now (Included line expr.now) (state_of state.old)) result }
    ensures later { Later (F.outside files.old) (F.outside files.new) }
{
    let name = placed(alloc, file_name(alloc, expr, &state.env), file, line)?;
    expand_include(
        alloc,
        files,
        file,
        line,
        name.as_ref().as_slice(),
        room,
        state,
    )
}

// The first branch whose condition holds.
#[cycle(expansion)]
fn expand_branches<F: Files>(
    alloc: Global,
    files: &mut F,
    file: &[u8],
    room: u8,
    branches: &[Branch],
    state: &mut State,
) -> Result<(), Stop>
    requires short { length file.now ≤ 128 }
    requires light { branches_weight (branches_of branches.now) ≤ 8388608 }
    ensures says { Says (state_of state.new) (F.outside files.old) (F.outside files.new) (λ l. after_branches (include l room) file.now (branches_of branches.now) (state_of state.old)) result }
    ensures later { Later (F.outside files.old) (F.outside files.new) }
{
    let (_, mut rest) = branches.split_at(0);
    'branches: while let Some((branch, more)) = rest.split_first() {
        let (line, condition, body) = parts_of(branch);
        if placed(alloc, holds(alloc, &condition, &state.env), file, line)? {
            return expand_nodes(alloc, files, file, room, body, state);
        }
        rest = more;
    }
    Ok(())
}

// The body for each element of the array.
#[cycle(expansion)]
fn expand_loop<F: Files>(
    alloc: Global,
    files: &mut F,
    file: &[u8],
    room: u8,
    head: &Head,
    body: &[Node],
    state: &mut State,
) -> Result<(), Stop>
    requires short { length file.now ≤ 128 }
    requires light { nodes_weight (nodes_of body.now) ≤ 8388607 }
    ensures says { Says (state_of state.new) (F.outside files.old) (F.outside files.new) (λ l. after_node (include l room) file.now (Loop head.now.line head.now.name.now head.now.array.now (nodes_of body.now)) (state_of state.old)) result }
    ensures later { Later (F.outside files.old) (F.outside files.new) }
{
    let values = placed(
        alloc,
        elements(alloc, head.array, &state.env),
        file,
        head.line,
    )?;
    let former = state.value(head.name)?;
    let mut rest = values.as_ref().as_slice();
    'turns: while let Some((value, more)) = rest.split_first() {
        placed(alloc, begin_turn(head.name, value, state), file, head.line)?;
        expand_nodes(alloc, files, file, room, body, state)?;
        rest = more;
    }
    state.restore(head.name, former)?;
    Ok(())
}

// An include, where so many more files may be open.
#[cycle(expansion)]
fn expand_include<F: Files>(
    alloc: Global,
    files: &mut F,
    file: &[u8],
    line: u32,
    name: &[u8],
    room: u8,
    state: &mut State,
) -> Result<(), Stop>
    requires file { length file.now ≤ 128 }
    requires name { length name.now ≤ 128 }
    ensures says { Says (state_of state.new) (F.outside files.old) (F.outside files.new) (λ l. include l room file.now line name.now (state_of state.old)) result }
    ensures later { Later (F.outside files.old) (F.outside files.new) }
{
    if room == 0 {
        return Err(refusal(alloc, MacroKind::IncludeDeep, file, line));
    }
    placed(alloc, state.count(), file, line)?;
    let mut bytes = Bytes::new(alloc);
    fetch(alloc, files, name, name, file, line, &mut bytes)?;
    let nodes = tree(alloc, name, bytes.as_slice())?;
    expand_nodes(alloc, files, name, room - 1, nodes.as_slice(), state)
}

// The names that are defined outside the files.
fn environment(alloc: Global, defines: &Defines) -> Result<Env, NoMemory>
    ensures { IfOk result (λ env. value_in env ≡ defined (λ name. None) defines.now) }
{
    let mut env = Env::new(alloc);
    for define in defines.as_slice() {
        env.set(define.name.as_slice(), shared(alloc, &define.value)?)?;
    }
    Ok(env)
}

// The main file of this name, which is told as it is shown.
fn expand_main<F: Files>(
    alloc: Global,
    files: &mut F,
    name: &[u8],
    shown: &[u8],
    state: &mut State,
) -> Result<(), Stop>
    requires { length shown.now ≤ 128 }
    ensures says { Says (state_of state.new) (F.outside files.old) (F.outside files.new) (λ l. after_main l name.now shown.now (state_of state.old)) result }
    ensures later { Later (F.outside files.old) (F.outside files.new) }
{
    let mut bytes = Bytes::new(alloc);
    fetch(alloc, files, name, shown, shown, 0, &mut bytes)?;
    let nodes = tree(alloc, shown, bytes.as_slice())?;
    expand_nodes(alloc, files, shown, MOST_INCLUDED, nodes.as_slice(), state)
}

/// The text of a file in which all directives are carried out, or why there is none (Dynare manual, "Macro processing
/// language"; the scope of names, the order of refusals and the limits are modpath's own). A refusal tells the first 128
/// bytes of a longer name.
pub fn expand<F: Files>(
    alloc: Global,
    files: &mut F,
    name: &[u8],
    defines: &Defines,
) -> Result<Bytes, ExpandFault>
    // What is answered where the files tell their listing.
    ensures says { SaysText (F.outside files.old).listing (λ l. expands l name.now defines.now) result }
    // What is answered in any case.
    ensures cause { MatchResult result (λ _. Unit {0}) (ShowsCause (F.outside files.old) (F.outside files.new)) }
    ensures later { Later (F.outside files.old) (F.outside files.new) }
    ensures short { IfOk result (λ text. length text ≤ 8388608) }
    // Of each file there is the tree, or the first own fault, that the grammar of groups says.
    ensures grammar { (bytes : List ℕ) → Means (contents bytes) (groups bytes) }
{
    expand_text(alloc, files, name, defines)
}

fn expand_text<F: Files>(
    alloc: Global,
    files: &mut F,
    name: &[u8],
    defines: &Defines,
) -> Result<Bytes, ExpandFault>
    ensures says { SaysText (F.outside files.old).listing (λ l. expands l name.now defines.now) result }
    ensures cause { MatchResult result (λ _. Unit {0}) (ShowsCause (F.outside files.old) (F.outside files.new)) }
    ensures later { Later (F.outside files.old) (F.outside files.new) }
    ensures short { IfOk result (λ text. length text ≤ 8388608) }
{
    let mut state = State::new(alloc, environment(alloc, defines)?);
    let shown = Label::of(name);
    expand_main(alloc, files, name, shown.bytes(), &mut state)?;
    Ok(state.into_text())
}
