// Graphs without variables, whose evaluation is measured.

use anyhow::{Result, bail};
use mp_base::Steps;
use mp_eval::Kind;
use mp_fix::Fix;
use mp_graph::{BinaryOp, Graph, LeafOp, NodeId, NodeOp};
use mp_names::Names;
use mp_trial::added::{Refused, added, chain};
use mp_trial::evaluated::answered;
use mp_trial::frame::Frame;
use mp_trial::ready::Ready;
use std::alloc::Global;
use std::sync::ledger::Ledger;

/// Evaluates chains of operations so many times and once more, and prints how many nodes and values there are.
pub(crate) fn links<K: Kind, L: Ledger>(
    rt: &(impl Print + AllocGlobal),
    turns: u32,
    steps: &mut Steps<L>,
) -> Result<()> {
    let mut graph = Graph::new(rt.alloc(), Names::new(rt.alloc()));
    let result = links_in::<K, L>(rt, &mut graph, turns, steps);
    // By a call, since what a graph holds is dear to prove let go at a block's end.
    drop(graph);
    result
}

fn links_in<K: Kind, L: Ledger>(
    rt: &(impl Print + AllocGlobal),
    graph: &mut Graph<'_>,
    turns: u32,
    steps: &mut Steps<L>,
) -> Result<()> {
    let Ok(roots) = roots_of(rt.alloc(), graph) else {
        bail!("no graph");
    };
    evaluate::<K, L>(rt, graph, &roots, turns, steps)
}

/// Evaluates 31 squares in one another.
pub(crate) fn squares<L: Ledger>(
    rt: &(impl Print + AllocGlobal),
    steps: &mut Steps<L>,
) -> Result<()> {
    let mut graph = Graph::new(rt.alloc(), Names::new(rt.alloc()));
    let result = squares_in(rt, &mut graph, steps);
    drop(graph);
    result
}

fn squares_in<L: Ledger>(
    rt: &(impl Print + AllocGlobal),
    graph: &mut Graph<'_>,
    steps: &mut Steps<L>,
) -> Result<()> {
    let Ok(root) = chain(graph, 31) else {
        bail!("no graph");
    };
    evaluate::<Fix, L>(rt, graph, &[root], 0, steps)
}

// Three links each over 24 numbers near 1.
fn roots_of(alloc: Global, graph: &mut Graph<'_>) -> Result<Vec<NodeId>, Refused> {
    let mut roots = Vec::new(alloc);
    for turn in 0..110 {
        let root = root(graph, turn)?;
        let Ok(()) = roots.push(root) else {
            return Err(Refused::NoMemory);
        };
    }
    Ok(roots)
}

fn root(graph: &mut Graph<'_>, turn: u8) -> Result<NodeId, Refused> {
    let mut last = leaf(graph, turn)?;
    for link in 0..3u8 {
        let x = leaf(graph, turn / 24 + link)?;
        let y = leaf(graph, turn / 3 + link)?;
        last = linked(graph, last, x, y)?;
    }
    Ok(last)
}

fn leaf(graph: &mut Graph<'_>, place: u8) -> Result<NodeId, Refused> {
    let m = 1_000_000_001 + 10 * u128::from(place % 24);
    added(graph, NodeOp::Leaf(LeafOp::Num { m, s: 9 }), &[])
}

// The greater of ((last * x + y) / (last * x))^2 - x and y.
fn linked(graph: &mut Graph<'_>, last: NodeId, x: NodeId, y: NodeId) -> Result<NodeId, Refused> {
    let product = added(graph, NodeOp::Binary(BinaryOp::Mul), &[last, x])?;
    let sum = added(graph, NodeOp::Binary(BinaryOp::Add), &[product, y])?;
    let ratio = added(graph, NodeOp::Binary(BinaryOp::Div), &[sum, product])?;
    let square = added(graph, NodeOp::Pow(2), &[ratio])?;
    let rest = added(graph, NodeOp::Binary(BinaryOp::Sub), &[square, x])?;
    added(graph, NodeOp::Binary(BinaryOp::Max), &[rest, y])
}

fn evaluate<K: Kind, L: Ledger>(
    rt: &(impl Print + AllocGlobal),
    graph: &Graph<'_>,
    roots: &[NodeId],
    turns: u32,
    steps: &mut Steps<L>,
) -> Result<()> {
    let (none, alloc) = (Vec::new(rt.alloc()), rt.alloc());
    let Ok(frame) = Frame::new(alloc, 1, 0, none, Vec::new(alloc), Vec::new(alloc)) else {
        bail!("no memory");
    };
    let ready = Ready {
        frame: &frame,
        period: 1,
    };
    let Ok(answer) = answered::<K, L>(alloc, graph, roots, &ready, turns, steps) else {
        bail!("no such evaluation");
    };
    println!(rt; "{} nodes, {} values", graph.nodes(), answer.values.len())?;
    Ok(())
}
