// Evaluations whose values and faults are worked out by hand. What has a graph of its own is short, and drops it by one
// function, since a proof grows with each place where a graph is dropped.
ghost use Rattle.std.specs.Prelude.{◌≡◌, ◌<◌};

use mp_base::{FixFault, Op, Steps};
use mp_eval::{EvalFault, Kind};
use mp_expr::VarId;
use mp_fix::{Fix, Iv};
use mp_frac::Frac;
use mp_graph::{BinaryOp, Graph, LeafOp, NodeId, NodeOp};
use mp_names::Names;
use mp_statements::NameKind;
use mp_trial::added::{Refused, added, chain};
use mp_trial::evaluated::{Answer, answered};
use mp_trial::frame::Frame;
use mp_trial::ready::Ready;
use std::alloc::Global;
use std::marker::Brand;
use std::process::Abort;
use std::sync::ledger::{Blank, Ledger};

const ONE: i128 = 1_000_000_000_000;

const X: VarId = VarId::Endo(1);

const Y: VarId = VarId::Endo(2);

const E: VarId = VarId::Exo(1);

// An operator and the places of its kids.
type Line = (NodeOp, &'static [usize]);

// Nodes in order, roots, the ends of values up to the first root that has none as points and as intervals, and its fault.
struct Row {
    lines: &'static [Line],
    roots: &'static [usize],
    points: &'static [i128],
    intervals: &'static [(i128, i128)],
    fault: Option<EvalFault>,
}

const X_NOW: NodeOp = NodeOp::Leaf(LeafOp::Var { v: X, shift: 0 });

const X_LAST: NodeOp = NodeOp::Leaf(LeafOp::Var { v: X, shift: -1 });

const X_NEXT: NodeOp = NodeOp::Leaf(LeafOp::Var { v: X, shift: 1 });

const X_FAR: NodeOp = NodeOp::Leaf(LeafOp::Var { v: X, shift: 2 });

const Y_NOW: NodeOp = NodeOp::Leaf(LeafOp::Var { v: Y, shift: 0 });

const Y_LAST: NodeOp = NodeOp::Leaf(LeafOp::Var { v: Y, shift: -1 });

const Y_NEXT: NodeOp = NodeOp::Leaf(LeafOp::Var { v: Y, shift: 1 });

const E_NOW: NodeOp = NodeOp::Leaf(LeafOp::Var { v: E, shift: 0 });

const E_LAST: NodeOp = NodeOp::Leaf(LeafOp::Var { v: E, shift: -1 });

const E_NEXT: NodeOp = NodeOp::Leaf(LeafOp::Var { v: E, shift: 1 });

const P: NodeOp = NodeOp::Leaf(LeafOp::Param(1));

const ADD: NodeOp = NodeOp::Binary(BinaryOp::Add);

const SUB: NodeOp = NodeOp::Binary(BinaryOp::Sub);

const MUL: NodeOp = NodeOp::Binary(BinaryOp::Mul);

const DIV: NodeOp = NodeOp::Binary(BinaryOp::Div);

// x / y(+1), whose divisor is 0; -x; x / y(+1) + -x; -x * (x / y(+1))
const SHARED: &[Line] = &[
    (X_NOW, &[]),
    (Y_NEXT, &[]),
    (DIV, &[0, 1]),
    (NodeOp::Neg, &[0]),
    (ADD, &[2, 3]),
    (MUL, &[3, 2]),
];

const ROWS: &[Row] = &[
    // x + p * y(-1)
    Row {
        lines: &[
            (X_NOW, &[]),
            (P, &[]),
            (Y_LAST, &[]),
            (MUL, &[1, 2]),
            (ADD, &[0, 3]),
        ],
        roots: &[4],
        points: &[2_111_111_111_110],
        intervals: &[(2_111_111_111_110, 2_111_111_111_112)],
        fault: None,
    },
    // the steady state is read at the period after the last
    Row {
        lines: &[
            (NodeOp::Leaf(LeafOp::Anchor(1)), &[]),
            (NodeOp::Leaf(LeafOp::Anchor(2)), &[]),
        ],
        roots: &[0, 1],
        points: &[7 * ONE, 666_666_666_666],
        intervals: &[(7 * ONE, 7 * ONE), (666_666_666_666, 666_666_666_667)],
        fault: None,
    },
    // endogenous variables inside the horizon and on either side of it
    Row {
        lines: &[(X_LAST, &[]), (X_NOW, &[]), (X_NEXT, &[]), (X_FAR, &[])],
        roots: &[0, 1, 2, 3],
        points: &[5 * ONE, 2 * ONE, 3 * ONE, 7 * ONE],
        intervals: &[
            (5 * ONE, 5 * ONE),
            (2 * ONE, 2 * ONE),
            (3 * ONE, 3 * ONE),
            (7 * ONE, 7 * ONE),
        ],
        fault: None,
    },
    // exogenous variables inside it
    Row {
        lines: &[(E_LAST, &[]), (E_NOW, &[]), (E_NEXT, &[])],
        roots: &[2, 1, 0],
        points: &[2 * ONE, ONE, 0],
        intervals: &[(2 * ONE, 2 * ONE), (ONE, ONE), (0, 0)],
        fault: None,
    },
    // a residual that is an interval: 1 / 3 - p
    Row {
        lines: &[
            (NodeOp::Leaf(LeafOp::Num { m: 1, s: 0 }), &[]),
            (NodeOp::Leaf(LeafOp::Num { m: 3, s: 0 }), &[]),
            (DIV, &[0, 1]),
            (P, &[]),
            (SUB, &[2, 3]),
        ],
        roots: &[4],
        points: &[0],
        intervals: &[(-1, 1)],
        fault: None,
    },
    // min(x, y), max(x, y), y^(-2), and e(+1), since x is above y
    Row {
        lines: &[
            (X_NOW, &[]),
            (Y_NOW, &[]),
            (NodeOp::Binary(BinaryOp::Min), &[0, 1]),
            (NodeOp::Binary(BinaryOp::Max), &[0, 1]),
            (NodeOp::Pow(-2), &[1]),
            (E_NOW, &[]),
            (E_NEXT, &[]),
            (NodeOp::Pick, &[0, 1, 5, 6]),
        ],
        roots: &[2, 3, 4, 7],
        points: &[500_000_000_000, 2 * ONE, 4 * ONE, 2 * ONE],
        intervals: &[
            (500_000_000_000, 500_000_000_000),
            (2 * ONE, 2 * ONE),
            (4 * ONE, 4 * ONE),
            (2 * ONE, 2 * ONE),
        ],
        fault: None,
    },
    // the same node fails in two roots, as the third node of one and the fifth of the other
    Row {
        lines: SHARED,
        roots: &[4],
        points: &[],
        intervals: &[],
        fault: Some(EvalFault {
            kind: FixFault::ZeroDivisor,
            root: 1,
            node: 3,
            op: Op::Div,
        }),
    },
    Row {
        lines: SHARED,
        roots: &[5],
        points: &[],
        intervals: &[],
        fault: Some(EvalFault {
            kind: FixFault::ZeroDivisor,
            root: 1,
            node: 5,
            op: Op::Div,
        }),
    },
    // the first root in order that fails
    Row {
        lines: SHARED,
        roots: &[3, 5, 0, 4],
        points: &[-2 * ONE],
        intervals: &[(-2 * ONE, -2 * ONE)],
        fault: Some(EvalFault {
            kind: FixFault::ZeroDivisor,
            root: 2,
            node: 5,
            op: Op::Div,
        }),
    },
    // a product past the limit, and a number
    Row {
        lines: &[
            (X_NOW, &[]),
            (
                NodeOp::Leaf(LeafOp::Num {
                    m: 10_000_000,
                    s: 0,
                }),
                &[],
            ),
            (MUL, &[0, 1]),
        ],
        roots: &[1, 2],
        points: &[10_000_000 * ONE],
        intervals: &[(10_000_000 * ONE, 10_000_000 * ONE)],
        fault: Some(EvalFault {
            kind: FixFault::Overflow,
            root: 2,
            node: 3,
            op: Op::Mul,
        }),
    },
    Row {
        lines: &[(
            NodeOp::Leaf(LeafOp::Num {
                m: 10_000_001,
                s: 0,
            }),
            &[],
        )],
        roots: &[0],
        points: &[],
        intervals: &[],
        fault: Some(EvalFault {
            kind: FixFault::Overflow,
            root: 1,
            node: 1,
            op: Op::Leaf,
        }),
    },
];

fn fraction(rt: &impl Abort, n: i128, d: i128) -> Frac {
    Frac::new(n, d).expect(rt, "no fraction")
}

fn fix(rt: &impl Abort, units: i128) -> Fix {
    Fix::of_units(units).expect(rt, "past the limit")
}

fn add_name<'t>(rt: &impl Abort, names: &mut Names<'t>, kind: NameKind, name: &'t [u8]) {
    assert!(rt; names.add(kind, name).is_ok());
}

fn names(rt: &impl Abort, alloc: Global) -> Names<'static> {
    let mut names = Names::new(alloc);
    add_name(rt, &mut names, NameKind::Endogenous, b"x");
    add_name(rt, &mut names, NameKind::Endogenous, b"y");
    add_name(rt, &mut names, NameKind::Exogenous, b"e");
    add_name(rt, &mut names, NameKind::Parameter, b"p");
    names
}

fn push(rt: &impl Abort, values: &mut Vec<Frac>, value: Frac) {
    values.push(value).expect(rt, "no memory");
}

// 25 times the first, and 24 times the second.
fn beside(rt: &impl Abort, values: &mut Vec<Frac>, before: Frac, behind: Frac) {
    for _ in 0..25 {
        push(rt, values, before);
    }
    for _ in 0..24 {
        push(rt, values, behind);
    }
}

fn endogenous(rt: &impl Abort, alloc: Global) -> Vec<Frac> {
    let mut values = Vec::new(alloc);
    beside(rt, &mut values, fraction(rt, 5, 1), fraction(rt, 7, 1));
    beside(rt, &mut values, fraction(rt, 1, 3), fraction(rt, 2, 3));
    values
}

fn exogenous(rt: &impl Abort, alloc: Global) -> Vec<Frac> {
    let mut values = Vec::new(alloc);
    for place in 0..51u32 {
        push(rt, &mut values, fraction(rt, place as i128 - 24, 1));
    }
    values
}

// Of two periods: p is 1/3; x is 5, 2, 3 and 7, and y is 1/3, 1/2, 0 and 2/3; e is the number of the period.
fn frame(rt: &impl Abort, alloc: Global) -> Frame {
    let mut parameters = Vec::new(alloc);
    push(rt, &mut parameters, fraction(rt, 1, 3));
    let beside = endogenous(rt, alloc);
    let found = Frame::new(alloc, 2, 2, parameters, beside, exogenous(rt, alloc));
    let mut frame = found.expect(rt, "no memory");
    frame.set(1, 1, fix(rt, 2 * ONE));
    frame.set(2, 1, fix(rt, 3 * ONE));
    frame.set(1, 2, fix(rt, ONE / 2));
    frame
}

// The nodes of these places.
fn ids_at(rt: &impl Abort, alloc: Global, ids: &[NodeId], places: &[usize]) -> Vec<NodeId> {
    let mut found = Vec::new(alloc);
    for &place in places {
        assert!(rt; place < ids.len());
        found.push(ids[place]).expect(rt, "no memory");
    }
    found
}

// The nodes of these lines.
fn built(rt: &impl Abort, alloc: Global, graph: &mut Graph<'_>, lines: &[Line]) -> Vec<NodeId> {
    let mut ids = Vec::new(alloc);
    for &(op, places) in lines {
        let kids = ids_at(rt, alloc, &ids, places);
        let id = added(graph, op, &kids).expect(rt, "not lawful");
        ids.push(id).expect(rt, "no memory");
    }
    ids
}

// What a row gives in this graph.
fn answer_in<K: Kind, L: Ledger>(
    rt: &impl Abort,
    alloc: Global,
    graph: &mut Graph<'_>,
    row: &Row,
    steps: &mut Steps<L>,
) -> Answer<K> {
    let ids = built(rt, alloc, graph, row.lines);
    let roots = ids_at(rt, alloc, &ids, row.roots);
    let frame = frame(rt, alloc);
    let ready = Ready {
        frame: &frame,
        period: 1,
    };
    let answer = answered(alloc, graph, &roots, &ready, 0, steps);
    answer.expect(rt, "cannot be evaluated")
}

// What a row gives.
fn run<K: Kind, L: Ledger>(
    rt: &impl Abort,
    alloc: Global,
    row: &Row,
    steps: &mut Steps<L>,
) -> Answer<K> {
    let mut graph = Graph::new(alloc, names(rt, alloc));
    let answer = answer_in(rt, alloc, &mut graph, row, steps);
    drop(graph);
    answer
}

fn points<L: Ledger>(rt: &impl Abort, alloc: Global, row: &Row, steps: &mut Steps<L>) {
    let answer = run::<Fix, L>(rt, alloc, row, steps);
    assert!(rt; answer.fault == row.fault);
    assert!(rt; answer.values.len() == row.points.len());
    for (value, want) in answer.values.iter().zip(row.points) {
        assert!(rt; value.units() == *want);
    }
}

fn intervals<L: Ledger>(rt: &impl Abort, alloc: Global, row: &Row, steps: &mut Steps<L>) {
    let answer = run::<Iv, L>(rt, alloc, row, steps);
    assert!(rt; answer.fault == row.fault);
    assert!(rt; answer.values.len() == row.intervals.len());
    for (value, want) in answer.values.iter().zip(row.intervals) {
        assert!(rt; (value.lo.units(), value.hi.units()) == *want);
    }
}

fn rows<L: Ledger>(rt: &impl Abort, alloc: Global, blank: Blank)
    requires name { blank.name ≡ L.name }
    requires parts { blank.parts ≡ L.parts }
    requires some { 0 < blank.parts }
{
    let mut steps = mp_steps::start::<L>(blank);
    for row in ROWS {
        points(rt, alloc, row, &mut steps);
        intervals(rt, alloc, row, &mut steps);
    }
}

#[test]
fn rows_have_their_values_and_faults(rt: HostRuntime) {
    rows::<Brand>(&rt, rt.alloc(), Blank::new(1));
}

// A grid of one period with nothing in it.
fn empty(rt: &impl Abort, alloc: Global) -> Frame {
    let none = Vec::new(alloc);
    let frame = Frame::new(alloc, 1, 0, none, Vec::new(alloc), Vec::new(alloc));
    frame.expect(rt, "no memory")
}

// What so many squares b = a * a of 1 give in this graph, if they can be evaluated.
fn squares_in<L: Ledger>(
    rt: &impl Abort,
    alloc: Global,
    graph: &mut Graph<'_>,
    count: u32,
    steps: &mut Steps<L>,
) -> Result<Answer<Fix>, Refused> {
    let root = chain(graph, count)?;
    assert!(rt; graph.nodes() == count as usize + 1);
    let frame = empty(rt, alloc);
    let ready = Ready {
        frame: &frame,
        period: 1,
    };
    answered(alloc, graph, &[root], &ready, 0, steps)
}

// What so many squares give, if they can be evaluated.
fn squares<L: Ledger>(
    rt: &impl Abort,
    alloc: Global,
    count: u32,
    steps: &mut Steps<L>,
) -> Result<Answer<Fix>, Refused> {
    let mut graph = Graph::new(alloc, Names::new(alloc));
    let answer = squares_in(rt, alloc, &mut graph, count, steps);
    drop(graph);
    answer
}

fn chains<L: Ledger>(rt: &impl Abort, alloc: Global, blank: Blank)
    requires name { blank.name ≡ L.name }
    requires parts { blank.parts ≡ L.parts }
    requires some { 0 < blank.parts }
{
    let mut steps = mp_steps::start::<L>(blank);
    let answer = squares(rt, alloc, 31, &mut steps).expect(rt, "cannot be evaluated");
    assert!(rt; answer.fault.is_none() && answer.values.len() == 1);
    assert!(rt; answer.values[0].units() == ONE);
    assert!(rt; squares(rt, alloc, 32, &mut steps).is_err());
}

// A term has fewer than 2^32 nodes, which allows 31 squares: 32 nodes of the graph, one step each, for a term of
// 2^32 - 1 nodes. 32 squares are refused.
#[test]
fn a_chain_of_squares_takes_a_step_each(rt: HostRuntime) {
    chains::<Brand>(&rt, rt.alloc(), Blank::new(1));
}
