// The places that occur in an expression.
ghost use Rattle.std.specs.Prelude.{◌≡◌, ◌<◌, List, [], length, map, IfNone, IfOk, IfSome, OnOk};
ghost use Rattle.std.specs.BTreeSet.{insert_key};
ghost use Rattle.std.specs.List.{All};
ghost use Rattle.mp_expr.specs.Shown.{place_of, variable_of};
ghost use Rattle.mp_graph.specs.Own.{AreOwn};
ghost use Rattle.mp_graph.specs.Shared.{term_at};
ghost use Rattle.mp_semantics.specs.Term.{leaf, variable};
ghost use Rattle.mp_slopes.specs.Places as spec;
ghost use Rattle.mp_slopes.specs.Places.{place_cmp, places};
ghost use Rattle.mp_diff.specs.Places.{place_shown, with_place, with_nodes};

use mp_base::NoMemory;
use mp_expr::VarId;
use mp_graph::{Graph, LeafOp, NodeId, NodeOp};
use std::alloc::Global;
use std::collections::BTreeSet;
use std::marker::Model;

/// A variable of `shift` periods later, endogenous ones before exogenous ones, by its number from 0.
#[derive(Clone, Copy, PartialEq, Eq, PartialOrd, Ord, Drop)]
pub struct Place {
    pub exogenous: bool,
    pub number: u32,
    pub shift: i16,
}

/// Places, seen as their list.
#[derive(Drop)]
pub struct Places {
    list: Vec<Place>,
}

impl Model for Places {
    ghost use Rattle.std.specs.Prelude.{List, map};
    ghost use Rattle.mp_slopes.specs.Places as spec;
    ghost use Rattle.mp_diff.specs.Places.{place_shown, places_code};

    ghost Value = { List spec.Place };

    ghost coded = { places_code };

    ghost view = { λ p. map place_shown p.list.items };
}

impl Places {
    /// The places, lent.
    pub fn as_slice(&self) -> &[Place]
        ensures { map place_shown result.now ≡ self.now }
    {
        &self.list
    }
}

// The number from 0 of a name's number from 1.
fn from_zero(n: u32) -> u32
    ensures { result ≡ place_of n }
{
    if n == 0 { u32::MAX } else { n - 1 }
}

// The number from 1 of a name's number from 0.
fn from_one(n: u32) -> u32
    ensures { place_of result ≡ n }
{
    if n == u32::MAX { 0 } else { n + 1 }
}

impl Place {
    /// The place of a variable.
    pub fn of(v: VarId, shift: i16) -> Place
        ensures variable { (place_shown result).x ≡ variable_of v }
        ensures shift { (place_shown result).shift ≡ shift }
    {
        match v {
            VarId::Endo(n) => Place {
                exogenous: false,
                number: from_zero(n),
                shift,
            },
            VarId::Exo(n) => Place {
                exogenous: true,
                number: from_zero(n),
                shift,
            },
        }
    }

    /// The variable.
    pub fn variable(self) -> VarId
        ensures { variable_of result ≡ (place_shown self).x }
    {
        let n = from_one(self.number);
        if self.exogenous {
            VarId::Exo(n)
        } else {
            VarId::Endo(n)
        }
    }
}

// The place that the node is, if it is one.
fn place_at(graph: &Graph<'_>, id: NodeId) -> Option<Place>
    requires { id < length graph.now.terms }
    ensures none { IfNone result ((ps : List spec.Place) → with_place (term_at graph.now.terms id) ps ≡ ps) }
    ensures some { IfSome result (λ p. term_at graph.now.terms id ≡ leaf (variable (place_shown p).x (place_shown p).shift)) }
{
    match graph.node(id).op {
        NodeOp::Leaf(LeafOp::Var { v, shift }) => Some(Place::of(v, shift)),
        _ => None,
    }
}

// Adds a place.
fn add(found: &mut BTreeSet<Place>, place: Place) -> Result<(), NoMemory>
    ensures { OnOk result (map place_shown found.new.keys ≡ insert_key place_cmp (map place_shown found.old.keys) (place_shown place)) }
{
    match found.insert(place) {
        Ok(_) => Ok(()),
        Err(_) => Err(NoMemory),
    }
}

// Adds the place that the node is, if it is one.
fn note(found: &mut BTreeSet<Place>, graph: &Graph<'_>, id: NodeId) -> Result<(), NoMemory>
    requires { id < length graph.now.terms }
    ensures { OnOk result (map place_shown found.new.keys ≡ with_place (term_at graph.now.terms id) (map place_shown found.old.keys)) }
{
    match place_at(graph, id) {
        Some(place) => add(found, place),
        None => Ok(()),
    }
}

// The places that these nodes are.
fn noted(alloc: Global, graph: &Graph<'_>, ids: &[NodeId]) -> Result<BTreeSet<Place>, NoMemory>
    requires { All (λ id. id < length graph.now.terms) ids.now }
    ensures { IfOk result (λ found. map place_shown found.keys ≡ with_nodes graph.now.terms [] ids.now) }
{
    let mut found = BTreeSet::new(alloc);
    'ids: for id in ids {
        note(&mut found, graph, *id)?;
    }
    Ok(found)
}

// The same as a list.
fn listed(alloc: Global, found: BTreeSet<Place>) -> Result<Vec<Place>, NoMemory>
    ensures { IfOk result (λ list. list.items ≡ found.keys) }
{
    let mut rest = found;
    let mut list = Vec::new(alloc);
    'places: while let Some(place) = rest.pop_first() {
        let Ok(()) = list.push(place) else {
            return Err(NoMemory);
        };
    }
    Ok(list)
}

/// The places that occur in this node, whose own nodes are given, in order, each once. It costs those nodes.
pub fn occurring_over(
    alloc: Global,
    graph: &Graph<'_>,
    root: NodeId,
    own: &[NodeId],
) -> Result<Places, NoMemory>
    requires within { root < length graph.now.terms }
    requires own { AreOwn graph.now.terms root own.now }
    ensures { IfOk result (λ ps. ps ≡ places (term_at graph.now.terms root)) }
{
    mp_graph::own_laws();
    mp_slopes::places_law();
    let found = noted(alloc, graph, own)?;
    let list = listed(alloc, found)?;
    Ok(Places { list })
}

/// The places that occur in this node, in order, each once. It costs the nodes that stand in it.
pub fn occurring(alloc: Global, graph: &Graph<'_>, root: NodeId) -> Result<Places, NoMemory>
    requires { root < length graph.now.terms }
    ensures { IfOk result (λ ps. ps ≡ places (term_at graph.now.terms root)) }
{
    let own = graph.own_nodes(alloc, root)?;
    occurring_over(alloc, graph, root, &own)
}
