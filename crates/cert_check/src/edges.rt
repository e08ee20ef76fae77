// The least edge that stands in just one of two lists.
ghost use Rattle.std.specs.Prelude.{◌≡◌, false, IfOk, IfSome, IfNone, Contains, drop, slice_get};
ghost use Rattle.plane_edge.specs.Edges.{IsRisingEdges, IsOdd, is_same_edge, is_edge_below};
ghost use Rattle.cert_check.specs.Edges.{AreSameIn, IsLeastInOne, first_difference, first_of, have_common_head, lesser_edge};

use agg_base::NoMemory;
use plane_edge::{Area, Edge, odd};
use std::alloc::Global;

/// The least edge that is odd in the area and not due, or due and not odd in the area. The edges that are due are in rising order.
pub(crate) fn differing_edge(
    alloc: Global,
    area: &Area,
    due: &[Edge],
) -> Result<Option<Edge>, NoMemory>
    requires { IsRisingEdges due.now }
    ensures none { IfOk result (λ r. IfNone r (AreSameIn (λ e. IsOdd e area.now.steps) (λ e. Contains due.now e))) }
    ensures some { IfOk result (λ r. IfSome r (IsLeastInOne (λ e. IsOdd e area.now.steps) (λ e. Contains due.now e))) }
{
    let edges = odd(alloc, area)?;
    Ok(first_difference(&edges, due))
}

// The least edge that stands in just one of two lists in rising order.
#[tactic(auto, using(crate::proofs::EdgeLemmas::heads_at))]
fn first_difference(a: &[Edge], b: &[Edge]) -> Option<Edge>
    ensures { result ≡ first_difference a.now b.now }
{
    let at = common_head(a, b);
    first_of(edge_at(a, at), edge_at(b, at))
}

// The edge at this place, where there is one.
#[tactic(auto, using(std::proofs::lemmas::Option::slice_get_read, std::proofs::lemmas::Option::slice_get_past))]
fn edge_at(edges: &[Edge], at: usize) -> Option<Edge>
    ensures { result ≡ slice_get edges.now at }
{
    if at < edges.len() {
        Some(edges[at])
    } else {
        None
    }
}

// How many edges the lists have in common in front.
fn common_head(a: &[Edge], b: &[Edge]) -> usize
    ensures rest { first_difference (drop result a.now) (drop result b.now) ≡ first_difference a.now b.now }
    ensures end { have_common_head (drop result a.now) (drop result b.now) ≡ false }
{
    let most = a.len().min(b.len());
    for at in 0..most {
        if !is_same(&a[at], &b[at]) {
            return at;
        }
    }
    most
}

// Whether the edges are the same.
fn is_same(a: &Edge, b: &Edge) -> bool
    ensures { result ≡ is_same_edge a.now b.now }
{
    a == b
}

// The lesser of two edges, where there are two.
fn first_of(a: Option<Edge>, b: Option<Edge>) -> Option<Edge>
    ensures { result ≡ first_of a b }
{
    match (a, b) {
        (None, None) => None,
        (Some(x), None) => Some(x),
        (None, Some(y)) => Some(y),
        (Some(x), Some(y)) => Some(lesser_edge(x, y)),
    }
}

// Whether the first edge comes before the second.
fn is_before(a: &Edge, b: &Edge) -> bool
    ensures { result ≡ is_edge_below a.now b.now }
{
    a < b
}

// The lesser of two edges.
fn lesser_edge(x: Edge, y: Edge) -> Edge
    ensures { result ≡ lesser_edge x y }
{
    if is_before(&x, &y) { x } else { y }
}
