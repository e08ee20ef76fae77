// How far to the left and to the right neighbours in a list of edges go.
ghost use Rattle.std.specs.Prelude.{◌≡◌, ◌+◌, ◌<◌, length, IfOk};
ghost use Rattle.std.specs.Int.{int_min, int_max};
ghost use Rattle.coverage_check.specs.Partners.{left_of, right_of};
ghost use Rattle.coverage_check.specs.Spans.{IsSpan, AreSpans};

use agg_base::NoMemory;
use plane_edge::Edge;
use std::alloc::Global;

/// The neighbours of an edge in a list, from the place `begin` to the place before `end`. Those up to
/// the edge have no x beyond `most`, and those from it on none below `least`.
#[derive(Clone, Copy, Debug)]
pub struct Span {
    pub begin: usize,
    pub end: usize,
    pub most: i32,
    pub least: i32,
}

/// The least x of the edge.
#[inline]
pub fn left_of(edge: &Edge) -> i32
    ensures { result ≡ left_of edge.now }
{
    edge.low.x.min(edge.high.x)
}

/// The greatest x of the edge.
#[inline]
pub fn right_of(edge: &Edge) -> i32
    ensures { result ≡ right_of edge.now }
{
    edge.low.x.max(edge.high.x)
}

// The span of the edge at `at` alone.
fn alone(edges: &[Edge], at: usize) -> Span
    requires { at < length edges.now }
    ensures { IsSpan edges.now at result }
{
    let edge = &edges[at];
    Span {
        begin: at,
        end: at + 1,
        most: right_of(edge),
        least: left_of(edge),
    }
}

// The span of the edge at `at + 1`, which takes in the edges before it that begin at its height.
fn grown_back(edges: &[Edge], at: usize, before: &Span) -> Span
    requires within { at + 1 < length edges.now }
    requires before { IsSpan edges.now at before.now }
    ensures { IsSpan edges.now (at + 1) result }
{
    let own = alone(edges, at + 1);
    if edges[at].low.y != edges[at + 1].low.y {
        return own;
    }
    Span {
        begin: before.begin,
        most: before.most.max(own.most),
        ..own
    }
}

// The span of the edge at `at`, which takes in the edges behind it that begin at its height.
fn grown_on(edges: &[Edge], at: usize, own: &Span, behind: &Span) -> Span
    requires within { at + 1 < length edges.now }
    requires own { IsSpan edges.now at own.now }
    requires behind { IsSpan edges.now (at + 1) behind.now }
    ensures { IsSpan edges.now at result }
{
    if edges[at].low.y != edges[at + 1].low.y {
        return *own;
    }
    Span {
        end: behind.end,
        least: own.least.min(behind.least),
        ..*own
    }
}

// The spans of the edges, without the edges behind each.
fn spans_back(alloc: Global, edges: &[Edge]) -> Result<Vec<Span>, NoMemory>
    ensures { IfOk result (λ spans. AreSpans edges.now (length edges.now) spans.items) }
{
    let mut spans = Vec::new(alloc);
    for at in 0..edges.len() {
        let span = if at == 0 {
            alone(edges, at)
        } else {
            grown_back(edges, at - 1, &spans[at - 1])
        };
        spans.push(span)?;
    }
    Ok(spans)
}

// Takes the edges behind each into the spans.
fn grow_on(edges: &[Edge], spans: &mut [Span])
    requires { AreSpans edges.now (length edges.now) spans.old }
    ensures { AreSpans edges.now (length edges.now) spans.new }
{
    for at in (1..edges.len()).rev() {
        spans[at - 1] = grown_on(edges, at - 1, &spans[at - 1], &spans[at]);
    }
}

/// The span of each edge: its neighbours that begin at its height.
pub fn spans_of(alloc: Global, edges: &[Edge]) -> Result<Vec<Span>, NoMemory>
    ensures { IfOk result (λ spans. AreSpans edges.now (length edges.now) spans.items) }
{
    let mut spans = spans_back(alloc, edges)?;
    grow_on(edges, &mut spans);
    Ok(spans)
}
