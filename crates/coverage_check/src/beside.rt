// Passing over edges that lie beside another.
ghost use Rattle.std.specs.Prelude.{◌≡◌, ◌+◌, ◌<◌, ◌≤◌, length};
ghost use Rattle.coverage_check.specs.Partners.{AreBeside, AreLeft};
ghost use Rattle.coverage_check.specs.Spans.{AreSpans};

use crate::span::{Span, right_of};
use plane_edge::Edge;

// A place behind `place`. The edges between have no x from `left` on.
fn past_left(edges: &[Edge], spans: &[Span], place: usize, left: i32) -> usize
    requires spans { AreSpans edges.now (length edges.now) spans.now }
    requires within { place < length edges.now }
    ensures behind { place < result }
    ensures inside { result ≤ length edges.now }
    ensures passed { AreLeft edges.now (place + 1) result left }
{
    let mut low = place + 1;
    let mut high = spans[place].end;
    while low < high {
        let middle = low + (high - low) / 2;
        let span = &spans[middle];
        if span.begin <= place && span.most < left {
            low = middle + 1;
        } else {
            high = middle;
        }
    }
    low
}

/// A place behind `place`, beyond the edges that the spans show to have no x from `left` to `right`.
pub fn next_across(edges: &[Edge], spans: &[Span], place: usize, left: i32, right: i32) -> usize
    requires spans { AreSpans edges.now (length edges.now) spans.now }
    requires within { place < length edges.now }
    ensures behind { place < result }
    ensures inside { result ≤ length edges.now }
    ensures passed { AreBeside edges.now (place + 1) result left right }
{
    let span = &spans[place];
    if span.least > right {
        return span.end;
    }
    if right_of(&edges[place]) < left {
        return past_left(edges, spans, place, left);
    }
    place + 1
}
