// What a walk asks of the edges.
ghost use Rattle.std.specs.Prelude.{◌≡◌, ◌≢◌, ◌<◌, ◌≤◌, ◌+◌, ℕ, not, length, slice_index_or, IfSome, IfNone, Contains, true, false};
ghost use Rattle.std.specs.List.Sorted.{IsPartitionPoint};
ghost use Rattle.plane_edge.specs.Order.{is_below};
ghost use Rattle.region_rings.specs.declared.way.Way.{Way};
ghost use Rattle.region_rings.specs.declared.exit.Exit.{Exit};
ghost use Rattle.region_rings.specs.Exits.{is_past, AreExitsOf, AreLinksOf, IsFirstFree, IsFoundAt, AreNotBelow, AreAllWalked, AreWalkedFrom};
ghost use Rattle.region_rings.specs.Walks.{IsOpenAt, IsNoneOpenAt, IsTakenFirst};
ghost use Rattle.region_rings.specs.Spokes.{spoke, AreInOrder, IsFirstAt, AreSpokesOf};
ghost use Rattle.region_rings.specs.Turning.{aim, parts_of, IsSomewhere};
ghost use Rattle.region_rings.specs.Ways.{tail_of, is_from, way_at, is_taken_before};

use crate::exit::{Exit, is_past};
use crate::heading::Heading;
use crate::spoke::Spoke;
use crate::turning::heading;
use crate::walk::Walk;
use crate::way::Way;
use plane_edge::{Edge, Point};

/// The edges in rising order, their spokes in the order of their points, for each edge whether the region is on its left, seen from its low end to
/// its high end, and the exits in the order of their points, clockwise at each.
#[derive(Drop)]
pub struct Border<'a> {
    pub edges: &'a [Edge],
    pub spokes: Vec<Spoke>,
    pub leftward: Vec<bool>,
    pub exits: Vec<Exit>,
}

// The number of the first spoke at a point.
fn first_at(spokes: &[Spoke], point: &Point) -> usize
    requires ordered { AreInOrder spokes.now }
    requires here { (edge : ℕ) × Contains spokes.now (spoke point.now edge) }
    ensures { IsFirstAt spokes.now point.now result }
{
    spokes.partition_point(|spoke| spoke.at < *point)
}

impl Border<'_> {
    /// The number of a point at which an edge ends: that of its first spoke.
    pub fn number_of(&self, point: &Point) -> usize
        requires spokes { AreSpokesOf self.now.edges.now self.now.spokes.items }
        requires here { (edge : ℕ) × Contains self.now.spokes.items (spoke point.now edge) }
        ensures { IsFirstAt self.now.spokes.items point.now result }
    {
        first_at(&self.spokes, point)
    }

    /// The edge of that number and its direction.
    pub fn way(&self, edge: usize) -> Way
        requires sides { length self.now.leftward.items ≡ length self.now.edges.now }
        requires edge { edge < length self.now.edges.now }
        ensures { (d : Way) → result ≡ way_at self.now.edges.now self.now.leftward.items edge d }
    {
        Way {
            edge: self.edges[edge],
            is_leftward: self.leftward[edge],
        }
    }

    // Whether there is an exit at that place, and it is walked.
    fn is_walked_at(&self, walk: &Walk, place: usize) -> bool
        requires exits { AreExitsOf self.now.edges.now self.now.leftward.items self.now.exits.items }
        requires marks { length walk.now.walked ≡ length self.now.edges.now }
        ensures within { result ≡ true → place < length self.now.exits.items }
        ensures mark { (d : Exit) → place < length self.now.exits.items → result ≡ slice_index_or walk.now.walked (slice_index_or self.now.exits.items place d).edge true }
    {
        if place < self.exits.len() {
            walk.is_walked(self.exits[place].edge)
        } else {
            false
        }
    }

    // Whether there is an exit at that place, and it leaves the point.
    fn is_exit_of(&self, at: &Point, place: usize) -> bool
        ensures within { result ≡ true → place < length self.now.exits.items }
        ensures leaves { (d : Exit) → place < length self.now.exits.items → result ≡ is_from (slice_index_or self.now.exits.items place d).way at.now }
    {
        if place < self.exits.len() {
            self.exits[place].way.is_from(at)
        } else {
            false
        }
    }

    // Follows the link of an exit. Where the exit that it leads to is walked too, it leads on to where that one's link leads.
    fn follow(&self, links: &mut Vec<usize>, walk: &Walk, place: usize) -> usize
        requires exits { AreExitsOf self.now.edges.now self.now.leftward.items self.now.exits.items }
        requires marks { length walk.now.walked ≡ length self.now.edges.now }
        requires links { AreLinksOf self.now.exits.items walk.now links.old.items }
        requires place { place < length self.now.exits.items }
        ensures links { AreLinksOf self.now.exits.items walk.now links.new.items }
        ensures onward { place < result }
        ensures walked { AreWalkedFrom self.now.exits.items walk.now (place + 1) result }
    {
        let next = links[place];
        if !self.is_walked_at(walk, next) {
            return next;
        }
        let later = links[next];
        links[place] = later;
        later
    }

    // The place of the first exit from there on that is not walked.
    fn first_free(&self, links: &mut Vec<usize>, walk: &Walk, from: usize) -> usize
        requires exits { AreExitsOf self.now.edges.now self.now.leftward.items self.now.exits.items }
        requires marks { length walk.now.walked ≡ length self.now.edges.now }
        requires links { AreLinksOf self.now.exits.items walk.now links.old.items }
        ensures links { AreLinksOf self.now.exits.items walk.now links.new.items }
        ensures first { IsFirstFree self.now.exits.items walk.now from result }
    {
        let mut place = from;
        while self.is_walked_at(walk, place) {
            place = self.follow(links, walk, place);
        }
        place
    }

    // The edge of the first exit from there on that is not walked, where it leaves the point.
    fn free_exit(
        &self,
        links: &mut Vec<usize>,
        walk: &Walk,
        at: &Point,
        from: usize,
    ) -> Option<usize>
        requires exits { AreExitsOf self.now.edges.now self.now.leftward.items self.now.exits.items }
        requires marks { length walk.now.walked ≡ length self.now.edges.now }
        requires links { AreLinksOf self.now.exits.items walk.now links.old.items }
        ensures links { AreLinksOf self.now.exits.items walk.now links.new.items }
        ensures some { IfSome result (IsFoundAt self.now.exits.items walk.now at.now from) }
        ensures none { IfNone result (AreNotBelow self.now.exits.items at.now from → AreAllWalked self.now.exits.items walk.now at.now from) }
    {
        let place = self.first_free(links, walk, from);
        if self.is_exit_of(at, place) {
            Some(self.exits[place].edge)
        } else {
            None
        }
    }

    // The place of the first exit at the point, or at a greater one.
    fn first_exit(&self, at: &Point) -> usize
        requires exits { AreExitsOf self.now.edges.now self.now.leftward.items self.now.exits.items }
        ensures bound { result ≤ length self.now.exits.items }
        ensures split { IsPartitionPoint (λ x. is_below (tail_of x.way) at.now ≡ true) (λ x. is_below (tail_of x.way) at.now ≡ false) self.now.exits.items result }
    {
        self.exits.partition_point(|exit| exit.way.is_below(at))
    }

    // The place of the first exit at the point that a clockwise turn meets after the direction, or at a greater point.
    fn first_past(&self, at: &Point, aim: &Heading) -> usize
        requires exits { AreExitsOf self.now.edges.now self.now.leftward.items self.now.exits.items }
        ensures bound { result ≤ length self.now.exits.items }
        ensures split { IsSomewhere (parts_of aim.now) → IsPartitionPoint (λ x. not (is_past at.now (parts_of aim.now) x.way) ≡ true) (λ x. not (is_past at.now (parts_of aim.now) x.way) ≡ false) self.now.exits.items result }
    {
        self.exits
            .partition_point(|exit| !is_past(&exit.way, at, aim))
    }

    // The edge on which a walk leaves the point that came there from `back`: of the edges that are not walked and lead away, the first one that a
    // clockwise turn from the direction back meets.
    fn exit(&self, links: &mut Vec<usize>, walk: &Walk, at: &Point, back: &Point) -> Option<usize>
        requires sides { length self.now.leftward.items ≡ length self.now.edges.now }
        requires exits { AreExitsOf self.now.edges.now self.now.leftward.items self.now.exits.items }
        requires marks { length walk.now.walked ≡ length self.now.edges.now }
        requires links { AreLinksOf self.now.exits.items walk.now links.old.items }
        ensures links { AreLinksOf self.now.exits.items walk.now links.new.items }
        ensures some { IfSome result (λ edge. IsOpenAt self.now.edges.now walk.now edge at.now) }
        ensures leaves { IfSome result (λ edge. (d : Way) → is_from (way_at self.now.edges.now self.now.leftward.items edge d) at.now ≡ true) }
        ensures first { IfSome result (λ edge. at.now ≢ back.now → IsTakenFirst self.now.edges.now self.now.leftward.items walk.now at.now (aim at.now back.now) edge) }
        ensures none { IfNone result ((edge : ℕ) (d : Way) → IsOpenAt self.now.edges.now walk.now edge at.now → is_from (way_at self.now.edges.now self.now.leftward.items edge d) at.now ≡ false) }
    {
        let aim_back = heading(at, back);
        let past = self.first_past(at, &aim_back);
        let first = self.first_exit(at);
        let after = self.free_exit(links, walk, at, past);
        match after {
            Some(edge) => Some(edge),
            None => self.free_exit(links, walk, at, first),
        }
    }

    // Whether at the point the edge is taken before the best so far.
    fn is_better(&self, edge: usize, best: Option<usize>, at: &Point, back: &Heading) -> bool
        requires sides { length self.now.leftward.items ≡ length self.now.edges.now }
        requires edge { edge < length self.now.edges.now }
        requires best { IfSome best (λ number. number < length self.now.edges.now) }
        ensures none { IfNone best (result ≡ true) }
        ensures some { IfSome best (λ number. (d : Way) → result ≡ is_taken_before at.now (parts_of back.now) (way_at self.now.edges.now self.now.leftward.items edge d) (way_at self.now.edges.now self.now.leftward.items number d)) }
    {
        match best {
            Some(best) => self.way(edge).is_before(&self.way(best), at, back),
            None => true,
        }
    }

    // The edge on which a walk goes on, as `next` says, found among all spokes at the point.
    fn next_of_all(&self, walk: &Walk, at: &Point, number: usize, back: &Point) -> Option<usize>
        requires spokes { AreSpokesOf self.now.edges.now self.now.spokes.items }
        requires sides { length self.now.leftward.items ≡ length self.now.edges.now }
        requires marks { length walk.now.walked ≡ length self.now.edges.now }
        requires number { IsFirstAt self.now.spokes.items at.now number }
        ensures some { IfSome result (λ edge. IsOpenAt self.now.edges.now walk.now edge at.now) }
        ensures first { IfSome result (λ edge. at.now ≢ back.now → IsTakenFirst self.now.edges.now self.now.leftward.items walk.now at.now (aim at.now back.now) edge) }
        ensures none { IfNone result (IsNoneOpenAt self.now.edges.now walk.now at.now) }
    {
        let way_back = heading(at, back);
        let mut best = None;
        for place in number..self.spokes.len() {
            let spoke = self.spokes[place];
            if spoke.at != *at {
                return best;
            }
            let edge = spoke.edge;
            if !walk.is_walked(edge) && self.is_better(edge, best, at, &way_back) {
                best = Some(edge);
            }
        }
        best
    }

    /// The edge on which a walk goes on that came to the point of that number from `back`: of the edges there that are not walked and lead away, the
    /// first one that a clockwise turn from the direction back meets; where none leads away, one that is not walked; else none.
    ///
    /// An edge that leads away is found by a search among the sorted exits, and by links past those that are walked: n edges take steps in the order of
    /// n log n, however many meet at one point. All spokes at the point are looked at only where no edge leads away. Where as many edges lead to
    /// each point as away from it, as is so of the borders of a region, that is where a walk ends, which is once at most for each point. Were it
    /// otherwise, a point of m edges could take m times m steps.
    pub fn next(
        &self,
        links: &mut Vec<usize>,
        walk: &Walk,
        at: &Point,
        number: usize,
        back: &Point,
    ) -> Option<usize>
        requires exits { AreExitsOf self.now.edges.now self.now.leftward.items self.now.exits.items }
        requires links { AreLinksOf self.now.exits.items walk.now links.old.items }
        requires spokes { AreSpokesOf self.now.edges.now self.now.spokes.items }
        requires sides { length self.now.leftward.items ≡ length self.now.edges.now }
        requires marks { length walk.now.walked ≡ length self.now.edges.now }
        requires number { IsFirstAt self.now.spokes.items at.now number }
        ensures links { AreLinksOf self.now.exits.items walk.now links.new.items }
        ensures some { IfSome result (λ edge. IsOpenAt self.now.edges.now walk.now edge at.now) }
        ensures first { IfSome result (λ edge. at.now ≢ back.now → IsTakenFirst self.now.edges.now self.now.leftward.items walk.now at.now (aim at.now back.now) edge) }
        ensures none { IfNone result (IsNoneOpenAt self.now.edges.now walk.now at.now) }
    {
        match self.exit(links, walk, at, back) {
            Some(edge) => Some(edge),
            None => self.next_of_all(walk, at, number, back),
        }
    }
}
