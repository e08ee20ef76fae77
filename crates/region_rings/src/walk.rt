// A walk along edges, which cuts off rings.
use agg_base::NoMemory;
use plane_edge::Point;
use std::alloc::Global;
use std::marker::Model;

/// Which edges are walked, the path that is left once rings are cut off, and the rings. Each point has a number; the place at which the path came
/// to a point last is noted under its number.
#[derive(Drop)]
pub struct Walk {
    walked: Vec<bool>,
    path: Vec<Point>,
    places: Vec<usize>,
    rings: Vec<Vec<Point>>,
}

impl Model for Walk {
    ghost use Rattle.std.specs.Prelude.{map};
    ghost use Rattle.region_rings.specs.Walks.{Walk};

    ghost Value = { Walk };

    ghost view = { λ w. record { walked = w.walked.items; path = w.path.items; places = w.places.items; rings = map (λ r. r.items) w.rings.items } };
}

ghost use Rattle.std.specs.Prelude.{◌≡◌, ◌<◌, length, map, replicate, true, false, [], IfOk, IfSome, IfNone, OnOk, slice_index, slice_index_or};
ghost use Rattle.region_rings.specs.Walks.{along, beginning, onto, cut_at, is_visited, reaching};

impl Walk {
    /// A walk before its first step, along so many edges and over so many numbers of points.
    pub fn of(alloc: Global, edges: usize, numbers: usize) -> Result<Walk, NoMemory>
        ensures { IfOk result (λ w. w ≡ record { walked = replicate edges false; path = []; places = replicate numbers 0; rings = [] }) }
    {
        let walked = vec![in alloc; false; edges]?;
        let places = vec![in alloc; 0; numbers]?;
        Ok(Walk {
            walked,
            path: Vec::new(alloc),
            places,
            rings: Vec::new(alloc),
        })
    }

    /// Whether the edge of that number is walked.
    pub fn is_walked(&self, edge: usize) -> bool
        requires { edge < length self.now.walked }
        ensures { result ≡ slice_index_or self.now.walked edge true }
    {
        self.walked[edge]
    }

    /// Begins a path at the point of that number.
    pub fn begin(&mut self, point: Point, number: usize) -> Result<(), NoMemory>
        requires { number < length self.old.places }
        ensures { OnOk result (self.new ≡ beginning point number self.old) }
    {
        self.path.clear();
        self.path.push(point)?;
        self.places[number] = 0;
        Ok(())
    }

    // Whether the path has been at the point of that number.
    fn is_at(&self, point: &Point, number: usize) -> bool
        requires { number < length self.now.places }
        ensures { result ≡ is_visited point.now number self.now }
    {
        let place = self.places[number];
        place < self.path.len() && self.path[place] == *point
    }

    // Goes on to the point of that number.
    fn go_on(&mut self, point: Point, number: usize) -> Result<(), NoMemory>
        requires { number < length self.old.places }
        ensures { OnOk result (self.new ≡ onto point number self.old) }
    {
        self.places[number] = self.path.len();
        self.path.push(point)?;
        Ok(())
    }

    // Cuts off the path since that place as a ring.
    fn cut_off(&mut self, alloc: Global, place: usize) -> Result<(), NoMemory>
        requires { place < length self.old.path }
        ensures { OnOk result (self.new ≡ cut_at place self.old) }
    {
        let ring = Vec::from_slice(alloc, &self.path[place..])?;
        self.rings.push(ring)?;
        self.path.truncate(place + 1);
        Ok(())
    }

    /// Walks along an edge to the point of that number, and cuts off a ring where the path has been there.
    pub fn go(
        &mut self,
        alloc: Global,
        edge: usize,
        to: Point,
        number: usize,
    ) -> Result<(), NoMemory>
        requires edge { edge < length self.old.walked }
        requires number { number < length self.old.places }
        ensures { OnOk result (self.new ≡ reaching to number (along edge self.old)) }
    {
        self.walked[edge] = true;
        if self.is_at(&to, number) {
            let place = self.places[number];
            self.cut_off(alloc, place)?;
        } else {
            self.go_on(to, number)?;
        }
        Ok(())
    }

    /// The rings that were cut off.
    pub fn into_rings(self) -> Vec<Vec<Point>>
        ensures { map (λ r. r.items) result.items ≡ self.rings }
    {
        let Walk {
            walked: _,
            path: _,
            places: _,
            rings,
        } = self;
        rings
    }
}
