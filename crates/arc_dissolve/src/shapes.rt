// Maps of regions.
use agg_base::Text;
use plane_edge::Point;
use std::marker::Model;

/// A drawn region: its class text, and its polygons. A polygon is a list of rings, its shell before its holes, and a ring a list of
/// indexes of arcs, one or more, that go round it. Indexes are those of TopoJSON 1.0: i is arc i in its direction, -i - 1 is arc i backwards.
#[derive(Drop)]
pub struct Shape {
    /// The class text.
    pub class: Text,
    /// The polygons, each as its rings, each as its indexes.
    pub polygons: Vec<Vec<Vec<i64>>>,
}

impl Model for Shape {
    ghost use Rattle.arc_dissolve.specs.Shapes.{Shape};
    ghost use Rattle.agg_base.specs.Lists.{nested_of, lists_of};

    ghost Value = { Shape };

    ghost view = { λ s. record { class = s.class; polygons = nested_of s.polygons.items } };
}

/// A drawn map: the arcs, each as its points, two or more, and the regions in their order.
#[derive(Drop)]
pub struct Regions {
    /// The arcs, in the order of their lists of points.
    pub arcs: Vec<Vec<Point>>,
    /// The regions, in their order.
    pub shapes: Vec<Shape>,
}

impl Model for Regions {
    ghost use Rattle.agg_base.specs.Lists.{lists_of};
    ghost use Rattle.arc_dissolve.specs.Shapes.{Regions};

    ghost Value = { Regions };

    ghost view = { λ r. record { arcs = lists_of r.arcs.items; shapes = r.shapes.items } };
}
