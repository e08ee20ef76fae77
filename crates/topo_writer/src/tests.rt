// Worked maps, whole texts.
use crate::text;
use crate::writer::bytes_of;
use agg_base::{NoMemory, Text};
use arc_dissolve::{Regions, Shape};
use plane_edge::{Frame, Point};
use std::alloc::Global;
use std::process::Abort;
use std::test::Fail;

// An arc of these points.
fn arc(rt: &impl Abort, alloc: Global, places: &[(i64, i64)]) -> Result<Vec<Point>, NoMemory> {
    let mut arc = Vec::new(alloc);
    for (x, y) in places {
        arc.push(Point::of(*x, *y).expect(rt, "a point"))?;
    }
    Ok(arc)
}

// A region of one polygon with these rings.
fn shape(alloc: Global, class: &str, rings: &[&[i64]]) -> Result<Shape, NoMemory> {
    let mut polygon = Vec::new(alloc);
    for ring in rings {
        polygon.push(Vec::from_slice(alloc, *ring)?)?;
    }
    let mut polygons = Vec::new(alloc);
    polygons.push(polygon)?;
    Ok(Shape {
        class: Text::of(alloc, class)?,
        polygons,
    })
}

fn unit_frame(alloc: Global) -> Result<Frame, NoMemory> {
    Ok(Frame::Scaled {
        sx: Text::of(alloc, "1")?,
        sy: Text::of(alloc, "1")?,
        tx: Text::of(alloc, "0")?,
        ty: Text::of(alloc, "0")?,
    })
}

#[test]
fn an_empty_map(rt: HostRuntime) -> Result<(), Fail> {
    let alloc = rt.alloc();
    let regions = Regions {
        arcs: Vec::new(alloc),
        shapes: Vec::new(alloc),
    };
    let bytes = text(alloc, &regions, &Frame::Plain)?;
    let want =
        b"{\"type\":\"Topology\",\"objects\":{\"regions\":{\"type\":\"GeometryCollection\",\"geometries\":[]}},\"arcs\":[]}\n";
    assert_eq!(rt; bytes.as_slice(), want.as_slice());
    Ok(())
}

#[test]
fn one_region_with_a_ring(rt: HostRuntime) -> Result<(), Fail> {
    let alloc = rt.alloc();
    let places = [
        (0, 0),
        (1, 0),
        (2, 0),
        (3, 0),
        (3, 1),
        (2, 1),
        (1, 1),
        (0, 1),
        (0, 0),
    ];
    let mut arcs = Vec::new(alloc);
    arcs.push(arc(&rt, alloc, &places)?)?;
    let mut shapes = Vec::new(alloc);
    shapes.push(shape(alloc, "1", &[&[0]])?)?;
    let regions = Regions { arcs, shapes };
    let bytes = bytes_of(alloc, &regions, &unit_frame(alloc)?)?;
    let want =
        b"{\"type\":\"Topology\",\"transform\":{\"scale\":[1,1],\"translate\":[0,0]},\"objects\":{\"regions\":{\"type\":\"GeometryCollection\",\"geometries\":[{\"type\":\"MultiPolygon\",\"id\":0,\"properties\":{\"class\":\"1\"},\"arcs\":[[[0]]]}]}},\"arcs\":[[[0,0],[1,0],[1,0],[1,0],[0,1],[-1,0],[-1,0],[-1,0],[0,-1]]]}\n";
    assert_eq!(rt; bytes.as_slice(), want.as_slice());
    Ok(())
}

#[test]
fn two_regions_share_an_arc(rt: HostRuntime) -> Result<(), Fail> {
    let alloc = rt.alloc();
    let mut arcs = Vec::new(alloc);
    arcs.push(arc(&rt, alloc, &[(1, 0), (0, 0), (0, 1), (1, 1)])?)?;
    arcs.push(arc(&rt, alloc, &[(1, 0), (2, 0), (2, 1), (1, 1)])?)?;
    arcs.push(arc(&rt, alloc, &[(1, 0), (1, 1)])?)?;
    let mut shapes = Vec::new(alloc);
    shapes.push(shape(alloc, "1", &[&[-1, 2]])?)?;
    shapes.push(shape(alloc, "2", &[&[1, -3]])?)?;
    let regions = Regions { arcs, shapes };
    let bytes = bytes_of(alloc, &regions, &unit_frame(alloc)?)?;
    let want =
        b"{\"type\":\"Topology\",\"transform\":{\"scale\":[1,1],\"translate\":[0,0]},\"objects\":{\"regions\":{\"type\":\"GeometryCollection\",\"geometries\":[{\"type\":\"MultiPolygon\",\"id\":0,\"properties\":{\"class\":\"1\"},\"arcs\":[[[-1,2]]]},{\"type\":\"MultiPolygon\",\"id\":1,\"properties\":{\"class\":\"2\"},\"arcs\":[[[1,-3]]]}]}},\"arcs\":[[[1,0],[-1,0],[0,1],[1,0]],[[1,0],[1,0],[0,1],[-1,0]],[[1,0],[0,1]]]}\n";
    assert_eq!(rt; bytes.as_slice(), want.as_slice());
    Ok(())
}

#[test]
fn a_plain_frame_and_an_escaped_class(rt: HostRuntime) -> Result<(), Fail> {
    let alloc = rt.alloc();
    let mut arcs = Vec::new(alloc);
    arcs.push(arc(&rt, alloc, &[(5, 5), (9, 5), (5, 9), (5, 5)])?)?;
    arcs.push(arc(&rt, alloc, &[(6, 6), (7, 6), (6, 7), (6, 6)])?)?;
    let mut shapes = Vec::new(alloc);
    shapes.push(shape(alloc, "a\"b\\c/d", &[&[0], &[-2]])?)?;
    let regions = Regions { arcs, shapes };
    let bytes = bytes_of(alloc, &regions, &Frame::Plain)?;
    let want =
        b"{\"type\":\"Topology\",\"objects\":{\"regions\":{\"type\":\"GeometryCollection\",\"geometries\":[{\"type\":\"MultiPolygon\",\"id\":0,\"properties\":{\"class\":\"a\\\"b\\\\c/d\"},\"arcs\":[[[0],[-2]]]}]}},\"arcs\":[[[5,5],[9,5],[5,9],[5,5]],[[6,6],[7,6],[6,7],[6,6]]]}\n";
    assert_eq!(rt; bytes.as_slice(), want.as_slice());
    Ok(())
}
