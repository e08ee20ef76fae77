// Worked maps, whole texts.
ghost use Rattle.std.specs.Prelude.{◌<◌, ◌≤◌, All, EachIndex, IsTrue, slice_index};
ghost use Rattle.topo_writer.specs.Drawing.{IsWritableClass};
ghost use Rattle.map_values.specs.Frames.{IsNumberFrame};
ghost use Rattle.map_drawing.specs.Drawn.{IsDrawable};

use crate::draw;
use agg_base::limits::AREAS;
use agg_base::{NoMemory, Text};
use agg_model::Grouping;
use coverage_check::{Checked, check};
use crew_work::Alone;
use json_text::is_number;
use plane_edge::{Area, Coverage, Frame, Point};
use std::alloc::Global;
use std::process::Abort;
use std::test::Fail;

// The points with these coordinates, x before y.
fn path(rt: &impl Abort, alloc: Global, corners: &[[i64; 2]]) -> Result<Vec<Point>, Fail> {
    let mut path = Vec::new(alloc);
    for [x, y] in corners {
        path.push(Point::of(*x, *y).expect(rt, "a coordinate past the limit"))?;
    }
    Ok(path)
}

// The area of some rings.
fn area(rt: &impl Abort, alloc: Global, outlines: &[&[[i64; 2]]]) -> Result<Area, Fail> {
    let mut rings = Vec::new(alloc);
    for corners in outlines {
        rings.push(path(rt, alloc, corners)?)?;
    }
    Ok(Area::of_rings(alloc, Text::of(alloc, "own")?, &rings)?)
}

// The area of some cells of a grid, each told by its lowest corner.
fn patch(rt: &impl Abort, alloc: Global, cells: &[[i32; 2]]) -> Result<Area, Fail> {
    let mut rings = Vec::new(alloc);
    for [left, low] in cells {
        let (x, y) = (i64::from(*left), i64::from(*low));
        let corners = [[x, y], [x + 1, y], [x + 1, y + 1], [x, y + 1]];
        rings.push(path(rt, alloc, &corners)?)?;
    }
    Ok(Area::of_rings(alloc, Text::of(alloc, "own")?, &rings)?)
}

// A frame with these four numbers.
fn scaled(alloc: Global, sx: &str, sy: &str, tx: &str, ty: &str) -> Result<Frame, NoMemory> {
    Ok(Frame::Scaled {
        sx: Text::of(alloc, sx)?,
        sy: Text::of(alloc, sy)?,
        tx: Text::of(alloc, tx)?,
        ty: Text::of(alloc, ty)?,
    })
}

// The checked map of these areas.
fn checked(
    rt: &impl Abort,
    alloc: Global,
    areas: Vec<Area>,
    frame: Frame,
) -> Result<Checked, Fail> {
    let coverage = Coverage::of(areas, 0, frame).expect(rt, "too many areas or steps");
    match check(alloc, coverage, &Alone) {
        Ok(checked) => Ok(checked),
        Err(_) => Err(Fail::new("a fault of the coverage")),
    }
}

// The names of the classes 0, 1 and 2.
fn names(alloc: Global) -> Result<Vec<Text>, NoMemory> {
    let mut names = Vec::new(alloc);
    for name in ["1", "2", "a"] {
        names.push(Text::of(alloc, name)?)?;
    }
    Ok(names)
}

// Whether all regions are below the number of regions.
fn are_regions_below(region_of: &[u32], regions: usize) -> bool
    ensures { IsTrue result → EachIndex region_of.now (λ v. slice_index region_of.now v < regions) }
{
    for region in region_of {
        if *region as usize >= regions {
            return false;
        }
    }
    true
}

// Whether all classes are below the number of classes.
fn are_classes_below(class_of: &[u8], classes: usize) -> bool
    ensures { IsTrue result → EachIndex class_of.now (λ r. slice_index class_of.now r < classes) }
{
    for class in class_of {
        if *class as usize >= classes {
            return false;
        }
    }
    true
}

// Whether all bytes are those of characters that can be printed.
fn are_printed(bytes: &[u8]) -> bool
    ensures { IsTrue result → All (λ byte. 32 ≤ byte) bytes.now }
{
    for byte in bytes {
        if *byte < 32 {
            return false;
        }
    }
    true
}

// Whether a class can have this name.
fn is_class_name(name: &Text) -> bool
    ensures { IsTrue result → IsWritableClass name.now }
{
    let bytes = name.as_str().as_bytes();
    let printed = are_printed(bytes);
    bytes.len() >= 1 && bytes.len() <= 100 && printed
}

// Whether classes can have these names.
fn are_class_names(names: &[Text]) -> bool
    ensures { IsTrue result → All IsWritableClass names.now }
{
    for name in names {
        if !is_class_name(name) {
            return false;
        }
    }
    true
}

// Whether the texts of a frame are numbers.
fn is_number_frame(frame: &Frame) -> bool
    ensures { IsTrue result → IsNumberFrame frame.now }
{
    match frame {
        Frame::Plain => true,
        Frame::Scaled { sx, sy, tx, ty } => {
            let scales = is_number(sx.as_str().as_bytes()) && is_number(sy.as_str().as_bytes());
            scales && is_number(tx.as_str().as_bytes()) && is_number(ty.as_str().as_bytes())
        }
    }
}

// Whether the grouping can be drawn with these names.
fn is_drawable(checked: &Checked, grouping: &Grouping, names: &[Text]) -> bool
    ensures { IsTrue result → IsDrawable checked.now grouping.now names.now }
{
    let regions = grouping.class_of.len();
    let one_each = grouping.region_of.len() == checked.areas();
    let in_range = are_regions_below(&grouping.region_of, regions);
    let classes = are_classes_below(&grouping.class_of, names.len());
    let named = are_class_names(names);
    let numbers = is_number_frame(checked.frame());
    one_each && regions <= AREAS && in_range && classes && named && numbers
}

// Tries that the map of regions of areas is this text, where the classes have the names `1`, `2` and `a`.
fn expect(
    rt: &impl Abort,
    alloc: Global,
    checked: &Checked,
    region_of: &[u32],
    class_of: &[u8],
    want: &[u8],
) -> Result<(), Fail> {
    let grouping = Grouping {
        region_of: Vec::from_slice(alloc, region_of)?,
        class_of: Vec::from_slice(alloc, class_of)?,
    };
    let names = names(alloc)?;
    let drawable = is_drawable(checked, &grouping, &names);
    assert!(rt; drawable);
    let text = draw(alloc, checked, &grouping, &names)?;
    assert_eq!(rt; text.as_slice(), want);
    Ok(())
}

// Tries the same for areas of cells, with a frame of steps of one cell.
fn expect_cells(
    rt: &impl Abort,
    alloc: Global,
    patches: &[&[[i32; 2]]],
    region_of: &[u32],
    class_of: &[u8],
    want: &[u8],
) -> Result<(), Fail> {
    let mut areas = Vec::new(alloc);
    for cells in patches {
        areas.push(patch(rt, alloc, cells)?)?;
    }
    let frame = scaled(alloc, "1", "1", "0", "0")?;
    let checked = checked(rt, alloc, areas, frame)?;
    expect(rt, alloc, &checked, region_of, class_of, want)
}

const HOLLOW: [[i32; 2]; 8] = [
    [0, 0],
    [1, 0],
    [2, 0],
    [0, 1],
    [2, 1],
    [0, 2],
    [1, 2],
    [2, 2],
];

// Three cells in a row, one region.
#[test]
fn a_row_of_one_region(rt: HostRuntime) -> Result<(), Fail> {
    let want =
        b"{\"type\":\"Topology\",\"transform\":{\"scale\":[1,1],\"translate\":[0,0]},\"objects\":{\"regions\":{\"type\":\"GeometryCollection\",\"geometries\":[{\"type\":\"MultiPolygon\",\"id\":0,\"properties\":{\"class\":\"1\"},\"arcs\":[[[0]]]}]}},\"arcs\":[[[0,0],[1,0],[1,0],[1,0],[0,1],[-1,0],[-1,0],[-1,0],[0,-1]]]}\n";
    expect_cells(
        &rt,
        rt.alloc(),
        &[&[[0, 0]], &[[1, 0]], &[[2, 0]]],
        &[0, 0, 0],
        &[0],
        want,
    )
}

// Two cells side by side.
#[test]
fn neighbours_share_an_arc(rt: HostRuntime) -> Result<(), Fail> {
    let want =
        b"{\"type\":\"Topology\",\"transform\":{\"scale\":[1,1],\"translate\":[0,0]},\"objects\":{\"regions\":{\"type\":\"GeometryCollection\",\"geometries\":[{\"type\":\"MultiPolygon\",\"id\":0,\"properties\":{\"class\":\"1\"},\"arcs\":[[[-1,2]]]},{\"type\":\"MultiPolygon\",\"id\":1,\"properties\":{\"class\":\"2\"},\"arcs\":[[[1,-3]]]}]}},\"arcs\":[[[1,0],[-1,0],[0,1],[1,0]],[[1,0],[1,0],[0,1],[-1,0]],[[1,0],[0,1]]]}\n";
    expect_cells(
        &rt,
        rt.alloc(),
        &[&[[0, 0]], &[[1, 0]]],
        &[0, 1],
        &[0, 1],
        want,
    )
}

// Two cells that touch at a corner, the upper one first.
#[test]
fn regions_may_touch_at_a_corner(rt: HostRuntime) -> Result<(), Fail> {
    let want =
        b"{\"type\":\"Topology\",\"transform\":{\"scale\":[1,1],\"translate\":[0,0]},\"objects\":{\"regions\":{\"type\":\"GeometryCollection\",\"geometries\":[{\"type\":\"MultiPolygon\",\"id\":0,\"properties\":{\"class\":\"1\"},\"arcs\":[[[-2]]]},{\"type\":\"MultiPolygon\",\"id\":1,\"properties\":{\"class\":\"1\"},\"arcs\":[[[0]]]}]}},\"arcs\":[[[1,1],[0,-1],[1,0],[0,1],[-1,0]],[[1,1],[-1,0],[0,1],[1,0],[0,-1]]]}\n";
    expect_cells(
        &rt,
        rt.alloc(),
        &[&[[0, 1]], &[[1, 0]]],
        &[0, 1],
        &[0, 0],
        want,
    )
}

// Nine cells without the middle one.
#[test]
fn a_hole_stands_behind_its_shell(rt: HostRuntime) -> Result<(), Fail> {
    let want =
        b"{\"type\":\"Topology\",\"transform\":{\"scale\":[1,1],\"translate\":[0,0]},\"objects\":{\"regions\":{\"type\":\"GeometryCollection\",\"geometries\":[{\"type\":\"MultiPolygon\",\"id\":0,\"properties\":{\"class\":\"1\"},\"arcs\":[[[0],[-2]]]}]}},\"arcs\":[[[0,0],[1,0],[1,0],[1,0],[0,1],[0,1],[0,1],[-1,0],[-1,0],[-1,0],[0,-1],[0,-1],[0,-1]],[[1,1],[1,0],[0,1],[-1,0],[0,-1]]]}\n";
    expect_cells(&rt, rt.alloc(), &[&HOLLOW], &[0], &[0], want)
}

// The same, and the middle one.
#[test]
fn an_island_shares_the_arc_of_its_hole(rt: HostRuntime) -> Result<(), Fail> {
    let want =
        b"{\"type\":\"Topology\",\"transform\":{\"scale\":[1,1],\"translate\":[0,0]},\"objects\":{\"regions\":{\"type\":\"GeometryCollection\",\"geometries\":[{\"type\":\"MultiPolygon\",\"id\":0,\"properties\":{\"class\":\"1\"},\"arcs\":[[[0],[-2]]]},{\"type\":\"MultiPolygon\",\"id\":1,\"properties\":{\"class\":\"2\"},\"arcs\":[[[1]]]}]}},\"arcs\":[[[0,0],[1,0],[1,0],[1,0],[0,1],[0,1],[0,1],[-1,0],[-1,0],[-1,0],[0,-1],[0,-1],[0,-1]],[[1,1],[1,0],[0,1],[-1,0],[0,-1]]]}\n";
    expect_cells(
        &rt,
        rt.alloc(),
        &[&HOLLOW, &[[1, 1]]],
        &[0, 1],
        &[0, 1],
        want,
    )
}

// A square whose frame has numbers with fractions.
#[test]
fn a_frame_keeps_its_characters(rt: HostRuntime) -> Result<(), Fail> {
    let alloc = rt.alloc();
    let mut areas = Vec::new(alloc);
    areas.push(area(&rt, alloc, &[&[[0, 0], [2, 0], [2, 2], [0, 2]]])?)?;
    let frame = scaled(
        alloc,
        "0.0036000360003600037",
        "0.0017361",
        "-180",
        "-85.60903777459771",
    )?;
    let checked = checked(&rt, alloc, areas, frame)?;
    let want =
        b"{\"type\":\"Topology\",\"transform\":{\"scale\":[0.0036000360003600037,0.0017361],\"translate\":[-180,-85.60903777459771]},\"objects\":{\"regions\":{\"type\":\"GeometryCollection\",\"geometries\":[{\"type\":\"MultiPolygon\",\"id\":0,\"properties\":{\"class\":\"a\"},\"arcs\":[[[0]]]}]}},\"arcs\":[[[0,0],[2,0],[0,2],[-2,0],[0,-2]]]}\n";
    expect(&rt, alloc, &checked, &[0], &[2], want)
}

// An area with a hole and the area in the hole, one region: the hole is gone.
#[test]
fn inner_borders_vanish(rt: HostRuntime) -> Result<(), Fail> {
    let alloc = rt.alloc();
    let mut areas = Vec::new(alloc);
    let shell = [[0, 0], [6, 0], [6, 6], [0, 6]];
    areas.push(area(&rt, alloc, &[&shell, &[[2, 2], [2, 4], [4, 4], [4, 2]]])?)?;
    areas.push(area(&rt, alloc, &[&[[2, 2], [4, 2], [4, 4], [2, 4]]])?)?;
    let checked = checked(&rt, alloc, areas, Frame::Plain)?;
    let want =
        b"{\"type\":\"Topology\",\"objects\":{\"regions\":{\"type\":\"GeometryCollection\",\"geometries\":[{\"type\":\"MultiPolygon\",\"id\":0,\"properties\":{\"class\":\"1\"},\"arcs\":[[[0]]]}]}},\"arcs\":[[[0,0],[6,0],[6,6],[0,6],[0,0]]]}\n";
    expect(&rt, alloc, &checked, &[0, 0], &[0], want)
}
