// Worked maps, and the first rule that a value breaks.
use crate::{Pick, TopoFault, layer_or_fault, layer_without_fault, one_fault, one_layer_law, read};
use agg_base::Text;
use json_text::lists_within_text;
use plane_edge::{Area, Coverage, Frame, Limit};
use std::alloc::Global;
use std::test::Fail;

// The map of a text of JSON that is short enough.
fn map_of(
    alloc: Global,
    text: &[u8],
    class: &str,
    object: Option<&str>,
) -> Result<Coverage, TopoFault> {
    if text.len() > 10_000_000 {
        return Err(TopoFault::Memory);
    }
    lists_within_text();
    let Ok(tree) = json_text::read(alloc, text) else {
        return Err(TopoFault::Memory);
    };
    let object = match object {
        Some(name) => Some(Text::of(alloc, name)?),
        None => None,
    };
    let class = Text::of(alloc, class)?;
    let pick = Pick { class, object };
    read(alloc, &tree, &pick)
}

// The fault of a text, with the object t and the class member c; None where it spells a map.
fn fault(alloc: Global, text: &[u8]) -> Option<TopoFault> {
    match map_of(alloc, text, "c", Some("t")) {
        Ok(_) => None,
        Err(fault) => Some(fault),
    }
}

// Whether the area has a step with these ends, the lesser first.
fn has_step(area: &Area, x1: i32, y1: i32, x2: i32, y2: i32) -> bool {
    area.steps().iter().any(|step| {
        step.low().x == x1 && step.low().y == y1 && step.high().x == x2 && step.high().y == y2
    })
}

const QUANTISED: &[u8] =
    b"{\"type\":\"Topology\",\"transform\":{\"scale\":[0.0036000360003600037,0.0017361],\"translate\":[-180,-85.60903777459771]},\"objects\":{\"t\":{\"type\":\"GeometryCollection\",\"geometries\":[{\"type\":\"Polygon\",\"properties\":{\"class\":\"a\"},\"arcs\":[[-1]]}]}},\"arcs\":[[[0,0],[0,2],[2,0],[0,-2],[-2,0]]]}";

#[test]
fn steps_are_added(rt: HostRuntime) -> Result<(), Fail> {
    let map = map_of(rt.alloc(), QUANTISED, "class", Some("t"))?;
    assert_eq!(rt; map.passed, 0);
    assert_eq!(rt; map.areas.len(), 1);
    let area = &map.areas[0];
    assert_eq!(rt; area.class().as_str(), "a");
    assert_eq!(rt; area.steps().len(), 4);
    assert!(rt; has_step(area, 0, 0, 0, 2));
    assert!(rt; has_step(area, 0, 2, 2, 2));
    assert!(rt; has_step(area, 2, 0, 2, 2));
    assert!(rt; has_step(area, 0, 0, 2, 0));
    let is_kept = match &map.frame {
        Frame::Plain => false,
        Frame::Scaled { sx, sy, tx, ty } => {
            sx.as_str() == "0.0036000360003600037"
                && sy.as_str() == "0.0017361"
                && tx.as_str() == "-180"
                && ty.as_str() == "-85.60903777459771"
        }
    };
    assert!(rt; is_kept);
    Ok(())
}

const ASTRAY: &[u8] =
    b"{\"type\":\"Topology\",\"transform\":{\"scale\":[0.0036000360003600037,0.0017361],\"translate\":[-180,-85.60903777459771]},\"objects\":{\"t\":{\"type\":\"GeometryCollection\",\"geometries\":[{\"type\":\"Polygon\",\"properties\":{\"class\":\"a\"},\"arcs\":[[-2]]}]}},\"arcs\":[[[0,0],[0,2],[2,0],[0,-2],[-2,0]]]}";

// A square with a hole: arc 0 goes round half of the square and arc 1 round the other half, both from the same corner, and arc 2 round the hole.
const HOLED: &[u8] =
    b"{\"type\":\"Topology\",\"objects\":{\"t\":{\"type\":\"x\"},\"t\":{\"type\":\"GeometryCollection\",\"geometries\":[null,{\"type\":null},{\"type\":\"MultiPolygon\",\"id\":7,\"properties\":{\"c\":\"no\",\"c\":-7.0},\"arcs\":[[[0,-2],[2]],[[2]]]}]}},\"arcs\":[[[0,0],[9,0,5],[9,9]],[[0,0.0],[-0,9],[9,9]],[[2,2],[2,4],[4,4],[2,2]]]}";

#[test]
fn rings_are_joined(rt: HostRuntime) -> Result<(), Fail> {
    assert_eq!(rt;
        map_of(rt.alloc(), ASTRAY, "class", Some("t")).err(),
        Some(TopoFault::BadIndex { place: 0 })
    );
    let map = map_of(rt.alloc(), HOLED, "c", None)?;
    assert_eq!(rt; map.passed, 2);
    assert_eq!(rt; map.areas.len(), 1);
    let area = &map.areas[0];
    assert_eq!(rt; area.class().as_str(), "-7");
    assert_eq!(rt; area.steps().len(), 10);
    assert!(rt; has_step(area, 0, 9, 9, 9));
    assert!(rt; has_step(area, 2, 4, 4, 4));
    assert!(rt; matches!(&map.frame, Frame::Plain));
    Ok(())
}

// Each fault comes before those of later rules, which most of these texts break too.
#[test]
fn rules_in_their_order(rt: HostRuntime) {
    for (text, want) in [
        (b"[]".as_slice(), Some(TopoFault::NotTopology)),
        (
            b"{\"type\":\"topology\",\"objects\":{},\"arcs\":[0]}".as_slice(),
            Some(TopoFault::NotTopology),
        ),
        (
            b"{\"type\":\"Topology\",\"objects\":[],\"arcs\":[0]}".as_slice(),
            Some(TopoFault::NotTopology),
        ),
        (
            b"{\"type\":\"Topology\",\"objects\":{},\"arcs\":{}}".as_slice(),
            Some(TopoFault::NotTopology),
        ),
        (
            b"{\"type\":\"Topology\",\"transform\":null,\"objects\":{},\"arcs\":[0]}".as_slice(),
            Some(TopoFault::NotTopology),
        ),
        (
            b"{\"type\":\"Topology\",\"transform\":{\"scale\":[1,1],\"translate\":[0,0,0]},\"objects\":{},\"arcs\":[0]}".as_slice(),
            Some(TopoFault::NotTopology),
        ),
        (
            b"{\"type\":\"Topology\",\"objects\":{\"s\":null},\"arcs\":[0]}".as_slice(),
            Some(TopoFault::NoObject),
        ),
        (
            b"{\"type\":\"Topology\",\"objects\":{\"t\":{\"type\":\"GeometryCollection\"}},\"arcs\":[[[0.5,0],[1]]]}".as_slice(),
            Some(TopoFault::BadArc { arc: 0 }),
        ),
        (
            b"{\"type\":\"Topology\",\"objects\":{\"t\":null},\"arcs\":[[[0,0]]]}".as_slice(),
            Some(TopoFault::BadArc { arc: 0 }),
        ),
        (
            b"{\"type\":\"Topology\",\"objects\":{\"t\":null},\"arcs\":[[[0,0],[1,0]],[[9999999999,0],[1e0,0]],[]]}".as_slice(),
            Some(TopoFault::NotWhole { arc: 1 }),
        ),
        (
            b"{\"type\":\"Topology\",\"objects\":{\"t\":null},\"arcs\":[[[0,0],[1073741825,0]],[]]}".as_slice(),
            Some(TopoFault::Limit(Limit::Coordinate)),
        ),
        (
            b"{\"type\":\"Topology\",\"objects\":{\"t\":null},\"arcs\":[[[0,0],[99999999999999999999,0]]]}".as_slice(),
            Some(TopoFault::Limit(Limit::Coordinate)),
        ),
        (
            b"{\"type\":\"Topology\",\"transform\":{\"scale\":[1,1],\"translate\":[0,0]},\"objects\":{\"t\":null},\"arcs\":[[[1073741824,0],[0,-1],[1,0]]]}".as_slice(),
            Some(TopoFault::Limit(Limit::Coordinate)),
        ),
        (
            b"{\"type\":\"Topology\",\"objects\":{\"t\":{\"type\":\"GeometryCollection\",\"arcs\":[]}},\"arcs\":[]}".as_slice(),
            Some(TopoFault::NotPolygonal { place: 0 }),
        ),
        (
            b"{\"type\":\"Topology\",\"objects\":{\"t\":{\"type\":\"GeometryCollection\",\"geometries\":[null,{\"type\":null},{\"arcs\":[]}]}},\"arcs\":[]}".as_slice(),
            Some(TopoFault::NotPolygonal { place: 2 }),
        ),
        (
            b"{\"type\":\"Topology\",\"objects\":{\"t\":{\"type\":\"GeometryCollection\",\"geometries\":[{\"type\":\"Point\",\"properties\":{\"c\":\"a\"},\"arcs\":[[0]]}]}},\"arcs\":[[[0,0],[2,0],[2,2],[0,2],[0,0]]]}".as_slice(),
            Some(TopoFault::NotPolygonal { place: 0 }),
        ),
        (
            b"{\"type\":\"Topology\",\"objects\":{\"t\":{\"type\":\"GeometryCollection\",\"geometries\":[{\"type\":\"Polygon\",\"properties\":{},\"arcs\":[[0,null]]}]}},\"arcs\":[[[0,0],[2,0],[2,2],[0,2],[0,0]]]}".as_slice(),
            Some(TopoFault::NotPolygonal { place: 0 }),
        ),
        (
            b"{\"type\":\"Topology\",\"objects\":{\"t\":{\"type\":\"GeometryCollection\",\"geometries\":[{\"type\":\"MultiPolygon\",\"properties\":{\"c\":\"a\"},\"arcs\":[[0]]}]}},\"arcs\":[[[0,0],[2,0],[2,2],[0,2],[0,0]]]}".as_slice(),
            Some(TopoFault::NotPolygonal { place: 0 }),
        ),
        (
            b"{\"type\":\"Topology\",\"objects\":{\"t\":{\"type\":\"GeometryCollection\",\"geometries\":[{\"type\":\"Polygon\",\"properties\":{\"c\":\"a\"},\"arcs\":[[0]]},{\"type\":\"Polygon\",\"properties\":{\"c\":\"\"},\"arcs\":[[7]]}]}},\"arcs\":[[[0,0],[2,0],[2,2],[0,2],[0,0]]]}".as_slice(),
            Some(TopoFault::NoClass { place: 1 }),
        ),
        (
            b"{\"type\":\"Topology\",\"objects\":{\"t\":{\"type\":\"GeometryCollection\",\"geometries\":[{\"type\":\"Polygon\",\"properties\":{\"c\":1e0},\"arcs\":[[7]]}]}},\"arcs\":[[[0,0],[2,0],[2,2],[0,2],[0,0]]]}".as_slice(),
            Some(TopoFault::NoClass { place: 0 }),
        ),
        (
            b"{\"type\":\"Topology\",\"objects\":{\"t\":{\"type\":\"GeometryCollection\",\"geometries\":[{\"type\":\"Polygon\",\"properties\":{\"c\":\"a\"},\"arcs\":[[],[1]]}]}},\"arcs\":[[[0,0],[2,0],[2,2],[0,2],[0,0]]]}".as_slice(),
            Some(TopoFault::BadIndex { place: 0 }),
        ),
        (
            b"{\"type\":\"Topology\",\"objects\":{\"t\":{\"type\":\"GeometryCollection\",\"geometries\":[{\"type\":\"Polygon\",\"properties\":{\"c\":\"a\"},\"arcs\":[[],[-2]]}]}},\"arcs\":[[[0,0],[2,0],[2,2],[0,2],[0,0]]]}".as_slice(),
            Some(TopoFault::BadIndex { place: 0 }),
        ),
        (
            b"{\"type\":\"Topology\",\"objects\":{\"t\":{\"type\":\"GeometryCollection\",\"geometries\":[{\"type\":\"Polygon\",\"properties\":{\"c\":\"a\"},\"arcs\":[[0.5]]}]}},\"arcs\":[[[0,0],[2,0],[2,2],[0,2],[0,0]]]}".as_slice(),
            Some(TopoFault::BadIndex { place: 0 }),
        ),
        (
            b"{\"type\":\"Topology\",\"objects\":{\"t\":{\"type\":\"GeometryCollection\",\"geometries\":[{\"type\":\"Polygon\",\"properties\":{\"c\":\"a\"},\"arcs\":[[]]}]}},\"arcs\":[[[0,0],[2,0],[2,2],[0,2],[0,0]]]}".as_slice(),
            Some(TopoFault::OpenRing { place: 0 }),
        ),
        (
            b"{\"type\":\"Topology\",\"objects\":{\"t\":{\"type\":\"GeometryCollection\",\"geometries\":[{\"type\":\"Polygon\",\"properties\":{\"c\":\"a\"},\"arcs\":[[0,1]]}]}},\"arcs\":[[[0,0],[1,0]],[[1,0],[0,1]]]}".as_slice(),
            Some(TopoFault::OpenRing { place: 0 }),
        ),
        (
            b"{\"type\":\"Topology\",\"objects\":{\"t\":{\"type\":\"GeometryCollection\",\"geometries\":[{\"type\":\"Polygon\",\"properties\":{\"c\":\"a\"},\"arcs\":[[0,1]]}]}},\"arcs\":[[[0,0],[1,0]],[[1,1],[0,0]]]}".as_slice(),
            Some(TopoFault::OpenRing { place: 0 }),
        ),
        (
            b"{\"type\":\"Topology\",\"objects\":{\"t\":{\"type\":\"GeometryCollection\",\"geometries\":[{\"type\":\"Polygon\",\"properties\":{\"c\":\"a\"},\"arcs\":[[0,-1],[0.0]]}]}},\"arcs\":[[[0,0],[2,0],[2,2],[0,2],[0,0]]]}".as_slice(),
            None,
        ),
        (
            b"{\"type\":\"Topology\",\"objects\":{\"t\":{\"type\":\"Polygon\",\"properties\":{\"c\":\"a\"},\"arcs\":[[0]]}},\"arcs\":[[[0,0],[2,0],[2,2],[0,2],[0,0]]]}".as_slice(),
            None,
        ),
        (
            b"{\"type\":\"Topology\",\"transform\":{\"scale\":[1,1],\"translate\":[0,0]},\"objects\":{\"t\":null},\"arcs\":[[[1073741824,0],[-2147483648,0]]]}".as_slice(),
            None,
        ),
    ] {
        assert_eq!(rt; fault(rt.alloc(), text), want, "{text:?}");
    }
    one_layer_law();
    one_fault();
    layer_without_fault();
    layer_or_fault();
}

// Without a name there must be exactly one, however often it is written.
#[test]
fn objects_by_name(rt: HostRuntime) {
    for (text, want) in [
        (
            b"{\"type\":\"Topology\",\"objects\":{\"a\":null,\"b\":null},\"arcs\":[]}".as_slice(),
            Some(TopoFault::NoObject),
        ),
        (
            b"{\"type\":\"Topology\",\"objects\":{},\"arcs\":[]}".as_slice(),
            Some(TopoFault::NoObject),
        ),
        (
            b"{\"type\":\"Topology\",\"objects\":{\"a\":{},\"a\":null},\"arcs\":[]}".as_slice(),
            None,
        ),
    ] {
        assert_eq!(rt; map_of(rt.alloc(), text, "c", None).err(), want, "{text:?}");
    }
}

// A topology with one arc of 1,025 points along a line, and a polygon whose first ring goes along it and back that many times.
fn to_and_fro(alloc: Global, times: usize, more: &str) -> Result<String, Fail> {
    let mut text = String::new(alloc);
    text.push_str(
        "{\"type\":\"Topology\",\"objects\":{\"t\":{\"type\":\"Polygon\",\"properties\":{\"c\":1},\"arcs\":[[0,-1",
    )?;
    for _ in 1..times {
        text.push_str(",0,-1")?;
    }
    text.push_str("]")?;
    text.push_str(more)?;
    text.push_str("]}},\"arcs\":[[[0,0]")?;
    for x in 1..1025 {
        text.push_str(format!(in alloc; ",[{x},0]")?.as_str())?;
    }
    text.push_str("]]}")?;
    Ok(text)
}

// Steps count up to the limit, and an open ring comes before it.
#[test]
fn steps_are_few(rt: HostRuntime) -> Result<(), Fail> {
    for (times, more, want) in [
        (1024, "", None),
        (1025, "", Some(TopoFault::Limit(Limit::Edges))),
        (1024, ",[0,-1]", Some(TopoFault::Limit(Limit::Edges))),
        (1025, ",[0]", Some(TopoFault::OpenRing { place: 0 })),
    ] {
        let text = to_and_fro(rt.alloc(), times, more)?;
        assert_eq!(rt; fault(rt.alloc(), text.as_str().as_bytes()), want);
    }
    Ok(())
}
