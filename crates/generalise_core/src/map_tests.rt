// Runs over maps of polygons.
use crate::tests::{Ending, bytes_of, ending_of, is_stopped};
use agg_base::NoMemory;
use std::alloc::Global;
use std::process::Abort;
use std::test::Fail;

const TOPOLOGY: [&str; 6] = ["generalise", "topojson", "m", "t", "o", "c"];

const FEATURES: [&str; 6] = ["generalise", "geojson", "m", "t", "o", "c"];

// A table of two classes with this threshold and this border weight.
pub(crate) fn table_of(alloc: Global, threshold: &str, border: &str) -> Result<Vec<u8>, NoMemory> {
    let mut table = Vec::from_slice(alloc, b"classes 1\nunit 1 1\nborder ")?;
    for part in [
        border,
        "\nclass ",
        threshold,
        " 1\nclass ",
        threshold,
        " 2\nrow 0 5\nrow 5 0\n",
    ] {
        table.extend_from_slice(part.as_bytes())?;
    }
    Ok(table)
}

const HEAD: &[u8] = b"{\"type\":\"FeatureCollection\",\"features\":[";

// A collection of features, each with its class and its rings.
fn features_of(alloc: Global, features: &[(&str, &str)]) -> Result<Vec<u8>, NoMemory> {
    let mut map = Vec::from_slice(alloc, HEAD)?;
    for (class, rings) in features {
        if map.len() > HEAD.len() {
            map.push(b',')?;
        }
        for part in [
            "{\"type\":\"Feature\",\"properties\":{\"class\":",
            *class,
            "},\"geometry\":{\"type\":\"Polygon\",\"coordinates\":[",
            *rings,
            "]}}",
        ] {
            map.extend_from_slice(part.as_bytes())?;
        }
    }
    map.extend_from_slice(b"]}")?;
    Ok(map)
}

// How a run on features ends.
fn ending(
    rt: &impl Abort,
    alloc: Global,
    features: &[(&str, &str)],
    table: &[u8],
) -> Result<Ending, NoMemory> {
    let map = features_of(alloc, features)?;
    ending_of(rt, alloc, &FEATURES, &map, table, &[])
}

// Whether a run on a text that is to be GeoJSON is refused by this line.
fn is_refused(rt: &impl Abort, alloc: Global, map: &[u8], line: &[u8]) -> Result<bool, NoMemory> {
    let table = table_of(alloc, "4", "1")?;
    is_stopped(rt, alloc, &FEATURES, map, &table, 65, line)
}

#[test]
fn no_features_are_optimal(rt: HostRuntime) -> Result<(), Fail> {
    let alloc = rt.alloc();
    let end = ending(&rt, alloc, &[], &table_of(alloc, "4", "1")?)?;
    assert_eq!(rt; end.code, 0);
    assert_eq!(rt;
        end.said.as_slice(),
        b"optimal\nareas 0\npassed 0\nregions 0\ncost 0\nbound 0\nsplits 0\n".as_slice()
    );
    assert_eq!(rt;
        bytes_of(&end.map),
        b"{\"type\":\"Topology\",\"objects\":{\"regions\":{\"type\":\"GeometryCollection\",\"geometries\":[]}},\"arcs\":[]}\n".as_slice()
    );
    Ok(())
}

const QUANTISED: &[u8] =
    b"{\"type\":\"Topology\",\"transform\":{\"scale\":[0.0036000360003600037,0.0017361],\"translate\":[-180,-85.60903777459771]},\"objects\":{\"t\":{\"type\":\"GeometryCollection\",\"geometries\":[{\"type\":\"Polygon\",\"properties\":{\"class\":\"a\"},\"arcs\":[[-1]]}]}},\"arcs\":[[[0,0],[0,2],[2,0],[0,-2],[-2,0]]]}\n";

const BAD_INDEX: &[u8] =
    b"{\"type\":\"Topology\",\"transform\":{\"scale\":[0.0036000360003600037,0.0017361],\"translate\":[-180,-85.60903777459771]},\"objects\":{\"t\":{\"type\":\"GeometryCollection\",\"geometries\":[{\"type\":\"Polygon\",\"properties\":{\"class\":\"a\"},\"arcs\":[[-2]]}]}},\"arcs\":[[[0,0],[0,2],[2,0],[0,-2],[-2,0]]]}\n";

const ONE_AREA: &[u8] = b"optimal\nareas 1\npassed 0\nregions 1\ncost 0\nbound 0\nsplits 0\n";

const ONE_CLASS: &[u8] = b"classes 1\nborder 1\nclass 8 a\nrow 0\n";

// An arc taken backwards, and a transform that is written as it was read.
#[test]
fn a_topology_keeps_its_transform(rt: HostRuntime) -> Result<(), Fail> {
    let alloc = rt.alloc();
    let end = ending_of(&rt, alloc, &TOPOLOGY, QUANTISED, ONE_CLASS, &[])?;
    assert_eq!(rt; end.code, 0);
    assert_eq!(rt; end.said.as_slice(), ONE_AREA);
    assert_eq!(rt;
        bytes_of(&end.map),
        b"{\"type\":\"Topology\",\"transform\":{\"scale\":[0.0036000360003600037,0.0017361],\"translate\":[-180,-85.60903777459771]},\"objects\":{\"regions\":{\"type\":\"GeometryCollection\",\"geometries\":[{\"type\":\"MultiPolygon\",\"id\":0,\"properties\":{\"class\":\"a\"},\"arcs\":[[[0]]]}]}},\"arcs\":[[[0,0],[2,0],[0,2],[-2,0],[0,-2]]]}\n".as_slice()
    );
    let line = b"refused: map BadIndex 0\n";
    assert!(rt; is_stopped(&rt, alloc, &TOPOLOGY, BAD_INDEX, ONE_CLASS, 65, line)?);
    Ok(())
}

// The options name the object and the property, and stand anywhere.
#[test]
fn options_name_what_is_read(rt: HostRuntime) -> Result<(), Fail> {
    let alloc = rt.alloc();
    let map =
        b"{\"type\":\"Topology\",\"objects\":{\"s\":{\"type\":null},\"t\":{\"type\":\"Polygon\",\"properties\":{\"kind\":\"a\"},\"arcs\":[[0]]}},\"arcs\":[[[0,0],[0,2],[2,2],[2,0],[0,0]]]}";
    let words = [
        "generalise",
        "--object",
        "t",
        "topojson",
        "m",
        "t",
        "--splits",
        "20",
        "o",
        "c",
        "--class",
        "kind",
    ];
    let end = ending_of(&rt, alloc, &words, map, ONE_CLASS, &[])?;
    assert_eq!(rt; end.code, 0);
    let line = b"refused: map NoObject\n";
    assert!(rt; is_stopped(&rt, alloc, &TOPOLOGY, map, ONE_CLASS, 65, line)?);
    Ok(())
}

// The lesser area lies in the hole of the greater, and is drawn with it.
#[test]
fn a_hole_is_filled(rt: HostRuntime) -> Result<(), Fail> {
    let alloc = rt.alloc();
    let features = [
        (
            "\"1\"",
            "[[0,0],[6,0],[6,6],[0,6],[0,0]],[[2,2],[2,4],[4,4],[4,2],[2,2]]",
        ),
        ("\"2\"", "[[2,2],[4,2],[4,4],[2,4],[2,2]]"),
    ];
    let end = ending(&rt, alloc, &features, &table_of(alloc, "10", "0")?)?;
    assert_eq!(rt; end.code, 0);
    let report = b"optimal\nareas 2\npassed 0\nregions 1\ncost 40\nbound 40\nsplits ";
    assert!(rt; end.said.as_slice().starts_with(report));
    assert_eq!(rt;
        bytes_of(&end.map),
        b"{\"type\":\"Topology\",\"objects\":{\"regions\":{\"type\":\"GeometryCollection\",\"geometries\":[{\"type\":\"MultiPolygon\",\"id\":0,\"properties\":{\"class\":\"1\"},\"arcs\":[[[0]]]}]}},\"arcs\":[[[0,0],[6,0],[6,6],[0,6],[0,0]]]}\n".as_slice()
    );
    Ok(())
}

#[test]
fn whole_numbers_may_have_points(rt: HostRuntime) -> Result<(), Fail> {
    let alloc = rt.alloc();
    let square = [("1", "[[0,0],[0,7.0,3],[7.00,7],[7,0],[0,0]]")];
    let end = ending(&rt, alloc, &square, &table_of(alloc, "98", "1")?)?;
    assert_eq!(rt; end.code, 0);
    assert_eq!(rt; end.said.as_slice(), ONE_AREA);
    assert_eq!(rt;
        ending(&rt, alloc, &square, &table_of(alloc, "99", "1")?)?.code,
        4
    );
    let map = features_of(alloc, &[("1", "[[0,0],[0,7.5,3],[7.00,7],[7,0],[0,0]]")])?;
    assert!(rt; is_refused(&rt, alloc, &map, b"refused: map NotWhole 0\n")?);
    Ok(())
}

const CORNER: (&str, &str) = ("1", "[[1,0],[1,1],[0,1],[1,0]]");

#[test]
fn areas_that_meet_are_refused(rt: HostRuntime) -> Result<(), Fail> {
    let alloc = rt.alloc();
    let apart = [
        ("1", "[[0,0],[2,0],[2,2],[0,2],[0,0]]"),
        ("1", "[[2,0],[4,0],[4,1],[2,1],[2,0]]"),
    ];
    let map = features_of(alloc, &apart)?;
    let line = b"refused: coverage Crossing 2 0 2 1 2 0 2 2 at 2 1 1\n";
    assert!(rt; is_refused(&rt, alloc, &map, line)?);
    let map = features_of(alloc, &[CORNER, CORNER])?;
    let line = b"refused: coverage Overlap 0 1 at 1 1 2\n";
    assert!(rt; is_refused(&rt, alloc, &map, line)?);
    let map = features_of(alloc, &[CORNER, CORNER, CORNER])?;
    let line = b"refused: coverage Shared 1 0 0 1\n";
    assert!(rt; is_refused(&rt, alloc, &map, line)?);
    Ok(())
}

#[test]
fn an_area_without_odd_edges_is_passed_over(rt: HostRuntime) -> Result<(), Fail> {
    let alloc = rt.alloc();
    let features = [
        ("\"1\"", "[[0,0],[3,0],[3,0],[0,0]]"),
        ("\"1\"", "[[0,0],[1,0],[1,1],[0,1],[0,0]]"),
    ];
    let end = ending(&rt, alloc, &features, &table_of(alloc, "2", "1")?)?;
    assert_eq!(rt; end.code, 0);
    assert_eq!(rt;
        end.said.as_slice(),
        b"optimal\nareas 1\npassed 1\nregions 1\ncost 0\nbound 0\nsplits 0\n".as_slice()
    );
    Ok(())
}

#[test]
fn other_texts_are_refused(rt: HostRuntime) -> Result<(), Fail> {
    let alloc = rt.alloc();
    assert!(rt; is_refused(&rt, alloc, b"{\"type\":", b"refused: map Syntax 8\n")?);
    assert!(rt; is_refused(&rt, alloc, b"", b"refused: map Syntax 0\n")?);
    assert!(rt; is_refused(&rt, alloc, &[b'['; 65], b"refused: map TooDeep 64\n")?);
    assert!(rt; is_refused(&rt, alloc, b"{}", b"refused: map NotGeoJson\n")?);
    Ok(())
}
