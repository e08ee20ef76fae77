// Worked maps and tables, and the lines of faults that are rare.
use crate::graph_lines::no_weight;
use crate::{
    Format, Halt, Loaded, cover_lines, frame_law, load, loaded_without_refusal_law, map_lines,
    map_without_line_law, one_line_law, one_load_law, one_map_law, one_refusal_law,
};
use agg_base::limits::{MAP_BYTES, TABLE_BYTES};
use agg_base::{NoMemory, Text};
use coverage_check::CoverFault;
use crew_work::Alone;
use geo_reader::GeoFault;
use grid_reader::GridFault;
use plane_edge::{Edge, Limit, Point};
use std::alloc::Global;
use std::process::Abort;
use std::test::Fail;
use topo_reader::{Pick, TopoFault};

const MAP: &[u8] = b"ncols 3\nnrows 1\nxllcorner 0\nyllcorner 0\ncellsize 1\n1 2 1\n";

// A map with a class that the table lacks.
const STRANGE: &[u8] = b"ncols 3\nnrows 1\nxllcorner 0\nyllcorner 0\ncellsize 1\n1 3 1\n";

const TABLE: &[u8] = b"classes 1\nunit 1 1\nborder 1\nclass 4 1\nclass 4 2\nrow 0 5\nrow 5 0\n";

// What a map and a table that are short enough give.
fn loaded(alloc: Global, format: &Format, map: &[u8], table: &[u8]) -> Result<Loaded, Halt> {
    if map.len() > MAP_BYTES || table.len() > TABLE_BYTES {
        return Err(Halt::Memory);
    }
    load(alloc, format, map, table, &Alone)
}

// Whether the map and the table are refused by that line.
fn is_refused(
    alloc: Global,
    format: &Format,
    map: &[u8],
    table: &[u8],
    line: &str,
) -> Result<bool, NoMemory> {
    match loaded(alloc, format, map, table) {
        Ok(_) => Ok(false),
        Err(Halt::Refused(said)) => Ok(said.as_str() == line),
        Err(Halt::Memory) => Err(NoMemory),
    }
}

// The same of a grid.
fn says(alloc: Global, map: &[u8], table: &[u8], line: &str) -> Result<bool, NoMemory> {
    is_refused(alloc, &Format::Grid, map, table, line)
}

#[test]
fn a_row_is_loaded(rt: HostRuntime) -> Result<(), Fail> {
    let Ok(loaded) = loaded(rt.alloc(), &Format::Grid, MAP, TABLE) else {
        return Err(Fail::new("refused"));
    };
    assert_eq!(rt; loaded.checked.areas(), 3);
    assert_eq!(rt; loaded.checked.passed(), 0);
    assert_eq!(rt; loaded.table.names().len(), 2);
    assert_eq!(rt; loaded.problem.areas(), 3);
    assert_eq!(rt; loaded.problem.classes(), 2);
    Ok(())
}

#[test]
fn laws_hold() {
    one_map_law();
    one_line_law();
    map_without_line_law();
    frame_law();
    one_load_law();
    loaded_without_refusal_law();
    one_refusal_law();
}

// Two triangles with a common side, read by the property `kind`: the first has its class as a number, the second as a text.
const TOPOLOGY: &[u8] =
    b"{\"type\":\"Topology\",\"objects\":{\"t\":{\"type\":\"GeometryCollection\",\"geometries\":[{\"type\":\"Polygon\",\"properties\":{\"kind\":1},\"arcs\":[[0,1]]},{\"type\":null},{\"type\":\"Polygon\",\"properties\":{\"kind\":\"2\"},\"arcs\":[[-1,2]]}]}},\"arcs\":[[[0,0],[2,2]],[[2,2],[0,2],[0,0]],[[0,0],[2,0],[2,2]]]}";

#[test]
fn a_topology_is_loaded(rt: HostRuntime) -> Result<(), Fail> {
    let alloc = rt.alloc();
    let format = Format::TopoJson(Pick {
        class: Text::of(alloc, "kind")?,
        object: None,
    });
    let Ok(loaded) = loaded(alloc, &format, TOPOLOGY, TABLE) else {
        return Err(Fail::new("refused"));
    };
    assert_eq!(rt; loaded.checked.areas(), 2);
    assert_eq!(rt; loaded.checked.passed(), 1);
    assert_eq!(rt; loaded.problem.areas(), 2);
    let other = Format::TopoJson(Pick {
        class: Text::of(alloc, "class")?,
        object: None,
    });
    assert!(rt; is_refused(alloc, &other, TOPOLOGY, TABLE, "refused: map NoClass 0\n")?);
    Ok(())
}

const FEATURES: &[u8] =
    b"{\"type\":\"FeatureCollection\",\"features\":[{\"type\":\"Feature\",\"properties\":{\"kind\":1},\"geometry\":{\"type\":\"Polygon\",\"coordinates\":[[[0,0],[2,2],[0,2],[0,0]]]}},{\"type\":\"Feature\",\"properties\":null,\"geometry\":null}]}";

#[test]
fn features_are_loaded(rt: HostRuntime) -> Result<(), Fail> {
    let alloc = rt.alloc();
    let format = Format::GeoJson {
        class: Text::of(alloc, "kind")?,
    };
    let Ok(loaded) = loaded(alloc, &format, FEATURES, TABLE) else {
        return Err(Fail::new("refused"));
    };
    assert_eq!(rt; loaded.checked.areas(), 1);
    assert_eq!(rt; loaded.checked.passed(), 1);
    let other = Format::GeoJson {
        class: Text::of(alloc, "class")?,
    };
    assert!(rt; is_refused(alloc, &other, FEATURES, TABLE, "refused: map NoClass 0\n")?);
    Ok(())
}

// The format of features whose class is their property `class`.
fn features(alloc: Global) -> Result<Format, NoMemory> {
    Ok(Format::GeoJson {
        class: Text::of(alloc, "class")?,
    })
}

#[test]
fn texts_of_json_are_refused(rt: HostRuntime) -> Result<(), Fail> {
    let alloc = rt.alloc();
    let format = features(alloc)?;
    let deep = [b'['; 65];
    assert!(rt;
        is_refused(
            alloc,
            &format,
            b"{\"type\":",
            TABLE,
            "refused: map Syntax 8\n"
        )?
    );
    assert!(rt; is_refused(alloc, &format, b"", TABLE, "refused: map Syntax 0\n")?);
    assert!(rt; is_refused(alloc, &format, &deep, TABLE, "refused: map TooDeep 64\n")?);
    assert!(rt; is_refused(alloc, &format, b"{}", TABLE, "refused: map NotGeoJson\n")?);
    Ok(())
}

const HEAD: &[u8] = b"{\"type\":\"FeatureCollection\",\"features\":[";

// A collection of features of class 1, each with its rings.
fn features_of(alloc: Global, polygons: &[&str]) -> Result<Vec<u8>, NoMemory> {
    let mut map = Vec::from_slice(alloc, HEAD)?;
    for rings in polygons {
        if map.len() > HEAD.len() {
            map.push(b',')?;
        }
        map.extend_from_slice(
            b"{\"type\":\"Feature\",\"properties\":{\"class\":1},\"geometry\":{\"type\":\"Polygon\",\"coordinates\":[",
        )?;
        map.extend_from_slice(rings.as_bytes())?;
        map.extend_from_slice(b"]}}")?;
    }
    map.extend_from_slice(b"]}")?;
    Ok(map)
}

// Whether features of these rings are refused by that line.
fn are_refused(alloc: Global, polygons: &[&str], line: &str) -> Result<bool, NoMemory> {
    let map = features_of(alloc, polygons)?;
    is_refused(alloc, &features(alloc)?, &map, TABLE, line)
}

const CORNER: &str = "[[1,0],[1,1],[0,1],[1,0]]";

#[test]
fn features_are_refused(rt: HostRuntime) -> Result<(), Fail> {
    let alloc = rt.alloc();
    let half = ["[[0,0],[0,7.5,3],[7.00,7],[7,0],[0,0]]"];
    let beside = [
        "[[0,0],[2,0],[2,2],[0,2],[0,0]]",
        "[[2,0],[4,0],[4,1],[2,1],[2,0]]",
    ];
    let crossing = "refused: coverage Crossing 2 0 2 1 2 0 2 2 at 2 1 1\n";
    let overlap = "refused: coverage Overlap 0 1 at 1 1 2\n";
    let shared = "refused: coverage Shared 1 0 0 1\n";
    assert!(rt; are_refused(alloc, &half, "refused: map NotWhole 0\n")?);
    assert!(rt; are_refused(alloc, &beside, crossing)?);
    assert!(rt; are_refused(alloc, &[CORNER, CORNER], overlap)?);
    assert!(rt; are_refused(alloc, &[CORNER, CORNER, CORNER], shared)?);
    Ok(())
}

// An area without an odd edge is passed over, and positions may have a third number.
#[test]
fn an_area_without_odd_edges_is_passed_over(rt: HostRuntime) -> Result<(), Fail> {
    let alloc = rt.alloc();
    let polygons = [
        "[[0,0],[3,0],[3,0],[0,0]]",
        "[[0,0],[0,7.0,3],[7.00,7],[7,0],[0,0]]",
    ];
    let map = features_of(alloc, &polygons)?;
    let Ok(loaded) = loaded(alloc, &features(alloc)?, &map, TABLE) else {
        return Err(Fail::new("refused"));
    };
    assert_eq!(rt; loaded.checked.areas(), 1);
    assert_eq!(rt; loaded.checked.passed(), 1);
    Ok(())
}

// A square whose one index says arc 1, which is not there.
const STRAY: &[u8] =
    b"{\"type\":\"Topology\",\"transform\":{\"scale\":[0.0036000360003600037,0.0017361],\"translate\":[-180,-85.60903777459771]},\"objects\":{\"t\":{\"type\":\"GeometryCollection\",\"geometries\":[{\"type\":\"Polygon\",\"properties\":{\"class\":\"a\"},\"arcs\":[[-2]]}]}},\"arcs\":[[[0,0],[0,2],[2,0],[0,-2],[-2,0]]]}\n";

#[test]
fn a_stray_index_is_refused(rt: HostRuntime) -> Result<(), Fail> {
    let alloc = rt.alloc();
    let format = Format::TopoJson(Pick {
        class: Text::of(alloc, "class")?,
        object: None,
    });
    assert!(rt; is_refused(alloc, &format, STRAY, TABLE, "refused: map BadIndex 0\n")?);
    Ok(())
}

#[test]
fn maps_are_refused(rt: HostRuntime) -> Result<(), Fail> {
    let alloc = rt.alloc();
    let header = b"ncols 3\nnrows 1\nxllcorner x\nyllcorner 0\ncellsize 1\n1 2 1\n";
    let centred = b"ncols 3\nnrows 1\nxllcenter 0\nyllcorner 0\ncellsize 1\n1 2 1\n";
    let cell = b"ncols 3\nnrows 1\nxllcorner 0\nyllcorner 0\ncellsize 1\n1 2.5 1\n";
    let count = b"ncols 3\nnrows 1\nxllcorner 0\nyllcorner 0\ncellsize 1\n1 2\n";
    let cells = b"ncols 524288\nnrows 2\nxllcorner 0\nyllcorner 0\ncellsize 1\n1 2\n";
    assert!(rt; says(alloc, header, TABLE, "refused: map Header 3\n")?);
    assert!(rt; says(alloc, centred, TABLE, "refused: map Centred 3\n")?);
    assert!(rt; says(alloc, cell, TABLE, "refused: map Cell 0 1\n")?);
    // The map is read before the table.
    assert!(rt; says(alloc, count, b"classes 2\n", "refused: map Count 2\n")?);
    assert!(rt; says(alloc, cells, TABLE, "refused: map Limit Cells\n")?);
    Ok(())
}

#[test]
fn a_checkerboard_has_too_many_areas(rt: HostRuntime) -> Result<(), Fail> {
    let alloc = rt.alloc();
    let mut map = Vec::from_slice(
        alloc,
        b"ncols 257\nnrows 256\nxllcorner 0\nyllcorner 0\ncellsize 1\n",
    )?;
    for _pair in 0..257 * 128 {
        map.extend_from_slice(b"1 2\n")?;
    }
    assert!(rt; says(alloc, &map, TABLE, "refused: map Limit Areas\n")?);
    Ok(())
}

#[test]
fn tables_are_refused(rt: HostRuntime) -> Result<(), Fail> {
    let alloc = rt.alloc();
    let repeated = b"classes 1\nborder 1\nclass 4 a\nclass 4 a\n";
    // The table is read before the classes of the areas are looked up.
    assert!(rt;
        says(
            alloc,
            STRANGE,
            b"classes 2\n",
            "refused: table Line 1 Version\n"
        )?
    );
    assert!(rt; says(alloc, MAP, repeated, "refused: table RepeatedClass 4\n")?);
    let mut many = Vec::from_slice(alloc, b"classes 1\n\n\nunit 1 1\nborder 1\n")?;
    for name in 0..65u32 {
        many.extend_from_slice(format!(in alloc; "class 4 {name}\n")?.as_bytes())?;
    }
    assert!(rt; says(alloc, MAP, &many, "refused: table Limit 70\n")?);
    Ok(())
}

#[test]
fn an_unknown_class_is_refused(rt: HostRuntime) -> Result<(), Fail> {
    assert!(rt;
        says(
            rt.alloc(),
            STRANGE,
            TABLE,
            "refused: classes UnknownClass 1\n"
        )?
    );
    Ok(())
}

// The edge between two points.
fn edge(rt: &impl Abort, a: [i64; 2], b: [i64; 2]) -> Edge {
    let a = Point::of(a[0], a[1]).expect(rt, "a coordinate past the limit");
    let b = Point::of(b[0], b[1]).expect(rt, "a coordinate past the limit");
    Edge::of(a, b).expect(rt, "equal ends")
}

fn is_line(line: Result<Text, NoMemory>, due: &str) -> Result<bool, NoMemory> {
    Ok(line?.as_str() == due)
}

#[test]
fn rarer_faults_have_lines(rt: HostRuntime) -> Result<(), Fail> {
    let alloc = rt.alloc();
    let coordinate = map_lines::of_grid(alloc, GridFault::Limit(Limit::Coordinate));
    let edges = map_lines::of_grid(alloc, GridFault::Limit(Limit::Edges));
    assert!(rt; is_line(coordinate, "refused: map Limit Coordinate\n")?);
    assert!(rt; is_line(edges, "refused: map Limit Edges\n")?);
    assert!(rt; is_line(no_weight(alloc, 2, -4), "refused: weights NoWeight 2 -4\n")?);
    let below = CoverFault::Shared {
        edge: edge(&rt, [-7, -1_073_741_824], [0, -3]),
    };
    assert!(rt;
        is_line(
            cover_lines::line_of(alloc, below),
            "refused: coverage Shared -7 -1073741824 0 -3\n"
        )?
    );
    assert!(rt; map_lines::of_grid(alloc, GridFault::Memory).is_err());
    Ok(())
}

#[test]
fn values_have_lines(rt: HostRuntime) -> Result<(), Fail> {
    let alloc = rt.alloc();
    let arc = map_lines::of_topology(alloc, "map", TopoFault::BadArc { arc: 3 });
    let object = map_lines::of_topology(alloc, "out", TopoFault::NoObject);
    let index = map_lines::of_topology(
        alloc,
        "map",
        TopoFault::BadIndex {
            place: 4_294_967_295,
        },
    );
    let ring = map_lines::of_features(alloc, GeoFault::OpenRing { place: 0 });
    let edges = map_lines::of_features(alloc, GeoFault::Limit(Limit::Edges));
    assert!(rt; is_line(arc, "refused: map BadArc 3\n")?);
    assert!(rt; is_line(object, "refused: out NoObject\n")?);
    assert!(rt; is_line(index, "refused: map BadIndex 4294967295\n")?);
    assert!(rt; is_line(ring, "refused: map OpenRing 0\n")?);
    assert!(rt; is_line(edges, "refused: map Limit Edges\n")?);
    Ok(())
}
