// Worked collections, and texts that break one rule and a later one too.
use crate::{GeoFault, layer_or_fault, layer_without_fault, one_fault, one_layer, read};
use agg_base::Text;
use json_text::{lists_within_text, read as read_json};
use plane_edge::{Coverage, Frame, Limit};
use std::alloc::Global;
use std::process::Abort;
use std::test::Fail;

// What a text is read as, by the class member `class`.
fn read_text(
    rt: &impl Abort,
    alloc: Global,
    text: &str,
) -> Result<Result<Coverage, GeoFault>, Fail> {
    assert!(rt; text.len() < 4000);
    lists_within_text();
    let tree = read_json(alloc, text.as_bytes())?;
    let class = Text::of(alloc, "class")?;
    Ok(read(alloc, &tree, &class))
}

// The fault of a collection of these features.
fn fault_of(rt: &impl Abort, alloc: Global, features: &str) -> Result<Option<GeoFault>, Fail> {
    let text = format!(in alloc; "{{\"type\":\"FeatureCollection\",\"features\":[{features}]}}")?;
    match read_text(rt, alloc, text.as_str())? {
        Ok(_) => Ok(None),
        Err(fault) => Ok(Some(fault)),
    }
}

// A feature with this class and these coordinates of a polygon.
fn feature(alloc: Global, class: &str, coordinates: &str) -> Result<String, Fail> {
    Ok(format!(in alloc;
        "{{\"type\":\"Feature\",\"properties\":{{\"class\":{class}}},\"geometry\":{{\"type\":\"Polygon\",\"coordinates\":{coordinates}}}}}"
    )?)
}

// The numbers of areas, of steps of the last area, and of what was passed over.
fn counts_of(rt: &impl Abort, alloc: Global, features: &str) -> Result<(usize, usize, u32), Fail> {
    let text = format!(in alloc; "{{\"type\":\"FeatureCollection\",\"features\":[{features}]}}")?;
    let coverage = read_text(rt, alloc, text.as_str())??;
    assert!(rt; matches!(coverage.frame, Frame::Plain));
    let steps = coverage.areas.last().map_or(0, |area| area.steps().len());
    Ok((coverage.areas.len(), steps, coverage.passed))
}

#[test]
fn worked_areas(rt: HostRuntime) -> Result<(), Fail> {
    let alloc = rt.alloc();
    let outer = feature(
        alloc,
        "\"1\"",
        "[[[0,0],[6,0],[6,6],[0,6],[0,0]],[[2,2],[2,4],[4,4],[4,2],[2,2]]]",
    )?;
    let inner = feature(alloc, "2", "[[[2,2],[4,2],[4,4],[2,4],[2,2]]]")?;
    let heights = feature(alloc, "1", "[[[0,0],[0,7.0,3],[7.00,7],[7,0],[0,0]]]")?;
    let triangle = feature(alloc, "1", "[[[1,0],[1,1],[0,1],[1,0]]]")?;
    let flat = feature(alloc, "1", "[[[0,0],[3,0],[3,0],[0,0]]]")?;
    let zero = feature(alloc, "1", "[[[-0,0],[7.0,0],[7,-7],[0,0.0]]]")?;
    let none = "{\"type\":\"Feature\",\"geometry\":null},{\"type\":\"Feature\"}";
    let twice =
        "{\"type\":\"Feature\",\"properties\":{\"class\":1},\"geometry\":null,\"geometry\":{\"type\":\"MultiPolygon\",\"type\":\"Polygon\",\"coordinates\":[[[0,0],[1,0],[1,1],[0,0]]]}}";
    let several =
        "{\"type\":\"Feature\",\"properties\":{\"class\":1},\"geometry\":{\"type\":\"MultiPolygon\",\"coordinates\":[[[[0,0],[1,0],[1,1],[0,0]]],[],[[[5,5],[6,5],[6,6],[5,5]],[[7,7],[7,7],[7,7],[7,7]]]]}}";
    let hole = format!(in alloc; "{outer},{inner}")?;
    let both = format!(in alloc; "{flat},{none},{triangle}")?;
    for (features, want) in [
        (outer.as_str(), (1, 8, 0)),
        (hole.as_str(), (2, 4, 0)),
        (heights.as_str(), (1, 4, 0)),
        (triangle.as_str(), (1, 3, 0)),
        (flat.as_str(), (1, 2, 0)),
        (zero.as_str(), (1, 3, 0)),
        (none, (0, 0, 2)),
        (both.as_str(), (2, 3, 2)),
        (twice, (1, 3, 0)),
        (several, (1, 6, 0)),
        ("", (0, 0, 0)),
    ] {
        assert_eq!(rt; counts_of(&rt, alloc, features)?, want, "{features}");
    }
    Ok(())
}

#[test]
fn class_texts(rt: HostRuntime) -> Result<(), Fail> {
    let alloc = rt.alloc();
    let text =
        "{\"type\":\"FeatureCollection\",\"features\":[{\"type\":\"Feature\",\"properties\":{\"class\":\"a\",\"class\":-7.0},\"geometry\":{\"type\":\"Polygon\",\"coordinates\":[]}}]}";
    let coverage = read_text(&rt, alloc, text)??;
    assert_eq!(rt; coverage.areas.len(), 1);
    assert_eq!(rt; coverage.areas[0].class().as_str(), "-7");
    one_layer();
    one_fault();
    layer_without_fault();
    layer_or_fault();
    Ok(())
}

#[test]
fn first_rules(rt: HostRuntime) -> Result<(), Fail> {
    let alloc = rt.alloc();
    let good = feature(alloc, "1", "[[[0,0],[1,0],[1,1],[0,0]]]")?;
    let part = feature(alloc, "1", "[[[0,0],[7.5,0],[1,1],[0,2]]]")?;
    let power = feature(alloc, "1", "[[[0,0],[1e0,0],[1,1],[0,0]]]")?;
    let text = feature(alloc, "1", "[[[0,0],[\"1\",0],[1.5,1],[0,0]]]")?;
    let short = feature(alloc, "1", "[[[0],[1,0],[1,1],[0]]]")?;
    let far_part = feature(alloc, "1", "[[[1073741825,0],[0,0],[1,1],[1,0.5]]]")?;
    let far = feature(alloc, "1", "[[[1073741825,0],[0,0],[1,1]]]")?;
    let huge = feature(alloc, "1", "[[[0,0],[99999999999999999999,0],[1,1],[0,1]]]")?;
    let three = feature(alloc, "1", "[[[0,0],[1,0],[0,0]]]")?;
    let empty = feature(alloc, "1", "[[]]")?;
    let last = feature(
        alloc,
        "1",
        "[[[0,0],[1,0],[1,1],[0,0]],[[0,0],[1,0],[1,1],[0,1]]]",
    )?;
    let unclassed = feature(alloc, "1.5", "[[[0,0],[7.5,0],[1,1],[0,2]]]")?;
    let long_class = feature(alloc, "\"\"", "[[[0,0],[7.5,0],[1,1],[0,2]]]")?;
    let second = format!(in alloc; "{good},{part}")?;
    let later = format!(in alloc; "{last},{part}")?;
    for (features, want) in [
        ("null", GeoFault::NotPolygonal { place: 0 }),
        (
            "{\"type\":\"Feature\",\"geometry\":{\"type\":null}}",
            GeoFault::NotPolygonal { place: 0 },
        ),
        (
            "{\"type\":\"feature\",\"geometry\":null}",
            GeoFault::NotPolygonal { place: 0 },
        ),
        (
            "{\"type\":\"Feature\",\"geometry\":{\"type\":\"Point\",\"coordinates\":[0,0]}}",
            GeoFault::NotPolygonal { place: 0 },
        ),
        (
            "{\"type\":\"Feature\",\"geometry\":{\"type\":\"Polygon\"}}",
            GeoFault::NotPolygonal { place: 0 },
        ),
        (
            "{\"type\":\"Feature\",\"geometry\":{\"type\":\"Polygon\",\"coordinates\":[]}}",
            GeoFault::NoClass { place: 0 },
        ),
        (text.as_str(), GeoFault::NotPolygonal { place: 0 }),
        (short.as_str(), GeoFault::NotPolygonal { place: 0 }),
        (unclassed.as_str(), GeoFault::NoClass { place: 0 }),
        (long_class.as_str(), GeoFault::NoClass { place: 0 }),
        (part.as_str(), GeoFault::NotWhole { place: 0 }),
        (power.as_str(), GeoFault::NotWhole { place: 0 }),
        (far_part.as_str(), GeoFault::NotWhole { place: 0 }),
        (second.as_str(), GeoFault::NotWhole { place: 1 }),
        (far.as_str(), GeoFault::Limit(Limit::Coordinate)),
        (huge.as_str(), GeoFault::Limit(Limit::Coordinate)),
        (three.as_str(), GeoFault::OpenRing { place: 0 }),
        (empty.as_str(), GeoFault::OpenRing { place: 0 }),
        (later.as_str(), GeoFault::OpenRing { place: 0 }),
    ] {
        assert_eq!(rt; fault_of(&rt, alloc, features)?, Some(want), "{features}");
    }
    for text in [
        "{}",
        "null",
        "{\"type\":\"FeatureCollection\",\"features\":{}}",
        "{\"type\":\"FeatureCollection\",\"features\":[],\"type\":\"Feature\"}",
    ] {
        let fault = match read_text(&rt, alloc, text)? {
            Ok(_) => None,
            Err(fault) => Some(fault),
        };
        assert_eq!(rt; fault, Some(GeoFault::NotGeoJson), "{text}");
    }
    Ok(())
}
