// Worked values.
use super::*;
use agg_base::Text;
use std::alloc::Global;
use std::process::Abort;
use std::test::Fail;

// The greatest coordinate.
const FAR: i64 = 1_073_741_824;

// A point within the limit.
fn point(rt: &impl Abort, x: i64, y: i64) -> Point {
    Point::of(x, y).expect(rt, "a coordinate past the limit")
}

// The edge from the first two numbers to the last two.
fn edge(rt: &impl Abort, ends: [i64; 4]) -> Edge {
    let [x0, y0, x1, y1] = ends;
    Edge::of(point(rt, x0, y0), point(rt, x1, y1)).expect(rt, "equal ends")
}

// Where two edges meet, tried in either order.
fn met(rt: &impl Abort, a: [i64; 4], b: [i64; 4]) -> Option<(i128, i128, i128)> {
    let e = edge(rt, a);
    let f = edge(rt, b);
    if e == f {
        return None;
    }
    let one = meet(&e, &f);
    let other = meet(&f, &e);
    assert!(rt; one == other, "the order of the edges counts");
    one.map(|spot| (spot.x, spot.y, spot.m))
}

#[test]
fn edges_meet(rt: HostRuntime) {
    for (a, b, want) in [
        // touching at an end of both, and not at all
        ([0, 0, 2, 0], [2, 0, 2, 5], None),
        ([0, 0, 2, 0], [3, 0, 5, 1], None),
        ([0, 0, 4, 4], [1, 0, 5, 4], None),
        // an end on the other's inside, with a level and an upright edge
        ([0, 0, 4, 0], [2, 0, 2, 3], Some((2, 0, 1))),
        ([1, 0, 1, 4], [1, 2, 5, 3], Some((1, 2, 1))),
        // crossing at a whole point and at fractions
        ([0, 0, 2, 2], [0, 2, 2, 0], Some((1, 1, 1))),
        ([0, 0, 1, 1], [0, 1, 1, 0], Some((1, 1, 2))),
        ([0, 0, 3, 2], [0, 1, 3, 0], Some((3, 2, 3))),
        // on one line: overlapping, touching, apart, one inside the other
        ([0, 0, 4, 0], [2, 0, 6, 0], Some((2, 0, 1))),
        ([0, 0, 0, 2], [0, 2, 0, 5], None),
        ([0, 0, 1, 1], [3, 3, 5, 5], None),
        ([0, 0, 6, 6], [2, 2, 4, 4], Some((2, 2, 1))),
        ([0, 0, 6, 0], [0, 0, 2, 0], Some((2, 0, 1))),
        ([0, 0, 6, 0], [2, 0, 6, 0], Some((2, 0, 1))),
        // at the limit
        (
            [-FAR, -FAR, FAR, FAR],
            [-FAR, FAR, FAR, -FAR],
            Some((0, 0, 1)),
        ),
        (
            [-FAR, -FAR, FAR, FAR],
            [FAR, FAR - 1, FAR - 1, FAR],
            Some((2 * 1_073_741_824 - 1, 2 * 1_073_741_824 - 1, 2)),
        ),
    ] {
        assert_eq!(rt; met(&rt, a, b), want, "at {a:?} and {b:?}");
    }
}

#[test]
fn points_and_edges_are_made(rt: HostRuntime) {
    for (x, y, is_made) in [
        (FAR, -FAR, true),
        (-FAR, FAR, true),
        (FAR + 1, 0, false),
        (0, -FAR - 1, false),
    ] {
        assert_eq!(rt; Point::of(x, y).is_some(), is_made, "at {x} {y}");
    }
    let upper = point(&rt, 0, 1);
    let right = point(&rt, 5, 0);
    assert_eq!(rt; Edge::of(upper, upper), None);
    let between = edge(&rt, [0, 1, 5, 0]);
    assert!(rt; between.low() == right && between.high() == upper);
    assert!(rt; right < upper && edge(&rt, [0, 0, 9, 9]) < between);
    assert_eq!(rt; between.middle(), Spot { x: 5, y: 1, m: 2 });
}

#[test]
fn sums_are_exact(rt: HostRuntime) {
    assert_eq!(rt; sum(3, -5), -2);
    assert_eq!(rt; sum_of_products(2, 3, 4, 5), 26);
    assert_eq!(rt; minor(2, 3, 4, 5), -14);
}

// The ring of four points.
fn ring(rt: &impl Abort, alloc: Global, points: [[i64; 2]; 4]) -> Result<Vec<Point>, Fail> {
    let mut ring = Vec::new(alloc);
    for [x, y] in points {
        ring.push(point(rt, x, y))?;
    }
    Ok(ring)
}

// The area of two rings.
fn area(
    rt: &impl Abort,
    alloc: Global,
    one: [[i64; 2]; 4],
    other: [[i64; 2]; 4],
) -> Result<Area, Fail> {
    let mut rings = Vec::new(alloc);
    rings.push(ring(rt, alloc, one)?)?;
    rings.push(ring(rt, alloc, other)?)?;
    Ok(Area::of_rings(alloc, Text::of(alloc, "wood")?, &rings)?)
}

const LINE: [[i64; 2]; 4] = [[0, 0], [3, 0], [3, 0], [0, 0]];

const SQUARE: [[i64; 2]; 4] = [[0, 0], [2, 0], [2, 2], [0, 2]];

const BESIDE: [[i64; 2]; 4] = [[2, 0], [4, 0], [4, 2], [2, 2]];

#[test]
fn areas_have_odd_edges(rt: HostRuntime) -> Result<(), Fail> {
    let alloc = rt.alloc();
    for (one, other, steps, count) in [
        (LINE, LINE, 4, 0),
        (SQUARE, LINE, 6, 4),
        (SQUARE, BESIDE, 8, 6),
        (SQUARE, SQUARE, 8, 0),
    ] {
        let area = area(&rt, alloc, one, other)?;
        assert_eq!(rt; area.class().as_str(), "wood");
        assert_eq!(rt; area.steps().len(), steps);
        assert_eq!(rt; odd(alloc, &area)?.len(), count);
    }
    Ok(())
}

#[test]
fn rings_have_steps(rt: HostRuntime) -> Result<(), Fail> {
    let alloc = rt.alloc();
    let mut rings = Vec::new(alloc);
    rings.push(ring(&rt, alloc, SQUARE)?)?;
    rings.push(ring(&rt, alloc, LINE)?)?;
    assert_eq!(rt; steps_of_ring(alloc, &rings[0])?.len(), 4);
    let steps = steps_of_rings(alloc, &rings)?;
    assert_eq!(rt; steps.len(), 6);
    assert_eq!(rt; odd_of(alloc, steps)?.len(), 4);
    Ok(())
}

#[test]
fn odd_edges_rise(rt: HostRuntime) -> Result<(), Fail> {
    let alloc = rt.alloc();
    let edges = odd(alloc, &area(&rt, alloc, SQUARE, LINE)?)?;
    let want = [
        edge(&rt, [0, 0, 2, 0]),
        edge(&rt, [0, 0, 0, 2]),
        edge(&rt, [2, 0, 2, 2]),
        edge(&rt, [0, 2, 2, 2]),
    ];
    assert!(rt; edges.as_slice() == want.as_slice());
    for (x, y, m, is_inside) in [
        (1, 1, 1, true),
        (0, 0, 1, true),
        (2, 1, 1, false),
        (1, 2, 1, false),
        (3, 3, 2, true),
    ] {
        assert_eq!(rt;
            inside(&edges, &Spot { x, y, m }),
            is_inside,
            "at {x} {y} {m}"
        );
    }
    assert!(rt; on(&want[0], &Spot { x: 1, y: 0, m: 2 }));
    assert!(rt; !on(&want[0], &Spot { x: 1, y: 1, m: 2 }));
    Ok(())
}

// Asks for what a value of another thread needs.
fn is_shared_by_threads<T: Send + Sync>(_: &T) -> bool {
    true
}

#[test]
fn frames_are_copied(rt: HostRuntime) -> Result<(), Fail> {
    let alloc = rt.alloc();
    let frame = Frame::Scaled {
        sx: Text::of(alloc, "0.5")?,
        sy: Text::of(alloc, "2")?,
        tx: Text::of(alloc, "-1")?,
        ty: Text::of(alloc, "1e3")?,
    };
    let copy = frame.copy(alloc)?;
    assert!(rt;
        matches!(&copy, Frame::Scaled { sx, ty, .. } if sx.as_str() == "0.5" && ty.as_str() == "1e3")
    );
    assert!(rt; matches!(Frame::Plain.copy(alloc)?, Frame::Plain));
    let coverage = Coverage::of(Vec::new(alloc), 536_870_912, copy).expect(
        &rt,
        "within the limits",
    );
    assert!(rt; coverage.areas.is_empty() && coverage.passed == 536_870_912);
    assert!(rt; Coverage::of(Vec::new(alloc), 536_870_913, Frame::Plain).is_none());
    spelling_law();
    assert!(rt; is_shared_by_threads(&coverage) && is_shared_by_threads(&edge(&rt, [0, 0, 1, 1])));
    Ok(())
}
