use super::EdgeRows;
use plane_edge::{Edge, Point, Spot};
use std::alloc::Global;
use std::process::Abort;
use std::test::Fail;

// The edges of a ring.
fn push_ring(
    rt: &impl Abort,
    edges: &mut Vec<Edge>,
    first: [i64; 2],
    corners: &[[i64; 2]],
) -> Result<(), Fail> {
    let [x, y] = first;
    let start = Point::of(x, y).expect(rt, "a coordinate past the limit");
    let mut from = start;
    for [x, y] in corners {
        let to = Point::of(*x, *y).expect(rt, "a coordinate past the limit");
        edges.push(Edge::of(from, to).expect(rt, "a step of no length"))?;
        from = to;
    }
    edges.push(Edge::of(from, start).expect(rt, "a step of no length"))?;
    Ok(())
}

// A square from (0, 0) to (6, 6) with a hole from (2, 2) to (4, 4), and a triangle right of it.
fn square_and_triangle(rt: &impl Abort, alloc: Global) -> Result<EdgeRows, Fail> {
    let mut edges = Vec::new(alloc);
    push_ring(rt, &mut edges, [0, 0], &[[6, 0], [6, 6], [0, 6]])?;
    push_ring(rt, &mut edges, [2, 2], &[[4, 2], [4, 4], [2, 4]])?;
    push_ring(rt, &mut edges, [8, 0], &[[12, 0], [8, 6]])?;
    Ok(EdgeRows::of(alloc, &edges)?)
}

// Whether the point (x/m, y/m) is inside.
fn is_inside(rt: &impl Abort, rows: &EdgeRows, x: i32, y: i32, m: u8) -> bool {
    assert!(rt; m >= 1);
    let spot = Spot {
        x: i128::from(x),
        y: i128::from(y),
        m: i128::from(m),
    };
    rows.inside(&spot)
}

#[test]
fn spots_are_inside_or_not(rt: HostRuntime) -> Result<(), Fail> {
    let rows = square_and_triangle(&rt, rt.alloc())?;
    assert!(rt; is_inside(&rt, &rows, 1, 1, 1));
    assert!(rt; !is_inside(&rt, &rows, 3, 3, 1));
    assert!(rt; is_inside(&rt, &rows, 11, 7, 2));
    assert!(rt; !is_inside(&rt, &rows, 7, 3, 1));
    assert!(rt; is_inside(&rt, &rows, 9, 3, 1));
    assert!(rt; !is_inside(&rt, &rows, 21, 6, 2));
    assert!(rt; !is_inside(&rt, &rows, 1, 7, 1));
    assert!(rt; !is_inside(&rt, &rows, 1, -1, 1));
    assert!(rt; is_inside(&rt, &rows, 0, 0, 1));
    assert!(rt; !is_inside(&rt, &rows, 6, 0, 1));
    Ok(())
}

// Takes what another thread may hold.
fn is_shared<T: Send + Sync>(value: &T) {
    let _ = value;
}

#[test]
fn rows_are_shared(rt: HostRuntime) -> Result<(), Fail> {
    let rows = square_and_triangle(&rt, rt.alloc())?;
    is_shared(&rows);
    Ok(())
}
