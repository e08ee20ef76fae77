// Worked texts of grids.
ghost use Rattle.std.specs.Prelude.{◌≤◌, length};

use crate::{GridFault, frame_law, grid_or_fault, grid_without_fault, one_fault, one_grid, read};
use plane_edge::{Area, Coverage, Frame, Limit};
use std::alloc::Global;
use std::test::Fail;

// Threads may share such a value and hand it over.
fn crosses<T: Send + Sync>(_value: &T) {}

// The coverage of a text that is short enough.
fn coverage(alloc: Global, text: &[u8]) -> Result<Coverage, GridFault> {
    if text.len() > 10_000_000 {
        return Err(GridFault::Memory);
    }
    read(alloc, text)
}

// The fault of a text; None where it spells a grid.
fn fault(alloc: Global, text: &[u8]) -> Option<GridFault> {
    match coverage(alloc, text) {
        Ok(_) => None,
        Err(fault) => Some(fault),
    }
}

// Whether a step of the area begins at that point.
fn begins(area: &Area, x: i32, y: i32) -> bool {
    area.steps()
        .iter()
        .any(|step| step.low().x == x && step.low().y == y)
}

// A text with names in upper and lower case.
const MIXED: &[u8] =
    b"NCOLS 002\r\n\r\n \t\r\nNRows\t2 \r\n XLLCORNER -0.5e2\r\nyllcorner 7\r\nCELLSIZE 1E-5\r\nNODATA_value -0\r\n0\r\n-9999\r\n5.0 \t005";

// Whether the frame scales by that size and moves by that corner.
fn is_frame(frame: &Frame, size: &str, left: &str, low: &str) -> bool {
    match frame {
        Frame::Plain => false,
        Frame::Scaled { sx, sy, tx, ty } => {
            sx.as_str() == size && sy.as_str() == size && tx.as_str() == left && ty.as_str() == low
        }
    }
}

#[test]
fn areas_are_patches(rt: HostRuntime) -> Result<(), Fail> {
    for (text, classes, steps) in [
        (
            b"ncols 3\nnrows 1\nxllcorner 0\nyllcorner 0\ncellsize 1\n1 2 1\n".as_slice(),
            ["1", "2", "1"].as_slice(),
            [4, 4, 4].as_slice(),
        ),
        (
            b"ncols 3\nnrows 2\nxllcorner 0\nyllcorner 0\ncellsize 1\n7 -5 7\n7 7 7\n".as_slice(),
            ["7", "-5"].as_slice(),
            [20, 4].as_slice(),
        ),
        (
            b"ncols 2\nnrows 1\nxllcorner 0\nyllcorner 0\ncellsize 1\n-9999 -9999.0\n".as_slice(),
            [].as_slice(),
            [].as_slice(),
        ),
        (
            b"ncols 3\nnrows 1\nxllcorner 0\nyllcorner 0\ncellsize 1\n1 -9999 1\n".as_slice(),
            ["1", "1"].as_slice(),
            [4, 4].as_slice(),
        ),
        (MIXED, ["-9999", "5"].as_slice(), [4, 8].as_slice()),
    ] {
        let map = coverage(rt.alloc(), text)?;
        crosses(&map);
        assert!(rt; map.passed == 0);
        assert_eq!(rt; map.areas.len(), classes.len());
        for ((area, class), count) in map.areas.iter().zip(classes).zip(steps) {
            assert_eq!(rt; area.class().as_str(), *class);
            assert_eq!(rt; area.steps().len(), *count);
        }
    }
    Ok(())
}

#[test]
fn rows_go_down_and_corners_join_nothing(rt: HostRuntime) -> Result<(), Fail> {
    let text =
        b"ncols 2\nnrows 2\nxllcorner 10\nyllcorner -20.5\ncellsize 0.25\nnodata_value 3\n1 3\n3 1";
    let map = coverage(rt.alloc(), text)?;
    assert_eq!(rt; map.areas.len(), 2);
    if let [first, second] = map.areas.as_slice() {
        assert!(rt; begins(first, 0, 1) && !begins(first, 1, 0));
        assert!(rt; begins(second, 1, 0) && !begins(second, 0, 1));
    }
    assert!(rt; is_frame(&map.frame, "0.25", "10", "-20.5"));
    Ok(())
}

#[test]
fn frames_keep_their_characters(rt: HostRuntime) -> Result<(), Fail> {
    let map = coverage(rt.alloc(), MIXED)?;
    assert!(rt; is_frame(&map.frame, "1E-5", "-0.5e2", "7"));
    frame_law();
    Ok(())
}

// A text of one cell whose left corner has so many digits.
fn cornered(alloc: Global, digits: u32) -> Result<Vec<u8>, Fail> {
    let mut text = Vec::from_slice(
        alloc,
        b"ncols 1\nnrows 1\nyllcorner 0\ncellsize 1\nxllcorner ",
    )?;
    for _ in 0..digits {
        text.push(b'1')?;
    }
    text.extend_from_slice(b"\n5\n")?;
    Ok(text)
}

#[test]
fn corners_have_a_limit(rt: HostRuntime) -> Result<(), Fail> {
    let alloc = rt.alloc();
    let map = coverage(alloc, &cornered(alloc, 100)?)?;
    assert_eq!(rt; map.areas.len(), 1);
    let long = Some(GridFault::Header { line: 5 });
    assert!(rt; fault(alloc, &cornered(alloc, 101)?) == long);
    Ok(())
}

#[test]
fn headers_break_their_rules(rt: HostRuntime) {
    let alloc = rt.alloc();
    for (text, fault_is) in [
        (b"".as_slice(), GridFault::Header { line: 1 }),
        (b"ncols 3\n\n".as_slice(), GridFault::Header { line: 3 }),
        (b"ncols 3\r".as_slice(), GridFault::Header { line: 1 }),
        (b"ncols 0\n".as_slice(), GridFault::Header { line: 1 }),
        (b"ncols 524289\n".as_slice(), GridFault::Header { line: 1 }),
        (b"ncols 3 3\n".as_slice(), GridFault::Header { line: 1 }),
        (b"dx 1\n".as_slice(), GridFault::Header { line: 1 }),
        (
            b"ncols 3\nNCOLS 3\n".as_slice(),
            GridFault::Header { line: 2 },
        ),
        (
            b"ncols 3\nnrows 1\nxllcenter 0\n".as_slice(),
            GridFault::Centred { line: 3 },
        ),
        (
            b"\nYLLCenter\nnrows 0\n".as_slice(),
            GridFault::Centred { line: 2 },
        ),
        (b"xllcorner 01\n".as_slice(), GridFault::Header { line: 1 }),
        (b"cellsize -1\n".as_slice(), GridFault::Header { line: 1 }),
        (
            b"nodata_value 2147483648\n".as_slice(),
            GridFault::Header { line: 1 },
        ),
        (
            b"ncols 3\nnrows 1\nxllcorner 0\nyllcorner 0\n\n1 2 1\ncellsize 1\n".as_slice(),
            GridFault::Header { line: 6 },
        ),
        (
            b"ncols 1025\nnrows 512\nxllcorner 0\nyllcorner 0\n1\n".as_slice(),
            GridFault::Header { line: 5 },
        ),
        (
            b"ncols 1025\nnrows 512\nxllcorner 0\nyllcorner 0\ncellsize 1\nx\n".as_slice(),
            GridFault::Header { line: 6 },
        ),
        (
            b"ncols 1025\nnrows 512\nxllcorner 0\nyllcorner 0\ncellsize 1\n?\n".as_slice(),
            GridFault::Limit(Limit::Cells),
        ),
    ] {
        assert!(rt; fault(alloc, text) == Some(fault_is), "not {fault_is}");
    }
    one_grid();
    one_fault();
    grid_without_fault();
    grid_or_fault();
}

// A whole header of so many columns and rows.
fn header(alloc: Global, columns: u32, rows: u32) -> Result<Vec<u8>, Fail> {
    let text = format!(in alloc;
        "ncols {columns}\nnrows {rows}\nxllcorner 0\nyllcorner 0\ncellsize 1\n"
    )?;
    Ok(Vec::from_slice(alloc, text.as_bytes())?)
}

#[test]
fn cells_break_their_rules(rt: HostRuntime) -> Result<(), Fail> {
    let alloc = rt.alloc();
    for (cells, fault_is) in [
        (b"".as_slice(), GridFault::Count { found: 0 }),
        (b"1 2".as_slice(), GridFault::Count { found: 2 }),
        (
            b"1 2 1\n1 1 ?".as_slice(),
            GridFault::Cell { row: 1, column: 2 },
        ),
        (b"1 2 1\n1 1 1 ?".as_slice(), GridFault::Count { found: 7 }),
        (b"1 2.5 1".as_slice(), GridFault::Cell { row: 0, column: 1 }),
        (
            b"1\r2\r\n1\n2147483648".as_slice(),
            GridFault::Cell { row: 1, column: 0 },
        ),
        (
            b"-2147483648".as_slice(),
            GridFault::Cell { row: 0, column: 0 },
        ),
        (b"1 1 1 1 1 1 1".as_slice(), GridFault::Count { found: 7 }),
    ] {
        let mut text = header(alloc, 3, 2)?;
        text.extend_from_slice(cells)?;
        assert!(rt; fault(alloc, &text) == Some(fault_is), "not {fault_is}");
    }
    Ok(())
}

// A text of a grid in which neighbours differ.
fn speckled(alloc: Global, columns: u32, rows: u32, pairs: u32) -> Result<Vec<u8>, Fail> {
    let mut text = header(alloc, columns, rows)?;
    for _ in 0..pairs {
        text.extend_from_slice(b"1 2\n")?;
    }
    Ok(text)
}

#[test]
fn patches_have_a_limit(rt: HostRuntime) -> Result<(), Fail> {
    let alloc = rt.alloc();
    assert_eq!(rt;
        coverage(alloc, &speckled(alloc, 65_536, 1, 32_768)?)?
            .areas
            .len(),
        65_536
    );
    let many = Some(GridFault::Limit(Limit::Areas));
    assert!(rt; fault(alloc, &speckled(alloc, 257, 256, 32_896)?) == many);
    Ok(())
}
