// Runs over files in memory.
use super::*;
use agg_base::{NoMemory, Text, Words};
use crew_work::Alone;
use shelf_io::{MemShelf, Shelf, SureShelf, are_names_distinct};
use std::alloc::Global;
use std::process::Abort;
use std::test::Fail;

const FORM: [&str; 8] = ["generalise", "grid", "m", "t", "o", "c", "--splits", "0"];

pub(crate) const MAP: &[u8] = b"ncols 3\nnrows 1\nxllcorner 0\nyllcorner 0\ncellsize 1\n1 2 1\n";

const TABLE: &[u8] = b"classes 1\nunit 1 1\nborder 1\nclass 4 1\nclass 4 2\nrow 0 5\nrow 5 0\n";

// How the certificate begins; the sum of rows behind it is the provider's choice.
const HEAD: &[u8] =
    b"aggregation 1\nstatus optimal\ncost 10\nbound 10\nareas 3\nregions 1\nr 0\na 0\na 0\na 0\n";

fn words_of(alloc: Global, words: &[&str]) -> Result<Words, NoMemory> {
    let mut texts = Vec::new(alloc);
    for word in words {
        texts.push(Text::of(alloc, word)?)?;
    }
    Ok(Words::of(texts))
}

// How a run over the shelf ends. What it promises is left out: the tests hold what comes of it against texts.
pub(crate) fn status_over<S: Shelf>(
    alloc: Global,
    words: &[&str],
    shelf: &mut S,
) -> Result<Status, NoMemory> {
    Ok(run(alloc, &words_of(alloc, words)?, shelf, &Alone))
}

// The files that a run begins with.
fn files_of(alloc: Global, map: &[u8], table: &[u8]) -> Result<Vec<(Text, Vec<u8>)>, NoMemory> {
    let mut files = Vec::new(alloc);
    files.push((Text::of(alloc, "m")?, Vec::from_slice(alloc, map)?))?;
    files.push((Text::of(alloc, "t")?, Vec::from_slice(alloc, table)?))?;
    Ok(files)
}

const DRAWN: &[u8] =
    b"{\"type\":\"Topology\",\"transform\":{\"scale\":[1,1],\"translate\":[0,0]},\"objects\":{\"regions\":{\"type\":\"GeometryCollection\",\"geometries\":[{\"type\":\"MultiPolygon\",\"id\":0,\"properties\":{\"class\":\"1\"},\"arcs\":[[[0]]]}]}},\"arcs\":[[[0,0],[1,0],[1,0],[1,0],[0,1],[-1,0],[-1,0],[-1,0],[0,-1]]]}\n";

// What a run ends with, says, and leaves in the files of the certificate and of the map.
#[derive(Drop)]
pub(crate) struct Ending {
    pub code: u8,
    pub said: Vec<u8>,
    pub certificate: Option<Vec<u8>>,
    pub map: Option<Vec<u8>>,
}

// A file's bytes, where it is there.
fn bytes_in(alloc: Global, shelf: &MemShelf, name: &str) -> Result<Option<Vec<u8>>, NoMemory> {
    match shelf.file(name) {
        Some(bytes) => Ok(Some(Vec::from_slice(alloc, bytes)?)),
        None => Ok(None),
    }
}

pub(crate) fn ending_of(
    rt: &impl Abort,
    alloc: Global,
    words: &[&str],
    map: &[u8],
    table: &[u8],
    failing: &[u64],
) -> Result<Ending, NoMemory> {
    let files = files_of(alloc, map, table)?;
    assert!(rt; are_names_distinct(&files));
    let mut shelf = MemShelf::new(alloc, files, Vec::from_slice(alloc, failing)?);
    let code = status_over(alloc, words, &mut shelf)?.code();
    Ok(Ending {
        code,
        said: Vec::from_slice(alloc, shelf.said())?,
        certificate: bytes_in(alloc, &shelf, "c")?,
        map: bytes_in(alloc, &shelf, "o")?,
    })
}

pub(crate) fn bytes_of(bytes: &Option<Vec<u8>>) -> &[u8] {
    match bytes {
        Some(bytes) => bytes,
        None => b"(no file)",
    }
}

#[test]
fn one_region_is_optimal(rt: HostRuntime) -> Result<(), Fail> {
    let end = ending_of(&rt, rt.alloc(), &FORM, MAP, TABLE, &[])?;
    assert_eq!(rt; end.code, 0);
    assert_eq!(rt;
        end.said.as_slice(),
        b"optimal\nareas 3\npassed 0\nregions 1\ncost 10\nbound 10\nsplits 0\n".as_slice()
    );
    assert!(rt; bytes_of(&end.certificate).starts_with(HEAD));
    assert!(rt; bytes_of(&end.certificate).ends_with(b"\nend\n"));
    assert_eq!(rt; bytes_of(&end.map), DRAWN);
    Ok(())
}

#[test]
fn equal_cells_are_optimal(rt: HostRuntime) -> Result<(), Fail> {
    let map = b"ncols 3\nnrows 1\nxllcorner 0\nyllcorner 0\ncellsize 1\n1 1 1\n";
    let end = ending_of(&rt, rt.alloc(), &FORM, map, TABLE, &[])?;
    assert_eq!(rt; end.code, 0);
    assert_eq!(rt;
        end.said.as_slice(),
        b"optimal\nareas 1\npassed 0\nregions 1\ncost 0\nbound 0\nsplits 0\n".as_slice()
    );
    assert_eq!(rt;
        bytes_of(&end.certificate),
        b"aggregation 1\nstatus optimal\ncost 0\nbound 0\nareas 1\nregions 1\nr 0\na 0\nc 1 0\nend\n".as_slice()
    );
    Ok(())
}

#[test]
fn a_single_class_has_the_fixed_leaf(rt: HostRuntime) -> Result<(), Fail> {
    let map = b"ncols 1\nnrows 1\nxllcorner 0\nyllcorner 0\ncellsize 1\n7\n";
    let table = b"classes 1\nborder 0\nclass 2 7\nrow 0\n";
    let end = ending_of(&rt, rt.alloc(), &FORM, map, table, &[])?;
    assert_eq!(rt; end.code, 0);
    assert_eq!(rt;
        bytes_of(&end.certificate),
        b"aggregation 1\nstatus optimal\ncost 0\nbound 0\nareas 1\nregions 1\nr 0\na 0\nf\nend\n".as_slice()
    );
    Ok(())
}

#[test]
fn too_high_thresholds_are_hopeless(rt: HostRuntime) -> Result<(), Fail> {
    let table = b"classes 1\nunit 1 1\nborder 1\nclass 7 1\nclass 7 2\nrow 0 5\nrow 5 0\n";
    let end = ending_of(&rt, rt.alloc(), &FORM, MAP, table, &[])?;
    assert_eq!(rt; end.code, 4);
    assert_eq!(rt;
        end.said.as_slice(),
        b"none\nareas 3\npassed 0\nregions 0\ncost -\nbound -\nsplits 0\n".as_slice()
    );
    assert_eq!(rt;
        bytes_of(&end.certificate),
        b"aggregation 1\nstatus none\ncost -\nbound -\nareas 3\nregions 0\nv 2\ne 1 0 0 3 0 1 2\ne 1 0 1 3 0 1 2\nend\n".as_slice()
    );
    Ok(())
}

// Whether a run ends so, says just that and stores nothing.
pub(crate) fn is_stopped(
    rt: &impl Abort,
    alloc: Global,
    words: &[&str],
    map: &[u8],
    table: &[u8],
    code: u8,
    said: &[u8],
) -> Result<bool, NoMemory> {
    let end = ending_of(rt, alloc, words, map, table, &[])?;
    Ok(
        end.code == code
            && end.said.as_slice() == said
            && end.certificate.is_none()
            && end.map.is_none(),
    )
}

// Whether a run on this map and table is refused by this line.
fn is_refused(
    rt: &impl Abort,
    alloc: Global,
    map: &[u8],
    table: &[u8],
    line: &[u8],
) -> Result<bool, NoMemory> {
    is_stopped(rt, alloc, &FORM, map, table, 65, line)
}

// A map of one row with these cells.
fn row_of(alloc: Global, cells: &[u8]) -> Result<Vec<u8>, NoMemory> {
    let mut map = Vec::from_slice(
        alloc,
        b"ncols 3\nnrows 1\nxllcorner 0\nyllcorner 0\ncellsize 1\n",
    )?;
    map.extend_from_slice(cells)?;
    map.push(b'\n')?;
    Ok(map)
}

const CENTRED: &[u8] = b"ncols 3\nnrows 1\nxllcenter 0\nyllcorner 0\ncellsize 1\n1 2 1\n";

#[test]
fn maps_are_refused(rt: HostRuntime) -> Result<(), Fail> {
    let alloc = rt.alloc();
    assert!(rt; is_refused(&rt, alloc, CENTRED, TABLE, b"refused: map Centred 3\n")?);
    assert!(rt; is_refused(&rt, alloc, b"", TABLE, b"refused: map Header 1\n")?);
    for (cells, line) in [
        (&b"1 2"[..], &b"refused: map Count 2\n"[..]),
        (&b"1 2.5 1"[..], &b"refused: map Cell 0 1\n"[..]),
        (&b"1 3 1"[..], &b"refused: classes UnknownClass 1\n"[..]),
    ] {
        let map = row_of(alloc, cells)?;
        assert!(rt; is_refused(&rt, alloc, &map, TABLE, line)?);
    }
    Ok(())
}

#[test]
fn tables_are_refused(rt: HostRuntime) -> Result<(), Fail> {
    let alloc = rt.alloc();
    let repeated = b"classes 1\nborder 1\nclass 4 a\nclass 4 a\n";
    let line = b"refused: table RepeatedClass 4\n";
    assert!(rt; is_refused(&rt, alloc, MAP, repeated, line)?);
    let version = b"classes 2\n";
    let line = b"refused: table Line 1 Version\n";
    assert!(rt; is_refused(&rt, alloc, MAP, version, line)?);
    Ok(())
}

// The length of the table goes before the text of the map, this before the text of the table, and this before the classes.
#[test]
fn the_first_refusal_is_said(rt: HostRuntime) -> Result<(), Fail> {
    let alloc = rt.alloc();
    let version = b"classes 2\n";
    assert!(rt; is_refused(&rt, alloc, CENTRED, version, b"refused: map Centred 3\n")?);
    let strange = row_of(alloc, b"1 3 1")?;
    let line = b"refused: table Line 1 Version\n";
    assert!(rt; is_refused(&rt, alloc, &strange, version, line)?);
    let mut long = Vec::new(alloc);
    for _ in 0..1_048_577u32 {
        long.push(b'#')?;
    }
    assert!(rt; is_refused(&rt, alloc, CENTRED, &long, b"refused: table TooLong\n")?);
    Ok(())
}

// One row of 1 and 2 in turn, 257 cells long, that begins with 1 or with 2.
fn push_row(out: &mut Vec<u8>, odd: bool) -> Result<(), NoMemory> {
    for column in 0..257u32 {
        let one = (column % 2 == 0) != odd;
        out.extend_from_slice(if one { b"1 " } else { b"2 " })?;
    }
    out.push(b'\n')?;
    Ok(())
}

#[test]
fn a_board_of_single_cells_has_too_many_patches(rt: HostRuntime) -> Result<(), Fail> {
    let alloc = rt.alloc();
    let mut map = Vec::from_slice(
        alloc,
        b"ncols 257\nnrows 256\nxllcorner 0\nyllcorner 0\ncellsize 1\n",
    )?;
    for row in 0..256u32 {
        push_row(&mut map, row % 2 == 1)?;
    }
    assert!(rt; is_refused(&rt, alloc, &map, TABLE, b"refused: map Limit Areas\n")?);
    Ok(())
}

#[test]
fn cells_that_touch_at_a_corner_are_not_linked(rt: HostRuntime) -> Result<(), Fail> {
    let map = b"ncols 2\nnrows 2\nxllcorner 0\nyllcorner 0\ncellsize 1\n1 -9999\n-9999 1\n";
    let end = ending_of(&rt, rt.alloc(), &FORM, map, TABLE, &[])?;
    assert_eq!(rt; end.code, 4);
    assert_eq!(rt;
        bytes_of(&end.certificate),
        b"aggregation 1\nstatus none\ncost -\nbound -\nareas 2\nregions 0\nv 2\ne 1 0 0 1 0\ne 1 0 1 1 0\nend\n".as_slice()
    );
    let light = b"classes 1\nunit 1 1\nborder 1\nclass 2 1\nclass 2 2\nrow 0 5\nrow 5 0\n";
    let end = ending_of(&rt, rt.alloc(), &FORM, map, light, &[])?;
    assert_eq!(rt; end.code, 0);
    assert_eq!(rt;
        end.said.as_slice(),
        b"optimal\nareas 2\npassed 0\nregions 2\ncost 0\nbound 0\nsplits 0\n".as_slice()
    );
    assert_eq!(rt;
        bytes_of(&end.certificate),
        b"aggregation 1\nstatus optimal\ncost 0\nbound 0\nareas 2\nregions 2\nr 0\nr 0\na 0\na 1\nc 1 0\nend\n".as_slice()
    );
    assert_eq!(rt;
        bytes_of(&end.map),
        b"{\"type\":\"Topology\",\"transform\":{\"scale\":[1,1],\"translate\":[0,0]},\"objects\":{\"regions\":{\"type\":\"GeometryCollection\",\"geometries\":[{\"type\":\"MultiPolygon\",\"id\":0,\"properties\":{\"class\":\"1\"},\"arcs\":[[[-2]]]},{\"type\":\"MultiPolygon\",\"id\":1,\"properties\":{\"class\":\"1\"},\"arcs\":[[[0]]]}]}},\"arcs\":[[[1,1],[0,-1],[1,0],[0,1],[-1,0]],[[1,1],[-1,0],[0,1],[1,0],[0,-1]]]}\n".as_slice()
    );
    Ok(())
}

#[test]
fn a_single_cell_may_be_hopeless(rt: HostRuntime) -> Result<(), Fail> {
    let map = b"ncols 1\nnrows 1\nxllcorner 0\nyllcorner 0\ncellsize 1\n1\n";
    let table = b"classes 1\nborder 0\nclass 4 1\nrow 0\n";
    let end = ending_of(&rt, rt.alloc(), &FORM, map, table, &[])?;
    assert_eq!(rt; end.code, 4);
    assert_eq!(rt;
        end.said.as_slice(),
        b"none\nareas 1\npassed 0\nregions 0\ncost -\nbound -\nsplits 0\n".as_slice()
    );
    assert_eq!(rt;
        bytes_of(&end.certificate),
        b"aggregation 1\nstatus none\ncost -\nbound -\nareas 1\nregions 0\nv 1\ne 1 0 0 1 0\nend\n".as_slice()
    );
    assert!(rt; end.map.is_none());
    Ok(())
}

#[test]
fn a_map_without_areas_is_optimal(rt: HostRuntime) -> Result<(), Fail> {
    let map =
        b"NCOLS 2\r\nNROWS 1\r\n\r\nXLLCORNER 0\r\nYLLCORNER 0\r\nCELLSIZE 1\r\nNODATA_VALUE 1\r\n1 1";
    let words = ["generalise", "--splits", "00", "grid", "m", "t", "o", "c"];
    let end = ending_of(&rt, rt.alloc(), &words, map, TABLE, &[])?;
    assert_eq!(rt; end.code, 0);
    assert_eq!(rt;
        end.said.as_slice(),
        b"optimal\nareas 0\npassed 0\nregions 0\ncost 0\nbound 0\nsplits 0\n".as_slice()
    );
    assert_eq!(rt;
        bytes_of(&end.certificate),
        b"aggregation 1\nstatus optimal\ncost 0\nbound 0\nareas 0\nregions 0\nf\nend\n".as_slice()
    );
    assert_eq!(rt;
        bytes_of(&end.map),
        b"{\"type\":\"Topology\",\"transform\":{\"scale\":[1,1],\"translate\":[0,0]},\"objects\":{\"regions\":{\"type\":\"GeometryCollection\",\"geometries\":[]}},\"arcs\":[]}\n".as_slice()
    );
    Ok(())
}

const USAGE: &[u8] =
    b"usage: generalise FORMAT MAP TABLE OUT CERT [--splits N] [--class NAME] [--object NAME] | check FORMAT MAP TABLE OUT CERT [--class NAME] [--object NAME] | make COLUMNS ROWS SEED MAP TABLE OUT CERT [--splits N]\n";

#[test]
fn holes_may_touch_at_a_corner(rt: HostRuntime) -> Result<(), Fail> {
    let map =
        b"ncols 4\nnrows 4\nxllcorner 0\nyllcorner 0\ncellsize 1\n1 1 1 1\n1 -9999 1 1\n1 1 -9999 1\n1 1 1 1\n";
    let end = ending_of(&rt, rt.alloc(), &FORM, map, TABLE, &[])?;
    assert_eq!(rt; end.code, 0);
    assert_eq!(rt;
        bytes_of(&end.map),
        b"{\"type\":\"Topology\",\"transform\":{\"scale\":[1,1],\"translate\":[0,0]},\"objects\":{\"regions\":{\"type\":\"GeometryCollection\",\"geometries\":[{\"type\":\"MultiPolygon\",\"id\":0,\"properties\":{\"class\":\"1\"},\"arcs\":[[[0],[-2],[2]]]}]}},\"arcs\":[[[0,0],[1,0],[1,0],[1,0],[1,0],[0,1],[0,1],[0,1],[0,1],[-1,0],[-1,0],[-1,0],[-1,0],[0,-1],[0,-1],[0,-1],[0,-1]],[[2,2],[0,-1],[1,0],[0,1],[-1,0]],[[2,2],[-1,0],[0,1],[1,0],[0,-1]]]}\n".as_slice()
    );
    Ok(())
}

// Whether these words are in no form.
fn is_usage(rt: &impl Abort, alloc: Global, words: &[&str]) -> Result<bool, NoMemory> {
    is_stopped(rt, alloc, words, MAP, TABLE, 64, USAGE)
}

#[test]
fn other_words_are_usage(rt: HostRuntime) -> Result<(), Fail> {
    let alloc = rt.alloc();
    for words in [
        &[][..],
        &["generalise", "grid", "m", "t", "o", "c", "--splits"][..],
        &["generalise", "grid", "m", "t", "o", "c", "--splits=5"][..],
        &["generalise", "grid", "m", "t", "o", "o"][..],
        &["generalise", "grid", "m", "t", "", "c", "--splits", "0"][..],
        &["generalise", "grid", "m", "t", "-o", "c", "--splits", "0"][..],
        &["check", "grid", "m", "t", "o", "c", "--splits", "5"][..],
        &[
            "generalise",
            "grid",
            "m",
            "t",
            "o",
            "c",
            "--splits",
            "0",
            "--class",
            "k",
        ][..],
        &[
            "generalise",
            "geojson",
            "m",
            "t",
            "o",
            "c",
            "--splits",
            "0",
            "--object",
            "k",
        ][..],
        &[
            "generalise",
            "geojson",
            "m",
            "t",
            "o",
            "c",
            "--splits",
            "0",
            "--class",
            "-k",
        ][..],
        &["generalise", "shape", "m", "t", "o", "c"][..],
    ] {
        assert!(rt; is_usage(&rt, alloc, words)?, "for {words:?}");
    }
    Ok(())
}

// The first call of a run with such words says the usage: nothing is fetched.
#[test]
fn other_words_fetch_nothing(rt: HostRuntime) -> Result<(), Fail> {
    let end = ending_of(&rt, rt.alloc(), &["generalise"], MAP, TABLE, &[0])?;
    assert_eq!(rt; end.code, 75);
    assert_eq!(rt; end.said.as_slice(), &USAGE[..USAGE.len() / 2]);
    Ok(())
}

// How a run on the first row's map with these splits ends.
fn code_with(rt: &impl Abort, alloc: Global, splits: &str) -> Result<u8, NoMemory> {
    let words = ["generalise", "grid", "m", "--splits", splits, "t", "o", "c"];
    Ok(ending_of(rt, alloc, &words, MAP, TABLE, &[])?.code)
}

#[test]
fn splits_have_one_to_seven_digits(rt: HostRuntime) -> Result<(), Fail> {
    let alloc = rt.alloc();
    for splits in ["0", "0000000", "7", "1000000"] {
        assert_eq!(rt; code_with(&rt, alloc, splits)?, 0);
    }
    Ok(())
}

#[test]
fn other_splits_are_usage(rt: HostRuntime) -> Result<(), Fail> {
    let alloc = rt.alloc();
    for splits in ["1000001", "9999999", "00000000", "+5", "5.0", "5 "] {
        assert_eq!(rt; code_with(&rt, alloc, splits)?, 64);
    }
    Ok(())
}

#[test]
fn an_option_stands_once(rt: HostRuntime) -> Result<(), Fail> {
    let twice = &[
        "generalise",
        "--splits",
        "0",
        "grid",
        "m",
        "t",
        "o",
        "c",
        "--splits",
        "0",
    ];
    assert!(rt; is_usage(&rt, rt.alloc(), twice)?);
    Ok(())
}

// Whether a run with these failing calls ends so, says just that and leaves that certificate and that map.
fn is_left(
    rt: &impl Abort,
    alloc: Global,
    failing: &[u64],
    ends: (u8, &[u8]),
    certificate: &[u8],
    map: &[u8],
) -> Result<bool, NoMemory> {
    let end = ending_of(rt, alloc, &FORM, MAP, TABLE, failing)?;
    let both = bytes_of(&end.certificate) == certificate && bytes_of(&end.map) == map;
    Ok(end.code == ends.0 && end.said.as_slice() == ends.1 && both)
}

#[test]
fn each_call_fails_in_turn(rt: HostRuntime) -> Result<(), Fail> {
    let alloc = rt.alloc();
    let none = b"(no file)";
    let whole = ending_of(&rt, alloc, &FORM, MAP, TABLE, &[])?;
    let stated = bytes_of(&whole.certificate);
    assert!(rt; is_left(&rt, alloc, &[0], (74, b"read fault: map\n"), none, none)?);
    assert!(rt; is_left(&rt, alloc, &[1], (74, b"read fault: table\n"), none, none)?);
    assert!(rt;
        is_left(
            &rt,
            alloc,
            &[2],
            (75, b""),
            &stated[..stated.len() / 2],
            none
        )?
    );
    assert!(rt;
        is_left(
            &rt,
            alloc,
            &[3],
            (75, b""),
            stated,
            &DRAWN[..DRAWN.len() / 2]
        )?
    );
    let half = b"optimal\nareas 3\npassed 0\nregio";
    assert!(rt; is_left(&rt, alloc, &[4], (75, half), stated, DRAWN)?);
    assert!(rt; is_left(&rt, alloc, &[0, 1], (75, b"read fau"), none, none)?);
    Ok(())
}

#[test]
fn a_missing_table_is_a_read_fault(rt: HostRuntime) -> Result<(), Fail> {
    let alloc = rt.alloc();
    let mut files = Vec::new(alloc);
    files.push((Text::of(alloc, "m")?, Vec::from_slice(alloc, MAP)?))?;
    assert!(rt; are_names_distinct(&files));
    let mut shelf = MemShelf::new(alloc, files, Vec::new(alloc));
    let status = status_over(alloc, &FORM, &mut shelf)?;
    assert_eq!(rt; status, Status::ReadFault);
    assert_eq!(rt; shelf.said(), b"read fault: table\n".as_slice());
    Ok(())
}

#[test]
fn a_sure_shelf_takes_all(rt: HostRuntime) -> Result<(), Fail> {
    let alloc = rt.alloc();
    let files = files_of(alloc, MAP, TABLE)?;
    assert!(rt; are_names_distinct(&files));
    let mut shelf = SureShelf::new(alloc, files);
    let status = status_over(alloc, &FORM, &mut shelf)?;
    assert_eq!(rt; status, Status::Done);
    assert!(rt; shelf.file("c").is_some_and(|bytes| bytes.starts_with(HEAD)));
    assert_eq!(rt; shelf.file("o"), Some(DRAWN));
    Ok(())
}
