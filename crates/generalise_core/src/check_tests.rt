// Checks of certificates in files in memory.
use super::*;
use crate::tests::status_over;
use agg_base::{NoMemory, Text};
use shelf_io::{MemShelf, are_names_distinct};
use std::alloc::Global;
use std::process::Abort;
use std::test::Fail;

const FORM: [&str; 6] = ["check", "grid", "m", "t", "o", "c"];

const MAP: &[u8] = b"ncols 3\nnrows 1\nxllcorner 0\nyllcorner 0\ncellsize 1\n1 2 1\n";

const TABLE: &[u8] = b"classes 1\nunit 1 1\nborder 1\nclass 4 1\nclass 4 2\nrow 0 5\nrow 5 0\n";

const CERTIFICATE: &[u8] =
    b"aggregation 1\nstatus optimal\ncost 10\nbound 10\nareas 3\nregions 1\nr 0\na 0\na 0\na 0\nc 1 2\ne 5 0 0 1 0\ne 5 2 0 1 2\nend\n";

const OUT: &[u8] =
    b"{\"type\":\"Topology\",\"transform\":{\"scale\":[1,1],\"translate\":[0,0]},\"objects\":{\"regions\":{\"type\":\"GeometryCollection\",\"geometries\":[{\"type\":\"MultiPolygon\",\"id\":0,\"properties\":{\"class\":\"1\"},\"arcs\":[[[0]]]}]}},\"arcs\":[[[0,0],[1,0],[1,0],[1,0],[0,1],[-1,0],[-1,0],[-1,0],[0,-1]]]}\n";

// The bytes of the four files.
#[derive(Clone, Copy)]
struct Held<'a> {
    map: &'a [u8],
    table: &'a [u8],
    certificate: &'a [u8],
    out: &'a [u8],
}

// Those of a row of three cells, of which one changes its class.
const ROW: Held<'static> = Held {
    map: MAP,
    table: TABLE,
    certificate: CERTIFICATE,
    out: OUT,
};

fn files_of(alloc: Global, held: Held) -> Result<Vec<(Text, Vec<u8>)>, NoMemory> {
    let mut files = Vec::new(alloc);
    files.push((Text::of(alloc, "m")?, Vec::from_slice(alloc, held.map)?))?;
    files.push((Text::of(alloc, "t")?, Vec::from_slice(alloc, held.table)?))?;
    files.push((
        Text::of(alloc, "c")?,
        Vec::from_slice(alloc, held.certificate)?,
    ))?;
    files.push((Text::of(alloc, "o")?, Vec::from_slice(alloc, held.out)?))?;
    Ok(files)
}

// Whether a run over these files ends with that code, says that line, and leaves the files of the certificate and of the drawn map.
fn ends(
    rt: &impl Abort,
    alloc: Global,
    words: &[&str],
    held: Held,
    failing: &[u64],
    code: u8,
    line: &str,
) -> Result<bool, NoMemory> {
    let files = files_of(alloc, held)?;
    assert!(rt; are_names_distinct(&files));
    let mut shelf = MemShelf::new(alloc, files, Vec::from_slice(alloc, failing)?);
    let status = status_over(alloc, words, &mut shelf)?;
    Ok(
        status.code() == code
            && shelf.said() == line.as_bytes()
            && shelf.file("c") == Some(held.certificate)
            && shelf.file("o") == Some(held.out),
    )
}

#[test]
fn a_valid_certificate(rt: HostRuntime) -> Result<(), Fail> {
    let alloc = rt.alloc();
    assert!(rt; ends(&rt, alloc, &FORM, ROW, &[], 0, "valid optimal 10 10\n")?);
    Ok(())
}

#[test]
fn what_generalise_stores_is_valid(rt: HostRuntime) -> Result<(), Fail> {
    let alloc = rt.alloc();
    let files = files_of(alloc, ROW)?;
    assert!(rt; are_names_distinct(&files));
    let mut shelf = MemShelf::new(alloc, files, Vec::new(alloc));
    let words = ["generalise", "grid", "m", "t", "o", "c", "--splits", "0"];
    assert_eq!(rt; status_over(alloc, &words, &mut shelf)?, Status::Done);
    let said = shelf.said().len();
    let status = status_over(alloc, &FORM, &mut shelf)?;
    assert_eq!(rt; status, Status::Done);
    assert!(rt; shelf.said().len() > said);
    Ok(())
}

// The certificate of the row with other lines.
fn certificate(alloc: Global, cost: &str, leaf: &str) -> Result<String, NoMemory> {
    Ok(format!(in alloc;
        "aggregation 1\nstatus optimal\ncost {cost}\nbound 10\nareas 3\nregions 1\nr 0\na 0\na 0\na 0\n{leaf}end\n"
    )?)
}

#[test]
fn certificates_that_are_not_valid(rt: HostRuntime) -> Result<(), Fail> {
    let alloc = rt.alloc();
    let leaf = "c 1 2\ne 5 0 0 1 0\ne 5 2 0 1 2\n";
    for (cost, leaf, code, line) in [
        ("11", leaf, 5, "invalid Cost 10\n"),
        (
            "10",
            "c 1 2\ne -5 0 0 1 0\ne 5 2 0 1 2\n",
            5,
            "invalid Negative 0 0\n",
        ),
        (
            "10",
            "c 1 2\ne 5 0 0 2 0 1\ne 5 2 0 1 2\n",
            5,
            "invalid Row 0 0\n",
        ),
        ("10", "s 0 0\nc 1 0\n", 65, "refused: certificate Line 13\n"),
        (
            "10",
            "c 1 2\ne 170141183460469231731687303715884105727 0 0 1 0\ne 170141183460469231731687303715884105727 0 0 1 0\n",
            5,
            "invalid Wide 0 choice 0 0\n",
        ),
    ] {
        let text = certificate(alloc, cost, leaf)?;
        let held = Held {
            certificate: text.as_bytes(),
            ..ROW
        };
        assert!(rt; ends(&rt, alloc, &FORM, held, &[], code, line)?);
    }
    Ok(())
}

#[test]
fn a_drawn_map_of_another_class(rt: HostRuntime) -> Result<(), Fail> {
    let alloc = rt.alloc();
    let out =
        b"{\"type\":\"Topology\",\"transform\":{\"scale\":[1,1],\"translate\":[0,0]},\"objects\":{\"regions\":{\"type\":\"MultiPolygon\",\"properties\":{\"class\":\"2\"},\"arcs\":[[[0]]]}},\"arcs\":[[[0,0],[1,0],[1,0],[1,0],[0,1],[-1,0],[-1,0],[-1,0],[0,-1]]]}";
    let held = Held { out, ..ROW };
    assert!(rt; ends(&rt, alloc, &FORM, held, &[], 5, "invalid DrawnClass 0\n")?);
    let held = Held { out: b"{}", ..ROW };
    assert!(rt;
        ends(
            &rt,
            alloc,
            &FORM,
            held,
            &[],
            65,
            "refused: out NotTopology\n"
        )?
    );
    Ok(())
}

#[test]
fn nothing_is_feasible(rt: HostRuntime) -> Result<(), Fail> {
    let alloc = rt.alloc();
    let held = Held {
        map: b"ncols 1\nnrows 1\nxllcorner 0\nyllcorner 0\ncellsize 1\n1\n",
        table: b"classes 1\nborder 0\nclass 4 1\nrow 0\n",
        certificate: b"aggregation 1\nstatus none\ncost -\nbound -\nareas 1\nregions 0\nv 1\ne 1 0 0 1 0\nend\n",
        out: b"not read",
    };
    // The fetch of the drawn map would be call 3.
    assert!(rt; ends(&rt, alloc, &FORM, held, &[], 0, "valid none - -\n")?);
    assert!(rt; ends(&rt, alloc, &FORM, held, &[3], 75, "valid n")?);
    Ok(())
}

#[test]
fn calls_that_fail(rt: HostRuntime) -> Result<(), Fail> {
    let alloc = rt.alloc();
    for (call, line) in [
        (0, "read fault: map\n"),
        (1, "read fault: table\n"),
        (2, "read fault: certificate\n"),
        (3, "read fault: out\n"),
    ] {
        assert!(rt; ends(&rt, alloc, &FORM, ROW, &[call], 74, line)?);
        assert!(rt; ends(&rt, alloc, &FORM, ROW, &[call, call + 1], 75, half_of(line))?);
    }
    assert!(rt; ends(&rt, alloc, &FORM, ROW, &[4], 75, "valid opti")?);
    Ok(())
}

// The first half of a line, rounded down.
fn half_of(line: &str) -> &str {
    match line {
        "read fault: map\n" => "read fau",
        "read fault: table\n" => "read faul",
        "read fault: certificate\n" => "read fault: ",
        "read fault: out\n" => "read fau",
        _ => "",
    }
}

#[test]
fn words_of_a_check(rt: HostRuntime) -> Result<(), Fail> {
    let alloc = rt.alloc();
    let usage =
        "usage: generalise FORMAT MAP TABLE OUT CERT [--splits N] [--class NAME] [--object NAME] | check FORMAT MAP TABLE OUT CERT [--class NAME] [--object NAME] | make COLUMNS ROWS SEED MAP TABLE OUT CERT [--splits N]\n";
    let splits: [&str; 8] = ["check", "grid", "m", "t", "o", "c", "--splits", "5"];
    assert!(rt; ends(&rt, alloc, &splits, ROW, &[], 64, usage)?);
    let class: [&str; 8] = ["check", "--class", "k", "grid", "m", "t", "o", "c"];
    assert!(rt; ends(&rt, alloc, &class, ROW, &[], 64, usage)?);
    let again: [&str; 6] = ["check", "grid", "m", "t", "o", "o"];
    assert!(rt; ends(&rt, alloc, &again, ROW, &[], 64, usage)?);
    let few: [&str; 5] = ["check", "grid", "m", "t", "o"];
    assert!(rt; ends(&rt, alloc, &few, ROW, &[], 64, usage)?);
    let late: [&str; 6] = ["grid", "check", "m", "t", "o", "c"];
    assert!(rt; ends(&rt, alloc, &late, ROW, &[], 64, usage)?);
    Ok(())
}

#[test]
fn a_table_comes_before_a_certificate(rt: HostRuntime) -> Result<(), Fail> {
    let alloc = rt.alloc();
    let held = Held {
        table: b"classes 2\n",
        certificate: b"",
        ..ROW
    };
    assert!(rt;
        ends(
            &rt,
            alloc,
            &FORM,
            held,
            &[],
            65,
            "refused: table Line 1 Version\n"
        )?
    );
    let held = Held {
        certificate: b"",
        out: b"{}",
        ..ROW
    };
    assert!(rt;
        ends(
            &rt,
            alloc,
            &FORM,
            held,
            &[],
            65,
            "refused: certificate Line 1\n"
        )?
    );
    Ok(())
}
