// Runs whose tree may have splits.
use crate::map_tests::table_of;
use crate::tests::{MAP, bytes_of, ending_of};
use agg_base::NoMemory;
use std::alloc::Global;
use std::process::Abort;
use std::test::Fail;

const FORM: [&str; 6] = ["generalise", "grid", "m", "t", "o", "c"];

const PAIR: &[u8] = b"ncols 2\nnrows 1\nxllcorner 0\nyllcorner 0\ncellsize 1\n1 2\n";

// Whether a run on this map, with this threshold and this border weight, says this report, whatever splits the tree has.
fn is_said(
    rt: &impl Abort,
    alloc: Global,
    map: &[u8],
    threshold: &str,
    border: &str,
    report: &[u8],
) -> Result<bool, NoMemory> {
    let table = table_of(alloc, threshold, border)?;
    let end = ending_of(rt, alloc, &FORM, map, &table, &[])?;
    Ok(end.code == 0 && end.said.as_slice().starts_with(report))
}

#[test]
fn small_maps_are_optimal(rt: HostRuntime) -> Result<(), Fail> {
    let alloc = rt.alloc();
    let one = b"optimal\nareas 3\npassed 0\nregions 1\ncost 10\nbound 10\nsplits ";
    assert!(rt; is_said(&rt, alloc, MAP, "4", "1", one)?);
    assert!(rt; is_said(&rt, alloc, MAP, "6", "1", one)?);
    let joined = b"optimal\nareas 2\npassed 0\nregions 1\ncost 10\nbound 10\nsplits ";
    assert!(rt; is_said(&rt, alloc, PAIR, "2", "1", joined)?);
    Ok(())
}

// Two regions share their border, and each has it in its own direction.
#[test]
fn a_border_is_stored_once(rt: HostRuntime) -> Result<(), Fail> {
    let alloc = rt.alloc();
    let end = ending_of(&rt, alloc, &FORM, PAIR, &table_of(alloc, "2", "0")?, &[])?;
    assert_eq!(rt; end.code, 0);
    let report = b"optimal\nareas 2\npassed 0\nregions 2\ncost 0\nbound 0\nsplits ";
    assert!(rt; end.said.as_slice().starts_with(report));
    assert_eq!(rt;
        bytes_of(&end.map),
        b"{\"type\":\"Topology\",\"transform\":{\"scale\":[1,1],\"translate\":[0,0]},\"objects\":{\"regions\":{\"type\":\"GeometryCollection\",\"geometries\":[{\"type\":\"MultiPolygon\",\"id\":0,\"properties\":{\"class\":\"1\"},\"arcs\":[[[-1,2]]]},{\"type\":\"MultiPolygon\",\"id\":1,\"properties\":{\"class\":\"2\"},\"arcs\":[[[1,-3]]]}]}},\"arcs\":[[[1,0],[-1,0],[0,1],[1,0]],[[1,0],[1,0],[0,1],[-1,0]],[[1,0],[0,1]]]}\n".as_slice()
    );
    Ok(())
}

// Two large patches and six single cells.
const TILE: &[u8] = b"ncols 20\nnrows 8\nxllcorner 0\nyllcorner 0\ncellsize 1
1 1 1 1 1 1 1 1 1 1 2 2 2 2 2 2 2 2 2 2
1 1 2 1 1 1 1 1 1 1 2 2 2 2 2 2 2 3 2 2
1 1 1 1 1 1 1 1 1 1 2 2 2 2 1 2 2 2 2 2
1 1 1 1 1 1 1 1 1 1 2 2 2 2 2 2 2 2 2 2
1 1 1 1 1 2 1 1 1 1 2 2 2 2 2 2 2 2 2 2
1 1 1 1 1 1 1 1 1 1 2 2 2 2 2 2 3 2 2 2
1 1 3 1 1 1 1 1 1 1 2 2 2 2 2 2 2 2 2 2
1 1 1 1 1 1 1 1 1 1 2 2 2 2 2 2 2 2 2 2
";

const THREE_CLASSES: &[u8] =
    b"classes 1\nborder 1\nclass 20 1\nclass 20 2\nclass 20 3\nrow 0 300 600\nrow 300 0 700\nrow 600 700 0\n";

#[test]
fn speckle_is_recoloured_at_the_least_cost(rt: HostRuntime) -> Result<(), Fail> {
    let alloc = rt.alloc();
    let report = b"optimal\nareas 8\npassed 0\nregions 2\ncost 7848\nbound 7848\nsplits ";
    let hundred = ["generalise", "grid", "m", "t", "o", "c", "--splits", "100"];
    for words in [&FORM[..], &hundred[..]] {
        let end = ending_of(&rt, alloc, words, TILE, THREE_CLASSES, &[])?;
        assert_eq!(rt; end.code, 0);
        assert!(rt; end.said.as_slice().starts_with(report));
        let head =
            b"aggregation 1\nstatus optimal\ncost 7848\nbound 7848\nareas 8\nregions 2\nr 0\nr 1\na 0\na 1\na 0\na 1\na 1\na 0\na 1\na 0\n";
        assert!(rt; bytes_of(&end.certificate).starts_with(head));
    }
    Ok(())
}
