// Certificates whose texts are known, and texts that break a rule.
use crate::read;
use agg_base::limits::TEXT_BYTES;
use cert_text::{CertFault, write};
use std::alloc::Global;
use std::test::Fail;

// Two escape rows in cost mode.
const TWO_ROWS: &[u8] =
    b"aggregation 1\nstatus optimal\ncost 10\nbound 10\nareas 3\nregions 1\nr 0\na 0\na 0\na 0\nc 1 2\ne 5 0 0 1 0\ne 5 2 0 1 2\nend\n";

// One area that is too light for its class.
const VOID: &[u8] =
    b"aggregation 1\nstatus none\ncost -\nbound -\nareas 1\nregions 0\nv 1\ne 1 0 0 1 0\nend\n";

// What a text is written as again; nothing where it is too long to be read.
fn written_again(alloc: Global, text: &[u8]) -> Result<Vec<u8>, Fail> {
    if text.len() > TEXT_BYTES {
        return Ok(Vec::new(alloc));
    }
    let certificate = read(alloc, text)?;
    let again = write(alloc, &certificate)?;
    Ok(again)
}

// The fault of a text; none where it is too long to be read.
fn fault(alloc: Global, text: &[u8]) -> Option<CertFault> {
    if text.len() > TEXT_BYTES {
        return None;
    }
    read(alloc, text).err()
}

// How many line feeds a text has.
fn feeds(text: &[u8]) -> u32 {
    let mut count: u32 = 0;
    for byte in text {
        if *byte == b'\n' {
            count = count.saturating_add(1);
        }
    }
    count
}

#[test]
fn texts_are_read_and_written_again(rt: HostRuntime) -> Result<(), Fail> {
    assert_eq!(rt; written_again(rt.alloc(), TWO_ROWS)?.as_slice(), TWO_ROWS);
    assert_eq!(rt; written_again(rt.alloc(), VOID)?.as_slice(), VOID);
    Ok(())
}

#[test]
fn a_part_of_a_text_ends_too_early(rt: HostRuntime) -> Result<(), Fail> {
    for end in 0..TWO_ROWS.len() {
        let part = &TWO_ROWS[..end];
        let number = feeds(part).saturating_add(1);
        assert_eq!(rt; fault(rt.alloc(), part), Some(CertFault::Line { number }));
    }
    Ok(())
}

#[test]
fn lines_that_break_a_rule(rt: HostRuntime) -> Result<(), Fail> {
    let head =
        "aggregation 1\nstatus optimal\ncost 10\nbound 10\nareas 3\nregions 1\nr 0\na 0\na 0\na 0\n";
    for (tail, number) in [
        ("s 0 0\nc 1 0\nend\n", 13),
        ("c 01 0\nend\n", 11),
        ("c +1 0\nend\n", 11),
        ("c 4097 0\nend\n", 11),
        ("v 40000001\nend\n", 11),
        ("f\nend\n\n", 13),
        ("f\nend\r\n", 12),
        ("f \nend\n", 11),
        ("c 1 1\ne 1 0 0 2 1 1\nend\n", 12),
        ("c 1 1\ne 1 0 0 3 1 2\nend\n", 12),
        ("c 1 1\nb 0 2 0 1\nend\n", 12),
        (
            "c 1 1\nb 0 1 0 -170141183460469231731687303715884105728\nend\n",
            12,
        ),
    ] {
        let text = format!(in rt.alloc(); "{head}{tail}")?;
        assert_eq!(rt;
            fault(rt.alloc(), text.as_bytes()),
            Some(CertFault::Line { number })
        );
    }
    Ok(())
}

#[test]
fn a_node_is_too_deep(rt: HostRuntime) -> Result<(), Fail> {
    let mut text = String::from_str(
        rt.alloc(),
        "aggregation 1\nstatus none\ncost -\nbound -\nareas 1\nregions 0\n",
    )?;
    for _place in 0..1024 {
        text.push_str("s 0 0\n")?;
    }
    let mut deep = text.clone()?;
    for _place in 0..1025 {
        text.push_str("f\n")?;
    }
    text.push_str("end\n")?;
    assert_eq!(rt; fault(rt.alloc(), text.as_bytes()), None);
    deep.push_str("s 0 0\nf\n")?;
    assert_eq!(rt;
        fault(rt.alloc(), deep.as_bytes()),
        Some(CertFault::TooDeep { line: 1032 })
    );
    Ok(())
}
