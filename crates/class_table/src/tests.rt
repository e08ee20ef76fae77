// Worked texts of class tables.
ghost use Rattle.std.specs.Prelude.{◌≤◌, length};

use crate::{
    Table, TableFault, Why, one_fault, one_table, read, right_lines, table_or_fault,
    table_without_fault,
};
use std::alloc::Global;
use std::test::Fail;

// What crosses threads.
fn crosses<T: Send + Sync>(_value: &T) {}

// The table of a text that is short enough.
fn table(alloc: Global, text: &[u8]) -> Result<Table, TableFault> {
    if text.len() > 1_000_000 {
        return Err(TableFault::Memory);
    }
    read(alloc, text)
}

// The fault of a text; None where it spells a table.
fn fault(alloc: Global, text: &[u8]) -> Option<TableFault> {
    match table(alloc, text) {
        Ok(_) => None,
        Err(fault) => Some(fault),
    }
}

#[test]
fn a_table_is_read(rt: HostRuntime) -> Result<(), Fail> {
    let alloc = rt.alloc();
    let text =
        b"# classes\r\nclasses\t1\r\n\r\n \t\nunit 2  3 \n#unit 0 0\nborder 01\nclass 4 broad  leaf \t\nclass\t007  W\xc3\xa4ldchen\nrow 0 5\nrow 10000\t0";
    let Ok(table) = table(alloc, text) else {
        return Err(Fail::new("refused"));
    };
    let (wide, high) = table.unit();
    assert_eq!(rt; wide, 2);
    assert_eq!(rt; high, 3);
    assert_eq!(rt; table.border(), 1);
    let names = table.names();
    assert_eq!(rt; names.len(), 2);
    if names.len() == 2 {
        assert_eq!(rt; names[0].as_str(), "broad  leaf");
        assert_eq!(rt; names[1].as_str(), "Wäldchen");
        assert_eq!(rt; table.threshold(0), 4);
        assert_eq!(rt; table.threshold(1), 7);
        assert_eq!(rt; table.distance(0, 0), 0);
        assert_eq!(rt; table.distance(0, 1), 5);
        assert_eq!(rt; table.distance(1, 0), 10_000);
        assert_eq!(rt; table.distance(1, 1), 0);
    }
    crosses(&table);
    Ok(())
}

#[test]
fn a_table_may_leave_the_unit_out(rt: HostRuntime) -> Result<(), Fail> {
    let alloc = rt.alloc();
    let text =
        b"classes 1\nborder 10000\nclass 1000000000000000000000000000000 #1\nrow 0000000000000000000000000000000\n";
    let Ok(table) = table(alloc, text) else {
        return Err(Fail::new("refused"));
    };
    let (wide, high) = table.unit();
    assert_eq!(rt; wide, 1);
    assert_eq!(rt; high, 1);
    assert_eq!(rt; table.border(), 10_000);
    let names = table.names();
    assert_eq!(rt; names.len(), 1);
    if names.len() == 1 {
        assert_eq!(rt; names[0].as_str(), "#1");
        assert_eq!(rt;
            table.threshold(0),
            1_000_000_000_000_000_000_000_000_000_000
        );
    }
    Ok(())
}

#[test]
fn lines_break_their_rules(rt: HostRuntime) {
    let alloc = rt.alloc();
    for (text, number, why) in [
        (b"".as_slice(), 1, Why::Version),
        (b"\n# classes 1\n \n".as_slice(), 4, Why::Version),
        (b"classes 2\n".as_slice(), 1, Why::Version),
        (b"classes 01\n".as_slice(), 1, Why::Version),
        (b"classes 1 1\n".as_slice(), 1, Why::Version),
        (b" # x\nclasses 1\n".as_slice(), 1, Why::Version),
        (b"classes 1\n # x\n".as_slice(), 2, Why::Word),
        (b"classes 1\n".as_slice(), 2, Why::End),
        (b"classes 1\nborder 1\n".as_slice(), 3, Why::End),
        (b"classes 1\nborder 1\n\n#\n".as_slice(), 5, Why::End),
        (b"classes 1\nunit 1 1\n".as_slice(), 3, Why::End),
        (b"classes 1\nunit 1 1\nunit 1 1\n".as_slice(), 3, Why::Word),
        (b"classes 1\nunit 1\n".as_slice(), 2, Why::Word),
        (b"classes 1\nunit 0 1\n".as_slice(), 2, Why::Number),
        (b"classes 1\nunit 1 101\n".as_slice(), 2, Why::Number),
        (b"classes 1\nclass 4 a\n".as_slice(), 2, Why::Word),
        (b"classes 1\nborder\n".as_slice(), 2, Why::Word),
        (b"classes 1\nborder 1 1\n".as_slice(), 2, Why::Word),
        (b"classes 1\nborder 1\nunit 1 1\n".as_slice(), 3, Why::Word),
        (b"classes 1\nborder 10001\n".as_slice(), 2, Why::Number),
        (b"classes 1\nborder +1\n".as_slice(), 2, Why::Number),
        (
            b"classes 1\nborder 00000000000000000000000000000001\n".as_slice(),
            2,
            Why::Number,
        ),
        (b"classes 1\nborder 1\nrow\n".as_slice(), 3, Why::Word),
        (b"classes 1\nborder 1\nclass 4\n".as_slice(), 3, Why::Word),
        (
            b"classes 1\nborder 1\nclass x a\n".as_slice(),
            3,
            Why::Number,
        ),
        (
            b"classes 1\nborder 1\nclass x \xff\n".as_slice(),
            3,
            Why::Number,
        ),
        (
            b"classes 1\nborder 1\nclass 1000000000000000000000000000001 a\n".as_slice(),
            3,
            Why::Number,
        ),
        (
            b"classes 1\nborder 1\nclass 4 a\tb\n".as_slice(),
            3,
            Why::Name,
        ),
        (
            b"classes 1\nborder 1\nclass 4 a\x1fb\n".as_slice(),
            3,
            Why::Name,
        ),
        (
            b"classes 1\nborder 1\nclass 4 \xff\n".as_slice(),
            3,
            Why::Name,
        ),
        (
            b"classes 1\nborder 1\nclass 4 a\nrow\n".as_slice(),
            4,
            Why::Count,
        ),
        (
            b"classes 1\nborder 1\nclass 4 a\nclass 5 b\nrow x\n".as_slice(),
            5,
            Why::Count,
        ),
        (
            b"classes 1\nborder 1\nclass 4 a\nclass 5 b\nrow 0 x 1\n".as_slice(),
            5,
            Why::Count,
        ),
        (
            b"classes 1\nborder 1\nclass 4 a\nclass 5 b\nrow 0\n".as_slice(),
            5,
            Why::Count,
        ),
        (
            b"classes 1\nborder 1\nclass 4 a\nclass 5 b\nrow 1 x\n".as_slice(),
            5,
            Why::Number,
        ),
        (
            b"classes 1\nborder 1\nclass 4 a\nclass 5 b\nrow 1 0\n".as_slice(),
            5,
            Why::Diagonal,
        ),
        (
            b"classes 1\nborder 1\nclass 4 a\nclass 5 b\nrow 0 1\nclass 6 c\n".as_slice(),
            6,
            Why::Word,
        ),
        (
            b"classes 1\nborder 1\nclass 4 a\nclass 5 b\nrow 0 1\nrow 0 1\n".as_slice(),
            6,
            Why::Diagonal,
        ),
        (
            b"classes 1\nborder 1\nclass 4 a\nclass 5 b\nrow 0 1\n".as_slice(),
            6,
            Why::End,
        ),
        (
            b"classes 1\nborder 1\nclass 4 a\nrow 0\nrow 0\n".as_slice(),
            5,
            Why::Word,
        ),
        (
            b"classes 1\nborder 1\nclass 4 a\nrow 0\r".as_slice(),
            4,
            Why::Number,
        ),
    ] {
        assert!(rt;
            fault(alloc, text) == Some(TableFault::Line { number, why }),
            "at {number}"
        );
    }
    one_table();
    one_fault();
    table_without_fault();
    table_or_fault();
    right_lines();
}

#[test]
fn a_name_stands_once(rt: HostRuntime) {
    let alloc = rt.alloc();
    let text = b"classes 1\nborder 1\nclass 4 a\nclass 4 a\n".as_slice();
    assert!(rt; fault(alloc, text) == Some(TableFault::RepeatedClass { line: 4 }));
}

// The lines of so many classes, and then a last line.
fn many_classes(alloc: Global, count: u32, last: &[u8]) -> Result<Vec<u8>, Fail> {
    let mut text = Vec::from_slice(alloc, b"classes 1\nborder 0\n")?;
    for class in 0..count {
        text.extend_from_slice(format!(in alloc; "class 0 {class}\n")?.as_bytes())?;
    }
    text.extend_from_slice(last)?;
    Ok(text)
}

#[test]
fn there_are_64_classes_at_most(rt: HostRuntime) -> Result<(), Fail> {
    let alloc = rt.alloc();
    let limit = Some(TableFault::Limit { line: 67 });
    assert!(rt; fault(alloc, &many_classes(alloc, 64, b"class x 1")?) == limit);
    assert!(rt; fault(alloc, &many_classes(alloc, 64, b"class 0 \xff")?) == limit);
    let word = Some(TableFault::Line {
        number: 67,
        why: Why::Word,
    });
    assert!(rt; fault(alloc, &many_classes(alloc, 64, b"class x")?) == word);
    let number = Some(TableFault::Line {
        number: 66,
        why: Why::Number,
    });
    assert!(rt; fault(alloc, &many_classes(alloc, 63, b"class x 1")?) == number);
    Ok(())
}

#[test]
fn a_name_has_100_bytes_at_most(rt: HostRuntime) -> Result<(), Fail> {
    let alloc = rt.alloc();
    let mut text = Vec::from_slice(alloc, b"classes 1\nborder 0\nclass 0 ")?;
    for _ in 0..100 {
        text.push(b'n')?;
    }
    let mut longer = Vec::from_slice(alloc, text.as_slice())?;
    text.extend_from_slice(b" \nrow 0")?;
    longer.extend_from_slice(b"n\nrow 0")?;
    assert!(rt; fault(alloc, &text).is_none());
    let name = Some(TableFault::Line {
        number: 3,
        why: Why::Name,
    });
    assert!(rt; fault(alloc, &longer) == name);
    Ok(())
}
