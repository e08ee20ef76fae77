// Worked values of each public call.
use crate::{
    JsonFault, Tree, is_number, lists_within_text, one_fault, one_tree, read, tree_or_fault,
    tree_without_fault,
};
use agg_base::Text;
use std::process::Abort;
use std::test::Fail;

#[test]
fn numbers_are_told(rt: HostRuntime) {
    for (text, want) in [
        (b"0".as_slice(), true),
        (b"-0".as_slice(), true),
        (b"-2.5e3".as_slice(), true),
        (b"10E+07".as_slice(), true),
        (b"0.0036000360003600037".as_slice(), true),
        (b"1e-5".as_slice(), true),
        (b"".as_slice(), false),
        (b"-".as_slice(), false),
        (b"+1".as_slice(), false),
        (b"01".as_slice(), false),
        (b".5".as_slice(), false),
        (b"1.".as_slice(), false),
        (b"1e".as_slice(), false),
        (b"1e+".as_slice(), false),
        (b"0x1".as_slice(), false),
        (b" 1".as_slice(), false),
        (b"1,0".as_slice(), false),
    ] {
        assert_eq!(rt; is_number(text), want);
    }
}

// The place of a fault of the grammar, and nothing where the bytes are read.
fn syntax(rt: &impl Abort, alloc: std::alloc::Global, text: &[u8]) -> Option<usize> {
    assert!(rt; text.len() < 100);
    match read(alloc, text) {
        Ok(_) => None,
        Err(JsonFault::Syntax { at }) => Some(at),
        Err(_) => Some(1000),
    }
}

#[test]
fn places_of_syntax(rt: HostRuntime) {
    for (text, want) in [
        (b"".as_slice(), Some(0)),
        (b"{\"type\":".as_slice(), Some(8)),
        (b"[1,]".as_slice(), Some(3)),
        (b"01".as_slice(), Some(1)),
        (b"-".as_slice(), Some(1)),
        (b"-x".as_slice(), Some(1)),
        (b"1.e".as_slice(), Some(2)),
        (b"1e5".as_slice(), None),
        (b"1e+".as_slice(), Some(3)),
        (b"tru".as_slice(), Some(3)),
        (b"trux".as_slice(), Some(3)),
        (b"nulll".as_slice(), Some(4)),
        (b"{}".as_slice(), None),
        (b" {} \n".as_slice(), None),
        (b"{} x".as_slice(), Some(3)),
        (b"{,".as_slice(), Some(1)),
        (b"{\"a\" 1}".as_slice(), Some(5)),
        (b"{\"a\":1,}".as_slice(), Some(7)),
        (b"{\"a\":1]".as_slice(), Some(6)),
        (b"[1}".as_slice(), Some(2)),
        (b"]".as_slice(), Some(0)),
        (b"\xef\xbb\xbf 1".as_slice(), None),
        (b"\xef\xbb 1".as_slice(), Some(2)),
        (b"\xef 1".as_slice(), Some(1)),
        (b"\xef\xbb\xbf".as_slice(), Some(3)),
        (b" \xef\xbb\xbf1".as_slice(), Some(1)),
    ] {
        assert_eq!(rt; syntax(&rt, rt.alloc(), text), want, "{text:?}");
    }
    one_tree();
    one_fault();
    tree_without_fault();
    tree_or_fault();
    lists_within_text();
}

#[test]
fn places_in_texts(rt: HostRuntime) {
    for (text, want) in [
        (b"\"\\ud800x\"".as_slice(), Some(7)),
        (b"\"\\ud800\\n".as_slice(), Some(8)),
        (b"\"\\ud800\\u0".as_slice(), Some(9)),
        (b"\"\\ud800\\udb".as_slice(), Some(10)),
        (b"\"\\uD83D\\uDE00\"".as_slice(), None),
        (b"\"\\udc00\"".as_slice(), Some(4)),
        (b"\"\\ud7ff\"".as_slice(), None),
        (b"\"\\ue000\"".as_slice(), None),
        (b"\"\\q".as_slice(), Some(2)),
        (b"\"\x1f".as_slice(), Some(1)),
        (b"\"\x7f\"".as_slice(), None),
        (b"\"\x80".as_slice(), Some(1)),
        (b"\"\xc1".as_slice(), Some(1)),
        (b"\"\xe0\x9f".as_slice(), Some(2)),
        (b"\"\xed\xa0".as_slice(), Some(2)),
        (b"\"\xf0\x8f".as_slice(), Some(2)),
        (b"\"\xf4\x90".as_slice(), Some(2)),
        (b"\"\xf5".as_slice(), Some(1)),
        (b"\"\xc3\xa9\xe2\x82\xac\xf0\x9f\x98\x80\"".as_slice(), None),
        (b"\"abc".as_slice(), Some(4)),
    ] {
        assert_eq!(rt; syntax(&rt, rt.alloc(), text), want, "{text:?}");
    }
}

#[test]
fn nesting_is_limited(rt: HostRuntime) -> Result<(), Fail> {
    let mut text = Vec::new(rt.alloc());
    for _ in 0..64 {
        text.push(b'[')?;
    }
    assert!(rt; text.len() < 100);
    assert_eq!(rt; syntax(&rt, rt.alloc(), text.as_slice()), Some(64));
    let mut whole = text.clone()?;
    for _ in 0..64 {
        whole.push(b']')?;
    }
    assert!(rt; whole.len() < 1000);
    assert!(rt; read(rt.alloc(), whole.as_slice()).is_ok());
    text.push(b'[')?;
    assert!(rt; text.len() < 100);
    assert!(rt;
        matches!(
            read(rt.alloc(), text.as_slice()),
            Err(JsonFault::TooDeep { at: 64 })
        )
    );
    Ok(())
}

// The characters of a number or a text.
fn characters(tree: Option<&Tree>) -> &str {
    match tree {
        Some(Tree::Number(text)) => text.as_str(),
        Some(Tree::Str(text)) => text.as_str(),
        _ => "nothing",
    }
}

#[test]
fn members_are_found(rt: HostRuntime) -> Result<(), Fail> {
    let text = b"{\"a\":1e5,\"b\":[null,true,\"x\\n\\u20ac\\ud83d\\ude00\"],\"a\":-0.50}";
    let tree = read(rt.alloc(), text).ok().ok_or("no tree")?;
    assert_eq!(rt; characters(tree.member("a")), "-0.50");
    assert_eq!(rt; characters(tree.member("c")), "nothing");
    let Some(Tree::List(items)) = tree.member("b") else {
        return Err(Fail::from("no list"));
    };
    assert_eq!(rt; items.len(), 3);
    assert_eq!(rt; characters(Some(&items[2])), "x\n\u{20ac}\u{1f600}");
    Ok(())
}
