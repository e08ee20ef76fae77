// Worked lines.
use crate::{Parts, has_digits_only, is_blank};

// What crosses threads.
fn crosses<T: Send + Sync>(_value: &T) {}

#[test]
fn words_stand_between_blanks(rt: HostRuntime) {
    let mut parts = Parts::of(b" 10\t\t2 \xc3\xa4\r");
    crosses(&parts);
    assert_eq!(rt; parts.len(), 3);
    assert!(rt; parts.at(2) == b"\xc3\xa4\r".as_slice());
    assert!(rt; parts.at(3).is_empty());
    assert!(rt; parts.has(1, b"2") && !parts.has(1, b"10"));
    let first = parts.next();
    assert!(rt; first == Some(b"10".as_slice()));
    assert_eq!(rt; parts.len(), 2);
    assert!(rt; parts.has(0, b"2"));
}

#[test]
fn returns_part_words_where_they_may(rt: HostRuntime) {
    let parts = Parts::between_gaps(b"1\r2 \r");
    assert_eq!(rt; parts.len(), 2);
    assert!(rt; parts.has(0, b"1") && parts.has(1, b"2"));
}

#[test]
fn lines_may_have_no_words(rt: HostRuntime) {
    for line in [b"".as_slice(), b" \t ".as_slice()] {
        let mut parts = Parts::of(line);
        assert!(rt; parts.is_empty());
        let none = parts.next();
        assert!(rt; none.is_none());
    }
}

#[test]
fn bytes_are_told_apart(rt: HostRuntime) {
    assert!(rt; is_blank(b' ') && is_blank(b'\t'));
    assert!(rt; !is_blank(b'\r') && !is_blank(b'\n') && !is_blank(b'0'));
    assert!(rt; has_digits_only(b"0079"));
    assert!(rt; !has_digits_only(b"+7") && !has_digits_only(b"7 ") && !has_digits_only(b"a"));
}
