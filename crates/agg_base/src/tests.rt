// Worked values of each public call.
ghost use Rattle.std.specs.Prelude.{◌≤◌, length};

use crate::limits::TEXT_BYTES;
use crate::{
    Ending, NoMemory, Text, Whole, Words, isqrt, lines, print_signed, read_signed, read_whole,
};
use std::alloc::Global;
use std::test::Fail;

// Threads may share such a value and hand it over.
fn crosses<T: Send + Sync>(_value: &T) {}

#[test]
fn texts_are_kept(rt: HostRuntime) -> Result<(), Fail> {
    let alloc = rt.alloc();
    let text = Text::of(alloc, "Wald")?;
    let copied = text.copy(alloc)?;
    crosses(&text);
    assert_eq!(rt; text.as_str(), "Wald");
    assert_eq!(rt; copied.as_str(), "Wald");
    let mut items = Vec::new(alloc);
    items.push(text)?;
    items.push(Text::of(alloc, "")?)?;
    let words = Words::of(items);
    crosses(&words);
    crosses(&NoMemory);
    assert!(rt; words.count() == 2);
    assert_eq!(rt; words.word(0), "Wald");
    assert_eq!(rt; words.word(1), "");
    Ok(())
}

#[test]
fn roots_are_rounded_down(rt: HostRuntime) {
    for (n, root) in [
        (0, 0),
        (1, 1),
        (3, 1),
        (4, 2),
        (65_535, 255),
        (65_536, 256),
        (2 * 65_536, 362),
        (u128::MAX, 18_446_744_073_709_551_615),
    ] {
        assert_eq!(rt; isqrt(n), root, "of {n}");
    }
}

#[test]
fn whole_numbers_are_read(rt: HostRuntime) {
    for (text, want) in [
        (b"7".as_slice(), Whole::Is(7)),
        (b"007".as_slice(), Whole::Is(7)),
        (b"-7.000".as_slice(), Whole::Is(-7)),
        (b"-0".as_slice(), Whole::Is(0)),
        (b"-00.0".as_slice(), Whole::Is(0)),
        (b"9223372036854775807.0".as_slice(), Whole::Is(i64::MAX)),
        (b"-9223372036854775808".as_slice(), Whole::Is(i64::MIN)),
        (b"9223372036854775808".as_slice(), Whole::Beyond),
        (b"-9223372036854775809.0".as_slice(), Whole::Beyond),
        (b"7.".as_slice(), Whole::Not),
        (b"7.5".as_slice(), Whole::Not),
        (b"7.0.0".as_slice(), Whole::Not),
        (b".0".as_slice(), Whole::Not),
        (b"-".as_slice(), Whole::Not),
        (b"+7".as_slice(), Whole::Not),
        (b"7e0".as_slice(), Whole::Not),
        (b" 7".as_slice(), Whole::Not),
        (b"".as_slice(), Whole::Not),
        (b"99999999999999999999x".as_slice(), Whole::Not),
    ] {
        assert_eq!(rt; read_whole(text), want);
    }
}

#[test]
fn plain_spellings_are_read(rt: HostRuntime) {
    for (text, want) in [
        (b"0".as_slice(), Some(0)),
        (b"-7".as_slice(), Some(-7)),
        (b"-0".as_slice(), None),
        (b"007".as_slice(), None),
        (b"+7".as_slice(), None),
        (b"7.0".as_slice(), None),
        (b"".as_slice(), None),
        (
            b"-170141183460469231731687303715884105728".as_slice(),
            Some(i128::MIN),
        ),
        (b"170141183460469231731687303715884105728".as_slice(), None),
    ] {
        assert_eq!(rt; read_signed(text), want);
    }
}

#[test]
fn numbers_are_appended(rt: HostRuntime) -> Result<(), Fail> {
    let mut out = Vec::new(rt.alloc());
    for n in [0, -7, i128::MIN] {
        print_signed(&mut out, n)?;
        out.push(b' ')?;
    }
    let want = b"0 -7 -170141183460469231731687303715884105728 ".as_slice();
    assert_eq!(rt; out.as_slice(), want);
    Ok(())
}

// The number, the length without the ending and the ending of each line.
fn rows(alloc: Global, text: &[u8]) -> Result<Vec<(u32, usize, Ending)>, NoMemory>
    requires { length text.now ≤ TEXT_BYTES }
{
    let mut rows = Vec::new(alloc);
    for line in lines(text) {
        rows.push((line.number, line.text.len(), line.ending))?;
    }
    Ok(rows)
}

#[test]
fn lines_have_their_endings(rt: HostRuntime) -> Result<(), Fail> {
    let alloc = rt.alloc();
    let mixed = rows(alloc, b"a\nbc\r\n\nd\r")?;
    let want = [
        (1, 1, Ending::Lf),
        (2, 2, Ending::CrLf),
        (3, 0, Ending::Lf),
        (4, 2, Ending::Missing),
    ];
    assert_eq!(rt; mixed.as_slice(), want.as_slice());
    let ended = rows(alloc, b"\r\n")?;
    assert_eq!(rt; ended.as_slice(), [(1, 0, Ending::CrLf)].as_slice());
    assert_eq!(rt; rows(alloc, b"")?.len(), 0);
    Ok(())
}
