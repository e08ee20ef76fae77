// The parts of the lines of a class table.
ghost use Rattle.std.specs.Prelude.{◌≡◌, ◌==◌, ◌&&◌, ◌<◌, ◌≤◌, ◌+◌, nat_le, true, false, length, slice_index, drop, codes, IfOk, IfSome, IfNone, Some, None};
ghost use Rattle.std.specs.List.{list_all};
ghost use Rattle.std.specs.Str.{bytes_eq};
ghost use Rattle.text_words.specs.Words.{word};
ghost use Rattle.class_table.specs.Content.{is_among};
ghost use Rattle.class_table.specs.Reading.{is_version, distances_in};
ghost use Rattle.class_table.specs.Names.{is_name};

use crate::number::read_number;
use agg_base::{NoMemory, Text};
use std::alloc::Global;
use std::str;
use text_words::Parts;

// The greatest distance and the greatest border weight.
pub(crate) const GREATEST_COST: u128 = 10_000;

// The most bytes of a name.
const MOST_BYTES: usize = 100;

// Whether a line begins with a number sign.
pub(crate) fn is_comment(line: &[u8]) -> bool
    ensures { result ≡ (slice_index line.now 0 == 35) }
{
    matches!(line, [b'#', ..])
}

// Whether the words are `classes 1`.
pub(crate) fn has_version(parts: &Parts<'_>) -> bool
    ensures { result ≡ is_version parts.now }
{
    parts.len() == 2 && parts.has(0, b"classes") && parts.has(1, b"1")
}

// Whether there are two words, `border` first.
pub(crate) fn has_border(parts: &Parts<'_>) -> bool
    ensures value { result ≡ ((length parts.now == 2) && bytes_eq (word parts.now 0) (codes "border")) }
    ensures two { result ≡ true → length parts.now ≡ 2 }
{
    parts.len() == 2 && parts.has(0, b"border")
}

// The name of a class, where it keeps the rule of names.
#[tactic(auto, unfolding(crate::specs::Names::is_name))]
pub(crate) fn read_name(name: &[u8]) -> Option<&str>
    ensures found { IfSome result (λ text. (text.now ≡ name.now) × (is_name name.now ≡ true)) }
    ensures none { IfNone result (is_name name.now ≡ false) }
{
    if name.is_empty() || name.len() > MOST_BYTES || !is_printed(name) {
        return None;
    }
    let Ok(text) = str::from_utf8(name) else {
        return None;
    };
    Some(text)
}

// Whether no byte is below 32.
fn is_printed(name: &[u8]) -> bool
    ensures { result ≡ list_all (λ byte. nat_le 32 byte) name.now }
{
    name.iter().all(|byte| *byte >= 32)
}

// Whether a name is among these.
pub(crate) fn is_among(names: &[Text], name: &str) -> bool
    ensures { result ≡ is_among names.now name.now }
{
    names.iter().any(|seen| seen.as_str() == name)
}

// The distances of a row; None where a word spells none.
pub(crate) fn read_distances(alloc: Global, parts: &Parts<'_>) -> Result<Option<Vec<u32>>, NoMemory>
    requires { 0 < length parts.now }
    ensures found { IfOk result (λ o. IfSome o (λ row. distances_in (drop 1 parts.now) ≡ Some row.items)) }
    ensures long { IfOk result (λ o. IfSome o (λ row. length row.items + 1 ≡ length parts.now)) }
    ensures none { IfOk result (λ o. IfNone o (distances_in (drop 1 parts.now) ≡ None)) }
{
    let mut row = Vec::new(alloc);
    let mut rest = parts.behind(1);
    while let Some(part) = rest.next() {
        let Some(distance) = read_number(part, 0, GREATEST_COST) else {
            return Ok(None);
        };
        row.push(distance as u32)?;
    }
    Ok(Some(row))
}
