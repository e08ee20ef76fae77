// Numbers that a grid spells.
ghost use Rattle.std.specs.Prelude.{◌≡◌, slice_index, ℕ, ℤ, IfSome, IfNone};
ghost use Rattle.grid_reader.specs.Numbers.{IsCount, SpellsCell, IsCornerText, IsSizeText};

use agg_base::limits::CELLS;
use agg_base::{Whole, read_whole};
use json_text::is_number;
use std::str;
use text_words::has_digits_only;

// The number from 1 to 524,288 that digits spell.
pub(crate) fn read_count(text: &[u8]) -> Option<u32>
    ensures found { IfSome result (λ n. IsCount text.now n) }
    ensures none { IfNone result ((n : ℕ) → ¬ IsCount text.now n) }
{
    if text.is_empty() || !has_digits_only(text) {
        return None;
    }
    let Ok(digits) = str::from_utf8(text) else {
        return None;
    };
    let Ok(number) = digits.parse::<u32>() else {
        return None;
    };
    if number < 1 || number as usize > CELLS {
        return None;
    }
    Some(number)
}

// The whole number at most 2,147,483,647 from 0 that a text spells.
pub(crate) fn read_cell(text: &[u8]) -> Option<i32>
    ensures found { IfSome result (λ z. SpellsCell text.now z) }
    ensures none { IfNone result ((z : ℤ) → ¬ SpellsCell text.now z) }
{
    let Whole::Is(value) = read_whole(text) else {
        return None;
    };
    if value < -2_147_483_647 {
        return None;
    }
    if value > 2_147_483_647 {
        return None;
    }
    Some(value as i32)
}

// The text, where it is a number of JSON of at most 100 bytes.
pub(crate) fn read_corner(text: &[u8]) -> Option<&str>
    ensures found { IfSome result (λ t. (t.now ≡ text.now) × IsCornerText text.now) }
    ensures none { IfNone result (¬ IsCornerText text.now) }
{
    if text.len() > 100 {
        return None;
    }
    if !is_number(text) {
        return None;
    }
    let Ok(number) = str::from_utf8(text) else {
        return None;
    };
    Some(number)
}

// The text, where it is a number of JSON of at most 100 bytes that does not begin with a minus.
pub(crate) fn read_size(text: &[u8]) -> Option<&str>
    ensures found { IfSome result (λ t. (t.now ≡ text.now) × IsSizeText text.now) }
    ensures none { IfNone result (¬ IsSizeText text.now) }
{
    if first_byte(text) == b'-' {
        return None;
    }
    read_corner(text)
}

// The first byte, or 0 where there is none.
fn first_byte(text: &[u8]) -> u8
    ensures { result ≡ slice_index text.now 0 }
{
    match text {
        [first, ..] => *first,
        [] => 0,
    }
}
