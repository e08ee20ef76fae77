// Whole numbers as texts of other programs spell them.
ghost use Rattle.std.specs.Prelude.{◌≡◌, ◌≢◌, ◌++◌, ◌==◌, ◌<◌, ℕ, ℤ, List, FitsSigned, IfSome, IsTrue, true, ◌↔◌, length, position, drop, cond, slice_index};
ghost use Rattle.std.specs.Int.{w64};
ghost use Rattle.std.specs.List.{list_all};
ghost use Rattle.std.specs.Char.{is_ascii_digit};
ghost use Rattle.agg_base.specs.Numbers.{zeros_text, SpellsNumber, SpellsWhole, IsWholeAnswer, OneWhole};

use std::str;

/// What a text spells as a whole number.
#[derive(Clone, Copy, Debug, PartialEq, Eq)]
pub enum Whole {
    /// The text spells no whole number.
    Not,
    /// The text spells a whole number that is outside 64 bits.
    Beyond,
    /// The text spells this number.
    Is(i64),
}

/// The whole number that a text spells: an optional minus, one or more decimal digits, and optionally a point with
/// one or more zeros behind it.
///
/// Leading zeros are fine, and `-0` is 0. Exponents, blanks and a leading plus are not read. It takes no memory.
pub fn read_whole(text: &[u8]) -> Whole
    ensures answer { IsWholeAnswer (SpellsWhole text.now) result }
    ensures inside { (n : ℤ) → SpellsWhole text.now n → FitsSigned w64 n → result ≡ Whole.Is n }
    ensures outside { (n : ℤ) → SpellsWhole text.now n → ¬ (FitsSigned w64 n) → result ≡ Whole.Beyond }
{
    read_number(strip_zeros(text))
}

// The number of a text of an optional minus and digits.
fn read_number(text: &[u8]) -> Whole
    ensures { IsWholeAnswer (SpellsNumber text.now) result }
{
    if !are_digits(strip_minus(text)) {
        return Whole::Not;
    }
    let Ok(number) = str::from_utf8(text) else {
        return Whole::Not;
    };
    match number.parse::<i64>() {
        Ok(n) => Whole::Is(n),
        Err(_) => Whole::Beyond,
    }
}

// The text behind a leading minus.
fn strip_minus(text: &[u8]) -> &[u8]
    ensures { result.now ≡ cond (slice_index text.now 0 == 45) (drop 1 text.now) text.now }
{
    match text {
        [b'-', rest @ ..] => rest,
        _ => text,
    }
}

// Whether there are digits, and nothing else.
fn are_digits(text: &[u8]) -> bool
    ensures { IsTrue result ↔ ((0 < length text.now) × (list_all is_ascii_digit text.now ≡ true)) }
{
    !text.is_empty() && has_only_digits(text)
}

// Whether each byte is a digit.
fn has_only_digits(text: &[u8]) -> bool
    ensures { result ≡ list_all is_ascii_digit text.now }
{
    text.iter().all(|byte| byte.is_ascii_digit())
}

// The text without a point that only zeros stand behind.
fn strip_zeros(text: &[u8]) -> &[u8]
    ensures parts { (zeros : ℕ) × (text.now ≡ result.now ++ zeros_text zeros) }
    ensures front { (front : List ℕ) (zeros : ℕ) → ((i : ℕ) → slice_index front i ≢ 46) → text.now ≡ front ++ zeros_text zeros → result.now ≡ front }
{
    let Some(at) = point_in(text) else {
        return text;
    };
    if are_zeros(&text[at + 1..]) {
        &text[..at]
    } else {
        text
    }
}

// Whether there are zeros, and nothing else.
fn are_zeros(text: &[u8]) -> bool
    ensures { IsTrue result ↔ ((0 < length text.now) × (list_all (λ byte. byte == 48) text.now ≡ true)) }
{
    !text.is_empty() && has_only_zeros(text)
}

// Whether each byte is a zero.
fn has_only_zeros(text: &[u8]) -> bool
    ensures { result ≡ list_all (λ byte. byte == 48) text.now }
{
    text.iter().all(|byte| *byte == b'0')
}

// Where the first point stands.
fn point_in(text: &[u8]) -> Option<usize>
    ensures place { result ≡ position (λ byte. byte == 46) text.now }
    ensures bound { IfSome result (λ at. at < length text.now) }
{
    text.iter().position(|byte| *byte == b'.')
}

/// A text spells one whole number at most.
pub fn whole_law()
    ensures { OneWhole }
{}
