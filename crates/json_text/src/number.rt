// Numbers of JSON.
ghost use Rattle.std.specs.Prelude.{◌≡◌, ◌≤◌, ◌<◌, ◌==◌, ◌↔◌, not, length, slice_index, position, if◌then◌else◌, drop, IfSome, IsTrue};
ghost use Rattle.std.specs.Char.{is_ascii_digit};
ghost use Rattle.json_text.specs.NumberTest.{run, strip_sign, is_digits, is_power, is_fraction, is_rest, is_bare_number};
ghost use Rattle.json_text.specs.Numbers.{IsJsonNumber};

/// Whether the bytes are a number of JSON: an optional minus, digits without a needless zero in front, optionally a
/// point and digits, and optionally an exponent. It takes no memory.
pub fn is_number(text: &[u8]) -> bool
    ensures { IsTrue result ↔ IsJsonNumber text.now }
{
    is_bare_number(without_minus(text))
}

// The text behind a leading minus.
fn without_minus(text: &[u8]) -> &[u8]
    ensures { result.now ≡ (if slice_index text.now 0 == 45 then drop 1 text.now else text.now) }
{
    match text {
        [b'-', rest @ ..] => rest,
        _ => text,
    }
}

// Digits without a needless zero in front, and what may stand behind them.
fn is_bare_number(text: &[u8]) -> bool
    ensures { result ≡ is_bare_number text.now }
{
    let digits = digits_end(text);
    let single = digits == 1 || first_byte(text) != b'0';
    digits > 0 && single && is_rest(&text[digits..])
}

// What may stand behind the whole part of a number.
fn is_rest(text: &[u8]) -> bool
    ensures { result ≡ is_rest text.now }
{
    match text {
        [b'.', rest @ ..] => is_fraction(rest),
        _ => is_power(text),
    }
}

// Digits, and then a power or nothing.
fn is_fraction(text: &[u8]) -> bool
    ensures { result ≡ is_fraction text.now }
{
    let digits = digits_end(text);
    digits > 0 && is_power(&text[digits..])
}

// Nothing, or a letter e, a sign or none, and digits.
fn is_power(text: &[u8]) -> bool
    ensures { result ≡ is_power text.now }
{
    match text {
        [] => true,
        [b'e' | b'E', rest @ ..] => is_digits(strip_sign(rest)),
        _ => false,
    }
}

// The text behind a plus or a minus.
fn strip_sign(text: &[u8]) -> &[u8]
    ensures { result.now ≡ strip_sign text.now }
{
    match text {
        [b'+' | b'-', rest @ ..] => rest,
        _ => text,
    }
}

// Digits alone, one or more.
fn is_digits(text: &[u8]) -> bool
    ensures { result ≡ is_digits text.now }
{
    let digits = digits_end(text);
    digits > 0 && digits == text.len()
}

// How many digits a text begins with.
fn digits_end(text: &[u8]) -> usize
    ensures place { result ≡ run text.now }
    ensures bound { result ≤ length text.now }
{
    match first_other(text) {
        Some(at) => at,
        None => text.len(),
    }
}

// Where the first byte stands that is no digit.
fn first_other(text: &[u8]) -> Option<usize>
    ensures place { result ≡ position (λ byte. not (is_ascii_digit byte)) text.now }
    ensures bound { IfSome result (λ at. at < length text.now) }
{
    text.iter().position(|byte| !byte.is_ascii_digit())
}

// The first byte, or 0 where there is none.
fn first_byte(text: &[u8]) -> u8
    ensures { result ≡ slice_index text.now 0 }
{
    match text {
        [first, ..] => *first,
        [] => 0,
    }
}
