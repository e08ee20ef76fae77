// Characters of a text, byte by byte.
ghost use Rattle.std.specs.Prelude.{◌≡◌, ◌≤◌, ◌<◌, true, IfSome};
ghost use Rattle.json_text.specs.CharacterSteps.{take_byte, first_byte, next_byte, grow, is_front, whole, escaped_letter, next_of_code, grow_code, next_of_low, grow_low, hex_digit, only, is_sound, is_sound_taken};

// How far a character of a text has come.
#[derive(Clone, Copy)]
pub(crate) enum Part {
    // Nothing of it has come: a character or the closing quote is due.
    Due,
    // So many bytes of its UTF-8 are still to come, six bits each; `front` are the bits of its code so far.
    Utf8 { left: u8, front: u32 },
    // The backslash.
    Escape,
    // So many hex digits of its code, with that value.
    Code { digits: u8, value: u32 },
    // The high surrogate; the backslash of the low one is due.
    High { high: u32 },
    // The high surrogate and a backslash.
    Slash { high: u32 },
    // The high surrogate, and so many hex digits of the low one, with that value.
    Low { high: u32, digits: u8, value: u32 },
}

// What one more byte makes of a character.
#[derive(Clone, Copy)]
pub(crate) enum Taken {
    // It is not whole yet.
    More(Part),
    // It is whole.
    Whole(char),
    // The byte is the closing quote.
    Quote,
}

// What the byte makes of the character, where some character goes on so.
pub(crate) fn take_byte(part: Part, byte: u8) -> Option<Taken>
    requires { is_sound part ≡ true }
    ensures value { result ≡ take_byte part byte }
    ensures sound { IfSome result (λ taken. is_sound_taken taken ≡ true) }
{
    match part {
        Part::Due => first_byte(byte),
        Part::Utf8 { left, front } => next_byte(left, front, byte),
        Part::Escape => escaped_letter(byte),
        Part::Code { digits, value } => next_of_code(digits, value, byte),
        Part::High { high } => only(byte, b'\\', Part::Slash { high }),
        Part::Slash { high } => only(
            byte,
            b'u',
            Part::Low {
                high,
                digits: 0,
                value: 0,
            },
        ),
        Part::Low {
            high,
            digits,
            value,
        } => next_of_low(high, digits, value, byte),
    }
}

// That part, where the byte is the only one that may stand there.
fn only(byte: u8, due: u8, part: Part) -> Option<Taken>
    ensures { result ≡ only byte due part }
{
    if byte == due {
        Some(Taken::More(part))
    } else {
        None
    }
}

// A character's first byte, or the closing quote.
fn first_byte(byte: u8) -> Option<Taken>
    ensures { result ≡ first_byte byte }
{
    match byte {
        b'"' => Some(Taken::Quote),
        b'\\' => Some(Taken::More(Part::Escape)),
        32..=127 => Some(Taken::Whole(byte as char)),
        194..=223 => Some(Taken::More(Part::Utf8 {
            left: 1,
            front: byte as u32 - 192,
        })),
        224..=239 => Some(Taken::More(Part::Utf8 {
            left: 2,
            front: byte as u32 - 224,
        })),
        240..=244 => Some(Taken::More(Part::Utf8 {
            left: 3,
            front: byte as u32 - 240,
        })),
        _ => None,
    }
}

// A further byte of a character's UTF-8.
fn next_byte(left: u8, front: u32, byte: u8) -> Option<Taken>
    requires some { 1 ≤ left }
    requires small { front ≤ 17407 }
    ensures { result ≡ next_byte left front byte }
{
    if !(128..=191).contains(&byte) {
        return None;
    }
    grow(left - 1, front * 64 + (byte as u32 - 128))
}

// The character with these bits in front and so many bytes still to come, where there may be one.
fn grow(left: u8, front: u32) -> Option<Taken>
    ensures { result ≡ grow left front }
{
    if left == 0 {
        whole(front)
    } else if is_front(left, front) {
        Some(Taken::More(Part::Utf8 { left, front }))
    } else {
        None
    }
}

// Whether some character has these bits in front, with so many bytes still to come: it has no shorter spelling, is no surrogate, and is at
// most 1114111.
fn is_front(left: u8, front: u32) -> bool
    ensures { result ≡ is_front left front }
{
    if left == 1 {
        front >= 32 && !(864..=895).contains(&front)
    } else {
        (16..=271).contains(&front)
    }
}

// The character of that code.
fn whole(code: u32) -> Option<Taken>
    ensures { result ≡ whole code }
{
    match char::from_u32(code) {
        Some(c) => Some(Taken::Whole(c)),
        None => None,
    }
}

// The letter behind a backslash.
fn escaped_letter(byte: u8) -> Option<Taken>
    ensures { result ≡ escaped_letter byte }
{
    match byte {
        b'"' | b'\\' | b'/' => Some(Taken::Whole(byte as char)),
        b'b' => Some(Taken::Whole('\u{8}')),
        b'f' => Some(Taken::Whole('\u{c}')),
        b'n' => Some(Taken::Whole('\n')),
        b'r' => Some(Taken::Whole('\r')),
        b't' => Some(Taken::Whole('\t')),
        b'u' => Some(Taken::More(Part::Code {
            digits: 0,
            value: 0,
        })),
        _ => None,
    }
}

// A further hex digit of a character's code, or of a high surrogate.
fn next_of_code(digits: u8, value: u32, byte: u8) -> Option<Taken>
    requires { is_sound (Part.Code digits value) ≡ true }
    ensures value { result ≡ next_of_code digits value (hex_digit byte) }
    ensures sound { IfSome result (λ taken. is_sound_taken taken ≡ true) }
{
    let Some(digit) = hex_digit(byte) else {
        return None;
    };
    grow_code(digits, value * 16 + digit)
}

// So many hex digits of a code and one more, with that value.
fn grow_code(digits: u8, value: u32) -> Option<Taken>
    ensures { result ≡ grow_code digits value }
{
    if digits == 1 && (220..=223).contains(&value) {
        None
    } else if digits < 3 {
        Some(Taken::More(Part::Code {
            digits: digits + 1,
            value,
        }))
    } else if (55296..=56319).contains(&value) {
        Some(Taken::More(Part::High { high: value }))
    } else {
        whole(value)
    }
}

// A further hex digit of a low surrogate.
fn next_of_low(high: u32, digits: u8, value: u32, byte: u8) -> Option<Taken>
    requires { is_sound (Part.Low high digits value) ≡ true }
    ensures value { result ≡ next_of_low high digits value (hex_digit byte) }
    ensures sound { IfSome result (λ taken. is_sound_taken taken ≡ true) }
{
    let Some(digit) = hex_digit(byte) else {
        return None;
    };
    grow_low(high, digits, value * 16 + digit)
}

// So many hex digits of a low surrogate and one more, with that value.
fn grow_low(high: u32, digits: u8, value: u32) -> Option<Taken>
    requires small { value < 65536 }
    requires low { 55296 ≤ high }
    requires high { high ≤ 56319 }
    requires begun { 3 ≤ digits → 56320 ≤ value }
    ensures { result ≡ grow_low high digits value }
{
    if (digits == 0 && value != 13) || (digits == 1 && value < 220) {
        None
    } else if digits < 3 {
        Some(Taken::More(Part::Low {
            high,
            digits: digits + 1,
            value,
        }))
    } else {
        whole(65536 + (high - 55296) * 1024 + (value - 56320))
    }
}

// The value of a hex digit.
fn hex_digit(byte: u8) -> Option<u32>
    ensures value { result ≡ hex_digit byte }
    ensures small { IfSome result (λ digit. digit < 16) }
{
    match byte {
        b'0'..=b'9' => Some(byte as u32 - 48),
        b'a'..=b'f' => Some(byte as u32 - 87),
        b'A'..=b'F' => Some(byte as u32 - 55),
        _ => None,
    }
}
