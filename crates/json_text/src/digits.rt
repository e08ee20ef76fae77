// How far a number has come.
ghost use Rattle.std.specs.Prelude.{◌≡◌};
ghost use Rattle.json_text.specs.NumberSteps.{first_digit, next_digit, is_whole, or_digit, after_minus, behind_whole, letter, sign};

// What the bytes of a number so far end with.
#[derive(Clone, Copy)]
pub(crate) enum Digits {
    // The minus.
    Minus,
    // A zero that is the whole part.
    Zero,
    // A digit of another whole part.
    Whole,
    // The point.
    Point,
    // A digit behind the point.
    Fraction,
    // The letter e.
    Letter,
    // The sign behind the letter e.
    Sign,
    // A digit of the exponent.
    Power,
}

// How far a number has come with its first byte, where a number begins so.
pub(crate) fn first_digit(byte: u8) -> Option<Digits>
    ensures { result ≡ first_digit byte }
{
    match byte {
        b'-' => Some(Digits::Minus),
        b'0' => Some(Digits::Zero),
        b'1'..=b'9' => Some(Digits::Whole),
        _ => None,
    }
}

// How far a number has come with one more byte, where it may go on so.
pub(crate) fn next_digit(digits: Digits, byte: u8) -> Option<Digits>
    ensures { result ≡ next_digit digits byte }
{
    match digits {
        Digits::Minus => after_minus(byte),
        Digits::Zero => behind_whole(byte),
        Digits::Whole => or_digit(Digits::Whole, behind_whole(byte), byte),
        Digits::Point => or_digit(Digits::Fraction, None, byte),
        Digits::Fraction => or_digit(Digits::Fraction, letter(byte), byte),
        Digits::Letter => or_digit(Digits::Power, sign(byte), byte),
        Digits::Sign => or_digit(Digits::Power, None, byte),
        Digits::Power => or_digit(Digits::Power, None, byte),
    }
}

// Whether the bytes so far are a number.
pub(crate) fn is_whole(digits: Digits) -> bool
    ensures { result ≡ is_whole digits }
{
    matches!(
        digits,
        Digits::Zero | Digits::Whole | Digits::Fraction | Digits::Power
    )
}

// That state where the byte is a digit, else the other one.
fn or_digit(digit: Digits, other: Option<Digits>, byte: u8) -> Option<Digits>
    ensures { result ≡ or_digit digit other byte }
{
    if byte.is_ascii_digit() {
        Some(digit)
    } else {
        other
    }
}

// What may stand behind a minus.
fn after_minus(byte: u8) -> Option<Digits>
    ensures { result ≡ after_minus byte }
{
    match byte {
        b'0' => Some(Digits::Zero),
        b'1'..=b'9' => Some(Digits::Whole),
        _ => None,
    }
}

// What may stand behind the whole part, other than a digit.
fn behind_whole(byte: u8) -> Option<Digits>
    ensures { result ≡ behind_whole byte }
{
    if byte == b'.' {
        Some(Digits::Point)
    } else {
        letter(byte)
    }
}

// A letter e.
fn letter(byte: u8) -> Option<Digits>
    ensures { result ≡ letter byte }
{
    if byte == b'e' || byte == b'E' {
        Some(Digits::Letter)
    } else {
        None
    }
}

// A plus or a minus behind the letter e.
fn sign(byte: u8) -> Option<Digits>
    ensures { result ≡ sign byte }
{
    if byte == b'+' || byte == b'-' {
        Some(Digits::Sign)
    } else {
        None
    }
}
