// Signed numbers and their one spelling: a minus where the number is below 0, and digits without needless zeros.
ghost use Rattle.std.specs.Prelude.{◌≡◌, ◌++◌, ℤ, FitsSigned, Some, IfSome, OnOk, OnErr};
ghost use Rattle.std.specs.Int.{w128};
ghost use Rattle.std.specs.Fmt.{signed_decimal};
ghost use Rattle.agg_base.specs.Numbers.{OnePlainSpelling};

use crate::NoMemory;
use itoa::Buffer;
use std::str;

/// The number that a text spells plainly: an optional minus and decimal digits without a needless zero.
///
/// `None` comes exactly where the text is no such spelling, as `007`, `-0` and `+7`, or its number is outside 128 bits.
/// It takes no memory.
pub fn read_signed(text: &[u8]) -> Option<i128>
    ensures found { IfSome result (λ n. text.now ≡ signed_decimal n) }
    ensures spelled { (n : ℤ) → FitsSigned w128 n → text.now ≡ signed_decimal n → result ≡ Some n }
{
    let Ok(digits) = str::from_utf8(text) else {
        return None;
    };
    let Ok(number) = digits.parse::<i128>() else {
        return None;
    };
    let mut buffer = Buffer::new();
    if buffer.format(number).as_bytes() == text {
        Some(number)
    } else {
        None
    }
}

/// Appends the one plain spelling of a number. After `NoMemory` the list is as before.
pub fn print_signed(out: &mut Vec<u8>, n: i128) -> Result<(), NoMemory>
    ensures ok { OnOk result (out.new.items ≡ out.old.items ++ signed_decimal n) }
    ensures err { OnErr result (out.new.items ≡ out.old.items) }
{
    let mut buffer = Buffer::new();
    out.extend_from_slice(buffer.format(n).as_bytes())?;
    Ok(())
}

/// Each number of 128 bits has one spelling: an optional minus and decimal digits without a needless zero, and `0` for zero.
///
/// The clauses of `read_signed` and `print_signed` name that text as `signed_decimal`. So what `print_signed` appends
/// is read again by `read_signed` as the same number.
pub fn signed_law()
    ensures { OnePlainSpelling }
{}
