// Numbers made of digits.
ghost use Rattle.std.specs.Prelude.{◌≡◌, ◌≤◌, ℕ, IfSome, IfNone};
ghost use Rattle.class_table.specs.Numbers.{IsNumber, number_in};

use std::str;
use text_words::has_digits_only;

// The most digits of a number.
const MOST_DIGITS: usize = 31;

// The number in a range that one to 31 digits spell.
pub(crate) fn read_number(text: &[u8], least: u128, most: u128) -> Option<u128>
    ensures value { result ≡ number_in least most text.now }
    ensures bound { IfSome result (λ n. n ≤ most) }
{
    number_within(text, least, most)
}

// The same, by the rule of numbers.
fn number_within(text: &[u8], least: u128, most: u128) -> Option<u128>
    ensures found { IfSome result (λ n. IsNumber least most text.now n) }
    ensures none { IfNone result ((n : ℕ) → ¬ IsNumber least most text.now n) }
{
    if text.is_empty() || text.len() > MOST_DIGITS || !has_digits_only(text) {
        return None;
    }
    let Ok(digits) = str::from_utf8(text) else {
        return None;
    };
    let Ok(number) = digits.parse::<u128>() else {
        return None;
    };
    if number < least || number > most {
        return None;
    }
    Some(number)
}
