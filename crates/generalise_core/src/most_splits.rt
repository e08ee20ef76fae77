// How many splits there may be.
ghost use Rattle.std.specs.Prelude.{◌≡◌, ℕ, IfSome, IfNone};
ghost use Rattle.generalise_core.specs.Texts.{lent};
ghost use Rattle.generalise_core.specs.Words.{SpellsSplits, SaysSplits};

use agg_base::limits::SPLITS;
use text_words::has_digits_only;

/// How many splits there may be where the words do not say it.
pub(crate) const DEFAULT_SPLITS: u32 = 10_000;

// The most digits of a number of splits.
const MOST_DIGITS: usize = 7;

// The number of splits that digits spell.
fn read_splits(digits: &str) -> Option<u32>
    ensures found { IfSome result (λ n. SpellsSplits digits.now n) }
    ensures none { IfNone result ((n : ℕ) → ¬ SpellsSplits digits.now n) }
{
    if digits.is_empty() || digits.len() > MOST_DIGITS || !has_digits_only(digits.as_bytes()) {
        return None;
    }
    let Ok(number) = digits.parse::<u32>() else {
        return None;
    };
    if u64::from(number) > SPLITS {
        return None;
    }
    Some(number)
}

/// How many splits there may be, by the value of `--splits` where it stands, or none where that is no such number.
pub(crate) fn splits_of(value: Option<&str>) -> Option<u32>
    ensures found { IfSome result (λ n. SaysSplits (lent value.entry) n) }
    ensures none { IfNone result ((n : ℕ) → ¬ SaysSplits (lent value.entry) n) }
{
    match value {
        Some(digits) => read_splits(digits),
        None => Some(DEFAULT_SPLITS),
    }
}
