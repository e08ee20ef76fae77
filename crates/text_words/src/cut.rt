// The first word of a text.
ghost use Rattle.std.specs.Prelude.{◌≡◌, ◌∷◌, [], ◌<◌, ◌≤◌, not, length, take, drop, position, IfSome, IfNone};
ghost use Rattle.std.specs.List.{position_or_len};
ghost use Rattle.text_words.specs.Words.{words_between, is_parting, word};

use crate::is_blank;

// The first word of a text, and what stands behind it; None where there is no word.
pub(crate) fn first_word(returns: bool, text: &[u8]) -> Option<(&[u8], &[u8])>
    ensures some { IfSome result (λ p. words_between (is_parting returns) text.now ≡ p.0.now ∷ words_between (is_parting returns) p.1.now) }
    ensures none { IfNone result (words_between (is_parting returns) text.now ≡ []) }
{
    let Some(start) = word_start(returns, text) else {
        return None;
    };
    Some(cut_word(returns, behind(text, start)))
}

// What stands behind the first words, as many as that, or behind all of them.
#[tactic(auto, using(crate::proofs::WordCuts::dropped_more))]
pub(crate) fn behind_words(returns: bool, text: &[u8], count: usize) -> &[u8]
    ensures { words_between (is_parting returns) result.now ≡ drop count (words_between (is_parting returns) text.now) }
{
    let mut rest = text;
    for _place in 0..count {
        rest = behind_word(returns, rest);
    }
    rest
}

// What stands behind the first word, or the text where there is no word.
fn behind_word(returns: bool, text: &[u8]) -> &[u8]
    ensures { words_between (is_parting returns) result.now ≡ drop 1 (words_between (is_parting returns) text.now) }
{
    match first_word(returns, text) {
        Some(cut) => cut.1,
        None => text,
    }
}

// The word at a place, and nothing where there are no more words.
#[tactic(auto, using(crate::proofs::WordCuts::first_left, crate::proofs::WordCuts::none_left))]
pub(crate) fn word_at(returns: bool, text: &[u8], at: usize) -> &[u8]
    ensures { result.now ≡ word (words_between (is_parting returns) text.now) at }
{
    let rest = behind_words(returns, text, at);
    match first_word(returns, rest) {
        Some(cut) => cut.0,
        None => &[],
    }
}

// How many words there are.
#[tactic(auto, using(crate::proofs::WordCuts::few_words))]
pub(crate) fn count_words(returns: bool, text: &[u8]) -> usize
    ensures { result ≡ length (words_between (is_parting returns) text.now) }
{
    let mut rest = text;
    let mut count = 0;
    while let Some(cut) = first_word(returns, rest) {
        rest = cut.1;
        count += 1;
    }
    count
}

// What stands from a place on.
fn behind(text: &[u8], at: usize) -> &[u8]
    requires { at ≤ length text.now }
    ensures { result.now ≡ drop at text.now }
{
    &text[at..]
}

// The word at the start of a text, and what stands behind it.
fn cut_word(returns: bool, text: &[u8]) -> (&[u8], &[u8])
    ensures word { result.0.now ≡ take (position_or_len (is_parting returns) text.now) text.now }
    ensures rest { result.1.now ≡ drop (position_or_len (is_parting returns) text.now) text.now }
{
    text.split_at(word_end(returns, text))
}

// Whether a byte parts words.
fn is_parting(returns: bool, byte: u8) -> bool
    ensures { result ≡ is_parting returns byte }
{
    is_blank(byte) || (returns && byte == b'\r')
}

// Where the first word begins.
fn word_start(returns: bool, text: &[u8]) -> Option<usize>
    ensures place { result ≡ position (λ byte. not (is_parting returns byte)) text.now }
    ensures bound { IfSome result (λ at. at < length text.now) }
{
    text.iter().position(|byte| !is_parting(returns, *byte))
}

// Where the word at the start of a text ends.
fn word_end(returns: bool, text: &[u8]) -> usize
    ensures place { result ≡ position_or_len (is_parting returns) text.now }
    ensures bound { result ≤ length text.now }
{
    first_parting(returns, text).unwrap_or(text.len())
}

// Where the first byte stands that parts words.
fn first_parting(returns: bool, text: &[u8]) -> Option<usize>
    ensures place { result ≡ position (is_parting returns) text.now }
    ensures bound { IfSome result (λ at. at < length text.now) }
{
    text.iter().position(|byte| is_parting(returns, *byte))
}
