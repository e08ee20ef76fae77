// The name in a class line.
ghost use Rattle.std.specs.Prelude.{◌≡◌, ◌<◌, ◌≤◌, not, length, position, IfSome};
ghost use Rattle.std.specs.List.{position_or_len};
ghost use Rattle.text_words.specs.Words.{is_blank};
ghost use Rattle.class_table.specs.Words.{trim_start, behind_word, trim_end, name_in};

use text_words::is_blank;

// The name in a class line: what stands behind the first two words, without blanks at both ends.
#[tactic(auto, unfolding(crate::specs::Words::name_in))]
pub(crate) fn name_of(line: &[u8]) -> &[u8]
    ensures { result.now ≡ name_in line.now }
{
    trim_end(trim_start(behind_word(behind_word(line))))
}

// What stands behind the first word.
fn behind_word(text: &[u8]) -> &[u8]
    ensures { result.now ≡ behind_word text.now }
{
    let led = trim_start(text);
    &led[word_end(led)..]
}

// The text without the blanks at its front.
fn trim_start(text: &[u8]) -> &[u8]
    ensures { result.now ≡ trim_start text.now }
{
    &text[blanks_end(text)..]
}

// How many blanks stand at the front.
fn blanks_end(text: &[u8]) -> usize
    ensures place { result ≡ position_or_len (λ byte. not (is_blank byte)) text.now }
    ensures bound { result ≤ length text.now }
{
    first_other(text).unwrap_or(text.len())
}

// How many bytes stand before the first blank.
fn word_end(text: &[u8]) -> usize
    ensures place { result ≡ position_or_len is_blank text.now }
    ensures bound { result ≤ length text.now }
{
    first_blank(text).unwrap_or(text.len())
}

// Where the first byte stands that is no blank.
fn first_other(text: &[u8]) -> Option<usize>
    ensures place { result ≡ position (λ byte. not (is_blank byte)) text.now }
    ensures bound { IfSome result (λ at. at < length text.now) }
{
    text.iter().position(|byte| !is_blank(*byte))
}

// Where the first blank stands.
fn first_blank(text: &[u8]) -> Option<usize>
    ensures place { result ≡ position is_blank text.now }
    ensures bound { IfSome result (λ at. at < length text.now) }
{
    text.iter().position(|byte| is_blank(*byte))
}

// The text without the blanks at its end.
fn trim_end(text: &[u8]) -> &[u8]
    ensures { result.now ≡ trim_end text.now }
{
    let mut end = text.len();
    while end > 0 && is_blank(text[end - 1]) {
        end -= 1;
    }
    &text[..end]
}
