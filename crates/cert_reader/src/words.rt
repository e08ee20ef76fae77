// The words of a line, one by one.
use std::marker::Model;

// The words of a line that are left, in order. Going on takes no memory.
#[derive(Drop)]
pub(crate) struct Words<'a> {
    // The last word has been given.
    is_over: bool,
    rest: &'a [u8],
}

impl<'a> Model for Words<'a> {
    ghost use Rattle.std.specs.Prelude.{List, ℕ};
    ghost use Rattle.cert_reader.specs.LineReading.{words_left};

    ghost Value = { List (List ℕ) };

    ghost view = { λ words. words_left words.is_over words.rest.now };
}

ghost use Rattle.std.specs.Prelude.{◌≡◌, ◌≤◌, ◌∷◌, [], ◌==◌, length, IfSome, IfNone, Some, None};
ghost use Rattle.std.specs.Option.{option_map};
ghost use Rattle.std.specs.Str.{bytes_eq};
ghost use Rattle.cert_reader.specs.LineReading.{words_in, words_left, whole_in, number_in, multiplier_in, number_at, multiplier_at, within, multiplier_of};

use crate::cut::cut_at;
use agg_base::read_signed;
use std::iter::Iterator;

impl<'a> Words<'a> {
    // The words of a line: what stands between its spaces.
    pub(crate) fn of(line: &'a [u8]) -> Words<'a>
        ensures { result ≡ words_in line.now }
    {
        Words {
            is_over: false,
            rest: line,
        }
    }

    // Whether no word is left.
    pub(crate) fn is_empty(&self) -> bool
        ensures { result ≡ (length self.now == 0) }
    {
        self.is_over
    }

    // The number in a range that the next word spells.
    #[tactic(auto, unfolding(crate::specs::LineReading::number_at))]
    pub(crate) fn number(&mut self, least: u32, most: u32) -> Option<u32>
        ensures value { option_map (λ n. (n, self.new)) result ≡ number_at least most self.old }
        ensures bound { IfSome result (λ n. n ≤ most) }
    {
        match self.next() {
            Some(word) => read_number(word, least, most),
            None => None,
        }
    }

    // The multiplier that the next word spells.
    #[tactic(auto, unfolding(crate::specs::LineReading::multiplier_at))]
    pub(crate) fn multiplier(&mut self) -> Option<i128>
        ensures { option_map (λ n. (n, self.new)) result ≡ multiplier_at self.old }
    {
        match self.next() {
            Some(word) => read_multiplier(word),
            None => None,
        }
    }
}

impl<'a> Iterator for Words<'a> {
    ghost use Rattle.std.specs.Iterator.{YieldsFirstBy, item_count};

    type Item = &'a [u8];

    ghost next_gives = { YieldsFirstBy (λ word. word.now) (λ words. words) };

    ghost remaining = { item_count (λ words. words) };

    fn next(&mut self) -> Option<&'a [u8]> {
        let (word, is_over, rest) = first_word(self.is_over, self.rest)?;
        self.is_over = is_over;
        self.rest = rest;
        Some(word)
    }
}

// The first word of those that are left, whether it is the last one, and the text of the words behind it.
#[tactic(auto, unfolding(crate::specs::LineReading::words_in))]
fn first_word(is_over: bool, line: &[u8]) -> Option<(&[u8], bool, &[u8])>
    ensures some { IfSome result (λ p. words_left is_over line.now ≡ p.0.now ∷ words_left p.1 p.2.now) }
    ensures none { IfNone result (words_left is_over line.now ≡ []) }
{
    if is_over {
        return None;
    }
    match cut_at(line, b' ') {
        Some((word, rest)) => Some((word, false, rest)),
        None => Some((line, true, line)),
    }
}

// The number that a word spells.
pub(crate) fn read_whole(word: &[u8]) -> Option<i128>
    ensures { result ≡ whole_in word.now }
{
    match read_signed(word) {
        Some(number) => Some(number),
        None => None,
    }
}

// The number in a range that a word spells.
#[tactic(auto, unfolding(crate::specs::LineReading::number_in))]
pub(crate) fn read_number(word: &[u8], least: u32, most: u32) -> Option<u32>
    ensures value { result ≡ number_in least most word.now }
    ensures bound { IfSome result (λ n. n ≤ most) }
{
    match read_whole(word) {
        Some(number) => number_within(number, least, most),
        None => None,
    }
}

// The number, where it is in a range.
fn number_within(number: i128, least: u32, most: u32) -> Option<u32>
    ensures value { result ≡ within least most number }
    ensures bound { IfSome result (λ n. n ≤ most) }
{
    if number < i128::from(least) || number > i128::from(most) {
        None
    } else {
        Some(number as u32)
    }
}

// The multiplier that a word spells: a number that is not the least of 128 bits.
#[tactic(auto, unfolding(crate::specs::LineReading::multiplier_in))]
fn read_multiplier(word: &[u8]) -> Option<i128>
    ensures { result ≡ multiplier_in word.now }
{
    match read_whole(word) {
        Some(number) => multiplier_of(number),
        None => None,
    }
}

// The number, where it is not the least of 128 bits.
fn multiplier_of(number: i128) -> Option<i128>
    ensures { result ≡ multiplier_of number }
{
    if number == i128::MIN {
        None
    } else {
        Some(number)
    }
}

// Whether the word is that one.
pub(crate) fn is_word(word: &[u8], text: &[u8]) -> bool
    ensures { result ≡ bytes_eq word.now text.now }
{
    word == text
}
