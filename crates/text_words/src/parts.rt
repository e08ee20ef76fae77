// The words of a line, one by one.
use std::marker::Model;

/// The words of a line that are left, in order, which contracts see as a list of texts. Going on takes no memory.
#[derive(Drop)]
pub struct Parts<'a> {
    rest: &'a [u8],
    // Whether carriage returns part words too.
    returns: bool,
}

impl<'a> Model for Parts<'a> {
    ghost use Rattle.std.specs.Prelude.{List, ℕ};
    ghost use Rattle.text_words.specs.Words.{words_between, is_parting};

    ghost Value = { List (List ℕ) };

    ghost view = { λ parts. words_between (is_parting parts.returns) parts.rest.now };
}

ghost use Rattle.std.specs.Prelude.{◌≡◌, ◌≤◌, ◌==◌, ◌<◌, length, drop};
ghost use Rattle.std.specs.Str.{bytes_eq};
ghost use Rattle.text_words.specs.Words.{words, gap_words, word};

use crate::cut::{behind_words, count_words, first_word, word_at};

impl<'a> Parts<'a> {
    /// The words of a line: what stands between spaces and tabs.
    #[tactic(auto, unfolding(crate::specs::Words::words))]
    pub fn of(line: &'a [u8]) -> Parts<'a>
        ensures { result ≡ words line.now }
    {
        Parts {
            rest: line,
            returns: false,
        }
    }

    /// The words of a line in which carriage returns part words too.
    #[tactic(auto, unfolding(crate::specs::Words::gap_words))]
    pub fn between_gaps(line: &'a [u8]) -> Parts<'a>
        ensures { result ≡ gap_words line.now }
    {
        Parts {
            rest: line,
            returns: true,
        }
    }

    /// The words behind the first ones, as many as that.
    pub fn behind(&self, count: usize) -> Parts<'a>
        ensures { result ≡ drop count self.now }
    {
        Parts {
            rest: behind_words(self.returns, self.rest, count),
            returns: self.returns,
        }
    }

    /// How many words are left. It goes over all of them.
    pub fn len(&self) -> usize
        ensures { result ≡ length self.now }
    {
        count_words(self.returns, self.rest)
    }

    /// Whether no word is left.
    pub fn is_empty(&self) -> bool
        ensures { result ≡ (length self.now == 0) }
    {
        first_word(self.returns, self.rest).is_none()
    }

    /// The word at a place among those that are left, of which the first stands at place 0, and nothing behind the last. It goes over those
    /// before it.
    pub fn at(&self, at: usize) -> &'a [u8]
        ensures { result.now ≡ word self.now at }
    {
        word_at(self.returns, self.rest, at)
    }

    /// Whether this word stands at a place.
    pub fn has(&self, at: usize, text: &[u8]) -> bool
        ensures { result ≡ bytes_eq (word self.now at) text.now }
    {
        self.at(at) == text
    }
}

impl<'a> Iterator for Parts<'a> {
    ghost use Rattle.std.specs.Iterator.{YieldsFirstBy, item_count};

    type Item = &'a [u8];

    ghost next_gives = { YieldsFirstBy (λ word. word.now) (λ parts. parts) };

    ghost remaining = { item_count (λ parts. parts) };

    fn next(&mut self) -> Option<&'a [u8]> {
        let (word, rest) = first_word(self.returns, self.rest)?;
        self.rest = rest;
        Some(word)
    }
}
