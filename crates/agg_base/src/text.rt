// Texts and lists of texts.
ghost use Rattle.std.specs.Prelude.{◌≡◌, ◌<◌, List, ℕ, length, IfOk, Some, slice_get, string_bytes};

use std::alloc::{AllocError, AllocFailed, Global};
use std::marker::Model;
use thiserror::Error;

/// Out of memory. No other cause has this answer.
#[derive(Clone, Copy, Debug, PartialEq, Eq, Error)]
#[error("out of memory")]
pub struct NoMemory;

impl From<AllocError> for NoMemory {
    fn from(_: AllocError) -> Self {
        NoMemory
    }
}

impl<T: Drop> From<AllocFailed<T>> for NoMemory {
    fn from(_: AllocFailed<T>) -> Self {
        NoMemory
    }
}

/// A UTF-8 text, which contracts see as the list of its bytes.
#[derive(Drop)]
pub struct Text {
    content: String,
}

impl Model for Text {
    ghost Value = { List ℕ };

    ghost view = { λ t. string_bytes t.content };
}

impl Text {
    /// The text of these bytes.
    pub fn of(alloc: Global, s: &str) -> Result<Text, NoMemory>
        ensures { IfOk result (λ text. text ≡ s.now) }
    {
        Ok(Text {
            content: String::from_str(alloc, s)?,
        })
    }

    /// The text's bytes. It takes no memory.
    pub fn as_str(&self) -> &str
        ensures { result.now ≡ self.now }
    {
        self.content.as_str()
    }

    /// A text of the same bytes.
    pub fn copy(&self, alloc: Global) -> Result<Text, NoMemory>
        ensures { IfOk result (λ text. text ≡ self.now) }
    {
        Text::of(alloc, self.as_str())
    }
}

/// A list of texts, as the words of a command line, which contracts see as a list of lists of bytes.
#[derive(Drop)]
pub struct Words {
    texts: Vec<Text>,
}

impl Model for Words {
    ghost Value = { List (List ℕ) };

    ghost view = { λ w. w.texts.items };
}

impl Words {
    /// These texts, in order. It takes no memory.
    pub fn of(texts: Vec<Text>) -> Words
        ensures { result ≡ texts.items }
    {
        Words { texts }
    }

    /// How many words there are. It takes no memory.
    pub fn count(&self) -> usize
        ensures { result ≡ length self.now }
    {
        self.texts.len()
    }

    /// The word at a place, counted from 0. It takes no memory.
    pub fn word(&self, at: usize) -> &str
        requires { at < length self.now }
        ensures { slice_get self.now at ≡ Some result.now }
    {
        self.texts[at].as_str()
    }
}
