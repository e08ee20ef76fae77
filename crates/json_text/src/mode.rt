// What is due between and in the tokens of a text of JSON.
ghost use Rattle.std.specs.Prelude.{◌≡◌, ◌≤◌, length};
ghost use Rattle.json_text.specs.Modes.{begin_of, number_begun, word_text, is_space};
ghost use Rattle.json_text.specs.NumberSteps.{first_digit};

use crate::character::Part;
use crate::digits::{Digits, first_digit};

// One of the three words.
#[derive(Clone, Copy)]
pub(crate) enum Word {
    Null,
    True,
    False,
}

// What is due next.
#[derive(Clone, Copy)]
pub(crate) enum Mode {
    // Nothing has come: a byte order mark or a value.
    Start,
    // The second byte of a byte order mark.
    Mark,
    // Its third byte.
    MarkEnd,
    // A value.
    Value,
    // A value, or the bracket that closes a list without values.
    FirstItem,
    // A name, or the brace that closes members without names.
    FirstName,
    // A name.
    Name,
    // The colon behind a name.
    Colon,
    // A comma or what closes the list or members; at the top, nothing.
    After,
    // The rest of a word behind so many of its bytes.
    Word(Word, u8),
    // More of a number, or what stands behind it.
    Number(Digits),
    // More of a text or a name, or its closing quote.
    Text(Part),
}

// What a value is that begins with a byte.
#[derive(Clone, Copy)]
pub(crate) enum Begin {
    List,
    Members,
    Text,
    Number(Digits),
    Word(Word),
}

// What a value is that begins with that byte.
pub(crate) fn begin_of(byte: u8) -> Option<Begin>
    ensures { result ≡ begin_of byte }
{
    match byte {
        b'[' => Some(Begin::List),
        b'{' => Some(Begin::Members),
        b'"' => Some(Begin::Text),
        b'n' => Some(Begin::Word(Word::Null)),
        b't' => Some(Begin::Word(Word::True)),
        b'f' => Some(Begin::Word(Word::False)),
        _ => number_of(byte),
    }
}

// A number that begins with that byte.
fn number_of(byte: u8) -> Option<Begin>
    ensures { result ≡ number_begun (first_digit byte) }
{
    match first_digit(byte) {
        Some(digits) => Some(Begin::Number(digits)),
        None => None,
    }
}

// The bytes of a word.
pub(crate) fn word_text(word: Word) -> &'static [u8]
    ensures value { result.now ≡ word_text word }
    ensures short { length result.now ≤ 5 }
{
    match word {
        Word::Null => b"null",
        Word::True => b"true",
        Word::False => b"false",
    }
}

// Whether the byte is white space: a space, a tab, a line feed or a carriage return.
pub(crate) fn is_space(byte: u8) -> bool
    ensures { result ≡ is_space byte }
{
    matches!(byte, b' ' | b'\t' | b'\n' | b'\r')
}
