// What single bytes are.
ghost use Rattle.std.specs.Prelude.{◌≡◌};
ghost use Rattle.std.specs.Bool.{Decides};
ghost use Rattle.std.specs.Str.Parse.{AllDigits};
ghost use Rattle.text_words.specs.Words.{is_blank};

/// Whether a byte is a space or a tab. It takes no memory.
pub fn is_blank(byte: u8) -> bool
    ensures { result ≡ is_blank byte }
{
    byte == b' ' || byte == b'\t'
}

/// Whether each byte is a digit, as of a text without bytes. It takes no memory.
pub fn has_digits_only(text: &[u8]) -> bool
    ensures { Decides result (AllDigits 10 text.now) }
{
    text.iter().all(|byte| byte.is_ascii_digit())
}
