// Texts that are made of lines, one piece after another.
ghost use Rattle.std.specs.Prelude.{◌≡◌, ◌++◌, ◌∷◌, [], OnOk};
ghost use Rattle.std.specs.Fmt.{decimal, signed_decimal};
ghost use Rattle.agg_base.specs.Texts.{text_of_lines};
ghost use Rattle.cert_text.specs.Lines.{number_or_dash};

use agg_base::{NoMemory, print_signed};

/// Appends a line and its line feed.
pub(crate) fn push_line(out: &mut Vec<u8>, line: &[u8]) -> Result<(), NoMemory>
    ensures { OnOk result (out.new.items ≡ out.old.items ++ text_of_lines (line.now ∷ [])) }
{
    out.extend_from_slice(line)?;
    out.push(b'\n')?;
    Ok(())
}

/// Appends a line of a word, with its blank, and a number.
pub(crate) fn push_number(out: &mut Vec<u8>, word: &[u8], number: i128) -> Result<(), NoMemory>
    ensures { OnOk result (out.new.items ≡ out.old.items ++ text_of_lines ((word.now ++ signed_decimal number) ∷ [])) }
{
    out.extend_from_slice(word)?;
    print_signed(out, number)?;
    out.push(b'\n')?;
    Ok(())
}

/// Appends a line of a word, with its blank, and a count.
pub(crate) fn push_count(out: &mut Vec<u8>, word: &[u8], count: u32) -> Result<(), NoMemory>
    ensures { OnOk result (out.new.items ≡ out.old.items ++ text_of_lines ((word.now ++ decimal count) ∷ [])) }
{
    push_number(out, word, i128::from(count))
}

/// Appends a line of a word, with its blank, and a number, or a dash where there is none.
pub(crate) fn push_number_or_dash(
    out: &mut Vec<u8>,
    word: &[u8],
    number: Option<i128>,
) -> Result<(), NoMemory>
    ensures { OnOk result (out.new.items ≡ out.old.items ++ text_of_lines ((word.now ++ number_or_dash number) ∷ [])) }
{
    match number {
        Some(number) => push_number(out, word, number),
        None => {
            out.extend_from_slice(word)?;
            push_line(out, b"-")
        }
    }
}
