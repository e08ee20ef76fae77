// Lines, appended to a text.
ghost use Rattle.std.specs.Prelude.{◌≡◌, ◌++◌, ◌∷◌, [], map, OnOk};
ghost use Rattle.std.specs.List.{flat_map};
ghost use Rattle.std.specs.Fmt.{decimal, signed_decimal};
ghost use Rattle.agg_base.specs.Texts.{text_of_lines, text_of_words};

use agg_base::{NoMemory, print_signed};

// Appends a line of words that are all in place.
pub(crate) fn push_plain(out: &mut Vec<u8>, line: &[u8]) -> Result<(), NoMemory>
    ensures { OnOk result (out.new.items ≡ out.old.items ++ text_of_lines (line.now ∷ [])) }
{
    out.extend_from_slice(line)?;
    out.push(b'\n')?;
    Ok(())
}

// Appends a line of a word and numbers.
pub(crate) fn push_line(out: &mut Vec<u8>, word: &[u8], numbers: &[i128]) -> Result<(), NoMemory>
    ensures { OnOk result (out.new.items ≡ out.old.items ++ text_of_lines (text_of_words (word.now ∷ map signed_decimal numbers.now) ∷ [])) }
{
    out.extend_from_slice(word)?;
    push_numbers(out, numbers)?;
    out.push(b'\n')?;
    Ok(())
}

// Appends a line of a word, numbers and members.
pub(crate) fn push_members_line(
    out: &mut Vec<u8>,
    word: &[u8],
    numbers: &[i128],
    members: &[u32],
) -> Result<(), NoMemory>
    ensures { OnOk result (out.new.items ≡ out.old.items ++ text_of_lines (text_of_words (word.now ∷ map signed_decimal numbers.now ++ map decimal members.now) ∷ [])) }
{
    out.extend_from_slice(word)?;
    push_numbers(out, numbers)?;
    push_members(out, members)?;
    out.push(b'\n')?;
    Ok(())
}

// Appends numbers, each behind a space.
fn push_numbers(out: &mut Vec<u8>, numbers: &[i128]) -> Result<(), NoMemory>
    ensures { OnOk result (out.new.items ≡ out.old.items ++ flat_map (λ n. 32 ∷ signed_decimal n) numbers.now) }
{
    for number in numbers {
        push_number(out, *number)?;
    }
    Ok(())
}

// Appends members, each behind a space.
fn push_members(out: &mut Vec<u8>, members: &[u32]) -> Result<(), NoMemory>
    ensures { OnOk result (out.new.items ≡ out.old.items ++ flat_map (λ n. 32 ∷ decimal n) members.now) }
{
    for member in members {
        push_member(out, *member)?;
    }
    Ok(())
}

// Appends a member behind a space.
fn push_member(out: &mut Vec<u8>, member: u32) -> Result<(), NoMemory>
    ensures { OnOk result (out.new.items ≡ out.old.items ++ 32 ∷ decimal member) }
{
    push_number(out, i128::from(member))
}

// Appends a number behind a space.
fn push_number(out: &mut Vec<u8>, number: i128) -> Result<(), NoMemory>
    ensures { OnOk result (out.new.items ≡ out.old.items ++ 32 ∷ signed_decimal number) }
{
    out.push(b' ')?;
    print_signed(out, number)
}
