// Texts that are cut at a byte.
ghost use Rattle.std.specs.Prelude.{◌≡◌, ◌==◌, ◌∷◌, [], ◌<◌, ◌≤◌, length, drop, position, IfSome, IfNone};
ghost use Rattle.std.specs.List.{slice_split};

// What stands in front of the first such byte of a text, and what stands behind it; None where there is no such byte.
pub(crate) fn cut_at(text: &[u8], byte: u8) -> Option<(&[u8], &[u8])>
    ensures some { IfSome result (λ p. slice_split (λ b. b == byte) text.now ≡ p.0.now ∷ slice_split (λ b. b == byte) p.1.now) }
    ensures shorter { IfSome result (λ p. length p.1.now < length text.now) }
    ensures none { IfNone result (slice_split (λ b. b == byte) text.now ≡ text.now ∷ []) }
{
    match place_of(text, byte) {
        Some(at) => Some((&text[..at], behind(text, at + 1))),
        None => None,
    }
}

// Where the first such byte stands.
fn place_of(text: &[u8], byte: u8) -> Option<usize>
    ensures place { result ≡ position (λ b. b == byte) text.now }
    ensures bound { IfSome result (λ at. at < length text.now) }
{
    text.iter().position(|b| *b == byte)
}

// What stands from a place on.
fn behind(text: &[u8], at: usize) -> &[u8]
    requires { at ≤ length text.now }
    ensures { result.now ≡ drop at text.now }
{
    &text[at..]
}
