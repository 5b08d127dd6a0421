//! A text parted at a byte: lines at byte 10, fields at byte 9.

ghost use Rattle.std.specs.Prelude.{◌≡◌, ◌<◌, [], ◌∷◌, length, IfSome, MatchOption};
ghost use Rattle.reader.specs.Pieces.{pieces};

/// What stands before the first byte that is `mark`, and what stands after it; nothing where there
/// is none.
#[inline(always)]
pub fn parted(text: &[u8], mark: u8) -> Option<(&[u8], &[u8])>
    ensures parts { MatchOption result
        (pieces mark text.now ≡ text.now ∷ [])
        (λ p. pieces mark text.now ≡ p.0.now ∷ pieces mark p.1.now) }
    ensures shorter { IfSome result (λ p. length p.1.now < length text.now) }
{
    let at = text.iter().position(|b| *b == mark)?;
    Some((&text[..at], &text[at + 1..]))
}
