//! Number fields.

ghost use Rattle.std.specs.Prelude.{◌≡◌, [], ◌∷◌};
ghost use Rattle.reader.specs.Numbers.{value_within, number_in};

// The value with one digit more behind it.
#[inline(always)]
fn with_digit(value: u16, b: u8) -> Option<u16>
    ensures { result ≡ value_within value (b ∷ []) }
{
    if !b.is_ascii_digit() {
        return None;
    }
    value.checked_mul(10)?.checked_add(u16::from(b - b'0'))
}

// The value of decimal digits, where it is at most 65,535.
#[inline(always)]
fn digits(text: &[u8]) -> Option<u16>
    ensures { result ≡ value_within 0 text.now }
{
    text.iter()
        .try_fold(0, |value: u16, b| with_digit(value, *b))
}

/// A number of one to five digits, with no leading zero, at most 65,535.
#[inline(always)]
pub fn number(field: &[u8]) -> Option<u16>
    ensures { result ≡ number_in field.now }
{
    // Written so and not as patterns, the loop over the digits is known to be short.
    if field.is_empty() || field.len() > 5 {
        return None;
    }
    if field[0] == b'0' && field.len() > 1 {
        return None;
    }
    digits(field)
}
