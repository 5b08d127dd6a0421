//! Bytes as printed characters, and columns of them.

ghost use Rattle.std.specs.Prelude.{◌≡◌, ◌<◌, ◌≤◌, [], ◌∷◌, ◌++◌, OnOk, decimal, replicate};
ghost use Rattle.std.specs.Prelude.{string_bytes};
ghost use Rattle.std.specs.List.{flat_map};
ghost use Rattle.termview.specs.Bytes.{coded, cut, digit_of, front, left, right, shown_byte};

use itoa::Buffer;
use std::alloc::AllocError;

// Appends a digit of base 16.
fn push_digit(out: &mut String, digit: u8) -> Result<(), AllocError>
    requires { digit < 16 }
    ensures { OnOk result (string_bytes out.new ≡ string_bytes out.old ++ (digit_of digit ∷ [])) }
{
    let first = if digit < 10 { b'0' } else { b'a' - 10 };
    out.push(char::from(first + digit))
}

// Appends a byte that is no printed character by its number, in base 16.
fn push_code(out: &mut String, byte: u8) -> Result<(), AllocError>
    ensures { OnOk result (string_bytes out.new ≡ string_bytes out.old ++ coded byte) }
{
    out.push_str("\\x")?;
    push_digit(out, byte / 16)?;
    push_digit(out, byte % 16)
}

// Appends a byte: itself where it is a printed character, and else its escape.
fn push_byte(out: &mut String, byte: u8) -> Result<(), AllocError>
    ensures { OnOk result (string_bytes out.new ≡ string_bytes out.old ++ shown_byte byte) }
{
    match byte {
        b'\t' => out.push_str("\\t"),
        b'\r' => out.push_str("\\r"),
        b'\\' => out.push_str("\\\\"),
        b' '..=b'~' => out.push(char::from(byte)),
        _ => push_code(out, byte),
    }
}

/// Appends bytes, each as a printed character or its escape.
pub fn push_bytes(out: &mut String, bytes: &[u8]) -> Result<(), AllocError>
    ensures { OnOk result (string_bytes out.new
        ≡ string_bytes out.old ++ flat_map shown_byte bytes.now) }
{
    for byte in bytes {
        push_byte(out, *byte)?;
    }
    Ok(())
}

/// Appends so many blanks.
pub fn push_blanks(out: &mut String, count: usize) -> Result<(), AllocError>
    ensures { OnOk result (string_bytes out.new ≡ string_bytes out.old ++ replicate count 32) }
{
    for _blank in 0..count {
        out.push(' ')?;
    }
    Ok(())
}

/// Appends a number.
pub fn push_number(out: &mut String, number: usize) -> Result<(), AllocError>
    ensures { OnOk result (string_bytes out.new ≡ string_bytes out.old ++ decimal number) }
{
    let mut digits = Buffer::new();
    out.push_str(digits.format(number))
}

/// Appends a number at the right of a column.
pub fn push_right(out: &mut String, number: usize, width: usize) -> Result<(), AllocError>
    ensures { OnOk result (string_bytes out.new ≡ string_bytes out.old ++ right width number) }
{
    let mut digits = Buffer::new();
    let text = digits.format(number);
    push_blanks(out, width.saturating_sub(text.len()))?;
    out.push_str(text)
}

/// Appends bytes at the left of a column.
pub fn push_left(out: &mut String, bytes: &[u8], width: usize) -> Result<(), AllocError>
    ensures { OnOk result (string_bytes out.new ≡ string_bytes out.old ++ left width bytes.now) }
{
    push_bytes(out, bytes)?;
    push_blanks(out, width.saturating_sub(bytes.len()))
}

/// Appends bytes, cut where they are more than a column has room for.
pub(crate) fn push_front(out: &mut String, bytes: &[u8], width: usize) -> Result<(), AllocError>
    requires { 3 ≤ width }
    ensures { OnOk result (string_bytes out.new ≡ string_bytes out.old ++ front width bytes.now) }
{
    if bytes.len() <= width {
        return push_bytes(out, bytes);
    }
    push_bytes(out, &bytes[..width - 3])?;
    out.push_str("...")
}

/// Appends bytes at the left of a column, cut where they are more than it has room for.
pub(crate) fn push_cut(out: &mut String, bytes: &[u8], width: usize) -> Result<(), AllocError>
    requires { 3 ≤ width }
    ensures { OnOk result (string_bytes out.new ≡ string_bytes out.old ++ cut width bytes.now) }
{
    push_front(out, bytes, width)?;
    push_blanks(out, width.saturating_sub(bytes.len()))
}
