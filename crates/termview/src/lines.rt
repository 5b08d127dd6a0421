//! A line of a text.

ghost use Rattle.std.specs.Prelude.{◌≡◌, ◌<◌, ◌∷◌, length, true};
ghost use Rattle.reader.specs.Pieces.{pieces};
ghost use Rattle.termview.specs.Lines.{line_in};

/// A line of a text, and whether a byte 10 ends it.
#[derive(Clone, Copy, Drop)]
pub struct Line<'a> {
    pub bytes: &'a [u8],
    pub is_ended: bool,
}

// What stands before the first byte 10, and what stands after it.
fn first_line(text: &[u8]) -> (Line<'_>, &[u8])
    ensures line { (result.0.bytes.now, result.0.is_ended) ≡ line_in 0 (pieces 10 text.now) }
    ensures rest { result.0.is_ended ≡ true
        → pieces 10 text.now ≡ result.0.bytes.now ∷ pieces 10 result.1.now }
    ensures shorter { result.0.is_ended ≡ true → length result.1.now < length text.now }
{
    match text.iter().position(|b| *b == b'\n') {
        Some(end) => {
            let line = Line {
                bytes: &text[..end],
                is_ended: true,
            };
            (line, &text[end + 1..])
        }
        None => {
            let line = Line {
                bytes: text,
                is_ended: false,
            };
            (line, text)
        }
    }
}

/// The line that has so many before it, or the last one.
pub fn line_after(text: &[u8], before: usize) -> Line<'_>
    ensures { (result.bytes.now, result.is_ended) ≡ line_in before (pieces 10 text.now) }
{
    let (line, rest) = first_line(text);
    if before == 0 {
        return line;
    }
    if !line.is_ended {
        return line;
    }
    line_after(rest, before - 1)
}
