//! Types as text.

ghost use Rattle.std.specs.Prelude.{◌≡◌, ◌-◌, ◌≤◌, ◌++◌, length, IfOk, OnOk, string_bytes};
ghost use Rattle.calculus.specs.Reading.{rest, top};
ghost use Rattle.notation.specs.Types.{no_type, plain_text, type_text, type_trees};

use crate::brackets::{Around, close, open};
use calculus::TypeCell;
use std::alloc::AllocError;

// Appends the name of a type that has no parts.
fn push_plain(out: &mut String, kind: char) -> Result<(), AllocError>
    ensures { OnOk result (string_bytes out.new ≡ string_bytes out.old ++ plain_text kind) }
{
    match kind {
        'b' => out.push_str("bit"),
        'q' => out.push_str("qbit"),
        'u' => out.push_str("unit"),
        _ => out.push_str("?"),
    }
}

/// Appends the type that the cells begin with, and answers the cells after it. A type that is not
/// there is a question mark.
pub fn push_type<'a>(
    out: &mut String,
    cells: &'a [TypeCell],
    around: Around,
) -> Result<&'a [TypeCell], AllocError>
    ensures text { OnOk result (string_bytes out.new
        ≡ string_bytes out.old ++ type_text around (top no_type (type_trees cells.now))) }
    ensures rest { IfOk result (λ after. type_trees after.now ≡ rest (type_trees cells.now)) }
    ensures shorter { IfOk result (λ after. length after.now ≤ length cells.now - 1) }
{
    let Some((cell, parts)) = cells.split_first() else {
        out.push_str("?")?;
        return Ok(cells);
    };
    match cell.kind {
        '!' => {
            out.push_str("!")?;
            push_type(out, parts, Around::Tight)
        }
        '>' => {
            open(out, around.is_wide())?;
            let result = push_type(out, parts, Around::Head)?;
            out.push_str(" -> ")?;
            let after = push_type(out, result, Around::Open)?;
            close(out, around.is_wide())?;
            Ok(after)
        }
        '*' => {
            open(out, around.is_tight())?;
            let right = push_type(out, parts, Around::Tight)?;
            out.push_str(" * ")?;
            let after = push_type(out, right, Around::Tight)?;
            close(out, around.is_tight())?;
            Ok(after)
        }
        kind => {
            push_plain(out, kind)?;
            Ok(parts)
        }
    }
}
