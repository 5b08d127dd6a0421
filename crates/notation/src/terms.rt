//! Terms as text.

ghost use Rattle.std.specs.Prelude.{◌≡◌, ◌+◌, ◌-◌, ◌*◌, ◌^◌, ◌<◌, ◌≤◌, ◌++◌, length, IfOk, OnOk};
ghost use Rattle.std.specs.Prelude.{string_bytes};
ghost use Rattle.calculus.specs.Reading.{rest, top};
ghost use Rattle.notation.specs.declared.brackets.Around.TheVariants.{Open};
ghost use Rattle.notation.specs.Terms.{function, application, pair, let_pair, condition, no_term};
ghost use Rattle.notation.specs.Terms.{function_head, let_head, term_text, term_trees};

use crate::brackets::{Around, close, open};
use crate::leaves::{push_binder, push_leaf};
use calculus::TermCell;
use std::alloc::AllocError;

// Appends what stands before the body of a function.
fn push_function_head(out: &mut String, binders: u128) -> Result<(), AllocError>
    ensures { OnOk result (string_bytes out.new ≡ string_bytes out.old ++ function_head binders) }
{
    out.push_str("fun ")?;
    push_binder(out, binders)?;
    out.push_str(". ")
}

// Appends what stands before the pair that a let takes apart.
fn push_let_head(out: &mut String, binders: u128) -> Result<(), AllocError>
    requires { binders + 1 < 2 ^ 128 }
    ensures { OnOk result (string_bytes out.new ≡ string_bytes out.old ++ let_head binders) }
{
    out.push_str("let <")?;
    push_binder(out, binders)?;
    out.push_str(",")?;
    push_binder(out, binders + 1)?;
    out.push_str("> = ")
}

// Appends the function whose body the cells begin with.
#[cycle(term)]
fn push_function<'a>(
    out: &mut String,
    parts: &'a [TermCell],
    binders: u128,
    around: Around,
) -> Result<&'a [TermCell], AllocError>
    requires { binders + 2 + 2 * length parts.now < 2 ^ 128 }
    ensures text { OnOk result (string_bytes out.new ≡ string_bytes out.old
        ++ term_text binders around (function (top no_term (term_trees parts.now)))) }
    ensures rest { IfOk result (λ after. term_trees after.now ≡ rest (term_trees parts.now)) }
    ensures shorter { IfOk result (λ after. length after.now ≤ length parts.now) }
{
    open(out, around.is_wide())?;
    push_function_head(out, binders)?;
    let after = push_part(out, parts, binders + 1, Around::Open)?;
    close(out, around.is_wide())?;
    Ok(after)
}

// Appends the application of the first term of the cells to the second.
#[cycle(term)]
fn push_application<'a>(
    out: &mut String,
    parts: &'a [TermCell],
    binders: u128,
    around: Around,
) -> Result<&'a [TermCell], AllocError>
    requires { binders + 2 + 2 * length parts.now < 2 ^ 128 }
    ensures text { OnOk result (string_bytes out.new ≡ string_bytes out.old
        ++ term_text binders around (application (top no_term (term_trees parts.now))
        (top no_term (rest (term_trees parts.now))))) }
    ensures rest { IfOk result (λ after.
        term_trees after.now ≡ rest (rest (term_trees parts.now))) }
    ensures shorter { IfOk result (λ after. length after.now ≤ length parts.now) }
{
    open(out, around.is_tight())?;
    let argument = push_part(out, parts, binders, Around::Head)?;
    out.push_str(" ")?;
    let after = push_part(out, argument, binders, Around::Tight)?;
    close(out, around.is_tight())?;
    Ok(after)
}

// Appends the pair of the first two terms of the cells.
#[cycle(term)]
fn push_pair<'a>(
    out: &mut String,
    parts: &'a [TermCell],
    binders: u128,
) -> Result<&'a [TermCell], AllocError>
    requires { binders + 2 + 2 * length parts.now < 2 ^ 128 }
    ensures text { OnOk result (string_bytes out.new ≡ string_bytes out.old
        ++ term_text binders Open (pair (top no_term (term_trees parts.now))
        (top no_term (rest (term_trees parts.now))))) }
    ensures rest { IfOk result (λ after.
        term_trees after.now ≡ rest (rest (term_trees parts.now))) }
    ensures shorter { IfOk result (λ after. length after.now ≤ length parts.now) }
{
    out.push_str("<")?;
    let right = push_part(out, parts, binders, Around::Open)?;
    out.push_str(", ")?;
    let after = push_part(out, right, binders, Around::Open)?;
    out.push_str(">")?;
    Ok(after)
}

// Appends the let that takes the first term of the cells apart in the second.
#[cycle(term)]
fn push_let<'a>(
    out: &mut String,
    parts: &'a [TermCell],
    binders: u128,
    around: Around,
) -> Result<&'a [TermCell], AllocError>
    requires { binders + 2 + 2 * length parts.now < 2 ^ 128 }
    ensures text { OnOk result (string_bytes out.new ≡ string_bytes out.old
        ++ term_text binders around (let_pair (top no_term (term_trees parts.now))
        (top no_term (rest (term_trees parts.now))))) }
    ensures rest { IfOk result (λ after.
        term_trees after.now ≡ rest (rest (term_trees parts.now))) }
    ensures shorter { IfOk result (λ after. length after.now ≤ length parts.now) }
{
    open(out, around.is_wide())?;
    push_let_head(out, binders)?;
    let body = push_part(out, parts, binders, Around::Head)?;
    out.push_str(" in ")?;
    let after = push_part(out, body, binders + 2, Around::Open)?;
    close(out, around.is_wide())?;
    Ok(after)
}

// Appends the condition of the first three terms of the cells.
#[cycle(term)]
fn push_condition<'a>(
    out: &mut String,
    parts: &'a [TermCell],
    binders: u128,
    around: Around,
) -> Result<&'a [TermCell], AllocError>
    requires { binders + 2 + 2 * length parts.now < 2 ^ 128 }
    ensures text { OnOk result (string_bytes out.new ≡ string_bytes out.old
        ++ term_text binders around (condition (top no_term (term_trees parts.now))
        (top no_term (rest (term_trees parts.now)))
        (top no_term (rest (rest (term_trees parts.now)))))) }
    ensures rest { IfOk result (λ after.
        term_trees after.now ≡ rest (rest (rest (term_trees parts.now)))) }
    ensures shorter { IfOk result (λ after. length after.now ≤ length parts.now) }
{
    open(out, around.is_wide())?;
    out.push_str("if ")?;
    let then = push_part(out, parts, binders, Around::Head)?;
    out.push_str(" then ")?;
    let other = push_part(out, then, binders, Around::Head)?;
    out.push_str(" else ")?;
    let after = push_part(out, other, binders, Around::Head)?;
    close(out, around.is_wide())?;
    Ok(after)
}

// Appends the term that the cells begin with, and answers the cells after it.
#[cycle(term)]
fn push_part<'a>(
    out: &mut String,
    cells: &'a [TermCell],
    binders: u128,
    around: Around,
) -> Result<&'a [TermCell], AllocError>
    requires { binders + 2 * length cells.now < 2 ^ 128 }
    ensures text { OnOk result (string_bytes out.new
        ≡ string_bytes out.old ++ term_text binders around (top no_term (term_trees cells.now))) }
    ensures rest { IfOk result (λ after. term_trees after.now ≡ rest (term_trees cells.now)) }
    ensures shorter { IfOk result (λ after. length after.now ≤ length cells.now - 1) }
{
    let Some((cell, parts)) = cells.split_first() else {
        out.push_str("?")?;
        return Ok(cells);
    };
    match cell.op {
        'l' => push_function(out, parts, binders, around),
        'a' => push_application(out, parts, binders, around),
        'p' => push_pair(out, parts, binders),
        'd' => push_let(out, parts, binders, around),
        'i' => push_condition(out, parts, binders, around),
        _ => {
            push_leaf(out, *cell, binders)?;
            Ok(parts)
        }
    }
}

/// Appends the term that the cells begin with, under so many binders, and answers the cells after
/// it. A term that is not there is a question mark.
pub fn push_term<'a>(
    out: &mut String,
    cells: &'a [TermCell],
    binders: u16,
    around: Around,
) -> Result<&'a [TermCell], AllocError>
    ensures text { OnOk result (string_bytes out.new
        ≡ string_bytes out.old ++ term_text binders around (top no_term (term_trees cells.now))) }
    ensures rest { IfOk result (λ after. term_trees after.now ≡ rest (term_trees cells.now)) }
    ensures shorter { IfOk result (λ after. length after.now ≤ length cells.now - 1) }
{
    // Counted in 128 bits: no slice has so many cells that this overflows.
    push_part(out, cells, binders as u128, around)
}
