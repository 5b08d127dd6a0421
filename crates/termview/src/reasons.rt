//! Sentences on what a verdict means.

use crate::bytes::push_number;
use crate::cells::Cells;
use crate::judged::Verdict;
use crate::misread::push_misread;
use crate::rules::rule_of;
use crate::verdicts::is_of_types;
use std::alloc::AllocError;
use verdict::{CheckFault, CheckReason};

// What it means that a cell is none of its table.
fn bad_cell(op: char) -> &'static str {
    match op {
        'q' => "q names a qubit of a running term; a program prepares its qubits by n",
        'g' => "there is no such gate: the gates are 0 to 7",
        _ => "this letter has no argument: the second field after M is 0",
    }
}

// What it means that the cells are not whole trees.
fn not_whole(fault: CheckFault, cells: Cells<'_>) -> &'static str {
    if is_of_types(fault, cells.types) {
        "the last type is not finished: a part is missing after the last T line"
    } else if cells.terms.is_empty() {
        "there is no term: the program has no M line"
    } else if fault.cell == 0 {
        "the term is not finished: what is missing is shown as ?"
    } else {
        "the term ends before this cell, and more cells follow"
    }
}

// What a fault of the checker means.
fn meaning(fault: CheckFault, cells: Cells<'_>, op: char) -> &'static str {
    match fault.reason {
        CheckReason::TooManyCells => "a table has more cells than a program may have",
        CheckReason::BadCell => bad_cell(op),
        CheckReason::NotWhole => not_whole(fault, cells),
        CheckReason::ClaimOutside => "its claim, the last field, is no place of the type table",
        CheckReason::TooDeep => "more than 32 binders would be in scope here",
        CheckReason::NoBinder => "no binder binds the variable: it counts past those in scope",
        CheckReason::WrongClaim => "the claims of the cell and of its parts do not fit its rule:",
        CheckReason::UsedTwice => {
            "two parts of the cell use a variable whose type does not begin with !"
        }
        CheckReason::Captures => {
            "the function's type begins with !, and it uses an outer variable whose type does not"
        }
    }
}

// Appends a claim that is outside, with how many types there are.
fn push_outside(out: &mut String, claim: usize, kinds: usize) -> Result<(), AllocError> {
    out.push_str("it claims place ")?;
    push_number(out, claim)?;
    out.push_str(", counted from 0; the number of T lines is ")?;
    push_number(out, kinds)?;
    out.push_str("\n")
}

// Appends why the checker refuses.
fn push_refusal(out: &mut String, cells: Cells<'_>, fault: CheckFault) -> Result<(), AllocError> {
    let cell = cells.terms.get(fault.cell).copied().unwrap_or_default();
    out.push_str(meaning(fault, cells, cell.op))?;
    out.push_str("\n")?;
    match fault.reason {
        CheckReason::ClaimOutside => push_outside(out, cell.claim as usize, cells.types.len()),
        CheckReason::WrongClaim => {
            out.push_str(rule_of(cell.op))?;
            out.push_str("\n")
        }
        _ => Ok(()),
    }
}

/// Appends why a text is refused, if it is.
pub fn push_reasons(
    out: &mut String,
    text: &[u8],
    cells: Cells<'_>,
    verdict: Verdict,
) -> Result<(), AllocError> {
    match verdict {
        Verdict::Accepted => Ok(()),
        Verdict::Refused(fault) => push_refusal(out, cells, fault),
        Verdict::Unread(fault) => push_misread(out, text, cells, fault),
    }
}
