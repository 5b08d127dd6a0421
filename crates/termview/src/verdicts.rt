//! The verdict: what is said of a text, and where.

ghost use Rattle.std.specs.Prelude.{◌≡◌, ◌≤◌, ◌++◌, IfSome, OnOk, string_bytes};
ghost use Rattle.std.specs.Option.{ForSome};
ghost use Rattle.termview.specs.Verdicts.{accepted_text, is_of_types, place_of, root_claim};
ghost use Rattle.termview.specs.Verdicts.{refused_cell, refused_text, unread_text, verdict_text};

use crate::bytes::{push_front, push_number};
use crate::cells::Cells;
use crate::judged::Verdict;
use crate::lines::line_after;
use crate::rows::push_claim;
use calculus::{MOST_TERM_CELLS, TermCell, TypeCell};
use reader::ReadFault;
use std::alloc::AllocError;
use trees::count;
use verdict::{CheckFault, CheckReason};

// Bytes of a line that are shown at most.
const MOST_SHOWN: usize = 80;

/// Whether a fault is one of the type table, none of whose cells has a row.
pub fn is_of_types(fault: CheckFault, types: &[TypeCell]) -> bool
    ensures { result ≡ is_of_types fault types.now }
{
    match fault.reason {
        CheckReason::NotWhole => count(types).is_none(),
        _ => false,
    }
}

/// The cell of the term that is refused, if it is one that was read.
pub fn refused_cell(verdict: Verdict, cells: Cells<'_>) -> Option<usize>
    ensures cell { result ≡ refused_cell verdict cells.entry.types.now cells.entry.terms.now }
    ensures within { IfSome result (λ cell. cell ≤ MOST_TERM_CELLS) }
{
    let Verdict::Refused(fault) = verdict else {
        return None;
    };
    if is_of_types(fault, cells.types) || fault.cell >= cells.terms.len() {
        return None;
    }
    Some(fault.cell)
}

// Appends the line of a cell, if one is named.
fn push_place(out: &mut String, cells: Cells<'_>, cell: Option<usize>) -> Result<(), AllocError>
    requires { ForSome cell (λ cell. cell ≤ MOST_TERM_CELLS) }
    ensures { OnOk result (string_bytes out.new
        ≡ string_bytes out.old ++ place_of cells.entry.types.now cell) }
{
    let Some(cell) = cell else {
        return Ok(());
    };
    out.push_str(", line ")?;
    push_number(out, cells.line(cell))
}

// Appends what the checker refuses.
fn push_refused(out: &mut String, cells: Cells<'_>, fault: CheckFault) -> Result<(), AllocError>
    ensures { OnOk result (string_bytes out.new ≡ string_bytes out.old
        ++ refused_text fault cells.entry.types.now cells.entry.terms.now) }
{
    out.push_str("refused by ")?;
    push_number(out, fault.number() as usize)?;
    out.push_str(" at cell ")?;
    push_number(out, fault.cell)?;
    push_place(out, cells, refused_cell(Verdict::Refused(fault), cells))?;
    out.push_str("\n")
}

// Appends what the reader refuses, and the line.
fn push_unread(out: &mut String, text: &[u8], fault: ReadFault) -> Result<(), AllocError>
    ensures { OnOk result (string_bytes out.new
        ≡ string_bytes out.old ++ unread_text fault text.now) }
{
    let ReadFault { reason, line } = fault;
    let shown = line_after(text, line.saturating_sub(1));
    out.push_str("refused by ")?;
    push_number(out, reason.number() as usize)?;
    out.push_str(" at line ")?;
    push_number(out, line)?;
    out.push_str("\n>>> ")?;
    push_front(out, shown.bytes, MOST_SHOWN)?;
    out.push_str("\n")
}

// The place of the type that the whole term claims.
fn root_claim(terms: &[TermCell]) -> usize
    ensures { result ≡ root_claim terms.now }
{
    match terms {
        [root, ..] => root.claim as usize,
        [] => 0,
    }
}

// Appends that the program is accepted, with its type.
fn push_accepted(out: &mut String, cells: Cells<'_>) -> Result<(), AllocError>
    ensures { OnOk result (string_bytes out.new ≡ string_bytes out.old
        ++ accepted_text cells.entry.types.now cells.entry.terms.now) }
{
    out.push_str("accepted: the program has the type ")?;
    push_claim(out, cells.types, root_claim(cells.terms))?;
    out.push_str("\n")
}

/// Appends the verdict.
pub fn push_verdict(
    out: &mut String,
    text: &[u8],
    cells: Cells<'_>,
    verdict: Verdict,
) -> Result<(), AllocError>
    ensures { OnOk result (string_bytes out.new ≡ string_bytes out.old
        ++ verdict_text verdict text.now cells.entry.types.now cells.entry.terms.now) }
{
    match verdict {
        Verdict::Accepted => push_accepted(out, cells),
        Verdict::Refused(fault) => push_refused(out, cells, fault),
        Verdict::Unread(fault) => push_unread(out, text, fault),
    }
}
