//! The whole view.

ghost use Rattle.std.specs.Prelude.{◌≡◌, ◌≤◌, ◌++◌, IfOk, List, ℕ, OnOk, length, string_bytes};
ghost use Rattle.notation.specs.Terms.{term_trees};
ghost use Rattle.termview.specs.Layout.{TermsLaid};
ghost use Rattle.termview.specs.View.{TableOf, ViewOf};

use crate::cells::Cells;
use crate::judging::judge;
use crate::layout::push_laid;
use crate::reasons::push_reasons;
use crate::rows::push_rows;
use crate::verdicts::{push_verdict, refused_cell};
use calculus::{MOST_TERM_CELLS, TermCell};
use notation::{Around, push_term};
use std::alloc::{AllocError, Global};

// Appends each term that the cells make, on lines of its own.
fn push_terms(out: &mut String, alloc: Global, cells: &[TermCell]) -> Result<(), AllocError>
    requires { length cells.now ≤ MOST_TERM_CELLS }
    ensures { OnOk result ((laid : List ℕ) × (TermsLaid (term_trees cells.now) laid
        × (string_bytes out.new ≡ string_bytes out.old ++ laid))) }
{
    let mut rest = cells;
    while !rest.is_empty() {
        let mut term = String::new(alloc);
        rest = push_term(&mut term, rest, 0, Around::Open)?;
        push_laid(out, term.as_bytes())?;
    }
    Ok(())
}

// Appends the terms and the table, where there is a cell.
fn push_table(
    out: &mut String,
    alloc: Global,
    cells: Cells<'_>,
    marked: Option<usize>,
) -> Result<(), AllocError>
    ensures { OnOk result (TableOf cells.entry.types.now cells.entry.terms.now marked
        (string_bytes out.old) (string_bytes out.new)) }
{
    if cells.terms.is_empty() {
        return Ok(());
    }
    out.push_str("term\n")?;
    push_terms(out, alloc, cells.terms)?;
    out.push_str("\n    cell  line  letter  term")?;
    out.push_str("                                            claims\n")?;
    push_rows(out, alloc, cells, marked)?;
    out.push_str("\n")
}

/// The view of a text: the term, a row for each cell, and the verdict.
pub fn view(alloc: Global, text: &[u8]) -> Result<String, AllocError>
    ensures { IfOk result (λ out. ViewOf text.now (string_bytes out)) }
{
    let judged = judge(text);
    let cells = Cells {
        types: &judged.types[..judged.kinds],
        terms: &judged.terms[..judged.ops],
    };
    let mut out = String::new(alloc);
    let mut reasons = String::new(alloc);
    push_reasons(&mut reasons, text, cells, judged.verdict)?;
    push_table(&mut out, alloc, cells, refused_cell(judged.verdict, cells))?;
    push_verdict(&mut out, text, cells, judged.verdict)?;
    out.push_str(reasons.as_str())?;
    Ok(out)
}
