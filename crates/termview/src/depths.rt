//! Under how many binders each cell of a term stands.

ghost use Rattle.std.specs.Prelude.{◌≡◌, ◌+◌, ◌-◌, ◌*◌, ◌<◌, ◌≤◌, ◌++◌, length, IfOk, OnOk};
ghost use Rattle.std.specs.List.{flat_map};
ghost use Rattle.calculus.specs.Reading.{rest, top};
ghost use Rattle.notation.specs.Terms.{no_term, term_trees};
ghost use Rattle.termview.specs.Depths.{depths_in};

use calculus::TermCell;
use std::alloc::{AllocError, Global};

// Notes the binders around each cell of the term that the cells begin with, and answers the cells
// after it.
fn note_depths<'a>(
    depths: &mut Vec<u16>,
    cells: &'a [TermCell],
    binders: u16,
) -> Result<&'a [TermCell], AllocError>
    requires { binders + 2 * length cells.now < 65536 }
    ensures depths { OnOk result (depths.new.items
        ≡ depths.old.items ++ depths_in binders (top no_term (term_trees cells.now))) }
    ensures rest { IfOk result (λ after. term_trees after.now ≡ rest (term_trees cells.now)) }
    ensures shorter { IfOk result (λ after. length after.now ≤ length cells.now - 1) }
{
    let Some((cell, parts)) = cells.split_first() else {
        return Ok(cells);
    };
    depths.push(binders)?;
    match cell.op {
        'l' => note_depths(depths, parts, binders + 1),
        'a' | 'p' => {
            let second = note_depths(depths, parts, binders)?;
            note_depths(depths, second, binders)
        }
        'd' => {
            let body = note_depths(depths, parts, binders)?;
            note_depths(depths, body, binders + 2)
        }
        'i' => {
            let then = note_depths(depths, parts, binders)?;
            let other = note_depths(depths, then, binders)?;
            note_depths(depths, other, binders)
        }
        _ => Ok(parts),
    }
}

/// How many binders each cell stands under, in its own tree.
pub(crate) fn depths(alloc: Global, cells: &[TermCell]) -> Result<Vec<u16>, AllocError>
    requires { 2 * length cells.now < 65536 }
    ensures { IfOk result (λ found.
        found.items ≡ flat_map (depths_in 0) (term_trees cells.now)) }
{
    let mut found = Vec::new(alloc);
    let mut rest = cells;
    while !rest.is_empty() {
        rest = note_depths(&mut found, rest, 0)?;
    }
    Ok(found)
}
