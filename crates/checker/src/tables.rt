//! The tests of whole tables, types before terms, each with the first cell at fault.

ghost use Rattle.std.specs.Prelude.{◌≡◌};
ghost use Rattle.checker.specs.Tables.{tables_tested};

use calculus::{MOST_TERM_CELLS, MOST_TYPE_CELLS, TermCell, TypeCell, is_allowed, kind_parts};
use trees::{count, first_failing, not_one_tree};
use verdict::{CheckFault, CheckReason};

/// The tests of both tables as wholes.
pub(crate) fn test_tables(types: &[TypeCell], terms: &[TermCell]) -> Result<(), CheckFault>
    ensures { result ≡ tables_tested types.now terms.now }
{
    CheckReason::TooManyCells.refuse_if(types.len() > MOST_TYPE_CELLS, MOST_TYPE_CELLS)?;
    CheckReason::TooManyCells.refuse_if(terms.len() > MOST_TERM_CELLS, MOST_TERM_CELLS)?;
    CheckReason::BadCell.refuse_at(first_failing(types, |cell| kind_parts(cell.kind).is_some()))?;
    CheckReason::BadCell.refuse_at(first_failing(
        terms,
        |cell| is_allowed(cell) && cell.op != 'q',
    ))?;
    CheckReason::NotWhole.refuse_if(count(types).is_none(), 0)?;
    CheckReason::NotWhole.refuse_at(not_one_tree(terms))?;
    CheckReason::ClaimOutside.refuse_at(first_failing(
        terms,
        |cell| (cell.claim as usize) < types.len(),
    ))
}
