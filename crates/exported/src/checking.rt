//! Checking a program's tables.

ghost use Rattle.std.specs.Prelude.{◌≡◌};
ghost use Rattle.checker.specs.Accepting.{program_verdict};
ghost use Rattle.numbers.specs.Cells.{kinds_seen, cells_seen};
ghost use Rattle.numbers.specs.Verdicts.{checked};

use numbers::{Node, TERM_PLACES, Verdict, check_verdict, term_table, type_table};

/// Checks a program's tables, of which no more is looked at than one cell past each limit; answers
/// the fault and its cell, if there is one.
#[unsafe(no_mangle)]
pub extern "C" fn ql_check(letters: &[u32], nodes: &[Node]) -> Verdict
    ensures { result ≡ checked (program_verdict (kinds_seen letters.now) (cells_seen nodes.now)) }
{
    let (types, terms) = (type_table(letters), term_table::<TERM_PLACES>(nodes));
    check_verdict(types.as_slice(), terms.as_slice())
}
