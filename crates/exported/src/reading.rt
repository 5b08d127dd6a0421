//! Reading a stored program.

ghost use Rattle.std.specs.Prelude.{◌≡◌};
ghost use Rattle.numbers.specs.Cells.{number_of_kind, node_of, handed};
ghost use Rattle.numbers.specs.Verdicts.{fresh_reading, verdict_of};

use calculus::{MOST_TERM_CELLS, MOST_TYPE_CELLS, TermCell, TypeCell};
use numbers::{Node, Verdict, give_terms, give_types, read_verdict};

/// Reads a stored program to new tables, which are handed back as far as there is room; answers
/// both counts, or the fault and its line.
#[unsafe(no_mangle)]
pub extern "C" fn ql_read(text: &[u8], letters: &mut [u32], nodes: &mut [Node]) -> Verdict
    ensures answer { result ≡ verdict_of (fresh_reading text.now).answer }
    ensures types { letters.new ≡ handed number_of_kind (fresh_reading text.now).types letters.old }
    ensures terms { nodes.new ≡ handed node_of (fresh_reading text.now).terms nodes.old }
{
    let mut types = [TypeCell::default(); MOST_TYPE_CELLS];
    let mut terms = [TermCell::default(); MOST_TERM_CELLS];
    let verdict = read_verdict(text, &mut types, &mut terms);
    give_types(&types, letters);
    give_terms(&terms, nodes);
    verdict
}
