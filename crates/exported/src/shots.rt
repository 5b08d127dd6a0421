//! Whole runs on a tape.

ghost use Rattle.std.specs.Prelude.{◌≡◌};
ghost use Rattle.numbers.specs.Cells.{kinds_seen, cells_seen};
ghost use Rattle.numbers.specs.Runs.{run_answered, tables};

use numbers::{Node, Pulse, TERM_PLACES, Verdict, run_verdict, term_table, type_table};

/// Checks a program's tables, loads it on a tape of the outcomes and runs it. Answers a fault and
/// its place, or else how the run stopped and its steps, with the counts of the value and its type;
/// hands back the work table or the value, its type, and the journal.
#[unsafe(no_mangle)]
pub extern "C" fn ql_run(
    letters: &[u32],
    nodes: &[Node],
    outcomes: &[u8],
    budget: u64,
    value: &mut [Node],
    kinds: &mut [u32],
    pulses: &mut [Pulse],
) -> Verdict
    ensures { (result, tables value.new kinds.new pulses.new)
        ≡ run_answered (kinds_seen letters.now) (cells_seen nodes.now) outcomes.now budget
        (tables value.old kinds.old pulses.old) }
{
    let (types, terms) = (type_table(letters), term_table::<TERM_PLACES>(nodes));
    run_verdict(
        types.as_slice(),
        terms.as_slice(),
        outcomes,
        budget,
        value,
        kinds,
        pulses,
    )
}
