//! What the product says of a text: the answers of its reader and of its checker.

ghost use Rattle.std.specs.Prelude.{◌≡◌, ◌≤◌};
ghost use Rattle.termview.specs.Judging.{JudgedAs, kinds_there, ops_there, verdict_by};
ghost use Rattle.checker.specs.Accepting.{program_verdict};

use crate::judged::{Judged, Verdict};
use calculus::{MOST_TERM_CELLS, MOST_TYPE_CELLS, TermCell, TypeCell};
use checker::check;
use reader::read;
use trees::first_failing;

// How many type cells there are before the first that no line filled.
fn kinds_there(types: &[TypeCell]) -> usize
    ensures { result ≡ kinds_there types.now }
{
    first_failing(types, |cell| cell.kind != '\0').unwrap_or(types.len())
}

// How many term cells there are before the first that no line filled.
fn ops_there(terms: &[TermCell]) -> usize
    ensures { result ≡ ops_there terms.now }
{
    first_failing(terms, |cell| cell.op != '\0').unwrap_or(terms.len())
}

// The verdict on cells that were read.
fn checked(types: &[TypeCell], terms: &[TermCell]) -> Verdict
    ensures { result ≡ verdict_by (program_verdict types.now terms.now) }
{
    match check(types, terms) {
        Ok(_) => Verdict::Accepted,
        Err(fault) => Verdict::Refused(fault),
    }
}

// What is read and said of a text.
fn judged(
    verdict: Verdict,
    types: [TypeCell; MOST_TYPE_CELLS],
    kinds: usize,
    terms: [TermCell; MOST_TERM_CELLS],
    ops: usize,
) -> Judged
    requires few_kinds { kinds ≤ MOST_TYPE_CELLS }
    requires few_ops { ops ≤ MOST_TERM_CELLS }
    ensures verdict { result.verdict ≡ verdict }
    ensures types { (result.kinds ≡ kinds) × (result.types ≡ types) }
    ensures terms { (result.ops ≡ ops) × (result.terms ≡ terms) }
{
    Judged {
        verdict,
        types,
        kinds,
        terms,
        ops,
    }
}

/// Reads a text, and checks the program that was read.
pub fn judge(text: &[u8]) -> Judged
    ensures { JudgedAs text.now result }
{
    let mut types = [TypeCell::default(); MOST_TYPE_CELLS];
    let mut terms = [TermCell::default(); MOST_TERM_CELLS];
    match read(text, &mut types, &mut terms) {
        Ok((kinds, ops)) => {
            let verdict = checked(&types[..kinds], &terms[..ops]);
            judged(verdict, types, kinds, terms, ops)
        }
        Err(fault) => {
            let kinds = kinds_there(&types);
            let ops = ops_there(&terms);
            judged(Verdict::Unread(fault), types, kinds, terms, ops)
        }
    }
}
