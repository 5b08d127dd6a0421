//! Views of texts that a student may write: what is wrong is said, and where.

use crate::viewing::view;
use std::alloc::{AllocError, Global};
use std::process::Abort;
use std::test::Fail;

// The view of a text has these lines among its own.
fn shows(rt: &impl Abort, heap: Global, text: &[u8], lines: &[&str]) -> Result<(), Fail> {
    let shown = view(heap, text)?;
    for line in lines {
        assert!(rt;
            shown.as_str().contains(*line),
            "{} in {}",
            *line,
            shown.as_str()
        );
    }
    Ok(())
}

#[test]
fn bytes_of_an_editor(rt: HostRuntime) -> Result<(), Fail> {
    let heap = rt.alloc();
    let blanks = "the line has a blank; tabs part the fields: tr ' ' '\\t' makes tabs\n";
    let returns = "the line has a byte 13, as on Windows: tr -d '\\r' takes them away\n";
    shows(
        &rt,
        heap,
        b"QL 1\nT b\n",
        &["refused by 11 at line 1\n>>> QL 1\n", blanks],
    )?;
    shows(
        &rt,
        heap,
        b"QL\t1\nT b\n",
        &["refused by 12 at line 2\n>>> T b\n", blanks],
    )?;
    shows(
        &rt,
        heap,
        b"QL\t1\r\nT\tb\r\n",
        &["at line 1\n>>> QL\\t1\\r\n", returns],
    )?;
    shows(
        &rt,
        heap,
        b"QL\t1\nM\t0\t0\t0\r\n",
        &["refused by 13 at line 2\n", returns],
    )?;
    shows(
        &rt,
        heap,
        b"QL\xff\x07\\\n",
        &["refused by 11 at line 1\n>>> QL\\xff\\x07\\\\\n"],
    )
}

#[test]
fn ends_of_a_text(rt: HostRuntime) -> Result<(), Fail> {
    let heap = rt.alloc();
    let unended = "the last line is not ended: the byte 10 after it is missing\n";
    let missing =
        "the end line is missing: E, a tab, the count of T lines, a tab, that of M lines\n";
    let counts = "the end line miscounts: the number of T lines is 1, and that of M lines is 1\n";
    shows(
        &rt,
        heap,
        b"",
        &["refused by 15 at line 1\n", "the text is empty\n"],
    )?;
    shows(
        &rt,
        heap,
        b"QL\t1",
        &["refused by 15 at line 1\n>>> QL\\t1\n", unended],
    )?;
    shows(
        &rt,
        heap,
        b"QL\t1\nT\tb\nM\t0\t0\t0\n",
        &["refused by 15 at line 4\n", missing],
    )?;
    shows(
        &rt,
        heap,
        b"QL\t1\nT\tb\nM\t0\t0\t0\nE\t1\t1",
        &[">>> E\\t1\\t1\n", unended],
    )?;
    shows(
        &rt,
        heap,
        b"QL\t1\nT\tb\nM\t0\t0\t0\nE\t1\t2\n",
        &["at line 4\n", counts],
    )
}

#[test]
fn damaged_terms(rt: HostRuntime) -> Result<(), Fail> {
    let heap = rt.alloc();
    let unfinished = "the term is not finished: what is missing is shown as ?\n";
    let half = b"QL\t1\nT\tb\nM\ti\t0\t7\nM\tv\t3\t0\nE\t1\t2\n";
    shows(
        &rt,
        heap,
        half,
        &["  if (free 3) then ? else ?\n", unfinished, "  ?\n"],
    )?;
    shows(
        &rt,
        heap,
        b"QL\t1\nT\t>\nM\tg\t9\t0\nE\t1\t1\n",
        &["(gate 9)", "? -> ?\n"],
    )?;
    shows(
        &rt,
        heap,
        b"QL\t1\nM\tq\t4\t0\nE\t0\t1\n",
        &["  |4>\n", ">>>    0     2  q 4 "],
    )
}

// A program of so many functions, one in the other, whose body is the outermost variable.
fn functions(heap: Global, count: u16) -> Result<String, AllocError> {
    let mut text = String::from_str(heap, "QL\t1\n")?;
    for _kind in 0..count {
        text.push_str("T\t>\nT\tb\n")?;
    }
    text.push_str("T\tb\n")?;
    for at in 0..count {
        let claim = at.saturating_mul(2);
        text.push_str(format!(in heap; "M\tl\t0\t{claim}\n")?.as_str())?;
    }
    let outer = count.saturating_sub(1);
    let claim = count.saturating_mul(2);
    let kinds = claim.saturating_add(1);
    let ops = count.saturating_add(1);
    text.push_str(format!(in heap; "M\tv\t{outer}\t{claim}\nE\t{kinds}\t{ops}\n")?.as_str())?;
    Ok(text)
}

#[test]
fn names_of_binders(rt: HostRuntime) -> Result<(), Fail> {
    let heap = rt.alloc();
    let last = "      13    44  l       fun e. x  ";
    let next = "      14    47  l       fun x14. x  ";
    let most = "      31    98  l       fun x31. x  ";
    let marked = ">>>   32   101  l       fun x32. x  ";
    shows(
        &rt,
        heap,
        functions(heap, 14)?.as_bytes(),
        &[last, "accepted: "],
    )?;
    shows(
        &rt,
        heap,
        functions(heap, 15)?.as_bytes(),
        &[next, "accepted: "],
    )?;
    shows(
        &rt,
        heap,
        functions(heap, 32)?.as_bytes(),
        &[most, "accepted: "],
    )?;
    shows(
        &rt,
        heap,
        functions(heap, 33)?.as_bytes(),
        &[marked, "refused by 24 at cell 32"],
    )
}
