//! Prefix trees of type cells and of term cells, unfinished ones too.

use crate::making::{KIND_MARK, MARK, front_of, kinds, starts_with, terms};
use calculus::{is_allowed, kind_parts};
use std::process::Abort;
use std::test::Fail;
use trees::{Cell, copy, count, first_failing, reach};

// Cells, the start of a tree in them, one past its end, how many trees all the cells are, and the
// first cell with an unknown letter.
#[derive(Drop)]
struct Case<'a> {
    text: &'a str,
    at: usize,
    end: Option<usize>,
    trees: Option<usize>,
    failing: Option<usize>,
}

// The copy that is wanted: the tree's cells, if it ends and the table has room.
fn copied(case: &Case, room: usize) -> Option<usize> {
    let len = case.end?.checked_sub(case.at)?;
    (len <= room).then_some(len)
}

// Copies the tree into the front of a marked table.
fn copies<T: Cell + PartialEq + Drop>(
    rt: &impl Abort,
    cells: &[T],
    table: &mut [T],
    room: usize,
    mark: T,
    case: &Case,
) -> Result<(), Fail> {
    for cell in table.iter_mut() {
        *cell = mark;
    }
    let want = copied(case, room);
    let got = copy(cells, case.at, front_of(table, room));
    assert_eq!(rt; got, want, "{}", case.text);
    let written = want.unwrap_or(0).min(cells.len());
    let start = case.at.min(cells.len() - written);
    let front = &cells[start..start + written];
    starts_with(rt, table, front, mark, case.text)
}

// Asks every question about the cells of a case, and copies the tree into every front of a table
// but the whole.
fn examine<T: Cell + PartialEq + Drop>(
    rt: &impl Abort,
    cells: &[T],
    table: &mut [T],
    mark: T,
    case: &Case,
) -> Result<(), Fail> {
    assert_eq!(rt; reach(cells, case.at), case.end, "{}", case.text);
    assert_eq!(rt; count(cells), case.trees, "{}", case.text);
    for room in 0..table.len() {
        copies(rt, cells, table, room, mark, case)?;
    }
    Ok(())
}

#[rattlefmt::skip]
const TYPES: &[Case] = &[
    Case { text: "", at: 0, end: None, trees: Some(0), failing: None },
    Case { text: "b", at: 0, end: Some(1), trees: Some(1), failing: None },
    Case { text: "b", at: 1, end: None, trees: Some(1), failing: None },
    Case { text: "b", at: 9, end: None, trees: Some(1), failing: None },
    Case { text: "qub", at: 1, end: Some(2), trees: Some(3), failing: None },
    Case { text: "!", at: 0, end: None, trees: None, failing: None },
    Case { text: "!!q", at: 0, end: Some(3), trees: Some(1), failing: None },
    Case { text: "!!q", at: 1, end: Some(3), trees: Some(1), failing: None },
    Case { text: ">b", at: 0, end: None, trees: None, failing: None },
    Case { text: "b>b", at: 0, end: Some(1), trees: None, failing: None },
    Case { text: "b>b", at: 1, end: None, trees: None, failing: None },
    Case { text: ">*bq!>ub*", at: 0, end: Some(8), trees: None, failing: None },
    Case { text: ">*bq!>ub*qq", at: 1, end: Some(4), trees: Some(2), failing: None },
    Case { text: ">*bq!>ub*qq", at: 8, end: Some(11), trees: Some(2), failing: None },
    Case { text: "bz", at: 1, end: Some(2), trees: Some(2), failing: Some(1) },
    Case { text: ">zB", at: 0, end: Some(3), trees: Some(1), failing: Some(1) },
];

#[test]
fn trees_of_types(rt: HostRuntime) -> Result<(), Fail> {
    for case in TYPES {
        let cells = kinds(rt.alloc(), case.text)?;
        let failing = first_failing(cells.as_slice(), |cell| kind_parts(cell.kind).is_some());
        assert_eq!(rt; failing, case.failing, "{}", case.text);
        examine(&rt, cells.as_slice(), &mut [KIND_MARK; 12], KIND_MARK, case)?;
    }
    Ok(())
}

#[rattlefmt::skip]
const TERMS: &[Case] = &[
    Case { text: "", at: 0, end: None, trees: Some(0), failing: None },
    Case { text: "s", at: 0, end: Some(1), trees: Some(1), failing: None },
    Case { text: "v3 q31 g7", at: 2, end: Some(3), trees: Some(3), failing: None },
    Case { text: "l", at: 0, end: None, trees: None, failing: None },
    Case { text: "l v", at: 0, end: Some(2), trees: Some(1), failing: None },
    Case { text: "a n", at: 0, end: None, trees: None, failing: None },
    Case { text: "a n 0.4", at: 0, end: Some(3), trees: Some(1), failing: None },
    Case { text: "i 1 0", at: 0, end: None, trees: None, failing: None },
    Case { text: "i 1 0 p s", at: 0, end: None, trees: None, failing: None },
    Case { text: "i 1 0 p s s m", at: 0, end: Some(6), trees: Some(2), failing: None },
    Case { text: "i 1 0 p s s m", at: 3, end: Some(6), trees: Some(2), failing: None },
    Case { text: "d p 0 1 l v2 n", at: 0, end: Some(6), trees: Some(2), failing: None },
    Case { text: "d p 0 1 l v2 n", at: 4, end: Some(6), trees: Some(2), failing: None },
    Case { text: "s q32", at: 1, end: Some(2), trees: Some(2), failing: Some(1) },
    Case { text: "l1 x", at: 0, end: Some(2), trees: Some(1), failing: Some(0) },
    Case { text: "p g8 x", at: 0, end: Some(3), trees: Some(1), failing: Some(1) },
];

#[test]
fn trees_of_terms(rt: HostRuntime) -> Result<(), Fail> {
    for case in TERMS {
        let cells = terms(rt.alloc(), case.text)?;
        let failing = first_failing(cells.as_slice(), |cell| is_allowed(cell));
        assert_eq!(rt; failing, case.failing, "{}", case.text);
        examine(&rt, cells.as_slice(), &mut [MARK; 12], MARK, case)?;
    }
    Ok(())
}
