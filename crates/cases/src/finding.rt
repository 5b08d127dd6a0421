//! Running terms: the rule that applies and its cell, a value, or a refusal's number and cell.

use crate::making::terms;
use finder::{Rule, find};
use std::alloc::{AllocError, Global};
use std::process::Abort;
use std::test::Fail;

// The rule that applies and its cell, nothing for a value, or the number and the cell of a refusal.
type Found = Result<Option<(Rule, usize)>, (u16, usize)>;

fn look(heap: Global, text: &str) -> Result<Found, AllocError> {
    let cells = terms(heap, text)?;
    Ok(find(cells.as_slice()).map_err(|fault| (fault.number(), fault.cell)))
}

#[rattlefmt::skip]
const VALUES: &[&str] = &[
    "v", "v65535", "0", "1", "m", "n", "s", "g7", "q31",
    "l v", "l a n 0", "l a 0 1", "p 0 1", "p p q q1 l a 0 1", "p v l s",
];

#[rattlefmt::skip]
const REDEXES: &[(&str, Rule, usize)] = &[
    ("a l v 0", Rule::Function, 0),
    ("a l v l a n 0", Rule::Function, 0),
    ("a.9 l.500 v.65535 0.3", Rule::Function, 0),
    ("d p 0 1 v", Rule::Pair, 0),
    ("d p 0 1 a n 0", Rule::Pair, 0),
    ("i 1 0 1", Rule::Then, 0),
    ("i 0 0 1", Rule::Else, 0),
    ("i 1 a n 0 a 0 1", Rule::Then, 0),
    ("a n 0", Rule::Prepare, 0),
    ("a n 1", Rule::Prepare, 0),
    ("a m q31", Rule::Read, 0),
    ("a g q", Rule::Gates, 0),
    ("a g4 q7", Rule::Gates, 0),
    ("a g5 p q q1", Rule::Gates, 0),
    ("a g6 p q3 q3", Rule::Gates, 0),
    ("a g7 p q p q1 q2", Rule::Gates, 0),
    // The argument before the function, the left before the right, the pair, the condition.
    ("a l v a n 0", Rule::Prepare, 3),
    ("a a l l v 0 a n 0", Rule::Prepare, 6),
    ("a a l l v 0 0", Rule::Function, 1),
    ("a a 0 1 a n 0", Rule::Prepare, 4),
    ("p a n 0 a m q", Rule::Prepare, 1),
    ("p q a m q", Rule::Read, 2),
    ("d a l p v v 0 v", Rule::Function, 1),
    ("d p a n 0 1 a m q", Rule::Prepare, 2),
    ("i a m q a n 0 0", Rule::Read, 1),
    ("a l a n 0 p i 1 0 0 a n 0", Rule::Then, 6),
];

#[rattlefmt::skip]
const REFUSED: &[(&str, u16, usize)] = &[
    ("a 0 1", 36, 0), ("a v 0", 36, 0), ("a s 0", 36, 0), ("a q 0", 36, 0), ("a p 0 1 0", 36, 0),
    ("a n q", 36, 0), ("a n s", 36, 0), ("a n v", 36, 0),
    ("a n p 0 1", 36, 0), ("a m 0", 36, 0), ("a m p q q", 36, 0),
    ("a g 0", 36, 0), ("a g p q q", 36, 0), ("a g5 q", 36, 0),
    ("a g5 p q 0", 36, 0), ("a g6 p 0 q", 36, 0), ("a g5 p q p q q", 36, 0),
    ("a g7 p p q q1 q2", 36, 0), ("a g7 p q q1", 36, 0), ("a g7 q", 36, 0),
    ("d 0 v", 36, 0), ("d q s", 36, 0), ("d l v v", 36, 0), ("d v v", 36, 0),
    ("i q 0 1", 36, 0), ("i s 0 1", 36, 0), ("i l v 0 1", 36, 0),
    ("i v 0 1", 36, 0), ("i p 0 1 0 1", 36, 0),
    ("p 0 a 0 1", 36, 2), ("p a 0 1 a n 0", 36, 1), ("a a n 0 a 0 1", 36, 4),
    ("a a 0 1 0", 36, 1), ("i a 0 1 0 1", 36, 1), ("d a 0 1 v", 36, 1),
    ("x", 21, 0), ("a n x", 21, 2), ("q32", 21, 0), ("g8", 21, 0),
    ("01", 21, 0), ("l1 v", 21, 0), ("a1 n 0", 21, 0), ("p s q65535", 21, 2),
    ("", 22, 0), ("a n", 22, 0), ("l", 22, 0), ("i 0 1", 22, 0), ("0 1", 22, 1), ("a n 0 s", 22, 3),
    // The lower number first.
    ("0 x", 21, 1), ("a x", 21, 1), ("a 0 1 q32", 21, 3), ("a 0 1 s", 22, 3), ("a 0", 22, 0),
];

// So many cells of an op before a last cell.
#[rattlefmt::skip]
const LONG: &[(&str, usize, &str, Found)] = &[
    ("l ", 1023, "v", Ok(None)),
    ("l ", 1024, "v", Err((20, 1024))),
    ("x ", 1024, "v", Err((20, 1024))),
    ("l ", 1100, "v", Err((20, 1024))),
    ("x ", 1023, "v", Err((21, 0))),
    ("l ", 1023, "l", Err((22, 0))),
    ("s ", 1023, "q32", Err((21, 1023))),
    ("s ", 1023, "s", Err((22, 1))),
    ("p s ", 510, "a 0 1", Err((36, 1020))),
    ("p s ", 511, "a 0 1", Err((20, 1024))),
    ("p s ", 510, "a n 1", Ok(Some((Rule::Prepare, 1020)))),
];

fn finds(rt: &impl Abort, heap: Global, text: &str, want: Found) -> Result<(), Fail> {
    assert_eq!(rt; look(heap, text)?, want, "{text}");
    Ok(())
}

#[test]
fn rules(rt: HostRuntime) -> Result<(), Fail> {
    let heap = rt.alloc();
    for text in VALUES {
        finds(&rt, heap, *text, Ok(None))?;
    }
    for (text, rule, cell) in REDEXES {
        finds(&rt, heap, *text, Ok(Some((*rule, *cell))))?;
    }
    for (text, number, cell) in REFUSED {
        finds(&rt, heap, *text, Err((*number, *cell)))?;
    }
    Ok(())
}

#[test]
fn lengths(rt: HostRuntime) -> Result<(), Fail> {
    let heap = rt.alloc();
    for (op, times, last, want) in LONG {
        let mut text = op.repeat(heap, *times)?;
        text.push_str(*last)?;
        assert_eq!(rt; look(heap, text.as_str())?, *want, "{times} of {op}");
    }
    Ok(())
}
