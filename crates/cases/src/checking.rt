//! Programs, checked: accepted, or refused by a number at a cell.

use crate::making::{add_word, kinds, terms};
use checker::check as check_program;
use std::alloc::{AllocError, Global};
use std::process::Abort;
use std::test::Fail;

// The number and the cell of a refusal, or nothing where the program is accepted.
type Verdict = Option<(u16, usize)>;

fn judged(heap: Global, types: &str, cells: &str) -> Result<Verdict, AllocError> {
    let types = kinds(heap, types)?;
    let cells = terms(heap, cells)?;
    Ok(match check_program(types.as_slice(), cells.as_slice()) {
        Ok(_) => None,
        Err(fault) => Some((fault.number(), fault.cell)),
    })
}

// The types of a program, its term, and the verdict.
#[derive(Drop)]
struct Case<'a>(&'a str, &'a str, Verdict);

#[rattlefmt::skip]
const WORKED: &[Case] = &[
    // fun x. <x, x>
    Case(">q*qq", "l p.2 v.3 v.4", Some((27, 1))),
    Case(">b*bb", "l p.2 v.3 v.4", Some((27, 1))),
    Case(">!b*bb", "l p.3 v.4 v.5", None),
    // fun x. fun y. x
    Case(">q!>bq", "l l.2 v1.5", Some((28, 1))),
    // fun x. if 0 then x else x
    Case(">qqb", "l i.2 0.3 v.2 v.2", None),
    // fun x. x, from a duplicable bit to a bit and back
    Case(">!bb", "l v.3", None),
    Case(">b!b", "l v.2", Some((26, 1))),
    // No term.
    Case("", "", Some((22, 0))),
    Case("b", "", Some((22, 0))),
];

#[rattlefmt::skip]
const TABLES: &[Case] = &[
    Case("bz", "0", Some((21, 1))),
    Case("b", "x", Some((21, 0))),
    Case("b", "q", Some((21, 0))),
    Case("b", "q31", Some((21, 0))),
    Case("b", "01", Some((21, 0))),
    Case("b", "a n s7", Some((21, 2))),
    Case("b", "g8", Some((21, 0))),
    Case("b", "l1 v", Some((21, 0))),
    Case("b>b", "0", Some((22, 0))),
    Case("!", "0", Some((22, 0))),
    Case("b", "a n", Some((22, 0))),
    Case("b", "0 0", Some((22, 1))),
    Case("b", "a n 0 s s", Some((22, 3))),
    Case("b", "0.1", Some((23, 0))),
    Case("", "0", Some((23, 0))),
    Case(">bb", "l v.9", Some((23, 1))),
    // Types before terms within a number, and rising numbers.
    Case("bz", "x", Some((21, 1))),
    Case("!", "a x", Some((21, 1))),
    Case("z", "a n", Some((21, 0))),
    Case("!", "0 0", Some((22, 0))),
    Case("b", "0.9 0.9", Some((22, 1))),
    Case("b", "a v7 0.9", Some((23, 2))),
    Case("b", "a.5 v7 0.9", Some((23, 0))),
    Case("b", "p.9 q 0", Some((21, 1))),
];

#[rattlefmt::skip]
const RULES: &[Case] = &[
    // Variables.
    Case("b", "v", Some((25, 0))),
    Case("b", "v65535", Some((25, 0))),
    Case(">bb", "l v1.2", Some((25, 1))),
    Case(">bq", "l v.2", Some((26, 1))),
    Case(">bb", "l v.2", None),
    // Applications.
    Case("b>bb", "a l.1 v.3 0.2", None),
    Case("b>bb!>bb", "a l.4 v.7 0", Some((26, 0))),
    Case("b>bbq", "a l.1 v.3 0.4", Some((26, 0))),
    Case("b>bbq", "a.4 l.1 v.3 0", Some((26, 0))),
    Case("b>bb!b", "a l.1 v.3 0.4", Some((26, 0))),
    Case("b", "a 0 0", Some((26, 0))),
    // Functions.
    Case("b", "l v", Some((26, 0))),
    Case(">bbq", "l v.3", Some((26, 0))),
    Case(">!bb", "l v.1", Some((26, 0))),
    Case("!>qq", "l v.3", None),
    // Pairs.
    Case("*bb", "p 0.1 1.2", None),
    Case("*bb", "p.1 0.1 1.1", Some((26, 0))),
    Case("*bbq", "p 0.1 1.3", Some((26, 0))),
    Case("*bbq", "p 0.3 1.1", Some((26, 0))),
    Case("!*bb!b", "p 0.4 1.4", None),
    Case("!*bb!b", "p 0.2 1.2", Some((26, 0))),
    Case("!!*bb!!b", "p 0.5 1.5", None),
    Case("!!*bb!!b", "p 0.6 1.6", Some((26, 0))),
    Case("!*!bb!!b!b", "p 0.5 1.8", None),
    Case("!*!bb!!b!b", "p 0.8 1.8", Some((26, 0))),
    // Pairs taken apart: the right component is variable 0.
    Case("*bbb", "d.3 p 0.1 1.2 v.3", None),
    Case("*bbbq", "d.4 p 0.1 1.2 v.3", Some((26, 0))),
    Case("b", "d 0 0", Some((26, 0))),
    Case(">*bqb", "l d.4 v.1 v1.4", None),
    Case(">*bqb", "l d.4 v.1 v.4", Some((26, 3))),
    Case("!*bb!b*bb", "d.6 p 0.4 0.4 p.6 v.7 v.8", None),
    Case("*bb*bb", "d.3 p 0.1 0.2 p.3 v.4 v.5", Some((27, 4))),
    Case("*bb*bb", "d.3 p 0.1 0.2 p.3 v1.4 v.5", None),
    // Conditions.
    Case("b!b", "i 0 0 0", None),
    Case("b!b", "i 0.1 0 0", Some((26, 0))),
    Case("b!b", "i 0 0.1 0", Some((26, 0))),
    Case("b!b", "i 0 0 0.1", Some((26, 0))),
    Case("b!b", "i.1 0 0.1 0.1", None),
    // A variable in two parts.
    Case(">qq", "l a.2 l v1.2 v.1", Some((27, 1))),
    Case(">qq", "l a.2 l v.2 v.1", None),
    Case(">q*qq*qb", "l d.2 p.5 v.6 0.7 p.2 v2.3 v1.4", Some((27, 1))),
    Case(">bb", "l i.2 v.1 v.2 0.2", Some((27, 1))),
    Case(">bb", "l i.2 v.1 0.2 v.2", Some((27, 1))),
    Case(">bb", "l i.2 v.1 0.2 0.2", None),
    Case(">bb", "l i.2 0.2 0.2 v.2", None),
    // A duplicable function and what it uses.
    Case(">q!!>bq", "l l.2 v1.6", Some((28, 1))),
    Case(">!q!>bq", "l l.3 v1.6", None),
    Case(">q>bq", "l l.2 v1.4", None),
    Case(">q!>b>bq", "l l.2 l.5 v2.7", Some((28, 1))),
    Case(">q>b!>bq", "l l.2 l.4 v2.7", Some((28, 2))),
    // Of two faults: a cell's claims before what is inside, its variables after it, the left part
    // before the right.
    Case("b", "a v v", Some((26, 0))),
    Case(">q*qqb", "l.5 p.2 v.3 v.4", Some((26, 0))),
    Case(">q!>b*qq", "l l.2 p.5 v1.6 v1.7", Some((27, 2))),
    Case(">q*!>bqq", "l p.2 l.3 v1.6 v.7", Some((28, 2))),
    Case(">q**qqb", "l p.2 p.3 v.4 v.5 s.6", Some((27, 2))),
    Case(">q*bq", "l p.2 v.3 v.4", Some((26, 2))),
    Case(">q*qb", "l p.2 v.3 v.4", Some((26, 3))),
    Case("*bb", "p v9.1 s.2", Some((25, 1))),
    Case("*bb", "p s.1 v9.2", Some((26, 1))),
    Case(">q!>bb", "l l.2 v1.5", Some((26, 2))),
    Case(">q**qqb", "l p.2 p.3 v.4 v.5 v9.6", Some((27, 2))),
    Case(">q!>b*qb", "l l.2 p.5 v1.6 v9.7", Some((25, 4))),
];

fn judge(rt: &impl Abort, heap: Global, cases: &[Case]) -> Result<(), Fail> {
    for case in cases {
        assert_eq!(rt;
            judged(heap, case.0, case.1)?,
            case.2,
            "{}; {}",
            case.0,
            case.1
        );
    }
    Ok(())
}

#[test]
fn programs(rt: HostRuntime) -> Result<(), Fail> {
    judge(&rt, rt.alloc(), WORKED)?;
    judge(&rt, rt.alloc(), TABLES)?;
    judge(&rt, rt.alloc(), RULES)
}

// Two types, and whether the first is a subtype of the second.
#[rattlefmt::skip]
const SUBTYPES: &[(&str, &str, bool)] = &[
    ("b", "b", true), ("q", "q", true), ("u", "u", true), ("q", "b", false),
    ("u", "q", false), (">bb", "*bb", false), ("b", "*bb", false),
    ("!b", "b", true), ("b", "!b", false), ("!b", "!!b", true), ("!!b", "!b", true),
    ("!!b", "b", true), ("b", "!!b", false), ("!u", "q", false),
    ("*bq", "*bq", true), ("*bq", "*qb", false), ("*!bb", "*bb", true),
    ("*bb", "*!bb", false), ("*b!b", "*bb", true), ("*bb", "*b!b", false),
    ("!*bb", "*bb", true), ("*bb", "!*bb", false), ("!*bb", "*!b!b", false),
    ("*!b!b", "!*bb", false), ("*!!b!q", "*!!!bq", true),
    (">bb", ">bb", true), (">b!b", ">bb", true), (">bb", ">b!b", false), (">bb", ">!bb", true),
    (">!bb", ">bb", false), ("!>bb", ">bb", true), (">bb", "!>bb", false),
    (">>!bbb", ">>bbb", true), (">>bbb", ">>!bbb", false), ("!!>!!b!b", "!>!b!!b", true),
    ("*>bb>bb", "*>!bb>!bb", true), (">*bbb", ">*!b!bb", true), (">*!bbb", ">*bbb", false),
];

// Constants, the types that they claim, and whether they may.
#[rattlefmt::skip]
const CONSTANTS: &[(&str, &str, bool)] = &[
    ("0", "b", true), ("0", "!b", true), ("0", "!!b", true), ("0", "q", false),
    ("0", "u", false), ("1", "b", true), ("1", "!!!b", true), ("1", "*bb", false),
    ("n", ">bq", true), ("n", "!>bq", true), ("n", "!!>bq", true), ("n", ">!bq", true),
    ("n", ">b!q", false), ("n", ">qb", false), ("n", ">qq", false), ("n", "q", false),
    ("m", ">qb", true), ("m", ">q!b", true), ("m", "!>q!b", true), ("m", ">q!!b", true),
    ("m", ">!qb", true), ("m", ">bb", false), ("m", ">qq", false),
    ("g", ">qq", true), ("g1", "!>qq", true), ("g2", ">!qq", true), ("g3", ">q!q", false),
    ("g4", ">qq", true), ("g4", ">*qq*qq", false), ("g", ">bb", false),
    ("g5", ">*qq*qq", true), ("g6", "!>*qq*qq", true), ("g5", ">qq", false),
    ("g6", ">!*qq*qq", true), ("g5", ">*!qq*qq", true),
    ("g5", ">*qq!*qq", false), ("g6", ">*qq*q!q", false),
    ("g7", ">*q*qq*q*qq", true), ("g7", ">**qqq**qqq", false), ("g7", ">*qq*qq", false),
    ("g7", "!>*!q*qq*q*qq", true), ("g7", ">*q*qq!*q*qq", false),
    ("s", "u", true), ("s", "!u", true), ("s", "!!!u", true),
    ("s", "b", false), ("s", "!b", false), ("s", "*uu", false),
];

#[test]
fn claims(rt: HostRuntime) -> Result<(), Fail> {
    let heap = rt.alloc();
    for (from, to, is_subtype) in SUBTYPES {
        let types = format!(in heap; ">{from}{to}")?;
        let body = from.len().wrapping_add(1);
        let want = (!*is_subtype).then_some((26, 1));
        let cells = format!(in heap; "l v.{body}")?;
        assert_eq!(rt;
            judged(heap, types.as_str(), cells.as_str())?,
            want,
            "{}",
            types.as_str()
        );
    }
    for (constant, claim, may) in CONSTANTS {
        let want = (!*may).then_some((26, 0));
        assert_eq!(rt;
            judged(heap, *claim, *constant)?,
            want,
            "{}; {}",
            *claim,
            *constant
        );
    }
    Ok(())
}

// So many functions within each other, all of bits, the innermost body, and the verdict. The type
// of that body stands at twice the number of functions, and after it a pair of bits, a qubit and a
// function whose argument is a duplicable function.
#[rattlefmt::skip]
const NESTED: &[(usize, &str, Verdict)] = &[
    (32, "v31.64", None),
    (32, "v32.64", Some((25, 32))),
    (33, "v.66", Some((24, 32))),
    (33, "v99.70", Some((24, 32))),
    (40, "v.80", Some((24, 32))),
    (30, "d.60 p.61 0.62 0.63 v31.60", None),
    (30, "d.60 p.61 0.62 0.63 v32.60", Some((25, 34))),
    (31, "d.62 p.63 0.64 0.65 v.62", Some((24, 31))),
    (31, "d.62 v40.64 v.62", Some((24, 31))),
    (32, "d.64 p.65 0.66 0.67 v.64", Some((24, 32))),
    (31, "l.63 v.62", Some((26, 30))),
    (32, "l.68 v.64", Some((26, 31))),
    (2, "l.8 v.4", Some((26, 1))),
    // The last function's variable in two parts, and in a duplicable function: tested later.
    (32, "a.64 l.62 v1.64 v.64", Some((24, 33))),
    (31, "a.62 l.67 0.62 l.68 a.62 l.69 v2.62 0.62", Some((24, 36))),
];

// The types and the cells of so many functions within each other.
fn nested(heap: Global, functions: usize, body: &str) -> Result<(String, String), AllocError> {
    let mut types = ">b".repeat(heap, functions)?;
    types.push_str("b*bbq>!>bbb")?;
    let mut cells = String::new(heap);
    for i in 0..functions {
        add_word(&mut cells, "l", i.wrapping_mul(2))?;
    }
    cells.push_str(body)?;
    Ok((types, cells))
}

// Tables of one letter: how many type cells of a kind, how many term cells of an op.
#[rattlefmt::skip]
const LONG: &[(&str, usize, &str, usize, Verdict)] = &[
    ("b", 256, "0 ", 1, None),
    ("b", 257, "0 ", 1, Some((20, 256))),
    ("b", 257, "0 ", 513, Some((20, 256))),
    ("z", 257, "x ", 1, Some((20, 256))),
    ("z", 1, "x ", 513, Some((20, 512))),
    ("z", 256, "x ", 512, Some((21, 0))),
    ("b", 256, "l ", 512, Some((22, 0))),
    ("b", 256, "0 ", 512, Some((22, 1))),
    ("!", 256, "0 ", 512, Some((22, 0))),
    ("b", 0, "0 ", 600, Some((20, 512))),
];

#[test]
fn depths_and_lengths(rt: HostRuntime) -> Result<(), Fail> {
    let heap = rt.alloc();
    for (functions, body, want) in NESTED {
        let (types, cells) = nested(heap, *functions, *body)?;
        assert_eq!(rt;
            judged(heap, types.as_str(), cells.as_str())?,
            *want,
            "{}",
            *body
        );
    }
    for (kind, kinds, op, ops, want) in LONG {
        let types = kind.repeat(heap, *kinds)?;
        let cells = op.repeat(heap, *ops)?;
        assert_eq!(rt;
            judged(heap, types.as_str(), cells.as_str())?,
            *want,
            "{kinds} of {kind}, {ops} of {op}"
        );
    }
    Ok(())
}
