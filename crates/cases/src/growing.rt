//! A step to a term of exactly 1,024 cells, and one that would make more.

use crate::making::{KIND_MARK, MARK, add_word, front_of, kinds, starts_with, terms};
use checker::check as check_program;
use controller::Controller;
use registers::{Level, Register};
use std::alloc::{AllocError, Global};
use std::process::Abort;
use std::test::Fail;

// The function that passes its bit through so many identities: with claims, or as it runs.
fn long_function(heap: Global, identities: usize, claims: bool) -> Result<String, AllocError> {
    let (head, link, last) = if claims {
        ("l.1 ", "a.3 l.2 v.3 ", "v.3 ")
    } else {
        ("l ", "a l v ", "v ")
    };
    let links = link.repeat(heap, identities)?;
    format!(in heap; "{head}{}{last}", links.as_str())
}

// The cell of the type of the pair that stands after so many zeros.
fn pair_at(zeros: usize) -> usize {
    zeros.wrapping_mul(2).wrapping_add(5)
}

// The start of the term <0, <0, ..>>, with so many zeros.
fn zeros_in_front(heap: Global, zeros: usize) -> Result<String, AllocError> {
    let mut text = String::new(heap);
    for i in 0..zeros {
        add_word(&mut text, "p", pair_at(i))?;
        text.push_str("0.3 ")?;
    }
    Ok(text)
}

// The types and the term of (fun f. <0, <0, .. <f, <f, f>>>>) long, with so many zeros.
fn program(heap: Global, identities: usize, zeros: usize) -> Result<(String, String), AllocError> {
    let pairs = "*b".repeat(heap, zeros)?;
    let types = format!(in heap; ">!>bb{}*>bb*>bb>bb", pairs.as_str())?;
    let front = zeros_in_front(heap, zeros)?;
    let at = pair_at(zeros);
    let long = long_function(heap, identities, true)?;
    let text = format!(in heap;
        "a.5 l {}p.{at} v.2 p.{} v.2 v.2 {}",
        front.as_str(),
        at.wrapping_add(4),
        long.as_str()
    )?;
    Ok((types, text))
}

// The term that the program steps to.
fn grown(heap: Global, identities: usize, zeros: usize) -> Result<String, AllocError> {
    let long = long_function(heap, identities, false)?;
    let long = long.as_str();
    let front = "p 0 ".repeat(heap, zeros)?;
    format!(in heap; "{}p {long}p {long}{long}", front.as_str())
}

// A program of so many identities and zeros, its cells, and those of the next term.
#[derive(Clone, Copy, Drop)]
struct Size {
    identities: usize,
    zeros: usize,
    loaded: usize,
    next: usize,
}

#[rattlefmt::skip]
const SIZES: &[Size] = &[
    Size { identities: 112, zeros: 3, loaded: 351, next: 1022 },
    Size { identities: 112, zeros: 4, loaded: 353, next: 1024 },
    Size { identities: 113, zeros: 0, loaded: 348, next: 1025 },
    Size { identities: 112, zeros: 5, loaded: 355, next: 1026 },
    Size { identities: 150, zeros: 0, loaded: 459, next: 1358 },
];

// The step is accepted, and its term is a value.
fn grows(
    rt: &impl Abort,
    heap: Global,
    controller: &mut Controller<Level>,
    due: &str,
    case: &str,
) -> Result<(), Fail> {
    let due = terms(heap, due)?;
    let mut work = [MARK; 1024];
    assert_eq!(rt; controller.step(&mut work)?, due.len(), "{case}");
    starts_with(rt, &work, due.as_slice(), MARK, case)?;
    let mut value = [MARK; 1024];
    let counts = controller.collect(&mut value, &mut [KIND_MARK; 64])?;
    assert_eq!(rt; counts.0, due.len(), "{case}");
    starts_with(rt, &value, due.as_slice(), MARK, case)
}

// The step with a work table of so many cells is refused by a number, and nothing is written.
fn is_refused(
    rt: &impl Abort,
    controller: &mut Controller<Level>,
    room: usize,
    number: u16,
    case: &str,
) -> Result<(), Fail> {
    let mut work = [MARK; 1024];
    let answer = controller
        .step(front_of(&mut work, room))
        .map_err(|refusal| (refusal.fault.number(), refusal.place));
    assert_eq!(rt; answer, Err((number, 0)), "{case}");
    starts_with(rt, &work, &[], MARK, case)?;
    assert_eq!(rt; controller.register().pulses(), 3, "{case}");
    Ok(())
}

fn next_term(rt: &impl Abort, heap: Global, case: Size) -> Result<(), Fail> {
    let label = format!(in heap; "{} cells", case.next)?;
    let label = label.as_str();
    let (types, text) = program(heap, case.identities, case.zeros)?;
    let types = kinds(heap, types.as_str())?;
    let text = terms(heap, text.as_str())?;
    let program = check_program(types.as_slice(), text.as_slice())?;
    let mut controller = Controller::new(Level::new(8, 3));
    assert_eq!(rt; controller.load(&program)?, case.loaded, "{label}");
    let due = grown(heap, case.identities, case.zeros)?;
    assert_eq!(rt; terms(heap, due.as_str())?.len(), case.next, "{label}");
    if case.next <= 1024 {
        return grows(rt, heap, &mut controller, due.as_str(), label);
    }
    is_refused(rt, &mut controller, 1024, 37, label)?;
    is_refused(rt, &mut controller, 1023, 34, label)?;
    is_refused(rt, &mut controller, 1024, 37, label)
}

#[test]
fn next_terms(rt: HostRuntime) -> Result<(), Fail> {
    for case in SIZES {
        next_term(&rt, rt.alloc(), *case)?;
    }
    Ok(())
}
