//! Shows how checks and steps grow with the size of a term: the time for each at doubled sizes, and
//! its ratio to the time at the size before. The times go to standard error, since they differ from
//! run to run.
#![tactic(auto)]

use anyhow::{bail, ensure};
use calculus::{MOST_RUNNING_CELLS, TermCell, TypeCell};
use checker::check;
use finder::find;
use std::alloc::{AllocError, Global};
use std::time::Instant;
use stepper::{Answer, next, put_next};

/// How often each call is timed; the shortest time counts.
const REPEATS: u32 = 400;

fn cell(op: char) -> TermCell {
    TermCell {
        op,
        ..TermCell::default()
    }
}

// Conditions within conditions: so many `i` cells, a bit, and two branches for each, three cells a
// layer and one.
fn conditions(heap: Global, layers: usize) -> Result<Vec<TermCell>, AllocError> {
    let mut cells = vec![in heap; cell('i'); layers]?;
    cells.push(cell('0'))?;
    cells.extend_from_slice(&[cell('1'), cell('0')].repeat(heap, layers)?)?;
    Ok(cells)
}

// The shortest time of a call, which is made again and again, in nanoseconds.
fn shortest<F: FnMut() -> anyhow::Result<()>>(rt: &HostRuntime, mut call: F) -> anyhow::Result<u128>
    requires { F.IsAlwaysCallable call }
{
    let mut shortest = u128::MAX;
    for _ in 0..REPEATS {
        let start = Instant::now(rt)?;
        call()?;
        shortest = shortest.min(start.elapsed(rt)?.as_nanos());
    }
    Ok(shortest)
}

// A check of cells that all claim a bit.
fn check_bits(cells: &[TermCell]) -> anyhow::Result<()> {
    ensure!(
        check(&[TypeCell { kind: 'b' }], cells).is_ok(),
        "the conditions are not accepted"
    );
    Ok(())
}

// A step on the cells: the rule found, the next term counted and then written.
fn step(cells: &[TermCell], work: &mut [TermCell]) -> anyhow::Result<()> {
    let Ok(Some((rule, at))) = find(cells) else {
        bail!("the conditions have no step");
    };
    ensure!(
        next(cells, rule, at, Answer::Nothing, &mut []).is_some()
            && put_next(cells, rule, at, Answer::Nothing, work).is_some(),
        "the next term is too long"
    );
    Ok(())
}

// One line: the size, the time and, after the first, its ratio to the time before in hundredths.
fn report(
    rt: &HostRuntime,
    what: &str,
    size: usize,
    time: u128,
    before: Option<u128>,
) -> anyhow::Result<()> {
    match before.and_then(|before| time.saturating_mul(100).checked_div(before)) {
        Some(ratio) => eprintln!(rt;
            "{what} {size} cells: {time} ns, {ratio} hundredths of the size before"
        )?,
        None => eprintln!(rt; "{what} {size} cells: {time} ns")?,
    }
    Ok(())
}

fn main(rt: HostRuntime) -> anyhow::Result<()> {
    let heap = rt.alloc();
    let mut work = vec![in heap; cell('s'); MOST_RUNNING_CELLS]?;
    let mut before = None;
    for layers in [21, 42, 85, 170] {
        let cells = conditions(heap, layers)?;
        let time = shortest(&rt, || check_bits(&cells))?;
        report(&rt, "check", cells.len(), time, before)?;
        before = Some(time);
    }
    before = None;
    for layers in [21, 42, 85, 170, 341] {
        let cells = conditions(heap, layers)?;
        let time = shortest(&rt, || step(&cells, &mut work))?;
        report(&rt, "step", cells.len(), time, before)?;
        before = Some(time);
    }
    Ok(())
}
