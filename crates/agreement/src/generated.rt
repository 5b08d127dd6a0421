//! Generated programs: drawn by the typing rules, damaged, at the limits, and cells of any kind.

use crate::compare::{compare_checks, compare_finds, compare_shots};
use calculus::Gate;
use drafts::{
    Draft, applied_copies, binders, doublings, entangled, long_line, marks, pulses, rounds,
    split_copies, term_cells, turns, type_cells,
};
use samples::{Random, any_program, any_running, damage_cells, damage_text};
use std::io;
use tally::Tally;

// Compares the shot of a program, its check, and where its first step is.
fn compare_draft(tally: &mut Tally, draft: &Draft) -> io::Result<()> {
    let text = draft.text()?;
    compare_shots(tally, text.as_bytes())?;
    compare_checks(tally, draft)?;
    compare_finds(tally, &draft.terms)
}

/// Compares programs that follow the typing rules, and careless ones.
pub fn compare_drawn(tally: &mut Tally, random: &mut Random) -> io::Result<()> {
    for i in 0..2000 {
        let draft = any_program(tally.heap(), random, i % 5 == 0)?;
        compare_draft(tally, &draft)?;
    }
    Ok(())
}

// Compares a program with changed cells.
fn compare_changed_cells(tally: &mut Tally, random: &mut Random) -> io::Result<()> {
    let mut draft = any_program(tally.heap(), random, false)?;
    damage_cells(random, &mut draft)?;
    compare_draft(tally, &draft)
}

// Compares a program with a changed text.
fn compare_changed_text(tally: &mut Tally, random: &mut Random) -> io::Result<()> {
    let text = any_program(tally.heap(), random, false)?.text()?;
    let text = damage_text(tally.heap(), random, text.as_bytes())?;
    compare_shots(tally, &text)?;
    Ok(())
}

/// Compares programs with changed cells, and with changed texts.
pub fn compare_damaged(tally: &mut Tally, random: &mut Random) -> io::Result<()> {
    for _ in 0..800 {
        compare_changed_cells(tally, random)?;
        compare_changed_text(tally, random)?;
    }
    Ok(())
}

/// Compares so many programs. Of ten, five follow the typing rules and one is careless; two have
/// changed cells, and two a changed text.
pub fn compare_many(tally: &mut Tally, random: &mut Random, count: usize) -> io::Result<()> {
    for i in 0..count {
        match i % 10 {
            6 | 7 => compare_changed_cells(tally, random)?,
            8 | 9 => compare_changed_text(tally, random)?,
            place => {
                let draft = any_program(tally.heap(), random, place == 0)?;
                compare_draft(tally, &draft)?;
            }
        }
    }
    Ok(())
}

// Compares nested binders at their limit.
fn compare_binders(tally: &mut Tally) -> io::Result<()> {
    let heap = tally.heap();
    for functions in 28..36 {
        compare_draft(tally, &binders(heap, functions, None)?)?;
        for index in 27..36 {
            compare_draft(tally, &binders(heap, functions, Some(index))?)?;
        }
    }
    Ok(())
}

// Compares tables, terms, marks and nested binders at their limits.
fn compare_sizes(tally: &mut Tally) -> io::Result<()> {
    let heap = tally.heap();
    for cells in 254..259 {
        compare_draft(tally, &type_cells(heap, cells)?)?;
        compare_draft(tally, &marks(heap, cells)?)?;
    }
    for bytes in 16_382..16_388 {
        compare_shots(tally, long_line(heap, bytes)?.as_bytes())?;
    }
    for cells in 508..516 {
        compare_draft(tally, &term_cells(heap, cells)?)?;
    }
    compare_binders(tally)
}

// Compares runs that meet the limits of a running term, of pulses, of live qubits and of steps.
fn compare_runs(tally: &mut Tally) -> io::Result<()> {
    let heap = tally.heap();
    for cells in 30..35 {
        for times in 30..34 {
            compare_draft(tally, &applied_copies(heap, times, cells)?)?;
            compare_draft(tally, &split_copies(heap, times, cells)?)?;
        }
    }
    for spent in 60..70 {
        compare_draft(tally, &pulses(heap, spent)?)?;
    }
    for held in 0..11 {
        for times in 0..12 {
            compare_draft(tally, &rounds(heap, held, 3 * times)?)?;
        }
    }
    for gate in [Gate::Cnot, Gate::Swap, Gate::Toffoli] {
        compare_draft(tally, &entangled(heap, gate)?)?;
    }
    Ok(())
}

/// Compares programs that meet a limit, and that pass it.
pub fn compare_limits(tally: &mut Tally) -> io::Result<()> {
    let heap = tally.heap();
    compare_sizes(tally)?;
    compare_runs(tally)?;
    for depth in 1..10 {
        compare_draft(tally, &doublings(heap, 1, depth, 0)?)?;
        compare_draft(tally, &turns(heap, depth)?)?;
    }
    for more in 64..74 {
        compare_draft(tally, &doublings(heap, 7, 6, more)?)?;
    }
    Ok(())
}

/// Compares the checks of tables about the reader's limit and past it. A file never comes to the
/// fault of a longer one, since the reader refuses the line past the limit.
pub fn compare_long_tables(tally: &mut Tally) -> io::Result<()> {
    let heap = tally.heap();
    for cells in 510..520 {
        let mut draft = term_cells(heap, cells)?;
        compare_checks(tally, &draft)?;
        draft.kinds(&"b".repeat(heap, 260)?)?;
        compare_checks(tally, &draft)?;
    }
    Ok(())
}

/// Compares where the next step of any cells is.
pub fn compare_running(tally: &mut Tally, random: &mut Random) -> io::Result<()> {
    let heap = tally.heap();
    for i in 0..3000 {
        let cells = any_running(heap, random, 4 + i % 60)?;
        compare_finds(tally, &cells)?;
    }
    for cells in 1022..1028 {
        let long = term_cells(heap, cells)?;
        compare_finds(tally, &long.terms)?;
    }
    Ok(())
}
