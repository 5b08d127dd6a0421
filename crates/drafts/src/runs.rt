//! Programs whose runs meet a limit, pass it by little, or lead through much: copies, pulses, live
//! qubits and steps.

ghost use Rattle.std.specs.Prelude.{◌≡◌, [], ◌++◌, ◌+◌, ◌*◌, vec_len, IfOk, OnOk};
ghost use Rattle.calculus.specs.Terms.{app, lam, pair, let_pair};
ghost use Rattle.calculus.specs.Cells.{placed_cells};
ghost use Rattle.drafts.specs.Counts.{function_count};
ghost use Rattle.drafts.specs.Limits.{table, pair_types, used, padded_function, zero_bit};
ghost use Rattle.drafts.specs.Runs.{applications, pulse_types, pulsed, round_types, rounds_term};
ghost use Rattle.drafts.specs.Runs.{held_qubits, reread_bit, doubling_types, doubled_identity};
ghost use Rattle.drafts.specs.Runs.{doublings_term, turn_types, negated, turned_negation};
ghost use Rattle.drafts.specs.Runs.{turning_function, turns_term};
ghost use Rattle.drafts.specs.Runs.{entangled_types, reader, entangled_term};

use crate::draft::Draft;
use crate::limits::{common, padded, wrap};
use calculus::Gate;
use std::alloc::{AllocError, Global};

// The table of programs that put a function into another's body: shared types, and !(b>b)*b at 17.
fn with_pair(heap: Global) -> Result<Draft, AllocError>
    ensures types { IfOk result (λ draft. draft.types.items ≡ table pair_types) }
    ensures terms { IfOk result (λ draft. draft.terms.items ≡ []) }
{
    let mut draft = common(heap)?;
    draft.kinds("*!>bbb")?;
    Ok(draft)
}

// A bit through so many uses of a variable that is a function.
fn uses(draft: &mut Draft, times: usize, index: u16) -> Result<(), AllocError>
    ensures terms { OnOk result (draft.new.terms.items
        ≡ draft.old.terms.items ++ placed_cells (used index times)) }
    ensures types { draft.new.types ≡ draft.old.types }
{
    for _ in 0..times {
        draft.cells(&[('a', 0, 0), ('v', index, 1)])?;
    }
    draft.cell('0', 0, 0)
}

// A function of so many cells.
fn function(draft: &mut Draft, cells: usize) -> Result<(), AllocError>
    ensures terms { OnOk result (draft.new.terms.items
        ≡ draft.old.terms.items ++ placed_cells (padded_function cells)) }
    ensures types { draft.new.types ≡ draft.old.types }
{
    draft.cell('l', 0, 7)?;
    padded(draft, cells.saturating_sub(1))
}

/// A function of so many cells that an application puts so many times into another's body. The term
/// after that step has one cell more than the product of the times and one more than the cells.
pub fn applied_copies(heap: Global, times: usize, cells: usize) -> Result<Draft, AllocError>
    ensures count { IfOk result (λ draft. vec_len draft.terms
        ≡ 2 * times + function_count cells + 3) }
    ensures types { IfOk result (λ draft. draft.types.items ≡ table pair_types) }
    ensures terms { IfOk result (λ draft. draft.terms.items
        ≡ placed_cells (app 0 (lam 11 (used 0 times)) (padded_function cells))) }
{
    let mut draft = with_pair(heap)?;
    draft.cells(&[('a', 0, 0), ('l', 0, 11)])?;
    uses(&mut draft, times, 0)?;
    function(&mut draft, cells)?;
    Ok(draft)
}

/// As `applied_copies`, but a split puts the function, a component of a pair, into the body.
pub fn split_copies(heap: Global, times: usize, cells: usize) -> Result<Draft, AllocError>
    ensures count { IfOk result (λ draft. vec_len draft.terms
        ≡ 2 * times + function_count cells + 4) }
    ensures types { IfOk result (λ draft. draft.types.items ≡ table pair_types) }
    ensures terms { IfOk result (λ draft. draft.terms.items
        ≡ placed_cells (let_pair 0 (pair 17 (padded_function cells) zero_bit) (used 1 times))) }
{
    let mut draft = with_pair(heap)?;
    draft.cells(&[('d', 0, 0), ('p', 0, 17)])?;
    function(&mut draft, cells)?;
    draft.cell('0', 0, 0)?;
    uses(&mut draft, times, 1)?;
    Ok(draft)
}

/// A qubit that spends so many pulses, one at least.
pub fn pulses(heap: Global, pulses: usize) -> Result<Draft, AllocError>
    ensures types { IfOk result (λ draft. draft.types.items ≡ table pulse_types) }
    ensures terms { IfOk result (λ draft. draft.terms.items ≡ placed_cells (pulsed pulses)) }
{
    let mut draft = Draft::new(heap);
    draft.kinds("q>qq>bqb")?;
    for _ in 0..pulses.saturating_sub(1) {
        draft.cells(&[('a', 0, 0), ('g', 0, 1)])?;
    }
    draft.cells(&[('a', 0, 0), ('n', 0, 4), ('0', 0, 7)])?;
    Ok(draft)
}

// So many qubits, each the first of a pair with what follows.
fn hold(draft: &mut Draft, held: u8) -> Result<(), AllocError>
    ensures terms { OnOk result (draft.new.terms.items
        ≡ draft.old.terms.items ++ held_qubits (2 * held) held) }
    ensures types { draft.new.types ≡ draft.old.types }
{
    let bit = 2 * held as u16;
    for i in 0..held {
        draft.cells(&[
            ('p', 0, 2 * i as u16),
            ('a', 0, bit + 10),
            ('n', 0, bit + 1),
            ('1', 0, bit),
        ])?;
    }
    Ok(())
}

// A bit that so many times is made a qubit and read, behind the types of held qubits.
fn reread(draft: &mut Draft, held: u8, times: usize) -> Result<(), AllocError>
    ensures terms { OnOk result (draft.new.terms.items
        ≡ draft.old.terms.items ++ placed_cells (reread_bit (2 * held) times)) }
    ensures types { draft.new.types ≡ draft.old.types }
{
    let bit = 2 * held as u16;
    for _ in 0..times {
        draft.cells(&[
            ('a', 0, bit),
            ('l', 0, bit + 7),
            ('a', 0, bit),
            ('m', 0, bit + 4),
            ('a', 0, bit + 10),
            ('n', 0, bit + 1),
            ('v', 0, bit),
        ])?;
    }
    draft.cell('0', 0, bit)
}

/// Held qubits in pairs, and a bit that so many times is made a qubit and read: handles go round
/// past the held ones.
pub fn rounds(heap: Global, held: u8, times: usize) -> Result<Draft, AllocError>
    ensures types { IfOk result (λ draft. draft.types.items ≡ table (round_types held)) }
    ensures terms { IfOk result (λ draft. draft.terms.items
        ≡ placed_cells (rounds_term held times)) }
{
    let mut draft = Draft::new(heap);
    draft.kinds(&"*q".repeat(heap, held.into())?)?;
    draft.kinds("b>bq>qb>bbq")?;
    hold(&mut draft, held)?;
    reread(&mut draft, held, times)?;
    Ok(draft)
}

// One use of a doubling function, the nearest variable: the identity, doubled so many times, of the
// bit that follows.
fn doubled(draft: &mut Draft, depth: usize) -> Result<(), AllocError>
    ensures terms { OnOk result (draft.new.terms.items
        ≡ draft.old.terms.items ++ applications 1 0 (doubled_identity depth)) }
    ensures types { draft.new.types ≡ draft.old.types }
{
    draft.cells(&[('a', 0, 0), ('a', 0, 1), ('v', 0, 27)])?;
    for _ in 0..depth.saturating_sub(1) {
        draft.cells(&[('a', 0, 7), ('v', 0, 18)])?;
    }
    draft.cells(&[('l', 0, 7), ('v', 0, 0)])
}

/// A long run: the identity is doubled so many times over, once at least, and that so often, after
/// so many steps more.
pub fn doublings(heap: Global, times: usize, depth: usize, more: usize) -> Result<Draft, AllocError>
    ensures types { IfOk result (λ draft. draft.types.items ≡ table doubling_types) }
    ensures terms { IfOk result (λ draft. draft.terms.items
        ≡ placed_cells (doublings_term times depth more)) }
{
    let mut draft = common(heap)?;
    draft.kinds("!>!>bb!>bb>!>bb>bb>!>!>bb!>bbb")?;
    draft.cells(&[('a', 0, 0), ('l', 0, 35)])?;
    for _ in 0..times {
        doubled(&mut draft, depth)?;
    }
    wrap(&mut draft, more)?;
    draft.cells(&[('0', 0, 0), ('l', 0, 17), ('l', 0, 7)])?;
    draft.cells(&[('a', 0, 0), ('v', 1, 1), ('a', 0, 0), ('v', 1, 1)])?;
    draft.cell('v', 0, 0)?;
    Ok(draft)
}

// The negation of the bit that the nearest variable is.
fn negation(draft: &mut Draft) -> Result<(), AllocError>
    ensures terms { OnOk result (draft.new.terms.items
        ≡ draft.old.terms.items ++ placed_cells negated) }
    ensures types { draft.new.types ≡ draft.old.types }
{
    draft.cells(&[('i', 0, 0), ('v', 0, 1), ('0', 0, 0), ('1', 0, 0)])
}

// The function that negates a bit, which the nearest variable turns so many times less one.
fn turned(draft: &mut Draft, depth: usize) -> Result<(), AllocError>
    ensures terms { OnOk result (draft.new.terms.items
        ≡ draft.old.terms.items ++ placed_cells (turned_negation depth)) }
    ensures types { draft.new.types ≡ draft.old.types }
{
    for _ in 0..depth.saturating_sub(1) {
        draft.cells(&[('a', 0, 7), ('v', 0, 19)])?;
    }
    draft.cell('l', 0, 7)?;
    negation(draft)
}

// The function that turns a function of a bit into one that splits a pair and calls it.
fn turning(draft: &mut Draft) -> Result<(), AllocError>
    ensures terms { OnOk result (draft.new.terms.items
        ≡ draft.old.terms.items ++ placed_cells turning_function) }
    ensures types { draft.new.types ≡ draft.old.types }
{
    draft.cells(&[('l', 0, 18), ('l', 0, 7), ('d', 0, 0), ('p', 0, 13)])?;
    negation(draft)?;
    draft.cells(&[('v', 0, 0), ('i', 0, 0), ('v', 0, 1)])?;
    draft.cells(&[('a', 0, 0), ('v', 3, 2), ('a', 0, 0), ('v', 3, 2)])?;
    draft.cells(&[('v', 1, 0), ('a', 0, 0), ('v', 3, 2), ('v', 1, 0)])
}

/// A function that turns a bit, made so many times into one that splits a pair and calls it again,
/// so that a binder comes to stand below a copy of itself.
pub fn turns(heap: Global, depth: usize) -> Result<Draft, AllocError>
    ensures types { IfOk result (λ draft. draft.types.items ≡ table turn_types) }
    ensures terms { IfOk result (λ draft. draft.terms.items ≡ placed_cells (turns_term depth)) }
{
    let mut draft = Draft::new(heap);
    draft.kinds("!b>!b!b!>!b!b*!b!b!>!>!b!b!>!b!b>!>!b!b>!b!b>!>!>!b!b!>!b!b!b")?;
    draft.cells(&[('a', 0, 0), ('l', 0, 44), ('a', 0, 0), ('a', 0, 2)])?;
    draft.cell('v', 0, 32)?;
    turned(&mut draft, depth)?;
    draft.cell('0', 0, 0)?;
    turning(&mut draft)?;
    Ok(draft)
}

// A function that reads the qubit that a variable is.
fn reading(draft: &mut Draft, variable: u16) -> Result<(), AllocError>
    ensures terms { OnOk result (draft.new.terms.items
        ≡ draft.old.terms.items ++ placed_cells (reader variable)) }
    ensures types { draft.new.types ≡ draft.old.types }
{
    draft.cells(&[('l', 0, 4), ('a', 0, 1), ('m', 0, 26), ('v', variable, 11)])
}

/// Two functions that share a pair of entangled qubits, each called once.
pub fn entangled(heap: Global, gate: Gate) -> Result<Draft, AllocError>
    ensures types { IfOk result (λ draft. draft.types.items ≡ table entangled_types) }
    ensures terms { IfOk result (λ draft. draft.terms.items
        ≡ placed_cells (entangled_term gate)) }
{
    let mut draft = Draft::new(heap);
    draft.kinds("*bb*>ub>ub*qq>*qq*qq>qq>bq>qbu")?;
    draft.cells(&[('d', 0, 0), ('d', 0, 3), ('a', 0, 10)])?;
    draft.cells(&[('g', gate.into(), 13), ('p', 0, 10)])?;
    draft.cells(&[('a', 0, 11), ('g', 0, 20), ('a', 0, 11)])?;
    draft.cells(&[('n', 0, 23), ('0', 0, 1)])?;
    draft.cells(&[('a', 0, 11), ('n', 0, 23), ('1', 0, 1)])?;
    draft.cell('p', 0, 3)?;
    reading(&mut draft, 2)?;
    reading(&mut draft, 1)?;
    draft.cell('p', 0, 0)?;
    draft.cells(&[('a', 0, 1), ('v', 1, 4), ('s', 0, 29)])?;
    draft.cells(&[('a', 0, 1), ('v', 0, 4), ('s', 0, 29)])?;
    Ok(draft)
}
