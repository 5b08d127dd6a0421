//! Leaves of a term as text: variables by their binders' names, gates and constants.

ghost use Rattle.std.specs.Prelude.{◌≡◌, ◌++◌, OnOk, decimal, string_bytes};
ghost use Rattle.notation.specs.Leaves.{binder, gate_text, leaf_text, qubit_text, variable_text};

use calculus::{Gate, TermCell};
use itoa::Buffer;
use std::alloc::AllocError;

// Names of the outermost binders.
const NAMES: [char; 14] = [
    'x', 'y', 'z', 'u', 'v', 'w', 'f', 'g', 'h', 'a', 'b', 'c', 'd', 'e',
];

// Appends a number.
fn push_number(out: &mut String, number: u128) -> Result<(), AllocError>
    ensures { OnOk result (string_bytes out.new ≡ string_bytes out.old ++ decimal number) }
{
    let mut digits = Buffer::new();
    out.push_str(digits.format(number))
}

/// Appends the name of a binder, by how many binders are around it.
pub fn push_binder(out: &mut String, level: u128) -> Result<(), AllocError>
    ensures { OnOk result (string_bytes out.new ≡ string_bytes out.old ++ binder level) }
{
    if level < NAMES.len() as u128 {
        return out.push(NAMES[level as usize]);
    }
    out.push_str("x")?;
    push_number(out, level)
}

// Appends a variable, which counts binders outward from its cell.
fn push_variable(out: &mut String, binders: u128, argument: u128) -> Result<(), AllocError>
    ensures { OnOk result (string_bytes out.new
        ≡ string_bytes out.old ++ variable_text binders argument) }
{
    if argument < binders {
        return push_binder(out, binders - 1 - argument);
    }
    out.push_str("(free ")?;
    push_number(out, argument)?;
    out.push_str(")")
}

// Appends a gate by its number.
fn push_gate(out: &mut String, number: u16) -> Result<(), AllocError>
    ensures { OnOk result (string_bytes out.new ≡ string_bytes out.old ++ gate_text number) }
{
    match Gate::try_from(number) {
        Ok(Gate::H) => out.push_str("H"),
        Ok(Gate::X) => out.push_str("X"),
        Ok(Gate::Z) => out.push_str("Z"),
        Ok(Gate::S) => out.push_str("S"),
        Ok(Gate::T) => out.push_str("T"),
        Ok(Gate::Cnot) => out.push_str("CNOT"),
        Ok(Gate::Swap) => out.push_str("SWAP"),
        Ok(Gate::Toffoli) => out.push_str("TOF"),
        Err(_) => {
            out.push_str("(gate ")?;
            push_number(out, number as u128)?;
            out.push_str(")")
        }
    }
}

// Appends the qubit with a handle.
fn push_qubit(out: &mut String, handle: u16) -> Result<(), AllocError>
    ensures { OnOk result (string_bytes out.new ≡ string_bytes out.old ++ qubit_text handle) }
{
    out.push_str("|")?;
    push_number(out, handle as u128)?;
    out.push_str(">")
}

/// Appends a cell that has no parts, under so many binders.
pub fn push_leaf(out: &mut String, cell: TermCell, binders: u128) -> Result<(), AllocError>
    ensures { OnOk result (string_bytes out.new ≡ string_bytes out.old ++ leaf_text binders cell) }
{
    match cell.op {
        'v' => push_variable(out, binders, cell.argument as u128),
        'g' => push_gate(out, cell.argument),
        'q' => push_qubit(out, cell.argument),
        'm' => out.push_str("meas"),
        'n' => out.push_str("new"),
        's' => out.push_str("*"),
        '0' => out.push_str("0"),
        '1' => out.push_str("1"),
        _ => out.push_str("?"),
    }
}
