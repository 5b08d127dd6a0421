//! The qubits that a running term names.

ghost use Rattle.std.specs.Prelude.{◌≡◌, ℕ, ◌<◌, false, slice_index_or};
ghost use Rattle.stepper.specs.Naming.{name_of, names};

use calculus::{HANDLES, TermCell};

// The handle that a cell names, if it names one.
fn name_of(cell: TermCell) -> Option<usize>
    ensures { result ≡ name_of cell }
{
    let handle = cell.argument as usize;
    (cell.op == 'q' && handle < HANDLES).then_some(handle)
}

/// Which handles the cells name.
pub fn named(cells: &[TermCell]) -> [bool; HANDLES]
    ensures { (h : ℕ) → h < 32 → slice_index_or result h false ≡ names cells.now h }
{
    let mut named = [false; HANDLES];
    for cell in cells {
        if let Some(handle) = name_of(*cell) {
            named[handle] = true;
        }
    }
    named
}
