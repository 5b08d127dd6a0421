//! The limits of a program and of a running term, each named once.

/// Type cells of a program.
pub const MOST_TYPE_CELLS: usize = 256;

/// Term cells of a program.
pub const MOST_TERM_CELLS: usize = 512;

/// Binders in scope at a node of a program.
pub const MOST_BINDERS: usize = 32;

/// Cells of a running term, and of the work table that a step asks for.
pub const MOST_RUNNING_CELLS: usize = 1024;

/// Handles of qubits: every handle is below this.
pub const HANDLES: usize = 32;
