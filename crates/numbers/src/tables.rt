//! Cells and pulses as numbers: tables are handed over and back in these.

ghost use Rattle.std.specs.Prelude.{◌≡◌, map, take};
ghost use Rattle.numbers.specs.Cells.{letter_of, kind_of, cell_of, number_of_kind, node_of};
ghost use Rattle.numbers.specs.Cells.{bit_pulse, pulse_of, handed, kinds_seen};

use arrayvec::ArrayVec;
use calculus::{MOST_RUNNING_CELLS, MOST_TERM_CELLS, MOST_TYPE_CELLS, TermCell, TypeCell};
use registers::Entry;

/// A term cell, its op as the number of its letter.
#[repr(C)]
#[derive(Clone, Copy, Drop)]
pub struct Node {
    pub letter: u32,
    pub argument: u16,
    pub claim: u16,
}

/// What a pulse did, if it was spent.
#[repr(C)]
#[derive(Clone, Copy, Drop)]
pub struct Pulse {
    /// 0 for nothing, 1 for a preparation, 2 for a gate, 3 for a read.
    pub kind: u8,
    /// The bit that was prepared, the gate's number, or the outcome.
    pub what: u8,
    /// The handles, as many as the call took, and zeros behind them.
    pub on: [u8; 3],
}

// The kinds of pulses.
const NO_PULSE: u8 = 0;

const PREPARED: u8 = 1;

const GATE_MADE: u8 = 2;

const READ: u8 = 3;

// The letter of a number below 256.
fn letter_of(number: u32) -> char
    ensures { result ≡ letter_of number }
{
    u8::try_from(number).map_or('\0', |byte| char::from(byte))
}

// The type cell of a letter's number.
fn kind_of(letter: u32) -> TypeCell
    ensures { result ≡ kind_of letter }
{
    TypeCell {
        kind: letter_of(letter),
    }
}

impl From<Node> for TermCell {
    ghost from_gives = { λ node cell. cell ≡ cell_of node };

    fn from(node: Node) -> TermCell {
        TermCell {
            op: letter_of(node.letter),
            argument: node.argument,
            claim: node.claim,
        }
    }
}

impl From<TermCell> for Node {
    ghost from_gives = { λ cell node. node ≡ node_of cell };

    fn from(cell: TermCell) -> Node {
        Node {
            letter: u32::from(cell.op),
            argument: cell.argument,
            claim: cell.claim,
        }
    }
}

impl Pulse {
    // A pulse on one qubit, with a bit.
    fn of_bit(kind: u8, handle: u8, bit: bool) -> Pulse
        ensures { result ≡ bit_pulse kind handle bit }
    {
        Pulse {
            kind,
            what: u8::from(bit),
            on: [handle, 0, 0],
        }
    }
}

impl From<Entry> for Pulse {
    ghost from_gives = { λ entry pulse. pulse ≡ pulse_of entry };

    fn from(entry: Entry) -> Pulse {
        match entry {
            Entry::Empty => Pulse {
                kind: NO_PULSE,
                what: 0,
                on: [0; 3],
            },
            Entry::Prepare { handle, bit } => Pulse::of_bit(PREPARED, handle, bit),
            Entry::Gate { gate, on } => Pulse {
                kind: GATE_MADE,
                what: u16::from(gate) as u8,
                on,
            },
            Entry::Read { handle, outcome } => Pulse::of_bit(READ, handle, outcome),
        }
    }
}

// As many cells as there is room for, each turned from a value.
fn taken<X: Copy, Y: Default + Drop, const ROOM: usize, F: Fn(X) -> Y>(
    values: &[X],
    turned: F,
) -> ArrayVec<Y, ROOM>
    requires { F.IsAlwaysCallable turned }
    ensures { (f : X → Y) → ((x : X) (y : Y) → F.post turned x y → y ≡ f x)
        → result.items ≡ map f (take ROOM values.now) }
{
    let mut cells = ArrayVec::new();
    for value in values.iter().take(ROOM) {
        cells.push(turned(*value));
    }
    cells
}

// Hands back as many cells as both tables have room for, each turned to a value.
fn hand_back<X: Copy, Y: Drop, F: Fn(X) -> Y>(cells: &[X], values: &mut [Y], turned: F)
    requires { F.IsAlwaysCallable turned }
    ensures { (f : X → Y) → ((x : X) (y : Y) → F.post turned x y → y ≡ f x)
        → values.new ≡ handed f cells.now values.old }
{
    let count = values.len().min(cells.len());
    for (i, cell) in cells[..count].iter().enumerate() {
        values[i] = turned(*cell);
    }
}

// Places for one cell more than the types of a program may have.
const TYPE_PLACES: usize = MOST_TYPE_CELLS + 1;

/// Places for one cell more than the term of a program may have.
pub const TERM_PLACES: usize = MOST_TERM_CELLS + 1;

/// Places for one cell more than a running term may have.
pub const RUNNING_PLACES: usize = MOST_RUNNING_CELLS + 1;

/// The type cells of letters, no more than one past a program's limit.
pub fn type_table(letters: &[u32]) -> ArrayVec<TypeCell, TYPE_PLACES>
    ensures { result.items ≡ kinds_seen letters.now }
{
    taken(letters, |letter| kind_of(letter))
}

/// The term cells of nodes, no more than there are places for.
pub fn term_table<const PLACES: usize>(nodes: &[Node]) -> ArrayVec<TermCell, PLACES>
    ensures { result.items ≡ map cell_of (take PLACES nodes.now) }
{
    taken(nodes, |node| TermCell::from(node))
}

/// Hands back as many type cells as both tables have room for.
pub fn give_types(cells: &[TypeCell], letters: &mut [u32])
    ensures { letters.new ≡ handed number_of_kind cells.now letters.old }
{
    hand_back(cells, letters, |cell| u32::from(cell.kind));
}

/// Hands back as many term cells as both tables have room for.
pub fn give_terms(cells: &[TermCell], nodes: &mut [Node])
    ensures { nodes.new ≡ handed node_of cells.now nodes.old }
{
    hand_back(cells, nodes, |cell| Node::from(cell));
}

/// Hands back as many entries of a journal as both tables have room for.
pub fn give_journal(journal: &[Entry], pulses: &mut [Pulse])
    ensures { pulses.new ≡ handed pulse_of journal.now pulses.old }
{
    hand_back(journal, pulses, |entry| Pulse::from(entry));
}
