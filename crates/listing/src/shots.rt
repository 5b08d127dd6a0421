//! Plays a shot: a text is read, and a row is played on a tape: the program is checked and loaded,
//! runs, and its value is collected.

ghost use Rattle.std.specs.Prelude.{◌≡◌, length, take};
ghost use Rattle.controller.specs.Faults.{fault_number};
ghost use Rattle.reader.specs.Faults.{number_of as read_number};
ghost use Rattle.verdict.specs.Faults.{number_of as check_number};
ghost use Rattle.listing.specs.declared.shots.Shot.TheVariants.{Refused};
ghost use Rattle.listing.specs.Listed.{lines_of_cells, listing_of};
ghost use Rattle.listing.specs.Listing.{listing_lines, listing_text};
ghost use Rattle.listing.specs.Playing.{alternating, most_pulses, shot_of_fault};
ghost use Rattle.listing.specs.Playing.{CellsPlayed, TextPlayed};

use crate::replies::report_of;
use arrayvec::ArrayVec;
use calculus::{MOST_RUNNING_CELLS, MOST_TERM_CELLS, MOST_TYPE_CELLS, TermCell, TypeCell};
use controller::{Refusal, Stop};
use player::{Turn, TurnFault, play as play_row};
use reader::{ReadFault, read};
use registers::{Entry, Register, Tape};
use verdict::CheckFault;

/// Bytes of a text that `qlshot` reads at most; `play_text` takes any text.
pub const MOST_BYTES: usize = 16_384;

/// Steps that a shot makes at most.
pub const BUDGET: u64 = 1000;

/// Qubits that the tape holds at most.
pub const CAPACITY: usize = 8;

/// Pulses of the tape.
pub const PULSES: usize = 64;

/// What a shot came to.
#[derive(Drop)]
pub enum Shot {
    /// Refused before it ran: a fault's number and its line or cell.
    Refused {
        number: u16,
        place: u64,
    },
    /// Run: the steps made and why they stopped, the value with its type if one was reached, and
    /// the tape's journal, whose first entries tell the pulses.
    Ran {
        steps: u64,
        stop: Stop,
        value: ArrayVec<TermCell, MOST_RUNNING_CELLS>,
        kinds: ArrayVec<TypeCell, MOST_TYPE_CELLS>,
        journal: [Entry; PULSES],
    },
}

impl From<ReadFault> for Shot {
    ghost from_gives = { λ f s. s ≡ Refused (read_number f.reason) f.line };

    fn from(fault: ReadFault) -> Shot {
        Shot::Refused {
            number: fault.number(),
            place: fault.line as u64,
        }
    }
}

impl From<CheckFault> for Shot {
    ghost from_gives = { λ f s. s ≡ Refused (check_number f.reason) f.cell };

    fn from(fault: CheckFault) -> Shot {
        Shot::Refused {
            number: fault.number(),
            place: fault.cell as u64,
        }
    }
}

impl From<Refusal> for Shot {
    ghost from_gives = { λ r s. s ≡ Refused (fault_number r.fault) r.place };

    fn from(refusal: Refusal) -> Shot {
        Shot::Refused {
            number: refusal.fault.number(),
            place: refusal.place,
        }
    }
}

impl From<TurnFault> for Shot {
    ghost from_gives = { λ f s. s ≡ shot_of_fault f };

    fn from(fault: TurnFault) -> Shot {
        match fault {
            TurnFault::NotAccepted(fault) => Shot::from(fault),
            TurnFault::Refused(refusal) => Shot::from(refusal),
        }
    }
}

// The outcomes of the tape: pulse k answers k mod 2.
fn outcomes() -> [u8; PULSES]
    ensures { result ≡ alternating most_pulses }
{
    let mut outcomes = [0; PULSES];
    for k in 0..PULSES {
        outcomes[k] = (k % 2) as u8;
    }
    outcomes
}

// The first cells of a table, as many as are counted.
fn first_cells<T: Default + Drop, const N: usize>(table: [T; N], count: usize) -> ArrayVec<T, N>
    ensures { result.items ≡ take count table }
{
    let mut cells = ArrayVec::from(table);
    cells.truncate(count);
    cells
}

// A copy of a journal.
fn copy_of(journal: &[Entry]) -> [Entry; PULSES]
    requires { length journal.now ≡ PULSES }
    ensures { result ≡ journal.now }
{
    let mut copy = [Entry::Empty; PULSES];
    copy.copy_from_slice(journal);
    copy
}

// Plays a shot's row on a new tape: a load, a run and the collecting of its value. It goes through
// the player, and not straight to a controller, since the theorem on rows stands on the player's
// contract: every place that the row leads through is sound.
fn play_cells(types: &[TypeCell], terms: &[TermCell]) -> Shot
    ensures played { CellsPlayed ⟦<Tape<'static> as Register>⟧ types.now terms.now result }
    ensures listed { listing_lines result ≡ lines_of_cells types.now terms.now }
{
    let outcomes = outcomes();
    let mut journal = [Entry::Empty; PULSES];
    let mut work = [TermCell::default(); MOST_RUNNING_CELLS];
    let mut value = [TermCell::default(); MOST_RUNNING_CELLS];
    let mut kinds = [TypeCell::default(); MOST_TYPE_CELLS];
    let row = [
        Turn::Load(types, terms),
        Turn::Run(BUDGET, MOST_RUNNING_CELLS),
        Turn::Collect(MOST_RUNNING_CELLS, MOST_TYPE_CELLS),
    ];
    let mut replies = [None; 3];
    let tape = Tape::new(CAPACITY, &outcomes, &mut journal);
    let controller = play_row(tape, &row, &mut work, &mut value, &mut kinds, &mut replies);
    let [loaded, run, collected] = replies;
    match report_of(loaded, run, collected) {
        Ok(report) => Shot::Ran {
            steps: report.steps,
            stop: report.stop,
            value: first_cells(value, report.cells),
            kinds: first_cells(kinds, report.kind_cells),
            journal: copy_of(controller.register().journal()),
        },
        Err(fault) => Shot::from(fault),
    }
}

/// Plays the shot of a stored program's text.
pub fn play_text(text: &[u8]) -> Shot
    ensures played { TextPlayed ⟦<Tape<'static> as Register>⟧ text.now result }
    ensures listed { listing_text result ≡ listing_of text.now }
{
    let mut types = [TypeCell::default(); MOST_TYPE_CELLS];
    let mut terms = [TermCell::default(); MOST_TERM_CELLS];
    match read(text, &mut types, &mut terms) {
        Ok((kinds, ops)) => play_cells(&types[..kinds], &terms[..ops]),
        Err(fault) => Shot::from(fault),
    }
}
