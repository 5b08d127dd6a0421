//! A controller, called call by call: its answers, all cells of the tables handed over, and the
//! register's live qubits and pulses.

use crate::making::{KIND_MARK, MARK, front_of, kinds, terms};
use calculus::{TermCell, TypeCell};
use checker::check as check_program;
use controller::{Controller, ControllerFault, Refusal, Stop};
use registers::Register;
use std::alloc::{AllocError, Global};
use std::process::Abort;
use std::test::Fail;

/// A program: its types and its term.
#[derive(Clone, Copy, Drop)]
pub struct Stored<'a>(pub &'a str, pub &'a str);

/// A call, with the cells of the tables that it is handed; a collect has the types to write too.
#[derive(Clone, Copy, Drop)]
pub enum Call<'a> {
    Load(Stored<'a>),
    Step(usize),
    Run(u64, usize),
    Collect(usize, usize, &'a str),
    Abandon,
}

/// What an accepted call answers.
#[derive(Clone, Copy, PartialEq, Eq, Debug, Drop)]
pub enum Reply {
    Cells(usize),
    Counts(usize, usize),
    Done,
    Value(u64),
    Budget(u64),
    /// The steps made in the run, then as a refusal.
    Stopped(u64, u16, u64, u16),
}

/// An answer. A refusal has its number, its place, and the depth of a register's fault, or else 0.
pub type Answer = Result<Reply, (u16, u64, u16)>;

/// A call, its reply, the cells that it writes at the front of its table, and then the register's
/// live count and pulses.
#[derive(Drop)]
pub struct Turn<'a>(pub Call<'a>, pub Answer, pub &'a str, pub usize, pub u64);

/// The tables that calls are handed, and what is due in them.
#[derive(Drop)]
struct Tables {
    work: Vec<TermCell>,
    value: Vec<TermCell>,
    types: Vec<TypeCell>,
}

impl Tables {
    fn marked(heap: Global) -> Result<Tables, AllocError> {
        Ok(Tables {
            work: vec![in heap; MARK; 1025]?,
            value: vec![in heap; MARK; 1025]?,
            types: vec![in heap; KIND_MARK; 257]?,
        })
    }

    // Writes what is due after a call.
    fn expect(&mut self, heap: Global, call: Call, front: &str) -> Result<(), AllocError> {
        let cells = terms(heap, front)?;
        match call {
            Call::Collect(_, _, types) => {
                put(self.value.as_mut_slice(), cells.as_slice());
                put(self.types.as_mut_slice(), kinds(heap, types)?.as_slice());
            }
            _ => put(self.work.as_mut_slice(), cells.as_slice()),
        }
        Ok(())
    }

    // Checks every cell against what is due after a call.
    fn are(&self, rt: &impl Abort, due: &Tables, call: usize) -> Result<(), Fail> {
        same(rt, self.work.as_slice(), due.work.as_slice(), "work", call)?;
        same(
            rt,
            self.value.as_slice(),
            due.value.as_slice(),
            "value",
            call,
        )?;
        same(
            rt,
            self.types.as_slice(),
            due.types.as_slice(),
            "type",
            call,
        )
    }
}

fn depth_of(fault: ControllerFault) -> u16 {
    match fault {
        ControllerFault::Register(fault) => fault.depth,
        _ => 0,
    }
}

fn ran((made, stop): (u64, Stop)) -> Reply {
    match stop {
        Stop::Value => Reply::Value(made),
        Stop::Budget => Reply::Budget(made),
        Stop::Refused { fault, steps } => {
            Reply::Stopped(made, fault.number(), steps, depth_of(fault))
        }
    }
}

fn load<R: Register>(
    heap: Global,
    controller: &mut Controller<R>,
    program: Stored,
) -> Result<Result<usize, Refusal>, Fail> {
    let types = kinds(heap, program.0)?;
    let cells = terms(heap, program.1)?;
    let program = check_program(types.as_slice(), cells.as_slice())?;
    Ok(controller.load(&program))
}

fn answer<R: Register>(
    heap: Global,
    controller: &mut Controller<R>,
    call: Call,
    tables: &mut Tables,
) -> Result<Answer, Fail> {
    let answer = match call {
        Call::Load(program) => load(heap, controller, program)?.map(Reply::Cells),
        Call::Step(room) => {
            let work = front_of(tables.work.as_mut_slice(), room);
            controller.step(work).map(Reply::Cells)
        }
        Call::Run(budget, room) => {
            let work = front_of(tables.work.as_mut_slice(), room);
            controller.run(budget, work).map(ran)
        }
        Call::Collect(value, types, _) => {
            let value = front_of(tables.value.as_mut_slice(), value);
            let types = front_of(tables.types.as_mut_slice(), types);
            controller
                .collect(value, types)
                .map(|(cells, kinds)| Reply::Counts(cells, kinds))
        }
        Call::Abandon => controller.abandon().map(|()| Reply::Done),
    };
    Ok(answer.map_err(|refusal| {
        (
            refusal.fault.number(),
            refusal.place,
            depth_of(refusal.fault),
        )
    }))
}

fn put<T: Copy>(table: &mut [T], cells: &[T]) {
    let len = cells.len().min(table.len());
    table[..len].copy_from_slice(&cells[..len]);
}

fn same<T: PartialEq>(
    rt: &impl Abort,
    got: &[T],
    due: &[T],
    table: &str,
    call: usize,
) -> Result<(), Fail> {
    assert!(rt; got == due, "{table} table, call {call}");
    Ok(())
}

// Checks the register's live count and the pulses left.
fn leaves<R: Register>(
    rt: &impl Abort,
    register: &R,
    live: usize,
    pulses: u64,
    call: usize,
) -> Result<(), Fail> {
    assert_eq!(rt; register.live_count(), live, "live, call {call}");
    assert_eq!(rt; register.pulses(), pulses, "pulses, call {call}");
    Ok(())
}

/// Makes the calls of a table, one after the other, and checks each.
pub fn plays<R: Register>(
    rt: &impl Abort,
    heap: Global,
    controller: &mut Controller<R>,
    turns: &[Turn],
) -> Result<(), Fail> {
    let mut tables = Tables::marked(heap)?;
    let mut due = Tables::marked(heap)?;
    for (i, Turn(call, want, front, live, pulses)) in turns.iter().enumerate() {
        let got = answer(heap, controller, *call, &mut tables)?;
        assert_eq!(rt; got, *want, "call {i}");
        due.expect(heap, *call, *front)?;
        tables.are(rt, &due, i)?;
        leaves(rt, controller.register(), *live, *pulses, i)?;
    }
    Ok(())
}
