//! Registers, asked call by call: the answer, the live handles and the pulses left.

use calculus::Gate;
use registers::Register;
use std::process::Abort;
use std::test::Fail;

/// A call of a register.
#[derive(Clone, Copy, Drop)]
pub enum Ask<'a> {
    Prepare(bool),
    Gate(Gate, &'a [u8]),
    Read(u8),
    LetGo(u8),
    Clear,
}

/// What a register tells of an accepted call.
#[derive(Clone, Copy, PartialEq, Eq, Debug, Drop)]
pub enum Told {
    Handle(u8),
    Bit(bool),
    Done,
}

/// An answer, or the number and the depth of a refusal.
pub type Answer = Result<Told, (u16, u16)>;

/// A call, its answer, and after it the live handles, as the bits of a number, and the pulses left.
#[derive(Drop)]
pub struct Asked<'a>(pub Ask<'a>, pub Answer, pub u32, pub u64);

fn tell<R: Register>(register: &mut R, ask: Ask) -> Answer {
    let told = match ask {
        Ask::Prepare(bit) => register.prepare(bit).map(Told::Handle),
        Ask::Gate(gate, on) => register.gate(gate, on).map(|()| Told::Done),
        Ask::Read(handle) => register.read(handle).map(Told::Bit),
        Ask::LetGo(handle) => register.let_go(handle).map(|()| Told::Done),
        Ask::Clear => {
            register.clear();
            Ok(Told::Done)
        }
    };
    told.map_err(|fault| (fault.number(), fault.depth))
}

// Whether the bit of a handle is set.
fn is_in(live: u32, handle: u8) -> bool {
    handle < 32 && (live >> (handle % 32)) & 1 == 1
}

/// Checks which handles are live, how many, and the pulses left.
pub fn holds<R: Register>(
    rt: &impl Abort,
    register: &R,
    live: u32,
    pulses: u64,
    row: usize,
) -> Result<(), Fail> {
    let wrong = (0..=255u8).find(|handle| register.is_live(*handle) != is_in(live, *handle));
    assert_eq!(rt; wrong, None, "handle, row {row}");
    assert_eq!(rt;
        register.live_count(),
        live.count_ones() as usize,
        "live, row {row}"
    );
    assert_eq!(rt; register.pulses(), pulses, "pulses left, row {row}");
    Ok(())
}

/// Makes the calls of a table, one after the other, and checks each.
pub fn asks<R: Register>(rt: &impl Abort, register: &mut R, table: &[Asked]) -> Result<(), Fail> {
    let capacity = register.capacity();
    for (i, Asked(ask, want, live, pulses)) in table.iter().enumerate() {
        assert_eq!(rt; tell(register, *ask), *want, "call {i}");
        holds(rt, register, *live, *pulses, i)?;
        assert_eq!(rt; register.capacity(), capacity);
    }
    Ok(())
}
