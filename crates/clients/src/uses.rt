//! What is done with a register, whichever it is.

ghost use Rattle.std.specs.Prelude.{◌≡◌};
ghost use Rattle.std.specs.Result.{MatchResult};
ghost use Rattle.clients.specs.Uses.{WasRead, NotRead};

use registers::{Register, RegisterFault};

/// Prepares a qubit at the bit, reads it and lets it go, for two pulses. With a single pulse left
/// the read is refused, and the qubit is let go all the same.
pub fn prepare_and_read<R: Register>(register: &mut R, bit: bool) -> Result<bool, RegisterFault>
    ensures answer { MatchResult result
        (WasRead R.Register register.old register.new bit)
        (NotRead R.Register register.old register.new bit) }
    ensures lent { R.Register.lent register.new ≡ R.Register.lent register.old }
{
    let handle = register.prepare(bit)?;
    let outcome = register.read(handle);
    register.let_go(handle)?;
    outcome
}
