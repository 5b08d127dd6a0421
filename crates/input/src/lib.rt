//! The bytes of an input, read as far as a table goes.
#![tactic(auto)]

ghost use Rattle.std.specs.Prelude.{◌≡◌, ◌≤◌, ℕ, length, take, drop, IfOk, IfSome, OnOk, OnErr};
ghost use Rattle.std.specs.Prelude.{Some};

use std::io;
use std::io::Read;

/// Fills the buffer from a reader until it is full or the reader ends, and no further; answers how
/// many bytes there are.
pub fn read_input<R: Read>(input: &mut R, buffer: &mut [u8]) -> io::Result<usize>
    ensures within { IfOk result (λ n. n ≤ length buffer.old) }
    ensures bytes { IfOk result (λ n. IfSome (R.remaining input.old)
        (λ all. take n buffer.new ≡ take (length buffer.old) all)) }
    ensures rest { OnOk result (IfSome (R.remaining input.old)
        (λ all. R.remaining input.new ≡ Some (drop (length buffer.old) all))) }
    ensures no_further { OnErr result (IfSome (R.remaining input.old) (λ all.
        (n : ℕ) × (n ≤ length buffer.old) × (R.remaining input.new ≡ Some (drop n all)))) }
{
    let mut filled = 0;
    while filled < buffer.len() {
        let got = input.read(&mut buffer[filled..])?;
        if got == 0 {
            break;
        }
        filled += got;
    }
    Ok(filled)
}
