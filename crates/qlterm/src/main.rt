//! Reads a stored program from standard input and prints its view: its term, a row for each cell,
//! and what is said of it.
#![tactic(auto)]

ghost use Rattle.std.specs.Prelude.{◌≤◌, ◌≡◌, ℕ, drop, take, IfOk, IfSome, OnOk, OnErr, Some};
ghost use Rattle.std.specs.Prelude.{string_bytes};
ghost use Rattle.listing.specs.Listed.{most_bytes};
ghost use Rattle.termview.specs.View.{ViewOf};

use input::read_input;
use listing::MOST_BYTES;
use std::alloc::Global;
use std::io;
use std::io::Read;
use termview::view;

// The view of what a reader gives, which is read no further than a text may go.
fn view_of_input<R: Read>(alloc: Global, input: &mut R) -> io::Result<String>
    ensures view { IfOk result (λ printed. IfSome (R.remaining input.old)
        (λ all. ViewOf (take most_bytes all) (string_bytes printed))) }
    ensures rest { OnOk result (IfSome (R.remaining input.old)
        (λ all. R.remaining input.new ≡ Some (drop most_bytes all))) }
    ensures no_further { OnErr result (IfSome (R.remaining input.old) (λ all.
        (n : ℕ) × (n ≤ most_bytes) × (R.remaining input.new ≡ Some (drop n all)))) }
{
    let mut text = [0; MOST_BYTES];
    let len = read_input(input, &mut text)?;
    Ok(view(alloc, &text[..len])?)
}

fn main(rt: HostRuntime) -> io::Result<()> {
    rt.print(view_of_input(rt.alloc(), &mut rt.stdin())?)
}
