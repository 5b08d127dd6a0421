//! Reads a stored program from standard input, plays its shot and prints the listing.
#![tactic(auto)]

ghost use Rattle.std.specs.Prelude.{◌≡◌, ◌≤◌, ℕ, drop, IfOk, IfSome, OnOk, OnErr, Some};
ghost use Rattle.listing.specs.Listed.{listing_of_input, most_bytes};

use input::read_input;
use listing::{Listing, MOST_BYTES, listing, play_text};
use std::io;
use std::io::Read;

// The listing of what a reader gives, which is read no further than a text may go.
fn listing_of_input<R: Read>(input: &mut R) -> io::Result<Listing>
    ensures listing { IfOk result (λ printed. IfSome (R.remaining input.old)
        (λ all. printed.bytes ≡ listing_of_input all)) }
    ensures rest { OnOk result (IfSome (R.remaining input.old)
        (λ all. R.remaining input.new ≡ Some (drop most_bytes all))) }
    ensures no_further { OnErr result (IfSome (R.remaining input.old) (λ all.
        (n : ℕ) × (n ≤ most_bytes) × (R.remaining input.new ≡ Some (drop n all)))) }
{
    let mut text = [0; MOST_BYTES];
    let len = read_input(input, &mut text)?;
    Ok(listing(&play_text(&text[..len])))
}

fn main(rt: HostRuntime) -> anyhow::Result<()> {
    rt.print(listing_of_input(&mut rt.stdin())?)?;
    Ok(())
}
