//! Runs two interpreters of the quantum lambda calculus over examples and generated programs, and
//! compares all that can be seen of them: whole shots, faults of checked tables, and where the next
//! step of any cells is. With a seed and a count as arguments it compares so many programs drawn
//! from that seed and nothing else.
#![tactic(auto)]

mod compare;
mod examples;
mod generated;

use samples::Random;
use std::io::Read;
use std::{env, io};
use tally::Tally;

// A seed and a count from the arguments, if both are there.
fn asked(rt: &HostRuntime) -> io::Result<Option<(u64, usize)>> {
    let mut words = env::args(rt)?.skip(1);
    let (Some(seed), Some(count)) = (words.next(), words.next()) else {
        return Ok(None);
    };
    Ok(seed.parse().ok().zip(count.parse().ok()))
}

// Compares the examples of the input, and the programs that are generated.
fn compare_all(tally: &mut Tally) -> io::Result<()> {
    let mut input = Vec::new(tally.heap());
    tally.rt.stdin().read_to_end(&mut input)?;
    examples::compare_examples(tally, &input)?;
    let mut random = Random::new(88_172_645_463_325_252);
    generated::compare_drawn(tally, &mut random)?;
    generated::compare_damaged(tally, &mut random)?;
    generated::compare_limits(tally)?;
    generated::compare_long_tables(tally)?;
    generated::compare_running(tally, &mut random)
}

fn main(rt: HostRuntime) -> io::Result<()> {
    let mut tally = Tally::new(&rt);
    match asked(&rt)? {
        Some((seed, count)) => {
            let mut random = Random::new(seed.max(1));
            generated::compare_many(&mut tally, &mut random, count)?;
        }
        None => compare_all(&mut tally)?,
    }
    tally.print()
}
