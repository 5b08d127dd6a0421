//! A call that is made again and again.

ghost use Rattle.std.specs.Prelude.{◌≡◌, ◌+◌, min};
ghost use Rattle.timed.specs.Sums.{largest, sum_of, total_of};

use numbers::Verdict;

/// A verdict added to a sum: one for the call, and its numbers, up to the largest sum.
pub fn sum_with(sum: u64, verdict: Verdict) -> u64
    ensures { result ≡ min (sum + total_of verdict) largest }
{
    sum.saturating_add(1)
        .saturating_add(u64::from(verdict.number))
        .saturating_add(u64::from(verdict.rule))
        .saturating_add(verdict.place)
        .saturating_add(verdict.steps)
        .saturating_add(verdict.type_cells)
        .saturating_add(verdict.term_cells)
}

/// Makes a call so many times, and answers the sum of its verdicts.
pub(crate) fn sum_of_verdicts<F: Fn() -> Verdict>(times: u64, call: F) -> u64
    requires { F.IsAlwaysCallable call }
    ensures { (verdict : Verdict) → ((answer : Verdict) → F.post call answer → answer ≡ verdict)
        → result ≡ sum_of times verdict }
{
    let mut sum = 0;
    for _ in 0..times {
        sum = sum_with(sum, call());
    }
    sum
}
