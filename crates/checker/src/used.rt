//! Sets of binders, by level: the outermost is 0.

ghost use Rattle.std.specs.Prelude.{◌≡◌, ℕ, ◌<◌, false, ◌&&◌, ◌||◌, ◌==◌};
ghost use Rattle.checker.specs.Scoping.{has};

use calculus::MOST_BINDERS;

/// Which levels are in the set, a bit for each.
#[derive(Clone, Copy, Drop)]
pub struct Used {
    pub levels: u32,
}

impl Used {
    /// No level.
    pub(crate) fn none() -> Used
        ensures { (k : ℕ) → has result k ≡ false }
    {
        Used { levels: 0 }
    }

    /// One level.
    pub(crate) fn only(level: usize) -> Used
        requires { level < 32 }
        ensures { (k : ℕ) → has result k ≡ (k == level) }
    {
        Used { levels: 1 << level }
    }

    /// Whether a level is in the set.
    pub(crate) fn has(self, level: usize) -> bool
        ensures { result ≡ has self level }
    {
        level < MOST_BINDERS && (self.levels >> level) & 1 == 1
    }

    /// The levels of one set or the other.
    pub(crate) fn either(self, other: Used) -> Used
        ensures { (k : ℕ) → has result k ≡ (has self k || has other k) }
    {
        Used {
            levels: self.levels | other.levels,
        }
    }

    /// The levels of both sets.
    pub(crate) fn shared(self, other: Used) -> Used
        ensures { (k : ℕ) → has result k ≡ (has self k && has other k) }
    {
        Used {
            levels: self.levels & other.levels,
        }
    }
}
