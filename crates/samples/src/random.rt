//! A small generator of numbers, the same ones from the same seed.

ghost use Rattle.std.specs.Prelude.{◌≡◌, ◌<◌, length, Contains};

use std::alloc::AllocError;

/// A generator of numbers by shifts and exclusive or.
#[derive(Drop)]
pub struct Random {
    state: u64,
}

impl Random {
    /// A generator that starts from a seed, which is not 0.
    pub fn new(seed: u64) -> Random
        ensures { result.state ≡ seed }
    {
        Random { state: seed }
    }

    fn draw(&mut self) -> u64
        ensures { result ≡ self.new.state }
    {
        let mut x = self.state;
        x ^= x << 13;
        x ^= x >> 7;
        x ^= x << 17;
        self.state = x;
        x
    }

    /// A number below another, or 0 where there is none.
    pub fn below(&mut self, limit: usize) -> usize
        ensures below { 0 < limit → result < limit }
        ensures none { limit ≡ 0 → result ≡ 0 }
    {
        if limit == 0 {
            return 0;
        }
        ((self.draw() >> 8) % limit as u64) as usize
    }

    /// One of several.
    pub(crate) fn pick<T: Copy>(&mut self, choices: &[T]) -> T
        requires { 0 < length choices.now }
        ensures { Contains choices.now result }
    {
        choices[self.below(choices.len())]
    }

    /// The first entry of a table that passes a test, from a place drawn at random on and then from
    /// the front.
    pub(crate) fn find<T: Copy, F: Fn(T) -> Result<bool, AllocError>>(
        &mut self,
        table: &[T],
        passes: F,
    ) -> Result<Option<T>, AllocError>
        requires { F.IsAlwaysCallable passes }
    {
        let (before, after) = table.split_at(self.below(table.len()));
        for &entry in after.iter().chain(before) {
            if passes(entry)? {
                return Ok(Some(entry));
            }
        }
        Ok(None)
    }

    /// Whether one draw of a hundred parts falls to the first so many.
    pub fn chance(&mut self, percent: usize) -> bool {
        self.below(100) < percent
    }
}
