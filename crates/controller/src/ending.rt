//! The end of a shot: its value is collected, or it is abandoned.

ghost use Rattle.std.specs.Prelude.{◌≡◌, length, MatchResult};
ghost use Rattle.controller.specs.Shots.{held};
ghost use Rattle.controller.specs.Unloading.{Ends, abandon_answer, collect_answer};
ghost use Rattle.controller.specs.Tables.{begun_with};

use crate::faults::{ControllerFault, Refusal};
use crate::shot::Shot;
use crate::steps::is_value;
use calculus::{TermCell, TypeCell};
use finder::find;
use registers::Register;

impl Shot {
    // Clears the register and unloads.
    fn end<R: Register>(&mut self, register: &mut R)
        ensures { Ends R.Register self.new register.old register.new }
    {
        register.clear();
        self.unload();
    }

    /// Writes the value and its type at the front of two tables, clears the register and unloads.
    /// Answers both counts.
    pub fn collect<R: Register>(
        &mut self,
        register: &mut R,
        value: &mut [TermCell],
        kinds: &mut [TypeCell],
    ) -> Result<(usize, usize), Refusal>
        ensures answer { result
            ≡ collect_answer (held self.old) (length value.old) (length kinds.old) }
        ensures state { MatchResult result
            (λ _. Ends R.Register self.new register.old register.new)
            (λ _. (self.new ≡ self.old) × (register.new ≡ register.old)) }
        ensures tables { MatchResult result
            (λ _. (value.new ≡ begun_with (held self.old).cells value.old)
            × (kinds.new ≡ begun_with (held self.old).kinds kinds.old))
            (λ _. (value.new ≡ value.old) × (kinds.new ≡ kinds.old)) }
    {
        self.refuse_if(ControllerFault::NothingLoaded, self.cells.is_empty())?;
        self.refuse_if(ControllerFault::NoValue, !is_value(&find(&self.cells)))?;
        let len = self.cells.len();
        let kind_len = self.kinds.len();
        let is_short = value.len() < len || kinds.len() < kind_len;
        self.refuse_if(ControllerFault::ShortTables, is_short)?;
        value[..len].copy_from_slice(&self.cells);
        kinds[..kind_len].copy_from_slice(&self.kinds);
        self.end(register);
        Ok((len, kind_len))
    }

    /// Clears the register and unloads.
    pub fn abandon<R: Register>(&mut self, register: &mut R) -> Result<(), Refusal>
        ensures answer { result ≡ abandon_answer (held self.old) }
        ensures state { MatchResult result
            (λ _. Ends R.Register self.new register.old register.new)
            (λ _. (self.new ≡ self.old) × (register.new ≡ register.old)) }
    {
        self.refuse_if(ControllerFault::NothingLoaded, self.cells.is_empty())?;
        self.end(register);
        Ok(())
    }
}
