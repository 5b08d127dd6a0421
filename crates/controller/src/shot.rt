//! What runs: a term in cells, its loaded type, and the steps made. Its calls, in `loading`,
//! `steps` and `ending`, take the register as an argument.

ghost use Rattle.std.specs.Prelude.{◌≡◌, ◌≤◌, length};
ghost use Rattle.calculus.specs.declared.limits.TheConstants.{MOST_RUNNING_CELLS, MOST_TYPE_CELLS};

use crate::faults::{ControllerFault, Refusal};
use arrayvec::ArrayVec;
use calculus::{MOST_RUNNING_CELLS, MOST_TYPE_CELLS, TermCell, TypeCell};

/// The cells of a running term and of its type, and the steps made since the load. Where nothing is
/// loaded there are no cells.
#[derive(Drop)]
pub struct Shot {
    pub(crate) cells: ArrayVec<TermCell, MOST_RUNNING_CELLS>,
    pub(crate) kinds: ArrayVec<TypeCell, MOST_TYPE_CELLS>,
    pub(crate) steps: u64,
    ghost few: { length cells.items ≤ MOST_RUNNING_CELLS },
    ghost kinds_few: { length kinds.items ≤ MOST_TYPE_CELLS },
}

/// Nothing is loaded.
impl Default for Shot {
    ghost use Rattle.std.specs.Prelude.{◌≡◌};
    ghost use Rattle.controller.specs.Shots.{held, nothing_held};

    ghost is_default = { λ shot. held shot ≡ nothing_held };

    fn default() -> Shot {
        Shot {
            cells: ArrayVec::new(),
            kinds: ArrayVec::new(),
            steps: 0,
        }
    }
}

/// Has a table hold these cells in place of what it held.
pub(crate) fn refill<T: Copy + Default, const N: usize>(table: &mut ArrayVec<T, N>, cells: &[T])
    requires { length cells.now ≤ N }
    ensures { table.new.items ≡ cells.now }
{
    table.truncate(cells.len());
    let (first, rest) = cells.split_at(table.len());
    table.copy_from_slice(first);
    table.try_extend_from_slice(rest).unwrap();
}

impl Shot {
    ghost use Rattle.std.specs.Prelude.{◌≡◌, if◌then◌else◌, Ok};
    ghost use Rattle.controller.specs.Faults.{refused};
    ghost use Rattle.controller.specs.Shots.{held};

    // Refuses a call with the fault where the test holds, at the steps made.
    pub(crate) fn refuse_if(&self, fault: ControllerFault, test: bool) -> Result<(), Refusal>
        ensures { result ≡ (if test then refused fault (held self.now).steps else Ok tt) }
    {
        fault.refuse_if(test).map_err(|fault| fault.at(self.steps))
    }
}
