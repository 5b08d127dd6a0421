//! What holds of every controller. The function stands for a theorem: its contract is the theorem's
//! statement.

ghost use Rattle.controller.specs.Sound.{EveryControllerIsSound};

use registers::Register;

/// Wherever a controller is, its place is sound. The live qubits are exactly those that the running
/// term names. The term has its loaded type. A step of what is no value, with a work table that is
/// long enough, is refused for want of cells, of a pulse or of room alone.
pub fn every_controller_is_sound<R: Register>()
    ensures { EveryControllerIsSound R.Register }
{}
