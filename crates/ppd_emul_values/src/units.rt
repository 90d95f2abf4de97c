ghost use Rattle.std.specs.Prelude.{◌≡◌, Some};
ghost use Rattle.ppd_model.specs.Replay.{take_unit as take_unit_of};
ghost use Rattle.ppd_emul_values.specs.Emulated.{IfMore, IfTold, IsGoing, replaying, turned};

use crate::failing::fail;
use crate::replayer::{Code, Replayer, Turned};
use ppd_index::unit_cells;
use ppd_model::{EmulError, Piece, Wanted};

/// The start of a unit, which has to be the next piece. `Diverged`: it is another. `Memory` is want of memory.
pub fn take_unit(code: &Code, state: &mut Replayer, unit: u16) -> Result<Turned, EmulError>
    requires { IsGoing code.now state.old }
    ensures told { IfTold result
        (turned result state.new ≡ take_unit_of code.now.plan.now (Some unit) (replaying state.old)) }
    ensures going { IfMore result (IsGoing code.now state.new) }
    ensures steps { state.new.steps ≡ state.old.steps }
{
    match state.pieces.next().1 {
        Piece::Unit(found, values) if found == unit => {
            state.in_force.start(unit_cells(code.plan, unit), values)?;
            state.pass();
            Ok(Turned::More)
        }
        _ => Err(fail(code.alloc, state, Wanted::Unit(unit))),
    }
}
