ghost use Rattle.std.specs.Prelude.{◌≡◌, Err};
ghost use Rattle.ppd_model.specs.Replay.{fail as fail_of};
ghost use Rattle.ppd_emul_values.specs.Emulated.{IfFailed, replaying, turned};

use crate::found::found_of;
use crate::replayer::Replayer;
use ppd_model::{EmulError, Wanted};
use std::alloc::Global;

/// Why the replay cannot go on: `Diverged`, since the next piece is not the one that is wanted; or `Memory`, for want
/// of memory to tell it.
pub fn fail(alloc: Global, state: &Replayer, wanted: Wanted) -> EmulError
    ensures { IfFailed result (turned (Err result) state.now ≡ fail_of (replaying state.now) wanted) }
{
    let (entry, piece) = state.pieces.next();
    match found_of(alloc, piece) {
        Ok(found) => EmulError::Diverged {
            entry,
            wanted,
            found,
        },
        Err(_) => EmulError::Memory,
    }
}
