ghost use Rattle.std.specs.Prelude.{◌≡◌, ◌<◌, [], Some, length};
ghost use Rattle.std.specs.Bool.{Decides};
ghost use Rattle.ppd_book_steps.specs.States.{state_of};

use ppd_sem::Proc;
use ppd_world::World;

/// Whether process `p`, which is there, is in the state that was copied without what it had printed.
pub fn is_current(world: &World<'_>, p: u8, copy: &Proc) -> bool
    requires there { p < length world.now.world.procs }
    requires unprinted { copy.now.prints ≡ [] }
    ensures { Decides result (state_of world.now p ≡ Some copy.now) }
{
    world.proc(p).same_unprinted(copy)
}
