ghost use Rattle.std.specs.Prelude.{◌≡◌, ◌++◌, ◌∷◌, [], true, OnErr, OnOk};
ghost use Rattle.ppd_world.specs.Running.{IsReached, Takes, can_step, stepped};

use ppd_ast::{Bytes, Memory};
use ppd_world::World;

/// Takes the step of process `p`, which can take one, and writes its number down. `Memory` is want of
/// memory: nothing changes.
pub fn step_down(world: &mut World<'_>, schedule: &mut Bytes, p: u8) -> Result<(), Memory>
    requires reached { IsReached world.old }
    requires can { can_step world.old p ≡ true }
    ensures world { OnOk result (world.new ≡ stepped world.old p) }
    ensures schedule { OnOk result (schedule.new ≡ schedule.old ++ p ∷ []) }
    ensures same_world { OnErr result (world.new ≡ world.old) }
    ensures same_schedule { OnErr result (schedule.new ≡ schedule.old) }
    ensures comes { OnOk result (Takes world.old (p ∷ []) world.new) }
    ensures kept { IsReached world.new }
{
    let count = schedule.len();
    schedule.push(p)?;
    match world.step(p) {
        Ok(()) => Ok(()),
        Err(_) => {
            schedule.truncate(count);
            Err(Memory)
        }
    }
}
