// Worlds, driven by a schedule or by the lowest enabled process.

ghost use Rattle.std.specs.Prelude.{IfSome};
ghost use Rattle.ppd_world.specs.Running.{IsReached};

use ppd_ast::limits::MOST_BUDGET;
use ppd_ast::{Memory, Plan, Program};
use ppd_model::Closed;
use ppd_world::World;
use std::alloc::Global;
use test_valid::{is_valid_plan, is_valid_program};

/// The world before its first step. None where program, plan or budget is not valid.
fn start<'a>(alloc: Global, program: &'a Program, plan: &'a Plan, budget: u32) -> Option<World<'a>>
    ensures { IfSome result (λ world. IsReached world) }
{
    if budget > MOST_BUDGET || !is_valid_program(program) || !is_valid_plan(plan, program) {
        return None;
    }
    World::new(alloc, program, plan, budget).ok()
}

/// The closed run, where nobody is enabled.
fn close(world: World) -> Option<Closed>
    requires { IsReached world }
{
    if world.over() {
        world.close().ok()
    } else {
        None
    }
}

/// Drives the program by the schedule, and closes it. None where the schedule is not whole.
pub(crate) fn drive(
    alloc: Global,
    program: &Program,
    plan: &Plan,
    budget: u32,
    schedule: &[u8],
) -> Option<Closed> {
    let mut world = start(alloc, program, plan, budget)?;
    world.drive(schedule).ok()?;
    close(world)
}

/// Takes the step of the lowest process that is enabled, if one is.
fn step_lowest(world: &mut World) -> Result<(), Memory>
    requires { IsReached world.old }
    ensures { IsReached world.new }
{
    match world.lowest() {
        Some(p) => world.step(p),
        None => Ok(()),
    }
}

/// Drives the program by its lowest enabled process for at most so many steps, and closes it where
/// nobody is enabled then.
pub(crate) fn drive_lowest(
    alloc: Global,
    program: &Program,
    plan: &Plan,
    budget: u32,
    steps: u32,
) -> Option<Closed> {
    let mut world = start(alloc, program, plan, budget)?;
    for _ in 0..steps {
        if world.over() {
            return close(world);
        }
        step_lowest(&mut world).ok()?;
    }
    close(world)
}
