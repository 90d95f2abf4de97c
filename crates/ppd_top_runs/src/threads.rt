// The threads of a run: one for each process.
ghost use Rattle.ppd_model.specs.Setting.{setting_of};
ghost use Rattle.std.specs.Prelude.{◌≡◌, ◌≤◌, [], IfOk};
ghost use Rattle.ppd_ast.specs.Valid.{IsValid};
ghost use Rattle.ppd_ast.specs.ValidPlan.{IsValidPlan};
ghost use Rattle.ppd_ast.specs.declared.limits.TheConstants.{MOST_BUDGET};
ghost use Rattle.ppd_book.specs.Turns.{KeepsBudget, RanToEnd};
ghost use Rattle.ppd_world.specs.Running.{IsOf, IsReached};

use ppd_ast::{Memory, Plan, Program};
use ppd_book::{Book, Commit, Going, Job, Ran, Turn, View};
use ppd_io::Gate;
use ppd_world::World;
use std::alloc::Global;
use std::marker::Brand;
use std::sync::Wait;
use std::thread;
use std::thread::Threads;

/// Runs a valid program to its end by one thread for each process, and answers the schedule that the
/// threads took with its closed state. In a round a thread takes up to 64 steps of its own process on a copy,
/// off the lock, as long as these need nothing but the process, and commits them at once. Where it has none, or
/// its process was stepped meanwhile, it steps its own process if that can take a step, else the lowest
/// process that can. The budget, at most 500,000, is that of each process. `Memory` is want of memory.
///
/// A thread passes the gate off the lock, with the number of the process and a count of its passes, from 0:
/// before each view, before each commit, and before a turn that follows a commit in vain.
pub fn run<G: Gate, R: Threads + Wait + Sync>(
    rt: &R,
    alloc: Global,
    program: &Program,
    plan: &Plan,
    budget: u32,
    gate: &G,
) -> Result<Ran, Memory>
    requires program { IsValid program.now }
    requires plan { IsValidPlan program.now plan.now }
    requires budget { budget ≤ MOST_BUDGET }
    ensures end { IfOk result (RanToEnd (setting_of program.now plan.now budget)) }
    ensures bounded { IfOk result (λ ran. KeepsBudget program.now budget ran.schedule) }
{
    let world = World::new(alloc, program, plan, budget)?;
    run_as::<Brand, G, R>(rt, alloc, world, budget, gate)
}

/// The run that `J` names, from its world before the first step.
fn run_as<J: Job + Send + Sync, G: Gate, R: Threads + Wait + Sync>(
    rt: &R,
    alloc: Global,
    world: World<'_>,
    budget: u32,
    gate: &G,
) -> Result<Ran, Memory>
    requires setting { world.setting ≡ J.setting }
    requires first { IsOf [] world }
    requires reached { IsReached world }
    ensures end { IfOk result (RanToEnd J.setting) }
    ensures bounded { IfOk result (λ ran. KeepsBudget J.setting.program J.setting.budget ran.schedule) }
{
    let processes = world.process_count();
    let book: Book<'_, J> = Book::new(alloc, world);
    let rounds = (u64::from(budget) + 1) * u64::from(processes);
    share(rt, &book, gate, processes, rounds);
    book.close()
}

/// One thread for each process. What a thread would have taken that can't be started is left to the others,
/// and to the caller.
fn share<'x, 'a, J: Job + Send + Sync, G: Gate, R: Threads + Wait + Sync>(
    rt: &'x R,
    book: &'x Book<'a, J>,
    gate: &'x G,
    processes: u8,
    rounds: u64,
) {
    thread::scope(thread::scope_env(), rt, |scope| {
        for worker in 0..processes {
            let started = scope.spawn(move || work(rt, book, gate, worker, rounds));
            let _ = started.is_err();
        }
    });
}

/// The rounds of one worker, at most so many, until nobody can take a step or memory is wanting.
fn work<J: Job, G: Gate, R: Wait>(rt: &R, book: &Book<'_, J>, gate: &G, number: u8, rounds: u64) {
    let mut passes = Passes {
        gate,
        worker: number,
        count: 0,
    };
    for _ in 0..rounds {
        if !take_round(rt, book, &mut passes) {
            return;
        }
    }
}

/// How often a worker has passed the gate.
#[derive(Drop)]
struct Passes<'x, G: Gate> {
    gate: &'x G,
    worker: u8,
    count: u32,
}

impl<'x, G: Gate> Passes<'x, G> {
    fn pass(&mut self) {
        self.gate.pass(self.worker, self.count);
        self.count = self.count.saturating_add(1);
    }
}

/// One round: with a view its steps are committed, without one a turn is taken. Whether there may be another.
fn take_round<J: Job, G: Gate, R: Wait>(
    rt: &R,
    book: &Book<'_, J>,
    passes: &mut Passes<'_, G>,
) -> bool {
    passes.pass();
    match book.go(rt, passes.worker) {
        Ok(Going::Viewed(view)) => take_view(rt, book, view, passes),
        Ok(Going::Turned(turn)) => matches!(turn, Turn::Stepped(_)),
        Err(_) => false,
    }
}

/// Goes on with a view while it can, off the lock, and commits it. Where the process was stepped meanwhile, a turn
/// is taken. Whether there may be another round.
fn take_view<'a, J: Job, G: Gate, R: Wait>(
    rt: &R,
    book: &Book<'a, J>,
    mut view: View<'a, J>,
    passes: &mut Passes<'_, G>,
) -> bool {
    if go_on(&mut view).is_err() {
        drop(view);
        return false;
    }
    passes.pass();
    match book.commit(rt, view) {
        Ok(Commit::Done) => true,
        Ok(Commit::Stale) => {
            passes.pass();
            take_turn(rt, book, passes.worker)
        }
        Err(_) => false,
    }
}

/// Takes the steps of a view on its copy while it can go on. `Memory` is want of memory: some were taken.
fn go_on<J: Job>(view: &mut View<'_, J>) -> Result<(), Memory> {
    while view.more() {
        view.advance()?;
    }
    Ok(())
}

/// Whether the turn found a step to take.
fn take_turn<J: Job, R: Wait>(rt: &R, book: &Book<'_, J>, worker: u8) -> bool {
    matches!(book.turn(rt, worker), Ok(Turn::Stepped(_)))
}
