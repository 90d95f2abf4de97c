ghost use Rattle.std.specs.Prelude.{◌≤◌, IfOk};
ghost use Rattle.ppd_ast.specs.Valid.{IsValid};
ghost use Rattle.ppd_ast.specs.ValidPlan.{IsValidPolicy};
ghost use Rattle.ppd_ast.specs.declared.limits.TheConstants.{MOST_BUDGET};
ghost use Rattle.ppd_top_runs.specs.Runs.{IsRunOf};

use crate::threads::run;
use ppd_ast::{Bytes, Memory, Plan, Program};
use ppd_blocks::partition;
use ppd_io::Gate;
use ppd_model::Closed;
use ppd_top_requests::Options;
use std::alloc::Global;
use std::sync::Wait;
use std::thread::Threads;

/// What a run takes of the system, and the gate that its threads pass.
#[derive(Clone, Copy)]
pub struct Means<'a, R, G> {
    pub rt: &'a R,
    pub alloc: Global,
    pub gate: &'a G,
}

/// A program with its options.
#[derive(Clone, Copy)]
pub struct Task<'a> {
    pub program: &'a Program,
    pub options: Options,
}

/// A run that came to its end: its program with the plan and the budget of each process, its logs, and how the
/// processes ended.
#[derive(Drop)]
pub struct ClosedRun<'a> {
    pub program: &'a Program,
    pub plan: Plan,
    pub budget: u32,
    pub closed: Closed,
}

/// A run by threads, with the schedule that they took.
#[derive(Drop)]
pub struct RunByThreads<'a> {
    pub run: ClosedRun<'a>,
    pub schedule: Bytes,
}

/// Runs a program by threads from its start to its end.
pub fn run_task<'a, G: Gate, R: Threads + Wait + Sync>(
    means: &Means<'_, R, G>,
    task: &Task<'a>,
) -> Result<RunByThreads<'a>, Memory>
    requires program { IsValid task.now.program.now }
    requires budget { task.now.options.budget ≤ MOST_BUDGET }
    requires policy { IsValidPolicy task.now.options.policy }
    ensures { IfOk result (λ by. IsRunOf task.now.program.now task.now.options by.schedule by.run) }
{
    let program = task.program;
    let budget = task.options.budget;
    let plan = partition(means.alloc, program, &task.options.policy)?;
    let ran = run(means.rt, means.alloc, program, &plan, budget, means.gate)?;
    Ok(RunByThreads {
        run: ClosedRun {
            program,
            plan,
            budget,
            closed: ran.closed,
        },
        schedule: ran.schedule,
    })
}
