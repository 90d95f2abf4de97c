// What the commands come to for a program.
ghost use Rattle.ppd_blocks.specs.Blocks.{plan_of};
ghost use Rattle.std.specs.Prelude.{◌≡◌, ◌≤◌, ℕ, List, [], IfOk, Option};
ghost use Rattle.ppd_ast.specs.Valid.{IsValid};
ghost use Rattle.ppd_ast.specs.ValidPlan.{IsValidPolicy};
ghost use Rattle.ppd_ast.specs.declared.limits.TheConstants.{MOST_BUDGET};
ghost use Rattle.ppd_text.specs.Table.{table_of};
ghost use Rattle.ppd_top_commands.specs.Output.{standing};
ghost use Rattle.ppd_top_commands.specs.Commands.{Flows, Shows};

use crate::telling::tell;
use ppd_ast::{Memory, Program, Seq};
use ppd_blocks::partition;
use ppd_io::{Gate, Sink, Source};
use ppd_sets::sets;
use ppd_text::table;
use ppd_top_output::finish;
use ppd_top_requests::Options;
use ppd_top_runs::{Means, Outcome, Task, ended, run_task};
use std::alloc::Global;
use std::sync::Wait;
use std::thread::Threads;

/// The static tables of a program and of its plan.
fn tables(alloc: Global, program: &Program, options: &Options) -> Result<Vec<u8>, Memory>
    requires program { IsValid program.now }
    requires policy { IsValidPolicy options.now.policy }
    ensures { IfOk result (λ text. text.items ≡ table_of program.now (plan_of program.now options.now.policy)) }
{
    let sets = sets(alloc, program)?;
    let Ok(plan) = partition(alloc, program, &options.policy) else {
        drop(sets);
        return Err(Memory);
    };
    let text = table(alloc, program, &sets, &plan);
    drop(plan);
    drop(sets);
    text
}

/// Writes the tables of a program.
pub fn show<O: Sink>(alloc: Global, task: &Task<'_>, output: &mut O) -> Outcome
    requires program { IsValid task.now.program.now }
    requires policy { IsValidPolicy task.now.options.policy }
    ensures { (left last : Option (List ℕ)) (reads : ℕ) → Shows task.now.program.now task.now.options result.schedule
        (standing left last reads (O.written output.old) (O.faults output.old))
        (standing left last reads (O.written output.new) (O.faults output.new)) result.status }
{
    match tables(alloc, task.program, &task.options) {
        Err(Memory) => ended(alloc, 5),
        Ok(text) => Outcome {
            status: finish(output, &text, 0),
            schedule: Seq::new(alloc),
        },
    }
}

/// Runs a program by threads from its start to its end, writes the summary, and answers the lines of the input.
pub fn flow<I: Source, O: Sink, G: Gate, R: Threads + Wait + Sync>(
    means: &Means<'_, R, G>,
    task: &Task<'_>,
    input: &mut I,
    output: &mut O,
) -> Outcome
    requires program { IsValid task.now.program.now }
    requires budget { task.now.options.budget ≤ MOST_BUDGET }
    requires policy { IsValidPolicy task.now.options.policy }
    ensures { Flows task.now.program.now task.now.options result.schedule
        (standing (I.left input.old) (I.before_last input.old)
        (I.faults input.old) (O.written output.old) (O.faults output.old))
        (standing (I.left input.new) (I.before_last input.new)
        (I.faults input.new) (O.written output.new) (O.faults output.new)) result.status }
{
    let Ok(by) = run_task(means, task) else {
        return ended(means.alloc, 5);
    };
    let status = tell(means.rt, means.alloc, &by.run, input, output);
    drop(by.run);
    Outcome {
        status,
        schedule: by.schedule,
    }
}
