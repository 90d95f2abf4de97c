// The command `drill`: `flow` on a source that a number makes, with one line in place of the input.
ghost use Rattle.std.specs.Prelude.{◌≤◌};
ghost use Rattle.ppd_ast.specs.Valid.{IsValid};
ghost use Rattle.ppd_ast.specs.declared.limits.TheConstants.{MOST_DRILL};
ghost use Rattle.ppd_top.specs.Ran.{Drilled, Drills};

use crate::call::refuse;
use ppd_ast::limits::MOST_BUDGET;
use ppd_ast::{Policy, Program};
use ppd_check::read_source;
use ppd_io::{CHUNK_BYTES, Gate, Sink, SteadySource};
use ppd_top_commands::flow;
use ppd_top_drill::{drills_are_read, generate};
use ppd_top_requests::Options;
use ppd_top_runs::{Means, Outcome, Task, ended};
use std::sync::Wait;
use std::thread::Threads;

/// All that is asked of a drill.
const COMMANDS: &[u8] = b"final\n";

/// Runs a program as a drill, writes its summary, and answers `final`.
fn drill_program<O: Sink, G: Gate, R: Threads + Wait + Sync>(
    means: &Means<'_, R, G>,
    program: &Program,
    output: &mut O,
) -> Outcome
    requires { IsValid program.now }
    ensures { Drills program.now result.schedule (O.written output.old) (O.written output.new) (O.faults output.old)
        (O.faults output.new) result.status }
{
    let Ok(commands) = Vec::from_slice(means.alloc, COMMANDS) else {
        return ended(means.alloc, 5);
    };
    let mut input = SteadySource::new(commands, CHUNK_BYTES);
    let task = Task {
        program,
        options: Options {
            budget: MOST_BUDGET,
            policy: Policy { leaf: 0, loops: 0 },
        },
    };
    flow(means, &task, &mut input, output)
}

/// Makes the source of a number, runs it, and writes its summary and its last values. A source that has a program is
/// refused for want of memory alone.
pub(crate) fn drill<O: Sink, G: Gate, R: Threads + Wait + Sync>(
    means: &Means<'_, R, G>,
    number: u32,
    output: &mut O,
) -> Outcome
    requires { number ≤ MOST_DRILL }
    ensures { Drilled number result.schedule (O.written output.old) (O.written output.new) (O.faults output.old)
        (O.faults output.new) result.status }
{
    drills_are_read();
    let Ok(source) = generate(means.alloc, number) else {
        return ended(means.alloc, 5);
    };
    match read_source(means.alloc, &source) {
        Err(error) => refuse(means.alloc, error, output),
        Ok(program) => {
            let outcome = drill_program(means, &program, output);
            drop(program);
            outcome
        }
    }
}
