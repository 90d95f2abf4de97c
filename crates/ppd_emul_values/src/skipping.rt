ghost use Rattle.std.specs.Prelude.{◌≡◌};
ghost use Rattle.ppd_emul_values.specs.Emulated.{IsAtNeed, IsTurn, replaying, skipped_over};
ghost use Rattle.ppd_sem.specs.Blocks.{head_stmt as head_stmt_of, unit_past as unit_past_of};
ghost use Rattle.ppd_sem.specs.Entries.{Begins};
ghost use Rattle.ppd_sem.specs.Runs.{IsNumbered};

use crate::replayer::{Code, Replayer, Turned};
use crate::units::take_unit;
use ppd_ast::{Plan, Start, Steps};
use ppd_model::EmulError;
use ppd_sem::{Need, Stack, Todo, find_unit, skip};
use std::sync::ledger::Ledger;

/// The statement of the head, and 0 where nothing is to do.
fn head_stmt(todo: &Stack<Todo>) -> u32
    ensures { result ≡ head_stmt_of todo.now }
{
    match todo.top() {
        Some(todo) => todo.stmt,
        None => 0,
    }
}

/// The unit that starts after a loop or a call.
fn unit_past(plan: &Plan, todo: &Stack<Todo>, need: Need) -> u16
    requires plan { IsNumbered plan.now }
    ensures { result ≡ unit_past_of plan.now todo.now need }
{
    match need {
        Need::Enter { .. } => find_unit(plan, Start::Exit(head_stmt(todo))),
        _ => find_unit(plan, Start::After(head_stmt(todo))),
    }
}

/// Goes past an interval that was left, in whose place its postlog is applied, and starts the unit after it.
/// `Diverged`: this unit is not the next piece. `Memory` is want of memory.
pub fn skip_over<L: Ledger>(
    code: &Code,
    state: &mut Replayer,
    need: Need,
    values: &[i64],
    steps: &mut Steps<L>,
) -> Result<Turned, EmulError>
    requires next { IsAtNeed code.now state.old need }
    requires begins { Begins need }
    ensures { IsTurn code.now state.old state.new steps.old steps.new result
        (skipped_over code.now.program.now code.now.plan.now need values.now (replaying state.old)) }
{
    let unit = unit_past(code.plan, &state.proc.todo, need);
    skip(code.program, code.plan, &mut state.proc, values);
    state.count(steps);
    state.pass();
    take_unit(code, state, unit)
}
