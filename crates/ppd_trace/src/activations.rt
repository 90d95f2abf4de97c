ghost use Rattle.std.specs.Prelude.{◌≡◌, ◌+◌, ◌*◌, ◌≤◌, length, Some, IfOk, OnOk};
ghost use Rattle.ppd_sem.specs.Passed.{arguments_at, deed_at};
ghost use Rattle.ppd_sem.specs.Runs.{IsRunnable, IsRunning};
ghost use Rattle.ppd_trace.specs.Runs.{all_tagged, begun_body, begun_call, tagged_after, tagged_deed};
ghost use Rattle.ppd_trace.specs.Spending.{written_by};
ghost use Rattle.ppd_sem.specs.Process.{top_frame};
ghost use Rattle.ppd_ast.specs.Lookups.{body_numbered};

use crate::subject::Subject;
use ppd_activations::{Run, begun_run, called_run, return_tag, set_tag};
use ppd_ast::{Memory, Steps};
use ppd_model::EventId;
use ppd_sem::{Effect, Need, Proc, Stack, call_values, next_effect};
use std::alloc::Global;
use std::sync::ledger::Ledger;

/// Writes the tag of each local cell of an array.
fn set_tags<L: Ledger>(
    runs: &mut Stack<Run>,
    base: u16,
    len: u16,
    tag: Option<EventId>,
    steps: &mut Steps<L>,
) -> Result<(), Memory>
    ensures value { OnOk result (runs.new ≡ all_tagged base len tag runs.old) }
    ensures cost { steps.new ≤ steps.old + 3 * len }
{
    for index in 0..len {
        steps.tick();
        set_tag(runs, base as usize + index as usize, tag, steps)?;
    }
    Ok(())
}

/// The call that began the top frame.
fn call_of(proc: &Proc) -> Option<u32>
    ensures { result ≡ (top_frame proc.now.frames).call }
{
    match proc.frames.top() {
        Some(frame) => frame.call,
        None => None,
    }
}

/// Begins the run of a function.
fn begin_call<L: Ledger>(
    subject: &Subject,
    proc: &Proc,
    function: u16,
    tag: Option<EventId>,
    runs: &mut Stack<Run>,
    steps: &mut Steps<L>,
) -> Result<(), Memory>
    requires program { IsRunnable subject.now.program.now }
    requires proc { IsRunning subject.now.program.now proc.now }
    ensures value { OnOk result (runs.new ≡ begun_call subject.now.program.now proc.now function tag runs.old) }
    ensures cost { steps.new
        ≤ steps.old + 2
        + 2 * (length (arguments_at subject.now.program.now proc.now)
        + (body_numbered subject.now.program.now function).cells) }
{
    steps.tick();
    let values = call_values(subject.alloc, subject.program, proc)?;
    let run = called_run(
        subject.alloc,
        subject.program,
        function,
        values.len(),
        tag,
        steps,
    )?;
    steps.tick();
    runs.push(run)
}

/// Writes the tags of what the head statement writes, which finishes.
fn tag_head<L: Ledger>(
    subject: &Subject,
    proc: &Proc,
    tag: Option<EventId>,
    runs: &mut Stack<Run>,
    steps: &mut Steps<L>,
) -> Result<(), Memory>
    requires program { IsRunnable subject.now.program.now }
    requires proc { IsRunning subject.now.program.now proc.now }
    ensures value { OnOk result
        (runs.new
        ≡ tagged_deed subject.now.program.now proc.now tag (deed_at subject.now.program.now proc.now) runs.old) }
    ensures cost { steps.new
        ≤ steps.old + 3
        + 3 * written_by subject.now.program.now proc.now (deed_at subject.now.program.now proc.now) }
{
    steps.tick();
    match next_effect(subject.program, proc) {
        Some(Effect::SetLocal(cell, _)) => set_tag(runs, cell as usize, tag, steps),
        Some(Effect::Clear(base, len)) => set_tags(runs, base, len, tag, steps),
        Some(Effect::Invoke(function, _)) => {
            begin_call(subject, proc, function, tag, runs, steps)
        }
        Some(Effect::Back(value)) => {
            return_tag(subject.program, call_of(proc), value, tag, runs, steps)
        }
        Some(Effect::Receive(_, into)) => set_tag(runs, into as usize, tag, steps),
        _ => Ok(()),
    }
}

/// Writes the tags of what an event writes; one that traps writes nothing. `Memory` is want of
/// memory.
pub(crate) fn tag_writes<L: Ledger>(
    subject: &Subject,
    proc: &Proc,
    need: Need,
    me: EventId,
    runs: &mut Stack<Run>,
    steps: &mut Steps<L>,
) -> Result<(), Memory>
    requires program { IsRunnable subject.now.program.now }
    requires proc { IsRunning subject.now.program.now proc.now }
    ensures value { OnOk result (runs.new ≡ tagged_after subject.now.program.now proc.now (Some me) need runs.old) }
    ensures cost { steps.new
        ≤ steps.old + 3
        + 3 * written_by subject.now.program.now proc.now (deed_at subject.now.program.now proc.now) }
{
    match need {
        Need::Trap(_) => Ok(()),
        _ => tag_head(subject, proc, Some(me), runs, steps),
    }
}

/// The run of a process's body before its first step: nothing is written.
pub(crate) fn begin_body<L: Ledger>(
    alloc: Global,
    count: usize,
    steps: &mut Steps<L>,
) -> Result<Stack<Run>, Memory>
    ensures value { IfOk result (λ runs. runs ≡ begun_body count) }
    ensures cost { steps.new ≤ steps.old + 2 * count + 1 }
{
    let run = begun_run(alloc, count, steps)?;
    let mut runs = Stack::new(alloc);
    steps.tick();
    runs.push(run)?;
    Ok(runs)
}
