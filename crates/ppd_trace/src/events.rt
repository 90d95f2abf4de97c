ghost use Rattle.std.specs.Prelude.{◌≡◌, ◌+◌, ◌*◌, ◌≤◌, true, length, IfOk, OnOk};
ghost use Rattle.ppd_model.specs.FullTrace.{event_of as event_of_step};
ghost use Rattle.ppd_sem.specs.Described.{is_event};
ghost use Rattle.ppd_sem.specs.Process.{need_of};
ghost use Rattle.ppd_sem.specs.Runs.{IsNumbered, IsRunnable, IsRunning};
ghost use Rattle.ppd_trace.specs.Runs.{parent_at as parent_at_todo, traced_by as traced_by_step, with_event};
ghost use Rattle.ppd_trace.specs.Spending.{cells_of_step};
ghost use Rattle.ppd_trace.specs.Subjects.{ArePaired, IsToTrace};

use crate::activations::tag_writes;
use crate::pairs::paired;
use crate::reads::tags_of;
use crate::subject::Subject;
use crate::tracer::Tracer;
use ppd_activations::{Run, add_test, parent_of, top_tags};
use ppd_ast::{Memory, Program, Steps};
use ppd_model::{EventId, Taken, TracedEvent};
use ppd_sem::{Event, Proc, Stack, describe, next_stmt};
use std::sync::ledger::Ledger;

/// The event of a process's next step, with the number of a synchronization.
fn event_of<L: Ledger>(
    subject: &Subject,
    proc: &Proc,
    taken: &Taken,
    steps: &mut Steps<L>,
) -> Result<Event, Memory>
    requires program { IsRunnable subject.now.program.now }
    requires plan { IsNumbered subject.now.plan.now }
    requires proc { IsRunning subject.now.program.now proc.now }
    requires need { taken.now.need ≡ need_of subject.now.program.now subject.now.plan.now proc.now }
    requires event { is_event taken.now.need ≡ true }
    ensures value { IfOk result
        (λ event. event
        ≡ event_of_step subject.now.program.now subject.now.plan.now proc.now taken.now proc.now.todo) }
    ensures cost { steps.new ≡ steps.old + 1 }
{
    steps.tick();
    let mut event = describe(
        subject.alloc,
        subject.program,
        subject.plan,
        proc,
        &taken.answer,
    )?;
    event.number = taken.number;
    Ok(event)
}

/// The control parent of the event that comes next, and None where nothing is to do. It takes two look-ups.
fn parent_at<L: Ledger>(
    program: &Program,
    runs: &Stack<Run>,
    proc: &Proc,
    steps: &mut Steps<L>,
) -> Option<EventId>
    ensures value { result ≡ parent_at_todo program.now runs.now proc.now.todo }
    ensures cost { steps.new ≤ steps.old + 2 }
{
    match next_stmt(proc) {
        Some(stmt) => parent_of(program, runs, stmt, steps),
        None => None,
    }
}

/// The event with the writers of its reads, its parent and its pair.
fn traced_by<L: Ledger>(
    subject: &Subject,
    taken: &Taken,
    tracer: &Tracer,
    event: Event,
    steps: &mut Steps<L>,
) -> Result<TracedEvent, Memory>
    requires pairs { ArePaired subject.now.program.now subject.now.told.now }
    ensures value { IfOk result
        (λ traced. traced
        ≡ traced_by_step subject.now.program.now subject.now.told.now.story taken.now tracer.now event) }
    ensures cost { steps.new ≤ steps.old + 3 + 2 * length event.reads }
{
    let writers = tags_of(
        subject.alloc,
        top_tags(&tracer.runs),
        tracer.answers.as_slice(),
        event.reads.as_slice(),
        steps,
    )?;
    let parent = parent_at(subject.program, &tracer.runs, &tracer.proc, steps);
    let paired = paired(subject.program, subject.told, taken, steps);
    Ok(TracedEvent {
        event,
        writers,
        parent,
        paired,
    })
}

/// Appends the event of a step that finishes or traps a statement, and writes the tags of what it
/// writes. The state of the process stays. `Memory` is want of memory.
pub(crate) fn add_event<L: Ledger>(
    subject: &Subject,
    taken: &Taken,
    tracer: &mut Tracer,
    steps: &mut Steps<L>,
) -> Result<(), Memory>
    requires next { IsToTrace subject.now tracer.old taken.now }
    requires event { is_event taken.now.need ≡ true }
    ensures value { OnOk result
        (tracer.new
        ≡ with_event subject.now.program.now subject.now.plan.now subject.now.told.now.story subject.now.process
        taken.now tracer.old) }
    ensures cost { steps.new
        ≤ steps.old + 10
        + 3 * cells_of_step subject.now.program.now subject.now.plan.now tracer.old.proc taken.now }
{
    let me = EventId {
        process: subject.process,
        number: tracer.events.len() as u32,
    };
    let event = event_of(subject, &tracer.proc, taken, steps)?;
    let traced = traced_by(subject, taken, tracer, event, steps)?;
    add_test(subject.program, me, &traced.event, &mut tracer.runs, steps)?;
    tag_writes(
        subject,
        &tracer.proc,
        taken.need,
        me,
        &mut tracer.runs,
        steps,
    )?;
    tracer.answers.clear();
    steps.tick();
    tracer.events.push(traced)
}
