ghost use Rattle.ppd_model.specs.Setting.{setting_of};
ghost use Rattle.std.specs.Prelude.{◌≡◌, ◌+◌, ◌*◌, ◌<◌, ◌≤◌, ◌^◌, [], fold, length, IfOk, OnOk};
ghost use Rattle.ppd_model.specs.declared.tracing.Tracing.{Tracing};
ghost use Rattle.ppd_model.specs.FullTrace.{begun_tracing, trace_step as step_of, tracing_of};
ghost use Rattle.ppd_model.specs.LocalTags.{AreOwn};
ghost use Rattle.ppd_sem.specs.Runs.{IsNumbered, IsRunnable, IsRunning};
ghost use Rattle.ppd_trace.specs.Runs.{tracer_of};
ghost use Rattle.ppd_trace.specs.Spending.{cells_of_step, most_statement_cells};
ghost use Rattle.ppd_trace.specs.Subjects.{ArePaired, HasBody, IsToTrace, added, body_size, started_with, stepped};
ghost use Rattle.ppd_trace.specs.Tagging.{answers_by};

use crate::activations::begin_body;
use crate::events::add_event;
use crate::subject::Subject;
use crate::tracer::Tracer;
use ppd_activations::Run;
use ppd_ast::{Memory, Seq, Steps};
use ppd_model::{EventId, Taken, TracedEvent};
use ppd_sem::{Need, Proc, Stack, local_cells, meet};
use std::alloc::Global;
use std::sync::ledger::Ledger;

/// Keeps the writer of a read for the event that it is of.
fn keep_answer<L: Ledger>(
    taken: &Taken,
    answers: &mut Seq<Option<EventId>>,
    steps: &mut Steps<L>,
) -> Result<(), Memory>
    ensures value { OnOk result (answers.new ≡ answers_by taken.now.need taken.now.writer answers.old) }
    ensures cost { steps.new ≤ steps.old + 1 }
{
    match taken.need {
        Need::Read(_) => {
            steps.tick();
            answers.push(taken.writer)
        }
        _ => Ok(()),
    }
}

/// What a step adds to the trace of its process. The state of the process stays.
fn trace_by<L: Ledger>(
    subject: &Subject,
    taken: &Taken,
    tracer: &mut Tracer,
    steps: &mut Steps<L>,
) -> Result<(), Memory>
    requires { IsToTrace subject.now tracer.old taken.now }
    ensures value { OnOk result (tracer.new ≡ added subject.now taken.now tracer.old) }
    ensures cost { steps.new
        ≤ steps.old + 10
        + 3 * cells_of_step subject.now.program.now subject.now.plan.now tracer.old.proc taken.now }
{
    if taken.need.is_event() {
        return add_event(subject, taken, tracer, steps);
    }
    keep_answer(taken, &mut tracer.answers, steps)
}

/// Takes a step of a process and adds it to its trace. `Memory` is want of memory.
fn trace_step<L: Ledger>(
    subject: &Subject,
    taken: &Taken,
    tracer: &mut Tracer,
    steps: &mut Steps<L>,
) -> Result<(), Memory>
    requires { IsToTrace subject.now tracer.old taken.now }
    ensures ok { OnOk result (tracer.new ≡ stepped subject.now taken.now tracer.old) }
    ensures kept { OnOk result (IsRunning subject.now.program.now tracer.new.proc) }
    ensures cost { steps.new ≤ steps.old + 11 + 3 * most_statement_cells subject.now.program.now }
{
    trace_by(subject, taken, tracer, steps)?;
    steps.tick();
    meet(
        subject.program,
        subject.plan,
        &mut tracer.proc,
        taken.need,
        &taken.answer,
    )
}

/// A process before its first step, with the run of its body.
fn tracer_with(alloc: Global, proc: Proc, runs: Stack<Run>) -> Tracer
    ensures { result ≡ record { proc = proc; runs = runs; answers = []; events = [] } }
{
    Tracer {
        proc,
        runs,
        answers: Seq::new(alloc),
        events: Seq::new(alloc),
    }
}

/// A process before its first step: nothing is written.
fn begin<L: Ledger>(subject: &Subject, budget: u32, steps: &mut Steps<L>) -> Result<Tracer, Memory>
    requires program { IsRunnable subject.now.program.now }
    requires body { HasBody subject.now }
    ensures begun { IfOk result
        (λ tracer. tracer ≡ tracer_of (begun_tracing (started_with subject.now budget))) }
    ensures running { IfOk result (λ tracer. IsRunning subject.now.program.now tracer.proc) }
    ensures cost { steps.new ≤ steps.old + 2 + 2 * body_size subject.now }
{
    steps.tick();
    let alloc = subject.alloc;
    let proc = Proc::start(
        alloc,
        subject.program,
        subject.plan,
        subject.process,
        budget,
    )?;
    match begin_body(alloc, local_cells(&proc).len(), steps) {
        Ok(runs) => Ok(tracer_with(alloc, proc, runs)),
        Err(error) => {
            drop(proc);
            Err(error)
        }
    }
}

/// Takes these steps of a process, which has no event yet, and adds them to its trace.
fn trace_steps<L: Ledger>(
    subject: &Subject,
    own: &[Taken],
    tracer: &mut Tracer,
    steps: &mut Steps<L>,
) -> Result<(), Memory>
    requires program { IsRunnable subject.now.program.now }
    requires plan { IsNumbered subject.now.plan.now }
    requires pairs { ArePaired subject.now.program.now subject.now.told.now }
    requires few { length own.now < 2 ^ 32 }
    requires own { AreOwn subject.now.program.now subject.now.plan.now tracer.old.proc own.now }
    requires running { IsRunning subject.now.program.now tracer.old.proc }
    requires none { length tracer.old.events ≤ 0 }
    ensures traced { OnOk result
        ((first : Tracing)
        → tracer.old ≡ tracer_of first
        → tracer.new
        ≡ tracer_of
        (fold (step_of subject.now.program.now subject.now.plan.now subject.now.told.now.story subject.now.process)
        first own.now)) }
    ensures cost { steps.new
        ≤ steps.old + (3 * most_statement_cells subject.now.program.now + 12) * length own.now }
{
    for taken in own {
        steps.tick();
        trace_step(subject, taken, tracer, steps)?;
    }
    Ok(())
}

/// The events of a process that took these steps.
pub(crate) fn trace_process<L: Ledger>(
    subject: &Subject,
    budget: u32,
    own: &[Taken],
    steps: &mut Steps<L>,
) -> Result<Seq<TracedEvent>, Memory>
    requires program { IsRunnable subject.now.program.now }
    requires plan { IsNumbered subject.now.plan.now }
    requires body { HasBody subject.now }
    requires pairs { ArePaired subject.now.program.now subject.now.told.now }
    requires few { length own.now < 2 ^ 32 }
    requires own { AreOwn subject.now.program.now subject.now.plan.now (started_with subject.now budget) own.now }
    ensures events { IfOk result
        (λ events. events
        ≡ (tracing_of (setting_of subject.now.program.now subject.now.plan.now budget)
        subject.now.told.now.story subject.now.process own.now).events) }
    ensures cost { steps.new
        ≤ steps.old + 2 + 2 * body_size subject.now
        + (3 * most_statement_cells subject.now.program.now + 12) * length own.now }
{
    let mut tracer = begin(subject, budget, steps)?;
    let done = trace_steps(subject, own, &mut tracer, steps);
    done.and(Ok(tracer.events))
}
