// The full trace of a schedule, in short.

use crate::fault::Fault;
use crate::logs::parts;
use crate::said::schedule_of;
use ppd_ast::limits::MOST_BUDGET;
use ppd_model::Trace;
use ppd_top::Options;
use ppd_trace::full_trace;
use std::alloc::{AllocError, Global};
use test_valid::{is_valid_plan, is_valid_program};

/// The full trace of a schedule that is whole.
fn trace_of(alloc: Global, source: &[u8], options: &Options, schedule: &[u8]) -> Option<Trace> {
    let (program, plan) = parts(alloc, source, options)?;
    if options.budget > MOST_BUDGET
        || !is_valid_program(&program)
        || !is_valid_plan(&plan, &program)
    {
        return None;
    }
    full_trace(alloc, &program, &plan, options.budget, schedule).ok()
}

/// How many events each process has.
fn told_counts(alloc: Global, trace: &Trace) -> Result<String, AllocError> {
    let mut text = String::new(alloc);
    for events in trace.events.as_slice() {
        let told = format!(in alloc; "events {}\n", events.len())?;
        text.push_str(&told)?;
    }
    Ok(text)
}

/// How many events the full trace of a schedule has of each process.
pub(crate) fn traced(
    alloc: Global,
    source: &[u8],
    options: &Options,
    rest: &str,
) -> Result<String, Fault> {
    let schedule = schedule_of(alloc, rest)?;
    match trace_of(alloc, source, options, &schedule) {
        Some(trace) => Ok(told_counts(alloc, &trace)?),
        None => Err(Fault::Line),
    }
}
