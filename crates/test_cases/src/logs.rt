// What a schedule of a source logs, and how its processes end, as text.

use crate::content::{first_word, number};
use crate::fault::Fault;
use crate::said::schedule_of;
use crate::worlds::{drive, drive_lowest};
use ppd_ast::limits::MOST_POLICY;
use ppd_ast::{Plan, Program, Status, SyncKind, Trap};
use ppd_blocks::partition;
use ppd_check::read_source;
use ppd_model::{Closed, Entry, Logs, ProcEnd};
use ppd_top::Options;
use std::alloc::{AllocError, Global};

/// The most steps that the lowest enabled process takes.
const MOST_STEPS: u32 = 140_000;

/// The program and the plan of a source. None where the source is refused, the policy is not valid, or memory is
/// wanting.
pub(crate) fn parts(alloc: Global, source: &[u8], options: &Options) -> Option<(Program, Plan)> {
    let policy = options.policy;
    if policy.leaf > MOST_POLICY || policy.loops > MOST_POLICY {
        return None;
    }
    let Ok(program) = read_source(alloc, source) else {
        return None;
    };
    let Ok(plan) = partition(alloc, &program, &policy) else {
        return None;
    };
    Some((program, plan))
}

/// The closed run of a source by its lowest enabled process.
fn run_lowest(alloc: Global, source: &[u8], options: &Options) -> Option<Closed> {
    let (program, plan) = parts(alloc, source, options)?;
    drive_lowest(alloc, &program, &plan, options.budget, MOST_STEPS)
}

/// The closed run of a source by a schedule that is whole.
fn run_by(alloc: Global, source: &[u8], options: &Options, schedule: &[u8]) -> Option<Closed> {
    let (program, plan) = parts(alloc, source, options)?;
    drive(alloc, &program, &plan, options.budget, schedule)
}

/// The closed run of a source by its lowest enabled process, where that is said, or by a schedule.
fn run(alloc: Global, source: &[u8], options: &Options, how: &str) -> Result<Closed, Fault> {
    let closed = if how == "lowest" {
        run_lowest(alloc, source, options)
    } else {
        run_by(alloc, source, options, &schedule_of(alloc, how)?)
    };
    closed.ok_or(Fault::Line)
}

// ---- entries

fn told_kind(kind: SyncKind) -> &'static str {
    match kind {
        SyncKind::P => "P",
        SyncKind::V => "V",
        SyncKind::Send => "Send",
        SyncKind::Recv => "Recv",
        SyncKind::Done => "Done",
    }
}

fn told_status(status: Status) -> &'static str {
    match status {
        Status::Ended => "Ended",
        Status::Trap(Trap::Overflow) => "Trap(Overflow)",
        Status::Trap(Trap::Zero) => "Trap(Zero)",
        Status::Trap(Trap::Index) => "Trap(Index)",
        Status::Trap(Trap::Assert) => "Trap(Assert)",
        Status::Trap(Trap::Depth) => "Trap(Depth)",
        Status::Budget => "Budget",
        Status::Blocked => "Blocked",
    }
}

/// A synchronization: its kind, object, number and value, and the cells read and written before it.
fn told_sync(
    alloc: Global,
    kind: SyncKind,
    [object, number]: [u32; 2],
    value: i64,
    [reads, writes]: [&[u16]; 2],
) -> Result<String, AllocError> {
    let kind = told_kind(kind);
    format!(in alloc; "{kind} {object} {number} value {value} reads {reads:?} writes {writes:?}\n")
}

/// An entry of a log. An end has its status and the rest, and the cells read and written before it.
fn told_entry(alloc: Global, entry: &Entry) -> Result<String, AllocError> {
    match entry {
        Entry::Prelog { block, values } => {
            format!(in alloc; "prelog {block} {:?}\n", values.as_slice())
        }
        Entry::Unit { unit, values } => format!(in alloc; "unit {unit} {:?}\n", values.as_slice()),
        Entry::Sync {
            kind,
            object,
            number,
            value,
            reads,
            writes,
        } => {
            let cells = [reads.as_slice(), writes.as_slice()];
            told_sync(alloc, *kind, [u32::from(*object), *number], *value, cells)
        }
        Entry::Postlog { block, values } => {
            format!(in alloc; "postlog {block} {:?}\n", values.as_slice())
        }
        Entry::End {
            status,
            rest,
            reads,
            writes,
        } => {
            let (reads, writes) = (reads.as_slice(), writes.as_slice());
            let status = told_status(*status);
            format!(in alloc; "{status} {rest} reads {reads:?} writes {writes:?}\n")
        }
    }
}

fn told_entries(alloc: Global, entries: &[Entry]) -> Result<String, AllocError> {
    let mut text = String::new(alloc);
    for entry in entries {
        let told = told_entry(alloc, entry)?;
        text.push_str(&told)?;
    }
    Ok(text)
}

/// The entries of each process.
pub(crate) fn told_logs(alloc: Global, logs: &Logs) -> Result<String, AllocError> {
    let mut text = String::new(alloc);
    for log in logs.lists.as_slice() {
        let told = told_entries(alloc, log.as_slice())?;
        text.push_str("log\n")?;
        text.push_str(&told)?;
    }
    Ok(text)
}

/// All entries of a process, or the one of this number.
fn told_log(alloc: Global, logs: &Logs, process: usize, which: &str) -> Result<String, Fault> {
    let log = logs.lists.as_slice().get(process).ok_or(Fault::Line)?;
    let entries = log.as_slice();
    if which == "all" {
        return Ok(told_entries(alloc, entries)?);
    }
    match entries.get(number(which)? as usize) {
        Some(entry) => Ok(told_entry(alloc, entry)?),
        None => Err(Fault::Line),
    }
}

/// What a process of a source logs: the process, the number of an entry or `all`, and then a schedule or `lowest`.
pub(crate) fn logged(
    alloc: Global,
    source: &[u8],
    options: &Options,
    rest: &str,
) -> Result<String, Fault> {
    let (process, rest) = first_word(rest);
    let (which, how) = first_word(rest);
    let process = number(process)? as usize;
    let closed = run(alloc, source, options, how)?;
    told_log(alloc, &closed.logs, process, which)
}

// ---- ends

/// How each process ended: its status, its statement, and after how many steps.
fn told_ends(alloc: Global, ends: &[ProcEnd]) -> Result<String, AllocError> {
    let mut text = String::new(alloc);
    for end in ends {
        let status = told_status(end.status);
        let told = format!(in alloc; "{status} {} steps {}\n", end.stmt, end.steps)?;
        text.push_str(&told)?;
    }
    Ok(text)
}

/// How the processes of a source end, by a schedule or by the lowest enabled process.
pub(crate) fn ended(
    alloc: Global,
    source: &[u8],
    options: &Options,
    how: &str,
) -> Result<String, Fault> {
    let closed = run(alloc, source, options, how)?;
    Ok(told_ends(alloc, closed.ends.as_slice())?)
}
