// The command `run`: a run whose recording is stored.
ghost use Rattle.ppd_race.specs.Races.{races_among, edges_of_logs};
ghost use Rattle.std.specs.Prelude.{◌≡◌, []};
ghost use Rattle.ppd_ast.specs.Valid.{IsValid};
ghost use Rattle.ppd_check.specs.Read.{IsRead};
ghost use Rattle.ppd_codec.specs.Recordings.{IsRecordingOf};
ghost use Rattle.ppd_codec_runs.specs.Recordings.{AreOfSomeRun};
ghost use Rattle.ppd_top_commands.specs.Commands.{Keeps, Records, keeping, header_of as header_for};
ghost use Rattle.ppd_top_requests.specs.Words.{AreInRange};
ghost use Rattle.ppd_top_runs.specs.Runs.{CanBeTold, run_setting};
ghost use Rattle.ppd_top_commands.specs.Summary.{summary_of};

use crate::telling::summarize;
use ppd_codec::Header;
use ppd_codec_runs::record;
use ppd_io::{Gate, Shelf, ShelfError, Sink};
use ppd_top_output::finish;
use ppd_top_requests::Options;
use ppd_top_runs::{ClosedRun, Means, Outcome, Task, ended, run_task};
use std::alloc::Global;
use std::sync::Wait;
use std::thread::Threads;

/// A program with its options, the source that it was read from, and the name under which its recording is stored.
#[derive(Clone, Copy)]
pub struct RecordTask<'a> {
    pub task: Task<'a>,
    pub source: &'a [u8],
    pub recording: &'a str,
}

fn header_of(options: &Options) -> Header
    ensures { result ≡ header_for options.now }
{
    Header {
        policy: options.policy,
        budget: options.budget,
    }
}

/// Stores the recording of a run, then writes its summary, which is this text, and answers the status.
fn store_with<F: Shelf, O: Sink>(
    alloc: Global,
    task: &RecordTask<'_>,
    run: &ClosedRun<'_>,
    text: &[u8],
    shelf: &mut F,
    output: &mut O,
) -> u8
    requires { AreOfSomeRun task.now.source.now (header_for task.now.task.options) run.now.closed.logs }
    ensures { Keeps (IsRecordingOf task.now.source.now
        (header_for task.now.task.options) run.now.closed.logs) task.now.recording.now text.now
        (keeping (F.held shelf.old) (F.failed_stores shelf.old) (O.written output.old) (O.faults output.old))
        (keeping (F.held shelf.new) (F.failed_stores shelf.new) (O.written output.new) (O.faults output.new)) result }
{
    let header = header_of(&task.task.options);
    let Ok(recording) = record(alloc, task.source, &header, &run.closed.logs) else {
        return 5;
    };
    match shelf.store(alloc, task.recording, recording.as_slice()) {
        Ok(()) => finish(output, text, 0),
        Err(ShelfError::Failed) => 4,
        Err(ShelfError::Memory) => 5,
    }
}

/// Stores the recording of a run, then writes the summary, and answers the status. All that takes memory is made before
/// the store.
fn store<F: Shelf, O: Sink>(
    rt: &(impl Threads + Sync),
    alloc: Global,
    task: &RecordTask<'_>,
    run: &ClosedRun<'_>,
    shelf: &mut F,
    output: &mut O,
) -> u8
    requires told { CanBeTold (run_setting run.now) run.now.closed }
    requires of_run { AreOfSomeRun task.now.source.now (header_for task.now.task.options) run.now.closed.logs }
    ensures { Keeps (IsRecordingOf task.now.source.now
        (header_for task.now.task.options) run.now.closed.logs) task.now.recording.now
        (summary_of run.now.program.now run.now.closed.ends
        (races_among (edges_of_logs run.now.program.now run.now.closed.logs)))
        (keeping (F.held shelf.old) (F.failed_stores shelf.old) (O.written output.old) (O.faults output.old))
        (keeping (F.held shelf.new) (F.failed_stores shelf.new) (O.written output.new) (O.faults output.new)) result }
{
    let Ok(text) = summarize(rt, alloc, run) else {
        return 5;
    };
    store_with(alloc, task, run, &text, shelf, output)
}

/// Runs a program by threads from its start to its end, stores the recording of the run, and writes the summary.
pub fn record_run<F: Shelf, O: Sink, G: Gate, R: Threads + Wait + Sync>(
    means: &Means<'_, R, G>,
    task: &RecordTask<'_>,
    shelf: &mut F,
    output: &mut O,
) -> Outcome
    requires program { IsValid task.now.task.program.now }
    requires range { AreInRange task.now.task.options }
    requires read { IsRead task.now.source.now task.now.task.program.now }
    ensures { Records task.now.source.now task.now.task.program.now task.now.task.options task.now.recording.now
        result.schedule
        (keeping (F.held shelf.old) (F.failed_stores shelf.old) (O.written output.old) (O.faults output.old))
        (keeping (F.held shelf.new) (F.failed_stores shelf.new) (O.written output.new)
        (O.faults output.new)) result.status }
{
    let Ok(by) = run_task(means, &task.task) else {
        return ended(means.alloc, 5);
    };
    let status = store(means.rt, means.alloc, task, &by.run, shelf, output);
    drop(by.run);
    Outcome {
        status,
        schedule: by.schedule,
    }
}
