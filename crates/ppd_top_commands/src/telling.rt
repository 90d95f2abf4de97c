// What is told of a run: its summary, and then the answers to the lines of an input.
ghost use Rattle.ppd_race.specs.Races.{races_among, edges_of_logs};
ghost use Rattle.std.specs.Prelude.{◌≡◌, ◌<◌, ◌^◌, [], false, length, IfOk, OnOk};
ghost use Rattle.ppd_graph.specs.Graphs.{IsGraphOf};
ghost use Rattle.ppd_index.specs.Fitting.{AreFittingLogs};
ghost use Rattle.ppd_index.specs.Indexes.{IsIndexOf};
ghost use Rattle.ppd_codec_runs.specs.Known.{known_of_logs};
ghost use Rattle.ppd_top_commands.specs.Output.{Talks, standing};
ghost use Rattle.ppd_top_runs.specs.Runs.{CanBeTold, run_setting};
ghost use Rattle.ppd_top_commands.specs.Summary.{summary_of};

use crate::asking::talk;
use crate::summary::summary;
use ppd_ast::Memory;
use ppd_codec_runs::{Past, Session};
use ppd_graph::SyncGraph;
use ppd_index::LogIndex;
use ppd_io::{LineReader, Sink, Source, put_all};
use ppd_top_runs::{ClosedRun, graph_of, index_of};
use std::alloc::Global;
use std::thread::Threads;

/// Writes the summary of a run, then answers the lines of the input by a reader that is new, and answers the status.
fn tell_lines<I: Source, O: Sink>(
    alloc: Global,
    run: &ClosedRun<'_>,
    session: &mut Session<'_>,
    reader: &mut LineReader,
    input: &mut I,
    output: &mut O,
) -> u8
    requires program { session.old.known.program ≡ run.now.program.now }
    requires few { length run.now.closed.ends < 2 ^ 62 }
    requires reader { reader.old ≡ record { line = []; held = []; ended = false } }
    ensures { Talks session.old.known (summary_of run.now.program.now run.now.closed.ends session.old.known.races)
        (standing (I.left input.old) (I.before_last input.old)
        (I.faults input.old) (O.written output.old) (O.faults output.old))
        (standing (I.left input.new) (I.before_last input.new)
        (I.faults input.new) (O.written output.new) (O.faults output.new)) result }
{
    let Ok(text) = summary(alloc, run.program, run.closed.ends.as_slice(), session) else {
        return 5;
    };
    match put_all(output, &text) {
        Err(_) => 4,
        Ok(()) => talk(alloc, run.program, session, reader, input, output),
    }
}

/// Writes the summary of a run, then answers the lines of the input, and answers the status.
fn tell_session<I: Source, O: Sink>(
    alloc: Global,
    run: &ClosedRun<'_>,
    session: &mut Session<'_>,
    input: &mut I,
    output: &mut O,
) -> u8
    requires program { session.old.known.program ≡ run.now.program.now }
    requires few { length run.now.closed.ends < 2 ^ 62 }
    ensures { Talks session.old.known (summary_of run.now.program.now run.now.closed.ends session.old.known.races)
        (standing (I.left input.old) (I.before_last input.old)
        (I.faults input.old) (O.written output.old) (O.faults output.old))
        (standing (I.left input.new) (I.before_last input.new)
        (I.faults input.new) (O.written output.new) (O.faults output.new)) result }
{
    let Ok(mut reader) = LineReader::new(alloc) else {
        return 5;
    };
    tell_lines(alloc, run, session, &mut reader, input, output)
}

/// The index of the logs of a run, and the graph of its synchronization.
#[derive(Drop)]
struct LogTables {
    index: LogIndex,
    graph: SyncGraph,
}

fn tables_of(alloc: Global, run: &ClosedRun<'_>) -> Result<LogTables, Memory>
    requires { CanBeTold (run_setting run.now) run.now.closed }
    ensures index { IfOk result (λ t. IsIndexOf run.now.plan run.now.closed.logs t.index.tables) }
    ensures fitting { OnOk result (AreFittingLogs run.now.plan run.now.closed.logs) }
    ensures graph { IfOk result (λ t. IsGraphOf run.now.program.now run.now.closed.logs t.graph) }
{
    let index = index_of(alloc, run)?;
    let graph = graph_of(alloc, run)?;
    Ok(LogTables { index, graph })
}

/// The summary of a run by these tables.
fn summarize_by(
    rt: &(impl Threads + Sync),
    alloc: Global,
    run: &ClosedRun<'_>,
    tables: &LogTables,
) -> Result<Vec<u8>, Memory>
    requires told { CanBeTold (run_setting run.now) run.now.closed }
    requires index { IsIndexOf run.now.plan run.now.closed.logs tables.now.index.tables }
    requires fitting { AreFittingLogs run.now.plan run.now.closed.logs }
    requires graph { IsGraphOf run.now.program.now run.now.closed.logs tables.now.graph }
    ensures { IfOk result (λ text. text.items ≡ summary_of run.now.program.now run.now.closed.ends
        (races_among (edges_of_logs run.now.program.now run.now.closed.logs))) }
{
    let past = Past {
        program: run.program,
        plan: &run.plan,
        logs: &run.closed.logs,
        index: &tables.index,
        graph: &tables.graph,
        cut: &run.closed.logs,
        cut_index: &tables.index,
        budget: run.budget,
        kept: &[],
    };
    let session = Session::new(rt, alloc, past)?;
    let text = summary(alloc, run.program, run.closed.ends.as_slice(), &session);
    drop(session);
    text
}

/// The summary of a run.
pub(crate) fn summarize(
    rt: &(impl Threads + Sync),
    alloc: Global,
    run: &ClosedRun<'_>,
) -> Result<Vec<u8>, Memory>
    requires { CanBeTold (run_setting run.now) run.now.closed }
    ensures { IfOk result (λ text. text.items ≡ summary_of run.now.program.now run.now.closed.ends
        (races_among (edges_of_logs run.now.program.now run.now.closed.logs))) }
{
    let tables = tables_of(alloc, run)?;
    let text = summarize_by(rt, alloc, run, &tables);
    drop(tables);
    text
}

/// The same as `tell`, by these tables.
fn tell_by<I: Source, O: Sink>(
    rt: &(impl Threads + Sync),
    alloc: Global,
    run: &ClosedRun<'_>,
    tables: &LogTables,
    input: &mut I,
    output: &mut O,
) -> u8
    requires told { CanBeTold (run_setting run.now) run.now.closed }
    requires index { IsIndexOf run.now.plan run.now.closed.logs tables.now.index.tables }
    requires fitting { AreFittingLogs run.now.plan run.now.closed.logs }
    requires graph { IsGraphOf run.now.program.now run.now.closed.logs tables.now.graph }
    ensures { Talks (known_of_logs (run_setting run.now) run.now.closed.logs)
        (summary_of run.now.program.now run.now.closed.ends
        (races_among (edges_of_logs run.now.program.now run.now.closed.logs)))
        (standing (I.left input.old) (I.before_last input.old)
        (I.faults input.old) (O.written output.old) (O.faults output.old))
        (standing (I.left input.new) (I.before_last input.new)
        (I.faults input.new) (O.written output.new) (O.faults output.new)) result }
{
    let past = Past {
        program: run.program,
        plan: &run.plan,
        logs: &run.closed.logs,
        index: &tables.index,
        graph: &tables.graph,
        cut: &run.closed.logs,
        cut_index: &tables.index,
        budget: run.budget,
        kept: &[],
    };
    let Ok(mut session) = Session::new(rt, alloc, past) else {
        return 5;
    };
    let status = tell_session(alloc, run, &mut session, input, output);
    drop(session);
    status
}

/// Writes the summary of a run, then answers the lines of the input, each before the next is read, and answers the
/// status.
pub fn tell<I: Source, O: Sink>(
    rt: &(impl Threads + Sync),
    alloc: Global,
    run: &ClosedRun<'_>,
    input: &mut I,
    output: &mut O,
) -> u8
    requires { CanBeTold (run_setting run.now) run.now.closed }
    ensures { Talks (known_of_logs (run_setting run.now) run.now.closed.logs)
        (summary_of run.now.program.now run.now.closed.ends
        (races_among (edges_of_logs run.now.program.now run.now.closed.logs)))
        (standing (I.left input.old) (I.before_last input.old)
        (I.faults input.old) (O.written output.old) (O.faults output.old))
        (standing (I.left input.new) (I.before_last input.new)
        (I.faults input.new) (O.written output.new) (O.faults output.new)) result }
{
    let Ok(tables) = tables_of(alloc, run) else {
        return 5;
    };
    let status = tell_by(rt, alloc, run, &tables, input, output);
    drop(tables);
    status
}
