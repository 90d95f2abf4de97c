// What the logs of a run lead to.
ghost use Rattle.std.specs.Prelude.{◌≡◌, IfOk, OnOk};
ghost use Rattle.ppd_graph.specs.Graphs.{IsGraphOf};
ghost use Rattle.ppd_model.specs.declared.bad_sync.BadSync.TheVariants as no_graph;
ghost use Rattle.ppd_index.specs.Fitting.{AreFittingLogs};
ghost use Rattle.ppd_index.specs.Indexes.{IsIndexOf};
ghost use Rattle.ppd_model.specs.declared.bad_log.BadLog.TheVariants as no_index;
ghost use Rattle.ppd_top_runs.specs.Runs.{CanBeTold, run_setting};

use crate::run::ClosedRun;
use ppd_ast::Memory;
use ppd_graph::{BadSync, SyncGraph, graph};
use ppd_index::{BadLog, LogIndex, index};
use std::alloc::Global;

/// Why the logs of a run had no index.
fn why_no_index(bad: BadLog) -> Memory
    requires { (bad ≡ no_index.Memory → ⊥) → ⊥ }
{
    match bad {
        BadLog::Memory => Memory,
        _ => unreachable!(),
    }
}

/// Why the logs of a run had no graph.
fn why_no_graph(bad: &BadSync) -> Memory
    requires { (bad.now ≡ no_graph.Memory → ⊥) → ⊥ }
{
    match bad {
        BadSync::Memory => Memory,
        _ => unreachable!(),
    }
}

/// The index of the logs of a run that can be told.
pub fn index_of(alloc: Global, run: &ClosedRun<'_>) -> Result<LogIndex, Memory>
    requires { CanBeTold (run_setting run.now) run.now.closed }
    ensures index { IfOk result (λ index. IsIndexOf run.now.plan run.now.closed.logs index.tables) }
    ensures fitting { OnOk result (AreFittingLogs run.now.plan run.now.closed.logs) }
{
    match index(alloc, run.program, &run.plan, &run.closed.logs) {
        Ok(index) => Ok(index),
        Err(bad) => Err(why_no_index(bad)),
    }
}

/// The graph of the synchronization of a run that can be told.
pub fn graph_of(alloc: Global, run: &ClosedRun<'_>) -> Result<SyncGraph, Memory>
    requires { CanBeTold (run_setting run.now) run.now.closed }
    ensures { IfOk result (IsGraphOf run.now.program.now run.now.closed.logs) }
{
    match graph(alloc, run.program, &run.closed.logs) {
        Ok(graph) => Ok(graph),
        Err(bad) => Err(why_no_graph(&bad)),
    }
}
