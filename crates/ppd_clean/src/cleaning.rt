ghost use Rattle.law_clean.specs.Answers.{is_reached};
ghost use Rattle.ppd_race.specs.Races.{edges_of_logs, races_among};
ghost use Rattle.std.specs.Prelude.{◌≡◌, ◌≤◌, length, IfOk, OnOk};
ghost use Rattle.ppd_ast.specs.declared.limits.TheConstants.{MOST_NAMED};
ghost use Rattle.ppd_clean.specs.Answers.{AreEdges, AreItems, Fails, FailsFrom, IsCleanBy, IsFound, IsOrdered, answer_at, answer_by, item_at, of_flow as of_flow_error, unless_begun};
ghost use Rattle.ppd_clean.specs.ByOrder.{cut_for};
ghost use Rattle.ppd_clean.specs.Missing.{IsCauseOfSets};
ghost use Rattle.ppd_clean.specs.Runs.{GivesClean};
ghost use Rattle.ppd_flow.specs.SharedCells.{seens_in};
ghost use Rattle.ppd_flow_past.specs.Pasts.{IsPast};
ghost use Rattle.ppd_index.specs.Fitting.{AreFittingLogs};
ghost use Rattle.ppd_index.specs.Indexes.{IsIndexOf};

use crate::by_order::first_unclean;
use crate::clean::Clean;
use crate::clean_error::CleanError;
use crate::cutting::cut_logs;
use crate::firsts::first_edges;
use crate::laws::cleans_are_of_runs;
use crate::unclean::{clean_item, unclean};
use ppd_ast::{Memory, Plan, Program, Seq, Steps};
use ppd_clean_past::Asked;
use ppd_flow::edges;
use ppd_flow_past::{FlowError, Past, edge_at, replayed};
use ppd_index::{LogIndex, index};
use ppd_model::{FlowEdge, Item, Logs, Race};
use std::alloc::Global;
use std::sync::ledger::Ledger;

/// The same error of a search by replays.
fn of_flow(error: FlowError) -> CleanError
    ensures { result ≡ of_flow_error error }
{
    match error {
        FlowError::Diverged { process, entry } => CleanError::Diverged { process, entry },
        FlowError::NoEvent => CleanError::NoEvent,
        FlowError::Sets {
            process,
            entry,
            cell,
        } => CleanError::Sets {
            process,
            entry,
            cell,
        },
        FlowError::Memory => CleanError::Memory,
    }
}

/// The items of the interval that is asked.
fn items_of<L: Ledger>(
    alloc: Global,
    past: &Past,
    asked: &Asked,
    steps: &mut Steps<L>,
) -> Result<Seq<Item>, CleanError>
    requires { IsPast past.now }
    ensures { AreItems past.now asked.now result }
{
    match replayed(alloc, past, asked.process, asked.interval, steps) {
        Ok(items) => Ok(items),
        Err(error) => Err(of_flow(error)),
    }
}

/// The edges of the item that is asked.
fn edges_of<L: Ledger>(
    alloc: Global,
    past: &Past,
    asked: &Asked,
    steps: &mut Steps<L>,
) -> Result<Seq<FlowEdge>, CleanError>
    requires { IsPast past.now }
    ensures { AreEdges past.now asked.now result }
{
    match edges(
        alloc,
        past,
        asked.process,
        asked.interval,
        asked.item,
        steps,
    ) {
        Ok(edges) => Ok(edges),
        Err(error) => Err(of_flow(error)),
    }
}

/// The item with its edges, by replays of the cut logs of a past.
fn answered<L: Ledger>(
    alloc: Global,
    past: &Past,
    asked: &Asked,
    steps: &mut Steps<L>,
) -> Result<Clean, CleanError>
    requires { IsPast past.now }
    ensures { IsFound (Fails past.now past.now.cut.now)
        (answer_at past.now asked.now (seens_in past.now) (item_at asked.now (seens_in past.now))) result }
{
    let items = items_of(alloc, past, asked, steps)?;
    let item = clean_item(past, asked, items)?;
    let edges = edges_of(alloc, past, asked, steps)?;
    Ok(Clean { item, edges })
}

/// The index of cut logs. Of logs that the index accepts it never refuses a cut, so all that is left is want of memory.
fn index_of(alloc: Global, program: &Program, plan: &Plan, cut: &Logs) -> Result<LogIndex, Memory>
    requires { length cut.now.lists ≤ MOST_NAMED }
    ensures index { IfOk result (λ index. IsIndexOf plan.now cut.now index.tables) }
    ensures fitting { OnOk result (AreFittingLogs plan.now cut.now) }
{
    match index(alloc, program, plan, cut) {
        Ok(index) => Ok(index),
        Err(_) => Err(Memory),
    }
}

/// The item with its edges, by replays of logs that are cut for it.
fn answered_by_cut<L: Ledger>(
    alloc: Global,
    past: &Past,
    asked: &Asked,
    steps: &mut Steps<L>,
) -> Result<Clean, CleanError>
    requires { IsPast past.now }
    ensures { IsFound (Fails past.now (cut_for past.now asked.now))
        (answer_by past.now asked.now (cut_for past.now asked.now)) result }
{
    let cut = cut_logs(alloc, past, asked)?;
    let cut_index = index_of(alloc, past.program, past.plan, &cut)?;
    let cut_past = Past {
        program: past.program,
        plan: past.plan,
        logs: past.logs,
        index: past.index,
        graph: past.graph,
        cut: &cut,
        cut_index: &cut_index,
        budget: past.budget,
        kept: &[],
    };
    answered(alloc, &cut_past, asked, steps)
}

/// Whether the interval begins in an edge whose past has a race.
fn begins_unclean(asked: &Asked, begun: u32) -> bool
    ensures { result ≡ is_reached begun asked.now.first }
{
    match asked.first {
        Some(first) => first <= begun,
        None => false,
    }
}

/// What is answered for an interval that begins in this edge: where the edge's past has a race, it is not replayed.
fn answered_from<L: Ledger>(
    alloc: Global,
    past: &Past,
    asked: &Asked,
    begun: u32,
    steps: &mut Steps<L>,
) -> Result<Clean, CleanError>
    requires { IsPast past.now }
    ensures { IsFound (FailsFrom begun past.now asked.now)
        (unless_begun begun asked.now.process asked.now.first
        (answer_by past.now asked.now (cut_for past.now asked.now))) result }
{
    if begins_unclean(asked, begun) {
        return Err(unclean(asked.process, asked.first));
    }
    answered_by_cut(alloc, past, asked, steps)
}

/// An item of an interval of a run with races, and its flowback edges in order, where no race touches its past: no edge
/// of a race is the item's last internal edge or before it, nor ends before the synchronization that the item is. The
/// logs are cut off before the races, and single intervals replayed from the cut logs alone; order and pairs are those
/// of the graph of the whole logs.
///
/// The counter rises by the own steps of the intervals that are replayed: this one first, and then those of `edges`.
///
/// `Unclean`: a race touches the past of this edge, the least such edge of the process from the one in which the
/// interval begins, and the item's past has a race, or the interval has no such item and reaches the edge. `NoEvent`:
/// it has no such item, and reaches no such edge. `Diverged`: the replay of an interval of this process from its cut
/// log fails at this entry. `Sets`: this entry, of logs that the index accepts, ends an internal edge of the process,
/// its write set has the cell, and no event that the replays of the cut logs give of that edge writes the cell.
/// `Memory` is want of memory, also for processes, edges or items that have no numbers.
///
/// Of what is kept of a whole run, with races or without, under the plan of a policy, the item and its edges are those
/// of the run, `Unclean` and `NoEvent` come exactly where the run has it so, and `Diverged` and `Sets` never.
pub fn clean_edges<L: Ledger>(
    alloc: Global,
    past: &Past,
    races: &[Race],
    process: u8,
    interval: u32,
    item: u32,
    steps: &mut Steps<L>,
) -> Result<Clean, CleanError>
    requires past { IsPast past.now }
    requires races { races.now ≡ races_among (edges_of_logs past.now.program.now past.now.logs.now) }
    ensures found { IsOrdered past.now → IsCleanBy past.now races.now process interval item result }
    ensures run { GivesClean past.now process interval item result }
    ensures sets { IsOrdered past.now → IsCauseOfSets past.now races.now process interval item result }
{
    cleans_are_of_runs();
    let firsts = first_edges(alloc, races, past.logs.lists.len())?;
    let begun = edge_at(past, process, interval, &[])?;
    let first = first_unclean(past, firsts.as_slice(), process, begun);
    let asked = Asked {
        firsts: firsts.as_slice(),
        process,
        interval,
        item,
        first,
    };
    answered_from(alloc, past, &asked, begun, steps)
}
