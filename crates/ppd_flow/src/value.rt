ghost use Rattle.std.specs.Prelude.{◌≡◌, ◌+◌, IfOk, IfSome, option_copied};
ghost use Rattle.ppd_flow.specs.Missing.{IsCauseOfSets};
ghost use Rattle.ppd_flow.specs.Runs.{CostsLast, GivesLast};
ghost use Rattle.ppd_flow_past.specs.ByReplays.{steps_to_replay};
ghost use Rattle.ppd_flow_past.specs.Pasts.{IsPast};
ghost use Rattle.ppd_flow_past.specs.SeenBy.{items_in};
ghost use Rattle.ppd_flow_shared.specs.SharedCells.{AreItemsOfLast, IsLastFound};
ghost use Rattle.ppd_flow_shared.specs.Tabled.{IsOfInterval};

use law_flow::{last_costs_little, last_writes_are_found};
use ppd_ast::{Memory, Steps};
use ppd_flow_past::{FlowError, Past, replays_are_seen};
use ppd_flow_shared::{BlockTables, EdgeTable, LastEdge, TabledItems, last_write, last_write_from};
use ppd_model::{Item, Origin};
use std::alloc::Global;
use std::sync::ledger::Ledger;

/// The last value of a shared cell and where it was written: by the last write in the greatest internal edge whose
/// write set has the cell, else at the start. The counter rises by the own steps of the intervals that are replayed.
///
/// `Diverged`: the replay of one of these intervals fails, the first that does, at this entry. `Sets`: none of these
/// replays fails; this entry, of logs that the index accepts, ends the internal edge, its write set has the cell, and
/// no event that the replays give of that edge writes the cell. `Memory` is want of memory, also for items that have no
/// 32-bit numbers. `NoEvent` never comes. Of what is kept of a whole run without a race, under the plan of a policy,
/// the answer is the last value in the run with the item of its last write, or `Memory`; the counter rose by at most
/// the own steps of the intervals of the writer's process that are open in the internal edge of the last write, and not
/// at all for a start value.
pub fn last<L: Ledger>(
    alloc: Global,
    past: &Past,
    cell: u16,
    steps: &mut Steps<L>,
) -> Result<(i64, Origin), FlowError>
    requires { IsPast past.now }
    ensures found { IsLastFound past.now cell steps.old steps.new result }
    ensures run { GivesLast past.now cell result }
    ensures cost { CostsLast past.now cell steps.old steps.new result }
    ensures sets { IsCauseOfSets past.now result }
{
    replays_are_seen();
    last_writes_are_found();
    last_costs_little();
    last_write(alloc, past, cell, steps)
}

/// What `last` answers for a cell that this internal edge wrote last (`last_edge`), from the items of the interval in
/// which the edge ends, as a replay gave them: so that cells of one interval need one replay of it. The counter rises
/// as in `last`, but not by the own steps of that interval, and where their tables are given the items are not gone
/// over.
pub fn last_from<L: Ledger>(
    alloc: Global,
    past: &Past,
    cell: u16,
    last: LastEdge,
    given: TabledItems,
    steps: &mut Steps<L>,
) -> Result<(i64, Origin), FlowError>
    requires items { AreItemsOfLast past.now cell last given.items.now }
    requires tables { IfSome (option_copied given.tables)
        (IsOfInterval past.now last.edge.process last.interval) }
    ensures found { IsLastFound past.now cell steps.old
        (steps.new + steps_to_replay past.now last.edge.process last.interval) result }
    ensures run { GivesLast past.now cell result }
    ensures cost { CostsLast past.now cell steps.old
        (steps.new + steps_to_replay past.now last.edge.process last.interval) result }
    ensures sets { IsCauseOfSets past.now result }
{
    replays_are_seen();
    last_writes_are_found();
    last_costs_little();
    last_write_from(alloc, past, cell, last, given, steps)
}

/// The tables of an interval of a process, whose items these are, by which searches look up from it. `Memory` is want
/// of memory, also for items, entries and edges that have no 32-bit numbers.
pub fn block_tables(
    alloc: Global,
    past: &Past,
    process: u8,
    interval: u32,
    items: &[Item],
) -> Result<BlockTables, Memory>
    requires past { IsPast past.now }
    requires items { items.now ≡ items_in past.now process interval }
    ensures { IfOk result (IsOfInterval past.now process interval) }
{
    let edges = EdgeTable::new(alloc, past, process)?;
    BlockTables::new(alloc, past, &edges, process, interval, items)
}
