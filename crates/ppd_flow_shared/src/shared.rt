ghost use Rattle.std.specs.Prelude.{◌≡◌, IfOk, get_or, []};
ghost use Rattle.ppd_flow_tables.specs.Pasts.{IsPast};
ghost use Rattle.ppd_graph.specs.Looked.{look_map};
ghost use Rattle.ppd_graph.specs.Shared.{edge_of_place, greatest_before as greatest_before_of, in_process, origin_in, shared_origin as shared_origin_of, written_or_start as written_or_start_of};
ghost use Rattle.ppd_graph.specs.Walk.{walk as walk_from};
ghost use Rattle.ppd_flow_shared.specs.Items.{seen_for};
ghost use Rattle.ppd_flow_shared.specs.SharedCells.{IsAnswerTo, IsLastFound, IsSought, edge_unless_found, seens_in};
ghost use Rattle.ppd_flow_tables.specs.Tabled.{IsTabled};

use crate::search::CellSearch;
use crate::written::written_or_start;
use ppd_ast::{Memory, Steps};
use ppd_flow_tables::{FlowError, Past, Tables, edge_at, greatest_before, greatest_writing};
use ppd_graph::Walked;
use ppd_model::{EdgeId, Item, Origin};
use std::alloc::Global;
use std::sync::ledger::Ledger;

impl<'a> CellSearch<'a> {
    // The greatest edge before that of a place that writes the cell. `Memory` is want of memory.
    fn edge_before(
        &self,
        interval: u32,
        items: &[Item],
        place: usize,
    ) -> Result<Option<EdgeId>, Memory>
        requires past { IsTabled self.now.past.now self.now.tables }
        requires items { items.now ≡ get_or (seen_for self.now).items interval [] }
        ensures { IfOk result (λ best. best
            ≡ greatest_before_of self.now.past.now.program.now self.now.past.now.logs.now
            (edge_of_place self.now.past.now.logs.now (seens_in self.now.past.now) self.now.process interval place)
            self.now.cell) }
    {
        let edge = edge_at(
            self.past,
            &self.tables,
            self.process,
            interval,
            items,
            place,
        )?;
        let own = EdgeId {
            process: self.process,
            edge,
        };
        greatest_before(self.past, &self.tables, own, self.cell)
    }

    /// The edge before that of a place, in an interval whose items these are, in which the cell was written last that
    /// is read there: none where the internal edge of the place writes it before the place, or no edge before does.
    ///
    /// The counter rises by the own steps of the intervals of the process that are replayed, and no interval of the
    /// edge that is found is among these for its sake. `Diverged`: the replay of one of them, the first that fails,
    /// does so at this entry. `Memory` is want of memory, also for places that have no 32-bit numbers. No other error
    /// comes.
    pub fn far_edge<L: Ledger>(
        &self,
        interval: u32,
        items: &[Item],
        place: usize,
        steps: &mut Steps<L>,
    ) -> Result<Option<EdgeId>, FlowError>
        requires past { IsTabled self.now.past.now self.now.tables }
        requires items { items.now ≡ get_or (seen_for self.now).items interval [] }
        ensures { IsSought self.now.past.now
            (look_map (λ walked. edge_unless_found walked
            (greatest_before_of self.now.past.now.program.now self.now.past.now.logs.now
            (edge_of_place self.now.past.now.logs.now (seens_in self.now.past.now) self.now.process interval place)
            self.now.cell))
            (in_process self.now.process (walk_from (seen_for self.now) self.now.cell interval place)))
            steps.old steps.new result }
    {
        let walked = self.walk(interval, items, place, steps)?;
        match walked {
            Walked::Found { .. } => Ok(None),
            Walked::Stopped | Walked::Passed => {
                let best = self.edge_before(interval, items, place)?;
                Ok(best)
            }
        }
    }

    // The origin of a write in an edge before that of a place, or the start value.
    fn origin_before<L: Ledger>(
        &self,
        interval: u32,
        items: &[Item],
        place: usize,
        steps: &mut Steps<L>,
    ) -> Result<Origin, FlowError>
        requires past { IsTabled self.now.past.now self.now.tables }
        requires items { items.now ≡ get_or (seen_for self.now).items interval [] }
        ensures { IsAnswerTo self.now.past.now
            (look_map origin_in (written_or_start_of self.now.past.now.program.now self.now.past.now.logs.now
            (seens_in self.now.past.now) self.now.cell
            (greatest_before_of self.now.past.now.program.now self.now.past.now.logs.now
            (edge_of_place self.now.past.now.logs.now (seens_in self.now.past.now) self.now.process interval place)
            self.now.cell)))
            steps.old steps.new result }
    {
        let best = self.edge_before(interval, items, place)?;
        let (_, origin) = written_or_start(self, best, steps)?;
        Ok(origin)
    }

    /// Where the cell was written that is read at a place in an interval, whose items these are: the last write
    /// before it in the internal edge of the place, else the last write in the greatest edge before this one
    /// whose write set has the cell, else the start value. In a run without a race under the plan of a policy
    /// it is the write whose value was read.
    ///
    /// The counter rises by the own steps of the intervals that are replayed. `Diverged`: the replay of one of them,
    /// the first that fails, does so at this entry. `Sets`: the write set of this entry has the cell, and the
    /// walk over the edge that it ends finds no write of it. `Memory` is want of memory, also for places that
    /// have no 32-bit numbers. No other error comes.
    pub fn shared_origin<L: Ledger>(
        &self,
        interval: u32,
        items: &[Item],
        place: usize,
        steps: &mut Steps<L>,
    ) -> Result<Origin, FlowError>
        requires past { IsTabled self.now.past.now self.now.tables }
        requires items { items.now ≡ get_or (seen_for self.now).items interval [] }
        ensures { IsAnswerTo self.now.past.now
            (shared_origin_of self.now.past.now.program.now self.now.past.now.logs.now
            (seens_in self.now.past.now) self.now.process interval place self.now.cell)
            steps.old steps.new result }
    {
        let walked = self.walk(interval, items, place, steps)?;
        match walked {
            Walked::Found { interval, item, .. } => Ok(Origin::Item {
                process: self.process,
                interval,
                item,
            }),
            Walked::Stopped | Walked::Passed => {
                self.origin_before(interval, items, place, steps)
            }
        }
    }
}

/// The last value of a shared cell and where it was written: by the last write in the greatest internal edge whose
/// write set has the cell, else at the start. The counter and the errors are those of `shared_origin`.
pub fn last_write<L: Ledger>(
    alloc: Global,
    past: &Past,
    cell: u16,
    steps: &mut Steps<L>,
) -> Result<(i64, Origin), FlowError>
    requires { IsPast past.now }
    ensures { IsLastFound past.now cell steps.old steps.new result }
{
    let search = CellSearch {
        alloc,
        past,
        tables: Tables::Nothing,
        process: 0,
        cell,
    };
    let best = greatest_writing(past, cell)?;
    written_or_start(&search, best, steps)
}
