ghost use Rattle.std.specs.Prelude.{◌≡◌, ◌<◌, length, reverse, slice_get, Some, IfOk, get_or, []};
ghost use Rattle.ppd_flow_local.specs.Scans.{scanned as scan_by};
ghost use Rattle.ppd_flow_local.specs.Searches.{IsFound, IsLocalFound, IsPlace, IsSearch, plan_in, program_in, seen, written_in};
ghost use Rattle.ppd_graph.specs.Locals.{in_loops as in_loops_of, local_above as local_above_of, local_in as local_in_of, local_outside as local_outside_of, outer_frame as outer_frame_of, parameter as parameter_of, scan as scan_of, writer_at as writer_in};
ghost use Rattle.ppd_graph.specs.Looked.{after_replay};
ghost use Rattle.ppd_graph.specs.Own.{frame_at as frame_at_place};
ghost use Rattle.ppd_graph.specs.Seen.{kind_at, outer_of as outer_at, outer_place as outer_place_of};

use crate::scan::{LocalCell, Scan, has_cell};
use crate::search::{Place, Search};
use ppd_ast::{BlockKind, Memory, Steps};
use ppd_flow_tables::{FlowError, block_of};
use ppd_graph::Writer;
use ppd_model::{Item, Origin};
use ppd_sem::prelog_cells;
use std::sync::ledger::Ledger;

/// The loop with this number from the last.
fn loop_at(loops: &[u32], place: usize) -> u32
    requires { place < length loops.now }
    ensures { slice_get (reverse loops.now) place ≡ Some result }
{
    let at = loops.len() - 1 - place;
    loops[at]
}

impl<'a> Search<'a> {
    /// These items, for a local cell.
    fn scanned(&self, wanted: LocalCell, items: &[Item]) -> Result<Scan, Memory>
        ensures { IfOk result (λ state. scan_by state
            ≡ scan_of (program_in self.now) (plan_in self.now) wanted.frame wanted.cell items.now) }
    {
        Scan::over(self.alloc, &self.code(), wanted, items)
    }

    /// The writer of a cell of an interval's own activation among all its items.
    fn last_writer(&self, interval: u32, items: &[Item], cell: u16) -> Result<Writer, Memory>
        requires past { IsSearch self.now }
        requires items { items.now ≡ get_or (seen self.now).items interval [] }
        ensures { IfOk result (λ writer. writer
            ≡ (scan_of (program_in self.now) (plan_in self.now) 0 cell items.now).writer) }
    {
        if let Some(tables) = self.tables_of(interval) {
            return Ok(tables.locals.last_write(0, cell, items.len()).writer);
        }
        let state = self.scanned(LocalCell { frame: 0, cell }, items)?;
        Ok(state.writer)
    }

    /// Where the writer among the items of an interval is, if there is one.
    fn writer_at<L: Ledger>(
        &self,
        interval: u32,
        writer: Writer,
        steps: &mut Steps<L>,
    ) -> Result<Option<Origin>, FlowError>
        requires { IsSearch self.now }
        ensures { IsFound self.now (writer_in (seen self.now) self.now.process interval writer)
            steps.old steps.new result }
    {
        match writer {
            Writer::Before => Ok(None),
            Writer::Fresh => Ok(Some(Origin::Initial)),
            Writer::At(item) => Ok(Some(self.origin(interval, item))),
            Writer::Of(function) => Ok(Some(self.last_item(function, steps)?)),
        }
    }

    /// The last write of a cell of an interval's own activation among all its items, if there is one.
    fn written_among<L: Ledger>(
        &self,
        interval: u32,
        items: &[Item],
        cell: u16,
        steps: &mut Steps<L>,
    ) -> Result<Option<Origin>, FlowError>
        requires past { IsSearch self.now }
        requires items { items.now ≡ get_or (seen self.now).items interval [] }
        ensures { let own = get_or (seen self.now).items interval [] in
            let writer = (scan_of (program_in self.now) (plan_in self.now) 0 cell own).writer in
            IsFound self.now (writer_in (seen self.now) self.now.process interval writer)
            steps.old steps.new result }
    {
        let writer = self.last_writer(interval, items, cell)?;
        self.writer_at(interval, writer, steps)
    }

    /// The last write of a cell in a loop.
    fn in_loop<L: Ledger>(
        &self,
        interval: u32,
        cell: u16,
        steps: &mut Steps<L>,
    ) -> Result<Option<Origin>, FlowError>
        requires { IsSearch self.now }
        ensures { let items = get_or (seen self.now).items interval [] in
            let writer = (scan_of (program_in self.now) (plan_in self.now) 0 cell items).writer in
            IsFound self.now (after_replay interval (writer_in (seen self.now) self.now.process interval writer))
            steps.old steps.new result }
    {
        let items = self.items(interval, steps)?;
        self.written_among(interval, items.as_slice(), cell, steps)
    }

    /// The last write in the first of these loops, from the last, in which the cell is written.
    fn in_loops<L: Ledger>(
        &self,
        loops: &[u32],
        cell: u16,
        steps: &mut Steps<L>,
    ) -> Result<Option<Origin>, FlowError>
        requires { IsSearch self.now }
        ensures { IsFound self.now
            (in_loops_of (program_in self.now) (plan_in self.now) (seen self.now) self.now.process cell
            (reverse loops.now))
            steps.old steps.new result }
    {
        for place in 0..loops.len() {
            match self.in_loop(loop_at(loops, place), cell, steps)? {
                None => {}
                Some(origin) => return Ok(Some(origin)),
            }
        }
        Ok(None)
    }

    /// The last write in one of the loops since the last writer among the items of an interval, else that writer.
    fn written<L: Ledger>(
        &self,
        interval: u32,
        writer: Writer,
        loops: &[u32],
        cell: u16,
        steps: &mut Steps<L>,
    ) -> Result<Option<Origin>, FlowError>
        requires { IsSearch self.now }
        ensures { IsFound self.now (written_in self.now interval cell (reverse loops.now) writer)
            steps.old steps.new result }
    {
        match self.in_loops(loops, cell, steps)? {
            None => self.writer_at(interval, writer, steps),
            Some(origin) => Ok(Some(origin)),
        }
    }

    /// The last write of a local cell in an interval before a place.
    fn local_in<L: Ledger>(
        &self,
        place: &Place,
        wanted: LocalCell,
        steps: &mut Steps<L>,
    ) -> Result<Option<Origin>, FlowError>
        requires past { IsSearch self.now }
        requires place { IsPlace self.now place.now }
        ensures { IsFound self.now
            (local_in_of (program_in self.now) (plan_in self.now) (seen self.now) self.now.process
            place.now.interval place.now.item wanted.frame wanted.cell)
            steps.old steps.new result }
    {
        let LocalCell { frame, cell } = wanted;
        if let Some(tables) = self.tables_of(place.interval) {
            let last = tables.locals.last_write(frame, cell, place.item);
            return self.written(place.interval, last.writer, last.loops, cell, steps);
        }
        let state = self.scanned(wanted, &place.items[..place.item])?;
        self.written(
            place.interval,
            state.writer,
            state.loops.as_slice(),
            cell,
            steps,
        )
    }

    /// The call, for a parameter of an interval of a function; else the start value.
    fn parameter<L: Ledger>(
        &self,
        interval: u32,
        cell: u16,
        steps: &mut Steps<L>,
    ) -> Result<Origin, FlowError>
        requires { IsSearch self.now }
        ensures { let kind = kind_at (plan_in self.now) (seen self.now) interval in
            IsFound self.now
            (parameter_of (plan_in self.now) (seen self.now) self.now.process interval cell kind)
            steps.old steps.new result }
    {
        let BlockKind::Function(_) = self.kind(interval) else {
            return Ok(Origin::Initial);
        };
        let block = block_of(self.past, self.process, interval);
        if has_cell(prelog_cells(self.past.plan, block), cell) {
            self.call_of(interval, steps)
        } else {
            Ok(Origin::Initial)
        }
    }

    /// The last write in an interval before a place, or what the interval began with.
    fn local_outside<L: Ledger>(
        &self,
        place: &Place,
        wanted: LocalCell,
        steps: &mut Steps<L>,
    ) -> Result<Origin, FlowError>
        requires past { IsSearch self.now }
        requires place { IsPlace self.now place.now }
        ensures { IsFound self.now
            (local_outside_of (program_in self.now) (plan_in self.now) (seen self.now) self.now.process
            place.now.interval place.now.item wanted.frame wanted.cell)
            steps.old steps.new result }
    {
        match self.local_in(place, wanted, steps)? {
            Some(origin) => Ok(origin),
            None => self.parameter(place.interval, wanted.cell, steps),
        }
    }

    /// The last write before a place of a cell of the frame of that place, or what the interval began with.
    fn local_at<L: Ledger>(
        &self,
        place: &Place,
        cell: u16,
        steps: &mut Steps<L>,
    ) -> Result<Origin, FlowError>
        requires past { IsSearch self.now }
        requires place { IsPlace self.now place.now }
        ensures { let k = place.now.interval in
            let frame = frame_at_place (program_in self.now) (plan_in self.now) (seen self.now) k place.now.item in
            IsFound self.now
            (local_outside_of (program_in self.now) (plan_in self.now) (seen self.now) self.now.process k
            place.now.item frame cell)
            steps.old steps.new result }
    {
        let frame = self.frame_at(place)?;
        self.local_outside(place, LocalCell { frame, cell }, steps)
    }

    /// What a local cell had when an interval of a loop began: the last write before it in the interval round it.
    fn local_round<L: Ledger>(
        &self,
        interval: u32,
        cell: u16,
        steps: &mut Steps<L>,
    ) -> Result<Origin, FlowError>
        requires { IsSearch self.now }
        ensures { let outer = outer_at (seen self.now) interval in
            let item = outer_place_of (seen self.now) interval in
            let frame = outer_frame_of (program_in self.now) (plan_in self.now) (seen self.now) interval in
            IsFound self.now
            (after_replay outer
            (local_outside_of (program_in self.now) (plan_in self.now) (seen self.now) self.now.process outer item
            frame cell))
            steps.old steps.new result }
    {
        let outer = self.outer(interval);
        let items = self.items(outer, steps)?;
        let place = Place {
            interval: outer,
            items: items.as_slice(),
            item: self.place_of(outer, items.as_slice(), interval),
        };
        self.local_at(&place, cell, steps)
    }

    /// What a local cell had when an interval began.
    fn local_above<L: Ledger>(
        &self,
        interval: u32,
        cell: u16,
        steps: &mut Steps<L>,
    ) -> Result<Origin, FlowError>
        requires { IsSearch self.now }
        ensures { let kind = kind_at (plan_in self.now) (seen self.now) interval in
            IsFound self.now
            (local_above_of (program_in self.now) (plan_in self.now) (seen self.now) self.now.process interval cell
            kind)
            steps.old steps.new result }
    {
        match self.kind(interval) {
            BlockKind::Loop(_) => self.local_round(interval, cell, steps),
            _ => self.parameter(interval, cell, steps),
        }
    }

    /// The last write of a local cell of a frame before a place: the item of the write, a parameter's call, or the
    /// start value. The interval of the place is not replayed. The counter rises by the own steps of the intervals
    /// that are.
    ///
    /// `Diverged`: the replay of one of these intervals fails, the first that does. `Memory` is want of memory, also
    /// for items that have no 32-bit numbers. No other error comes.
    pub fn local_origin<L: Ledger>(
        &self,
        place: &Place,
        wanted: LocalCell,
        steps: &mut Steps<L>,
    ) -> Result<Origin, FlowError>
        requires past { IsSearch self.now }
        requires place { IsPlace self.now place.now }
        ensures { IsLocalFound self.now place.now wanted steps.old steps.new result }
    {
        match self.local_in(place, wanted, steps)? {
            Some(origin) => Ok(origin),
            None => self.local_above(place.interval, wanted.cell, steps),
        }
    }
}
