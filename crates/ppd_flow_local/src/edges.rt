ghost use Rattle.std.specs.Prelude.{◌≡◌, ◌<◌, ◌-◌, ◌∷◌, ◌++◌, [], get_or, length, pos, ℕ};
ghost use Rattle.std.specs.Result.{result_map_both};
ghost use Rattle.ppd_ast.specs.declared.plan.BlockKind.TheVariants as blocks;
ghost use Rattle.ppd_flow_local.specs.Searches.{IsFound, IsItemPlace, IsPlace, IsSearch, left_origin_at, plan_in, program_in, seen};
ghost use Rattle.ppd_model.specs.declared.flow.EdgeKind.TheVariants as edge_kind;
ghost use Rattle.ppd_model.specs.declared.flow.Origin.TheVariants as origin;
ghost use Rattle.ppd_model.specs.FlowbackEdges.{bare_edge};
ghost use Rattle.ppd_sem.specs.Blocks.{block_kind as kind_of_block};
ghost use Rattle.ppd_graph.specs.Control.{control_origin as control_origin_of};
ghost use Rattle.ppd_graph.specs.Own.{edges_of_nested, left_edges as left_edges_of, returned_edges as returned_edges_of};
ghost use Rattle.ppd_graph.specs.Looked.{look_map};

use crate::scan::LocalCell;
use crate::search::{Place, Search};
use ppd_ast::{BlockKind, Seq, Steps};
use ppd_flow_edges::{control_edge, push_left};
use ppd_flow_tables::{FlowError, number};
use ppd_model::{EdgeKind, FlowEdge, Origin};
use ppd_sem::{Spot, block_kind, postlog_cells};
use std::sync::ledger::Ledger;

fn cell_at(cells: &[u16], i: usize) -> u16
    requires { i < length cells.now }
    ensures { result ≡ get_or cells.now i 0 }
{
    cells[i]
}

fn value_at(values: &[i64], i: usize) -> i64
    requires { i < length values.now }
    ensures { result ≡ get_or values.now i (pos 0) }
{
    values[i]
}

impl<'a> Search<'a> {
    /// The last write of a local cell before the end of the loop at a place.
    fn left_origin<L: Ledger>(
        &self,
        place: &Place,
        wanted: LocalCell,
        steps: &mut Steps<L>,
    ) -> Result<Origin, FlowError>
        requires past { IsSearch self.now }
        requires item { IsItemPlace self.now place.now }
        ensures { IsFound self.now (left_origin_at self.now place.now wanted) steps.old steps.new result }
    {
        let after = Place {
            interval: place.interval,
            items: place.items,
            item: place.item + 1,
        };
        self.local_origin(&after, wanted, steps)
    }

    /// One edge for each local cell that the loop at a place left.
    fn left_edges<L: Ledger>(
        &self,
        place: &Place,
        frame: u8,
        cells: &[u16],
        values: &[i64],
        steps: &mut Steps<L>,
    ) -> Result<Seq<FlowEdge>, FlowError>
        requires past { IsSearch self.now }
        requires item { IsItemPlace self.now place.now }
        ensures { IsFound self.now
            (left_edges_of (program_in self.now) (plan_in self.now) (seen self.now) self.now.process
            place.now.interval place.now.item frame cells.now values.now)
            steps.old steps.new result }
    {
        let mut edges = Seq::new(self.alloc);
        for i in 0..cells.len().min(values.len()) {
            let cell = cell_at(cells, i);
            let value = value_at(values, i);
            let wanted = LocalCell { frame, cell };
            let from = self.left_origin(place, wanted, steps)?;
            push_left(&mut edges, Spot::Local { frame, cell }, value, from)?;
        }
        Ok(edges)
    }

    /// Adds the edge from what let a statement at a place run.
    fn push_control<L: Ledger>(
        &self,
        edges: &mut Seq<FlowEdge>,
        place: &Place,
        stmt: u32,
        steps: &mut Steps<L>,
    ) -> Result<(), FlowError>
        requires past { IsSearch self.now }
        requires place { IsPlace self.now place.now }
        ensures { let control =
            control_origin_of (program_in self.now) (plan_in self.now) (seen self.now) self.now.process
            place.now.interval place.now.item stmt in
            IsFound self.now (look_map (λ from. edges.old ++ bare_edge edge_kind.Control from ∷ []) control)
            steps.old steps.new (result_map_both (λ done. edges.new) (λ error. error) result) }
    {
        let from = self.control_origin(place, stmt, steps)?;
        edges.push(control_edge(from))?;
        Ok(())
    }

    /// The edges of a loop at a place: what it left, and what let it run.
    fn loop_edges<L: Ledger>(
        &self,
        place: &Place,
        stmt: u32,
        block: u16,
        values: &[i64],
        steps: &mut Steps<L>,
    ) -> Result<Seq<FlowEdge>, FlowError>
        requires past { IsSearch self.now }
        requires item { IsItemPlace self.now place.now }
        ensures { (m : ℕ) → IsFound self.now
            (edges_of_nested (program_in self.now) (plan_in self.now) (seen self.now) self.now.process
            place.now.interval place.now.item m block values.now (blocks.Loop stmt))
            steps.old steps.new result }
    {
        let frame = self.frame_at(place)?;
        let cells = postlog_cells(self.past.plan, block);
        let mut edges = self.left_edges(place, frame, cells, values, steps)?;
        self.push_control(&mut edges, place, stmt, steps)?;
        Ok(edges)
    }

    /// The edge from the last item of a function's interval, where it returned a value.
    fn returned_edges<L: Ledger>(
        &self,
        interval: u32,
        values: &[i64],
        steps: &mut Steps<L>,
    ) -> Result<Seq<FlowEdge>, FlowError>
        requires { IsSearch self.now }
        ensures { IsFound self.now (returned_edges_of (seen self.now) self.now.process interval values.now)
            steps.old steps.new result }
    {
        let mut edges = Seq::new(self.alloc);
        let Some(value) = values.first().copied() else {
            return Ok(edges);
        };
        let from = self.last_item(interval, steps)?;
        let edge = FlowEdge {
            kind: EdgeKind::Returned,
            spot: None,
            value: Some(value),
            from,
        };
        edges.push(edge)?;
        Ok(edges)
    }

    /// The edges of a function's interval at a place: what it returned, and its call, which stands straight before it.
    fn function_edges<L: Ledger>(
        &self,
        place: &Place,
        interval: u32,
        values: &[i64],
        steps: &mut Steps<L>,
    ) -> Result<Seq<FlowEdge>, FlowError>
        requires { IsSearch self.now }
        ensures { let call = origin.Item self.now.process place.now.interval (place.now.item - 1) in
            IsFound self.now
            (look_map (λ brought. brought ++ bare_edge edge_kind.Control call ∷ [])
            (returned_edges_of (seen self.now) self.now.process interval values.now))
            steps.old steps.new result }
    {
        let call = number(place.item.saturating_sub(1))?;
        let mut edges = self.returned_edges(interval, values, steps)?;
        edges.push(control_edge(self.origin(place.interval, call)))?;
        Ok(edges)
    }

    /// The edges of an interval that is the item at a place, in order: what its loop left, or what its function
    /// returned, and what let it run. The interval of the place is not replayed. The counter rises by the own steps of
    /// the intervals that are, each as often as it is.
    ///
    /// `Diverged`: the replay of one of these intervals fails, the first that does. `Memory` is want of memory, also
    /// for items that have no 32-bit numbers. No other error comes.
    pub fn nested_edges<L: Ledger>(
        &self,
        place: &Place,
        interval: u32,
        block: u16,
        values: &[i64],
        steps: &mut Steps<L>,
    ) -> Result<Seq<FlowEdge>, FlowError>
        requires past { IsSearch self.now }
        requires item { IsItemPlace self.now place.now }
        ensures { IsFound self.now
            (edges_of_nested (program_in self.now) (plan_in self.now) (seen self.now) self.now.process
            place.now.interval place.now.item interval block values.now (kind_of_block (plan_in self.now) block))
            steps.old steps.new result }
    {
        match block_kind(self.past.plan, block) {
            BlockKind::Loop(stmt) => self.loop_edges(place, stmt, block, values, steps),
            _ => self.function_edges(place, interval, values, steps),
        }
    }
}
