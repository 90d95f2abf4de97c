ghost use Rattle.std.specs.Prelude.{◌≡◌, get_or, []};
ghost use Rattle.ppd_graph.specs.Shared.{in_process};
ghost use Rattle.ppd_flow_shared.specs.SharedCells.{IsSought, IsWalked};
ghost use Rattle.ppd_flow_shared.specs.Items.{before_inner, out_of, seen_for};
ghost use Rattle.ppd_flow_tables.specs.Tabled.{IsTabled};

use crate::inside::{is_passed, over_items};
use crate::search::CellSearch;
use ppd_ast::Steps;
use ppd_flow_tables::{FlowError, count_of, interval_items, outer_of, place_of};
use ppd_graph::Walked;
use ppd_model::Item;
use std::sync::ledger::Ledger;

// Takes the items of an interval, and walks over its items before an interval inside it.
fn over_before<L: Ledger>(
    search: &CellSearch,
    outer: u32,
    inner: u32,
    steps: &mut Steps<L>,
) -> Result<Walked, FlowError>
    requires { IsTabled search.now.past.now search.now.tables }
    ensures { IsSought search.now.past.now
        (in_process search.now.process (before_inner (seen_for search.now) search.now.cell outer inner))
        steps.old steps.new result }
{
    let depth = count_of(search.past, search.process);
    let items = interval_items(search.alloc, search.past, search.process, outer, steps)?;
    let items = items.as_slice();
    let at = place_of(&search.tables, search.process, outer, items, inner);
    over_items(search, depth, outer, items, at, steps)
}

// Walks on from the start of an interval, through the intervals round it.
fn outward<L: Ledger>(
    search: &CellSearch,
    interval: u32,
    steps: &mut Steps<L>,
) -> Result<Walked, FlowError>
    requires { IsTabled search.now.past.now search.now.tables }
    ensures { IsSought search.now.past.now
        (in_process search.now.process
        (out_of (seen_for search.now) search.now.cell interval (get_or (seen_for search.now).rounds interval [])))
        steps.old steps.new result }
{
    let mut inner = interval;
    while let Some(outer) = outer_of(search.past, search.process, inner) {
        let walked = over_before(search, outer, inner, steps)?;
        if !is_passed(walked) {
            return Ok(walked);
        }
        inner = outer;
    }
    Ok(Walked::Passed)
}

impl<'a> CellSearch<'a> {
    /// Walks back over the internal edge of a place in an interval, from before that place to a write of the cell
    /// or to the synchronization at which the edge begins; `items` are those of the interval. An interval inside is
    /// walked over before what comes before it, and from the start of an interval the walk goes on in the interval
    /// round it, before its place there. Intervals of functions are at most 64 deep, each with a loop at most and a
    /// loop of a function without an interval, so that the walk calls itself no deeper than about 130 intervals.
    ///
    /// The counter rises by the own steps of the intervals that are replayed. `Diverged`: the replay of one of
    /// them, the first that fails, does so at this entry. `Memory` is want of memory. No other error comes.
    pub fn walk<L: Ledger>(
        &self,
        interval: u32,
        items: &[Item],
        place: usize,
        steps: &mut Steps<L>,
    ) -> Result<Walked, FlowError>
        requires past { IsTabled self.now.past.now self.now.tables }
        requires items { items.now ≡ get_or (seen_for self.now).items interval [] }
        ensures { IsWalked self.now.past.now self.now.process self.now.cell interval place steps.old steps.new result }
    {
        let depth = count_of(self.past, self.process);
        let walked = over_items(self, depth, interval, items, place, steps)?;
        if !is_passed(walked) {
            return Ok(walked);
        }
        outward(self, interval, steps)
    }
}
