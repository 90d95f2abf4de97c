ghost use Rattle.std.specs.Prelude.{◌≡◌, ◌≤◌, ◌-◌, ℕ, [], length, option_copied, take, IfOk, IfSome, get_or};
ghost use Rattle.ppd_flow_local.specs.Searches.{IsFound, IsPlace, IsSearch, plan_in, program_in, seen};
ghost use Rattle.ppd_model.specs.declared.flow.Origin.TheVariants as origin;
ghost use Rattle.ppd_graph.specs.Locals.{leaf_at as leaf_among};
ghost use Rattle.ppd_graph.specs.Looked.{after_replay, known};
ghost use Rattle.ppd_graph.specs.Own.{frame_at as frame_at_place};
ghost use Rattle.ppd_graph.specs.Seen.{call_of as call_at, kind_at, last_item as last_item_at, outer_of as outer_at, place_of as place_among};
ghost use Rattle.ppd_flow_tables.specs.Tabled.{IsOfInterval};

use crate::leaf::leaf_at;
use ppd_ast::{BlockKind, Memory, Steps};
use ppd_flow_local_tables::{Code, frame_in};
use ppd_flow_tables::{
    BlockTables, FlowError, Items, Past, Tables, block_of, interval_items, number, outer_of,
    place_of,
};
use ppd_graph::LeafCall;
use ppd_model::{Item, Origin};
use ppd_sem::block_kind;
use std::alloc::Global;
use std::sync::ledger::Ledger;

/// A search within one process of what is kept of a run, by the tables that are at hand of it.
#[derive(Clone, Copy)]
pub struct Search<'a> {
    pub alloc: Global,
    pub past: &'a Past<'a>,
    pub tables: Tables<'a>,
    pub process: u8,
}

/// A place in an interval: before this item of the interval's items, or after the last.
#[derive(Clone, Copy)]
pub struct Place<'a> {
    pub interval: u32,
    pub items: &'a [Item],
    pub item: usize,
}

impl<'a> Search<'a> {
    pub(crate) fn code(&self) -> Code
        ensures program { result.program.now ≡ program_in self.now }
        ensures plan { result.plan.now ≡ plan_in self.now }
    {
        Code {
            program: self.past.program,
            plan: self.past.plan,
        }
    }

    /// The tables of an interval, where they are at hand.
    pub(crate) fn tables_of(&self, interval: u32) -> Option<&'a BlockTables>
        requires { IsSearch self.now }
        ensures { IfSome (option_copied result) (IsOfInterval self.now.past.now self.now.process interval) }
    {
        self.tables.block(self.process, interval)
    }

    /// The place of an interval among these items, those of the one round it, and 0 where it is none of them.
    pub(crate) fn place_of(&self, outer: u32, items: &[Item], interval: u32) -> usize
        requires past { IsSearch self.now }
        requires items { items.now ≡ get_or (seen self.now).items outer [] }
        ensures place { result ≡ place_among interval items.now }
        ensures within { result ≤ length items.now }
    {
        place_of(&self.tables, self.process, outer, items, interval)
    }

    /// The call whose activation goes on at a place without an interval of its own. `Memory` is want of memory, for
    /// items that have no 32-bit numbers.
    pub(crate) fn leaf_at(&self, place: &Place) -> Result<Option<LeafCall>, Memory>
        requires past { IsSearch self.now }
        requires place { IsPlace self.now place.now }
        ensures { IfOk result (λ leaf. leaf
            ≡ leaf_among (program_in self.now) (plan_in self.now) (take place.now.item place.now.items.now)) }
    {
        if let Some(tables) = self.tables_of(place.interval) {
            return Ok(tables.locals.leaf_at(place.item));
        }
        leaf_at(&self.code(), &place.items[..place.item])
    }

    /// The frame of a place: 1 where an activation goes on that has no interval of its own, and 0 in the interval's
    /// own. `Memory` is want of memory, for items that have no 32-bit numbers.
    pub(crate) fn frame_at(&self, place: &Place) -> Result<u8, Memory>
        requires past { IsSearch self.now }
        requires place { IsPlace self.now place.now }
        ensures { IfOk result (λ frame. frame ≡ frame_at_place (program_in self.now) (plan_in self.now) (seen self.now)
            place.now.interval place.now.item) }
    {
        let leaf = self.leaf_at(place)?;
        Ok(frame_in(leaf))
    }

    /// What the block of an interval is the code of.
    pub(crate) fn kind(&self, interval: u32) -> BlockKind
        requires { IsSearch self.now }
        ensures { result ≡ kind_at (plan_in self.now) (seen self.now) interval }
    {
        block_kind(self.past.plan, block_of(self.past, self.process, interval))
    }

    /// The interval directly round this one.
    pub(crate) fn outer(&self, interval: u32) -> u32
        requires { IsSearch self.now }
        ensures { result ≡ outer_at (seen self.now) interval }
    {
        outer_of(self.past, self.process, interval).unwrap_or(interval)
    }

    pub(crate) fn origin(&self, interval: u32, item: u32) -> Origin
        ensures { result ≡ origin.Item self.now.process interval item }
    {
        Origin::Item {
            process: self.process,
            interval,
            item,
        }
    }

    /// The item straight before a place of an interval, and its first before the first place. `Memory` is want of
    /// memory, for an item that has no 32-bit number.
    fn item_before(&self, interval: u32, place: usize) -> Result<Origin, FlowError>
        ensures { (n : ℕ)
            → IsFound self.now (known (origin.Item self.now.process interval (place - 1))) n n result }
    {
        let item = number(place.saturating_sub(1))?;
        Ok(self.origin(interval, item))
    }

    /// The items of an interval, kept or by its replay.
    pub fn items<L: Ledger>(
        &self,
        interval: u32,
        steps: &mut Steps<L>,
    ) -> Result<Items<'a>, FlowError>
        requires { IsSearch self.now }
        ensures { IsFound self.now (after_replay interval (known (get_or (seen self.now).items interval [])))
            steps.old steps.new result }
    {
        interval_items(self.alloc, self.past, self.process, interval, steps)
    }

    /// The last item of an interval.
    pub fn last_item<L: Ledger>(
        &self,
        interval: u32,
        steps: &mut Steps<L>,
    ) -> Result<Origin, FlowError>
        requires { IsSearch self.now }
        ensures { IsFound self.now (last_item_at (seen self.now) self.now.process interval)
            steps.old steps.new result }
    {
        let items = self.items(interval, steps)?;
        self.item_before(interval, items.as_slice().len())
    }

    /// The call that began an interval of a function: it stands straight before the interval.
    pub(crate) fn call_of<L: Ledger>(
        &self,
        interval: u32,
        steps: &mut Steps<L>,
    ) -> Result<Origin, FlowError>
        requires { IsSearch self.now }
        ensures { IsFound self.now (call_at (seen self.now) self.now.process interval)
            steps.old steps.new result }
    {
        let outer = self.outer(interval);
        let items = self.items(outer, steps)?;
        let place = self.place_of(outer, items.as_slice(), interval);
        self.item_before(outer, place)
    }
}
