ghost use Rattle.std.specs.Prelude.{◌≡◌, ◌+◌, ◌≤◌, ◌++◌, ◌∷◌, [], drop, IfOk, length, slice_get, if◌then◌else◌, OnErr, OnOk, ◌^◌};
ghost use Rattle.ppd_model.specs.Entries.{is_end};
ghost use Rattle.ppd_sem.specs.Blocks.{block_kind, is_function};
ghost use Rattle.ppd_model.specs.World.{change};
ghost use Rattle.ppd_index.specs.declared.row.Mark.TheVariants as mark;
ghost use Rattle.ppd_index.specs.Spending.{still_open};
ghost use Rattle.ppd_index.specs.Tables.{HasRoom, HasRoomFor, add_mark, add_mark_to as adds_mark, begun_table, block_in, block_there, closed_by, depth_at, depth_there, ended_by, first_in, left_one as leaves_one, left_rows, new_row as row_of, open_one as opens_one, open_rows, standing_in, table_step, tabled, with_mark};

use crate::row::{Mark, Row};
use crate::standing::Standing;
use ppd_ast::{BlockKind, Memory, Plan, Seq, Steps};
use ppd_model::Entry;
use ppd_sem::Stack;
use std::alloc::Global;
use std::sync::ledger::Ledger;

/// The intervals of a process so far, and the numbers of those that run, the innermost at the top, with where
/// their memory comes from.
#[derive(Drop)]
pub struct Table {
    alloc: Global,
    pub(crate) rows: Vec<Row>,
    pub(crate) running: Stack<u32>,
}

fn item_at(running: &Stack<u32>, place: usize) -> Option<u32>
    ensures { result ≡ slice_get running.now place }
{
    running.get(place).copied()
}

fn innermost(running: &Stack<u32>) -> Option<u32>
    ensures { result ≡ slice_get running.now 0 }
{
    running.top().copied()
}

fn block_at(rows: &[Row], place: u32) -> u16
    ensures { result ≡ block_in (slice_get rows.now place) }
{
    match rows.get(place as usize) {
        Some(row) => row.block,
        None => 0,
    }
}

fn first_at(rows: &[Row], place: u32) -> u32
    ensures { result ≡ first_in (slice_get rows.now place) }
{
    match rows.get(place as usize) {
        Some(row) => row.first,
        None => 0,
    }
}

fn depth_of(rows: &[Row], place: Option<u32>) -> u8
    ensures { result ≡ depth_there place rows.now }
{
    let Some(place) = place else {
        return 0;
    };
    match rows.get(place as usize) {
        Some(row) => row.depth,
        None => 0,
    }
}

fn block_of(rows: &[Row], place: Option<u32>) -> Option<u16>
    ensures { result ≡ block_there place rows.now }
{
    match place {
        Some(place) => Some(block_at(rows, place)),
        None => None,
    }
}

/// Adds a piece to the interval with this number, if it is there.
fn add_mark_at(rows: &mut Vec<Row>, place: u32, mark: Mark) -> Result<(), Memory>
    ensures { OnOk result (rows.new.items ≡ change (with_mark mark) place rows.old.items) }
{
    let place = place as usize;
    if place >= rows.len() {
        return Ok(());
    }
    let row = &mut rows[place];
    row.marks.push(mark)
}

fn add_mark_to(rows: &mut Vec<Row>, place: Option<u32>, mark: Mark) -> Result<(), Memory>
    ensures { OnOk result (rows.new.items ≡ adds_mark mark place rows.old.items) }
{
    match place {
        Some(place) => add_mark_at(rows, place, mark),
        None => Ok(()),
    }
}

fn close_at(rows: &mut Vec<Row>, place: u32, last: u32)
    ensures { rows.new.items ≡ change (closed_by last) place rows.old.items }
{
    let place = place as usize;
    if place >= rows.len() {
        return;
    }
    let row = &mut rows[place];
    row.last = Some(last);
    row.closed = true;
}

fn end_at(rows: &mut Vec<Row>, place: u32, last: u32)
    ensures { rows.new.items ≡ change (ended_by last) place rows.old.items }
{
    let place = place as usize;
    if place >= rows.len() {
        return;
    }
    let row = &mut rows[place];
    row.last = Some(last);
}

/// Interval `place` is left by this entry.
fn leave_one(rows: &mut Vec<Row>, place: u32, outer: Option<u32>, last: u32) -> Result<(), Memory>
    ensures { OnOk result (rows.new.items ≡ leaves_one last place outer rows.old.items) }
{
    let left = Mark::Left {
        interval: place,
        block: block_at(rows.as_slice(), place),
        first: first_at(rows.as_slice(), place),
        last,
    };
    add_mark_at(rows, place, Mark::Own(last))?;
    close_at(rows, place, last);
    add_mark_to(rows, outer, left)
}

/// The process came to its end inside interval `place` by this entry.
fn open_one(rows: &mut Vec<Row>, place: u32, outer: Option<u32>, last: u32) -> Result<(), Memory>
    ensures { OnOk result (rows.new.items ≡ opens_one last place outer rows.old.items) }
{
    let open = Mark::Open {
        interval: place,
        block: block_at(rows.as_slice(), place),
        first: first_at(rows.as_slice(), place),
    };
    end_at(rows, place, last);
    add_mark_to(rows, outer, open)
}

/// The process came to its end inside the intervals that run.
fn open_all<L: Ledger>(
    rows: &mut Vec<Row>,
    running: &Stack<u32>,
    last: u32,
    steps: &mut Steps<L>,
) -> Result<(), Memory>
    ensures rows { OnOk result (rows.new.items ≡ open_rows last running.now rows.old.items) }
    ensures cost { steps.new ≤ steps.old + length running.now }
    ensures taken { OnOk result (steps.new ≡ steps.old + length running.now) }
{
    for place in 0..running.len() {
        steps.tick();
        if let Some(interval) = item_at(running, place) {
            open_one(rows, interval, item_at(running, place + 1), last)?;
        }
    }
    Ok(())
}

/// 1 for a function's block.
fn one_if_function(plan: &Plan, block: u16) -> u8
    ensures { result ≡ (if is_function (block_kind plan.now block) then 1 else 0) }
{
    let Some(block) = plan.blocks.get(block as usize) else {
        return 0;
    };
    match block.kind {
        BlockKind::Function(_) => 1,
        _ => 0,
    }
}

/// The interval that this entry begins.
fn new_row(plan: &Plan, table: &Table, first: u32, block: u16) -> Row
    requires { HasRoomFor plan.now (depth_at table.now.running table.now.rows.items) block }
    ensures { result ≡ row_of plan.now first block table.now.running table.now.rows.items }
{
    let parent = innermost(&table.running);
    let depth = depth_of(table.rows.as_slice(), parent);
    Row {
        block,
        parent,
        first,
        last: None,
        closed: false,
        depth: depth + one_if_function(plan, block),
        marks: Seq::new(table.alloc),
    }
}

/// The number as one of 32 bits. `Memory` is the answer for one that has more, and for no other.
pub(crate) fn number(n: usize) -> Result<u32, Memory>
    ensures value { IfOk result (λ number. number ≡ n) }
    ensures large { OnErr result (2 ^ 32 ≤ n) }
{
    if n > 0xffff_ffff {
        Err(Memory)
    } else {
        Ok(n as u32)
    }
}

impl Table {
    pub(crate) fn new(alloc: Global) -> Table
        ensures { tabled 0 result ≡ begun_table }
    {
        Table {
            alloc,
            rows: Vec::new(alloc),
            running: Stack::new(alloc),
        }
    }

    /// Where an entry stands.
    pub(crate) fn standing(&self, entry: u32, ended: bool) -> Standing
        ensures { result ≡ standing_in ended (tabled entry self.now) }
    {
        let place = innermost(&self.running);
        Standing {
            entry,
            ended,
            innermost: block_of(self.rows.as_slice(), place),
            functions: depth_of(self.rows.as_slice(), place),
        }
    }

    /// An interval begins by this entry.
    fn enter(&mut self, plan: &Plan, entry: u32, block: u16) -> Result<(), Memory>
        requires { HasRoomFor plan.now (depth_at self.old.running self.old.rows.items) block }
        ensures rows { OnOk result
            (self.new.rows.items ≡ self.old.rows.items
            ++ row_of plan.now entry block self.old.running self.old.rows.items ∷ []) }
        ensures running { OnOk result (self.new.running ≡ length self.old.rows.items ∷ self.old.running) }
    {
        let interval = number(self.rows.len())?;
        let row = new_row(plan, self, entry, block);
        self.rows.push(row)?;
        self.running.push(interval)
    }

    /// The innermost interval is left by this entry.
    fn leave(&mut self, entry: u32) -> Result<(), Memory>
        ensures rows { OnOk result (self.new.rows.items ≡ left_rows entry self.old.running self.old.rows.items) }
        ensures running { OnOk result (self.new.running ≡ drop 1 self.old.running) }
    {
        match self.running.pop() {
            Some(place) => {
                let outer = innermost(&self.running);
                leave_one(&mut self.rows, place, outer, entry)
            }
            None => Ok(()),
        }
    }

    fn add_mark(&mut self, mark: Mark) -> Result<(), Memory>
        ensures rows { OnOk result (self.new.rows.items ≡ add_mark mark self.old.running self.old.rows.items) }
        ensures running { OnOk result (self.new.running ≡ self.old.running) }
    {
        let place = innermost(&self.running);
        add_mark_to(&mut self.rows, place, mark)
    }

    /// The process came to its end by this entry.
    fn end<L: Ledger>(&mut self, entry: u32, steps: &mut Steps<L>) -> Result<(), Memory>
        ensures rows { OnOk result
            (self.new.rows.items
            ≡ open_rows entry self.old.running (add_mark (mark.Own entry) self.old.running self.old.rows.items)) }
        ensures running { OnOk result (self.new.running ≡ self.old.running) }
        ensures cost { steps.new ≤ steps.old + length self.old.running }
        ensures taken { OnOk result (steps.new ≡ steps.old + length self.old.running) }
    {
        self.add_mark(Mark::Own(entry))?;
        open_all(&mut self.rows, &self.running, entry, steps)
    }

    /// Takes entry `n`.
    pub(crate) fn take<L: Ledger>(
        &mut self,
        plan: &Plan,
        n: u32,
        entry: &Entry,
        steps: &mut Steps<L>,
    ) -> Result<(), Memory>
        requires { HasRoom plan.now (depth_at self.old.running self.old.rows.items) entry.now }
        ensures table { OnOk result (tabled (n + 1) self.new ≡ table_step plan.now (tabled n self.old) entry.now) }
        ensures cost { OnOk result
            (steps.new + still_open (is_end entry.now) self.new.running
            ≤ steps.old + length self.old.running + 1) }
        ensures most { steps.new ≤ steps.old + length self.old.running }
        ensures least { OnOk result (steps.old ≤ steps.new) }
    {
        match entry {
            Entry::Prelog { block, .. } => self.enter(plan, n, *block),
            Entry::Unit { .. } | Entry::Sync { .. } => self.add_mark(Mark::Own(n)),
            Entry::Postlog { .. } => self.leave(n),
            Entry::End { .. } => self.end(n, steps),
        }
    }
}
