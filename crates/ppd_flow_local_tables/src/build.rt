ghost use Rattle.std.specs.Prelude.{◌≡◌, ◌+◌, ◌<◌, ◌^◌, ℕ, true, IfOk, OnOk, if◌then◌else◌};
ghost use Rattle.ppd_model.specs.FullTrace.{is_passed as is_passed_by};
ghost use Rattle.ppd_graph.specs.Locals.{is_local};
ghost use Rattle.ppd_flow_local_tables.specs.Built.{HasPlaces, IsNew, IsNoted, IsReady, IsSameButWrites, IsStep, left_by, point_by, received_by, return_by, tests_by, value_by, writes_by};
ghost use Rattle.ppd_flow_local_tables.specs.Kept.{AllRowsBefore, row_of};
ghost use Rattle.ppd_flow_local_tables.specs.Rows.{noted};

use crate::calls::Code;
use crate::leaf::{frame_in, leaf_after};
use crate::point::Point;
use crate::rows::Rows;
use crate::table::LocalTable;
use ppd_ast::{BlockKind, Memory};
use ppd_graph::{LeafCall, Writer};
use ppd_model::Item;
use ppd_sem::{Access, Event, Spot, block_kind, postlog_cells};
use std::alloc::Global;

/// The table of the items so far, the number of the next one, what is known at it, and the statement of the last
/// event.
#[derive(Drop)]
pub(crate) struct Building {
    pub table: LocalTable,
    pub next: u32,
    pub point: Point,
    pub call: u32,
}

/// Whether a value is there and not 0.
fn is_passed(value: Option<i64>) -> bool
    ensures { result ≡ is_passed_by value }
{
    match value {
        Some(value) => value != 0,
        None => false,
    }
}

/// Notes the test of this item, an event.
fn note_test(tests: &mut Rows<bool>, item: u32, event: &Event) -> Result<(), Memory>
    requires { AllRowsBefore item tests.old }
    ensures { OnOk result ((f k : ℕ) → row_of tests.new f k ≡ tests_by item event.now f k (row_of tests.old f k)) }
{
    if event.trap.is_some() {
        return Ok(());
    }
    tests.note((0, event.stmt), item, is_passed(event.value))
}

/// Notes what this item writes to a spot, if that is a local cell.
fn note_write(writes: &mut Rows<Writer>, item: u32, spot: Spot) -> Result<(), Memory>
    requires { AllRowsBefore (item + 1) writes.old }
    ensures { OnOk result ((f k : ℕ) → row_of writes.new f k
        ≡ (if is_local f k spot then noted item (Writer.At item) (row_of writes.old f k) else row_of writes.old f k)) }
{
    match spot {
        Spot::Local { frame, cell } => writes.note((frame, cell as u32), item, Writer::At(item)),
        Spot::Shared(_) => Ok(()),
    }
}

/// Notes what this item writes.
fn note_writes(writes: &mut Rows<Writer>, item: u32, accesses: &[Access]) -> Result<(), Memory>
    requires { AllRowsBefore item writes.old }
    ensures { OnOk result ((f k : ℕ) → row_of writes.new f k
        ≡ writes_by item accesses.now f k (row_of writes.old f k)) }
{
    for access in accesses {
        note_write(writes, item, access.spot)?;
    }
    Ok(())
}

/// The cell that receives the value with which an event returns from the activation that goes on.
fn received(code: &Code, event: &Event, leaf: Option<LeafCall>) -> Option<u16>
    ensures { result ≡ received_by code.now.program.now event.now leaf }
{
    let Some(call) = leaf else {
        return None;
    };
    if event.trap.is_none() && code.returns(event.stmt) && event.value.is_some() {
        code.receiver(call.stmt)
    } else {
        None
    }
}

/// Notes the cell to which this item, an event, returns a value.
fn note_return(
    writes: &mut Rows<Writer>,
    code: &Code,
    item: u32,
    event: &Event,
    leaf: Option<LeafCall>,
) -> Result<(), Memory>
    requires { AllRowsBefore (item + 1) writes.old }
    ensures { OnOk result ((f k : ℕ) → row_of writes.new f k
        ≡ return_by code.now.program.now item event.now leaf f k (row_of writes.old f k)) }
{
    match received(code, event, leaf) {
        Some(cell) => writes.note((0, cell as u32), item, Writer::At(item)),
        None => Ok(()),
    }
}

/// Notes the cell that receives the value of a function's interval, this item, which the last event called.
fn note_value(
    writes: &mut Rows<Writer>,
    code: &Code,
    item: u32,
    interval: u32,
    call: u32,
    values: &[i64],
) -> Result<(), Memory>
    requires { AllRowsBefore item writes.old }
    ensures { OnOk result ((f k : ℕ) → row_of writes.new f k
        ≡ value_by code.now.program.now item interval call values.now f k (row_of writes.old f k)) }
{
    if values.is_empty() {
        return Ok(());
    }
    match code.receiver(call) {
        Some(cell) => writes.note((0, cell as u32), item, Writer::Of(interval)),
        None => Ok(()),
    }
}

/// Notes the cells of a frame that a loop's interval, this item, may have written.
fn note_left(
    loops: &mut Rows<u32>,
    item: u32,
    interval: u32,
    frame: u8,
    cells: &[u16],
) -> Result<(), Memory>
    requires { AllRowsBefore item loops.old }
    ensures { OnOk result ((f k : ℕ) → row_of loops.new f k
        ≡ left_by item interval frame cells.now f k (row_of loops.old f k)) }
{
    for cell in cells {
        loops.note((frame, *cell as u32), item, interval)?;
    }
    Ok(())
}

/// What is known after an event, which is this item.
fn point_past(code: &Code, item: u32, event: &Event, point: Point) -> Point
    ensures { result ≡ point_by code.now.program.now code.now.plan.now item event.now point }
{
    Point {
        leaf: leaf_after(code, item, event, point.leaf),
        begun: if code.begins_leaf(event) {
            Some(item)
        } else {
            point.begun
        },
    }
}

impl Building {
    /// Before the first item. `Memory` is want of memory.
    pub(crate) fn new(alloc: Global) -> Result<Building, Memory>
        ensures { IfOk result IsNew }
    {
        let point = Point {
            leaf: None,
            begun: None,
        };
        let mut points = Vec::new(alloc);
        points.push(point)?;
        Ok(Building {
            table: LocalTable {
                points,
                tests: Rows::new(alloc),
                writes: Rows::new(alloc),
                loops: Rows::new(alloc),
            },
            next: 0,
            point,
            call: 0,
        })
    }

    fn event(&mut self, code: &Code, event: &Event) -> Result<(), Memory>
        requires { IsReady self.old }
        ensures places { HasPlaces self.old self.new }
        ensures noted { OnOk result
            (IsNoted code.now.program.now code.now.plan.now (Item.Own event.now) self.old self.new) }
    {
        note_test(&mut self.table.tests, self.next, event)?;
        note_writes(&mut self.table.writes, self.next, event.writes.as_slice())?;
        note_return(
            &mut self.table.writes,
            code,
            self.next,
            event,
            self.point.leaf,
        )?;
        self.point = point_past(code, self.next, event, self.point);
        self.call = event.stmt;
        Ok(())
    }

    fn value(&mut self, code: &Code, interval: u32, values: &[i64]) -> Result<(), Memory>
        requires { IsReady self.old }
        ensures same { IsSameButWrites self.old self.new }
        ensures noted { OnOk result ((f k : ℕ) → row_of self.new.table.writes f k
            ≡ value_by code.now.program.now self.old.next interval self.old.call values.now f k
            (row_of self.old.table.writes f k)) }
    {
        let call = self.call;
        note_value(
            &mut self.table.writes,
            code,
            self.next,
            interval,
            call,
            values,
        )
    }

    fn interval(
        &mut self,
        code: &Code,
        interval: u32,
        block: u16,
        values: &[i64],
    ) -> Result<(), Memory>
        requires { IsReady self.old }
        ensures places { HasPlaces self.old self.new }
        ensures noted { OnOk result (IsNoted code.now.program.now code.now.plan.now
            (Item.Nested interval block values.now true) self.old self.new) }
    {
        match block_kind(code.plan, block) {
            BlockKind::Loop(_) => {
                let frame = frame_in(self.point.leaf);
                let cells = postlog_cells(code.plan, block);
                note_left(&mut self.table.loops, self.next, interval, frame, cells)
            }
            BlockKind::Function(_) => self.value(code, interval, values),
            BlockKind::Process(_) => self.value(code, interval, values),
        }
    }

    fn change(&mut self, code: &Code, item: &Item) -> Result<(), Memory>
        requires { IsReady self.old }
        ensures places { HasPlaces self.old self.new }
        ensures noted { OnOk result (IsNoted code.now.program.now code.now.plan.now item.now self.old self.new) }
    {
        match item {
            Item::Own(event) => self.event(code, event),
            Item::Nested {
                interval,
                block,
                values,
                closed,
            } => {
                if *closed {
                    self.interval(code, *interval, *block, values.as_slice())
                } else {
                    Ok(())
                }
            }
        }
    }

    /// One more item. `Memory` is want of memory: nothing is said of the table.
    pub(crate) fn item(&mut self, code: &Code, item: &Item) -> Result<(), Memory>
        requires ready { IsReady self.old }
        requires room { self.old.next + 1 < 2 ^ 32 }
        ensures { OnOk result (IsStep code.now.program.now code.now.plan.now item.now self.old self.new) }
    {
        let next = self.next + 1;
        self.change(code, item)?;
        self.table.points.push(self.point)?;
        self.next = next;
        Ok(())
    }
}
