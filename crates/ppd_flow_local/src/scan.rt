ghost use Rattle.std.specs.Prelude.{◌≡◌, ◌+◌, ◌<◌, ◌^◌, ◌∷◌, ◌&&◌, fold, length, nat_eq, reverse, IfOk, OnOk};
ghost use Rattle.std.specs.List.{list_any};
ghost use Rattle.ppd_flow_local.specs.Scans.{scanned};
ghost use Rattle.ppd_model.specs.NearIntervals.{is_in};
ghost use Rattle.ppd_sem.specs.Blocks.{block_kind as kind_of_block, postlog_cells as postlog_of};
ghost use Rattle.ppd_graph.specs.Locals.{begins_leaf, begun_scan, is_local as is_local_of, receives as receives_by, scan as scan_of, scan_event, scan_interval, scan_item, written_by as written_of};

use ppd_ast::{BlockKind, Memory, Seq};
use ppd_flow_local_tables::{Code, frame_in, leaf_after};
use ppd_flow_tables::number;
use ppd_graph::{LeafCall, Writer};
use ppd_model::Item;
use ppd_sem::{Event, Spot, block_kind, postlog_cells};
use std::alloc::Global;

/// A local cell of a frame: 0 for the interval's own activation, 1 for one that goes on in it without an interval.
#[derive(Clone, Copy)]
pub struct LocalCell {
    pub frame: u8,
    pub cell: u16,
}

/// The first items of an interval, for a local cell: the number of the next item, the call whose activation goes
/// on, the statement of the last event, the cell's writer, and the loops since that may have written it too, the oldest
/// first.
#[derive(Drop)]
pub struct Scan {
    pub next: u32,
    pub leaf: Option<LeafCall>,
    pub call: u32,
    pub writer: Writer,
    pub loops: Seq<u32>,
}

fn is_local(wanted: LocalCell, spot: Spot) -> bool
    ensures { result ≡ is_local_of wanted.frame wanted.cell spot }
{
    match spot {
        Spot::Local { frame, cell } => wanted.frame == frame && wanted.cell == cell,
        Spot::Shared(_) => false,
    }
}

/// Whether the event returns from the activation that goes on, with a value that the cell receives.
fn receives(code: &Code, wanted: LocalCell, event: &Event, leaf: Option<LeafCall>) -> bool
    ensures { result ≡ receives_by code.now.program.now wanted.frame wanted.cell event.now leaf }
{
    let Some(call) = leaf else {
        return false;
    };
    wanted.frame == 0
        && event.trap.is_none()
        && code.returns(event.stmt)
        && event.value.is_some()
        && code.receiver(call.stmt) == Some(wanted.cell)
}

/// Whether the event writes the cell.
fn writes(wanted: LocalCell, event: &Event) -> bool
    ensures { result ≡ list_any (λ a. is_local_of wanted.frame wanted.cell a.spot) event.now.writes }
{
    for access in event.writes.as_slice() {
        if is_local(wanted, access.spot) {
            return true;
        }
    }
    false
}

/// Whether the event begins the activation that the cell is of.
fn begins_frame(code: &Code, wanted: LocalCell, event: &Event) -> bool
    ensures { result ≡ (begins_leaf code.now.program.now code.now.plan.now event.now && nat_eq wanted.frame 1) }
{
    code.begins_leaf(event) && wanted.frame == 1
}

/// Whether the cell is one of these.
pub(crate) fn has_cell(cells: &[u16], cell: u16) -> bool
    ensures { result ≡ is_in cell cells.now }
{
    for found in cells {
        if cell == *found {
            return true;
        }
    }
    false
}

/// Puts a loop behind these, which are seen from the last.
fn push_loop(loops: &mut Seq<u32>, interval: u32) -> Result<(), Memory>
    ensures { OnOk result (reverse loops.new ≡ interval ∷ reverse loops.old) }
{
    loops.push(interval)?;
    Ok(())
}

impl Scan {
    /// Before the first item.
    fn new(alloc: Global) -> Scan
        ensures { scanned result ≡ begun_scan }
    {
        Scan {
            next: 0,
            leaf: None,
            call: 0,
            writer: Writer::Before,
            loops: Seq::new(alloc),
        }
    }

    fn written_by(&mut self, writer: Writer)
        ensures { scanned self.new ≡ written_of writer (scanned self.old) }
    {
        self.writer = writer;
        self.loops.clear();
    }

    /// An event writes the cell, begins the activation that it is of, or returns a value to it.
    fn event(&mut self, code: &Code, wanted: LocalCell, event: &Event)
        ensures { scanned self.new
            ≡ scan_event code.now.program.now code.now.plan.now wanted.frame wanted.cell event.now (scanned self.old) }
    {
        if writes(wanted, event) {
            self.written_by(Writer::At(self.next));
        } else if begins_frame(code, wanted, event) {
            self.written_by(Writer::Fresh);
        } else if receives(code, wanted, event, self.leaf) {
            self.written_by(Writer::At(self.next));
        }
    }

    /// An interval that was left, of this block: a loop of the frame with the cell in its postlog, or one of a
    /// function with a value that the cell receives.
    fn interval(
        &mut self,
        code: &Code,
        wanted: LocalCell,
        interval: u32,
        block: u16,
        values: &[i64],
    ) -> Result<(), Memory>
        ensures { OnOk result (scanned self.new
            ≡ scan_interval code.now.program.now code.now.plan.now wanted.frame wanted.cell interval
            (kind_of_block code.now.plan.now block) (postlog_of code.now.plan.now block) values.now
            (scanned self.old)) }
    {
        if let BlockKind::Loop(_) = block_kind(code.plan, block) {
            let cells = postlog_cells(code.plan, block);
            if wanted.frame == frame_in(self.leaf) && has_cell(cells, wanted.cell) {
                return push_loop(&mut self.loops, interval);
            }
            return Ok(());
        }
        let receives = code.receiver(self.call) == Some(wanted.cell);
        if !values.is_empty() && wanted.frame == 0 && receives {
            self.written_by(Writer::Of(interval));
        }
        Ok(())
    }

    /// One more item.
    fn item(&mut self, code: &Code, wanted: LocalCell, item: &Item) -> Result<(), Memory>
        requires { self.old.next + 1 < 2 ^ 32 }
        ensures { OnOk result (scanned self.new
            ≡ scan_item code.now.program.now code.now.plan.now wanted.frame wanted.cell
            (scanned self.old) item.now) }
    {
        let next = self.next + 1;
        match item {
            Item::Own(event) => {
                let leaf = leaf_after(code, self.next, event, self.leaf);
                self.event(code, wanted, event);
                self.leaf = leaf;
                self.call = event.stmt;
            }
            Item::Nested {
                interval,
                block,
                values,
                closed,
            } => {
                if *closed {
                    self.interval(code, wanted, *interval, *block, values.as_slice())?;
                }
            }
        }
        self.next = next;
        Ok(())
    }

    /// These items, from the first on.
    fn items(&mut self, code: &Code, wanted: LocalCell, items: &[Item]) -> Result<(), Memory>
        requires few { length items.now < 2 ^ 32 }
        requires begun { self.old.next ≡ 0 }
        ensures { OnOk result (scanned self.new
            ≡ fold (scan_item code.now.program.now code.now.plan.now wanted.frame wanted.cell) (scanned self.old)
            items.now) }
    {
        for item in items {
            self.item(code, wanted, item)?;
        }
        Ok(())
    }

    /// These items, for a local cell. `Memory` is want of memory, also for items that have no 32-bit numbers.
    pub(crate) fn over(
        alloc: Global,
        code: &Code,
        wanted: LocalCell,
        items: &[Item],
    ) -> Result<Scan, Memory>
        ensures { IfOk result (λ state. scanned state
            ≡ scan_of code.now.program.now code.now.plan.now wanted.frame wanted.cell items.now) }
    {
        let _fits = number(items.len())?;
        let mut state = Scan::new(alloc);
        state.items(code, wanted, items)?;
        Ok(state)
    }
}
