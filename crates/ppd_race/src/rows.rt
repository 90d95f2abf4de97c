ghost use Rattle.std.specs.Prelude.{◌≡◌, ◌<◌, ◌≤◌, ◌+◌, ◌*◌, ◌^◌, ℕ, ◌||◌, IfOk, OnOk, IsTrue, ◌↔◌, nat_eq, ◌&&◌, [], length};
ghost use Rattle.std.specs.List.{sum_by};
ghost use Rattle.ppd_ast.specs.Members.{has, AreBelow};
ghost use Rattle.ppd_race_found.specs.Search.{edge_cost, row_cost};
ghost use Rattle.ppd_race.specs.Spending.{set_cost, sets_cost, sets_least};
ghost use Rattle.ppd_race.specs.Union.{HasBelow, size_of};
ghost use Rattle.ppd_race.specs.Busy.{AreBusyRows, AreFew, IsBusyOf, IsBusyRow, Takes, is_busy, is_none};

use crate::union::union_of;
use ppd_ast::limits::{MOST_NAMED, MOST_SHARED_CELLS};
use ppd_ast::{Memory, Seq, Steps};
use ppd_model::{BoxedCells, EdgeId};
use ppd_race_found::{Busy, EdgeSets};
use ppd_sets::CellSet;
use std::alloc::Global;
use std::sync::ledger::Ledger;

/// Whether the processes have 8-bit numbers, and their edges 32-bit ones.
pub(crate) fn are_few<L: Ledger>(sets: &[Seq<EdgeSets>], steps: &mut Steps<L>) -> bool
    ensures few { IsTrue result ↔ AreFew sets.now }
    ensures cost { steps.new ≤ steps.old + length sets.now }
    ensures taken { IsTrue result → steps.new ≡ steps.old + length sets.now }
{
    if sets.len() > MOST_NAMED {
        return false;
    }
    for own in sets {
        steps.tick();
        if own.len() > 0xffff_ffff {
            return false;
        }
    }
    true
}

// Adds the cell where it is below 1,024.
#[tactic(auto, using(crate::proofs::BusyRows::not_here))]
fn insert_below(set: &mut CellSet, cell: u16)
    ensures puts { (c : ℕ) → c < MOST_SHARED_CELLS → has set.new c ≡ (nat_eq cell c || has set.old c) }
    ensures below { AreBelow MOST_SHARED_CELLS set.old → AreBelow MOST_SHARED_CELLS set.new }
{
    if cell as usize >= MOST_SHARED_CELLS {
        return;
    }
    set.insert(cell);
}

// The set of these cells, as far as they are below 1,024.
fn set_of<L: Ledger>(cells: &[u16], steps: &mut Steps<L>) -> CellSet
    ensures set { HasBelow result cells.now }
    ensures cost { steps.new ≡ steps.old + length cells.now }
{
    let mut set = CellSet::new();
    for cell in cells {
        steps.tick();
        insert_below(&mut set, *cell);
    }
    set
}

// The edge with its cells.
fn busy_edge<L: Ledger>(
    alloc: Global,
    edge: EdgeId,
    sets: &EdgeSets,
    steps: &mut Steps<L>,
) -> Result<Busy, Memory>
    ensures busy { IfOk result (IsBusyOf edge sets.now) }
    ensures size { IfOk result (λ b. length b.cells ≤ size_of sets.now) }
    ensures cost { steps.new ≤ steps.old + 3 * size_of sets.now }
    ensures least { OnOk result (steps.old + length sets.now.reads + length sets.now.writes ≤ steps.new) }
{
    let reads = set_of(sets.reads.as_slice(), steps);
    let writes = set_of(sets.writes.as_slice(), steps);
    let cells = union_of(alloc, sets, &reads, &writes, steps)?;
    Ok(Busy {
        edge,
        reads,
        writes,
        cells,
    })
}

fn is_empty(cells: &BoxedCells) -> bool
    ensures { result ≡ is_none cells.now }
{
    cells.len() == 0
}

// Whether an edge with these sets accesses nothing.
fn is_idle(sets: &EdgeSets) -> bool
    ensures { result ≡ (is_none sets.now.reads && is_none sets.now.writes) }
{
    is_empty(&sets.reads) && is_empty(&sets.writes)
}

// Adds the edge where it accesses a cell.
fn take_edge<L: Ledger>(
    alloc: Global,
    row: &mut Seq<Busy>,
    edge: EdgeId,
    sets: &EdgeSets,
    steps: &mut Steps<L>,
) -> Result<(), Memory>
    ensures takes { OnOk result (Takes (is_busy sets.now) row.old row.new edge sets.now) }
    ensures size { OnOk result (sum_by edge_cost row.new ≤ sum_by edge_cost row.old + set_cost sets.now) }
    ensures cost { steps.new ≤ steps.old + 3 * size_of sets.now }
    ensures on { OnOk result (steps.old ≤ steps.new) }
{
    if is_idle(sets) {
        return Ok(());
    }
    let busy = busy_edge(alloc, edge, sets, steps)?;
    row.push(busy)?;
    Ok(())
}

// The busy edges of a process.
fn busy_row<L: Ledger>(
    alloc: Global,
    process: u8,
    own: &[EdgeSets],
    steps: &mut Steps<L>,
) -> Result<Seq<Busy>, Memory>
    requires { length own.now < 2 ^ 32 }
    ensures busy { IfOk result (IsBusyRow process own.now) }
    ensures size { IfOk result (λ row. sum_by edge_cost row ≤ sum_by set_cost own.now) }
    ensures cost { steps.new ≤ steps.old + sum_by set_cost own.now }
    ensures least { OnOk result (steps.old + length own.now ≤ steps.new) }
{
    let mut row = Seq::new(alloc);
    for edge in 0..own.len() {
        steps.tick();
        let name = EdgeId {
            process,
            edge: edge as u32,
        };
        take_edge(alloc, &mut row, name, &own[edge], steps)?;
    }
    Ok(row)
}

/// The busy edges of each process.
pub(crate) fn busy_rows<L: Ledger>(
    alloc: Global,
    sets: &[Seq<EdgeSets>],
    steps: &mut Steps<L>,
) -> Result<Seq<Seq<Busy>>, Memory>
    requires { AreFew sets.now }
    ensures busy { IfOk result (AreBusyRows sets.now) }
    ensures size { IfOk result (λ rows. sum_by row_cost rows ≤ sum_by sets_cost sets.now) }
    ensures cost { steps.new ≤ steps.old + sum_by sets_cost sets.now }
    ensures least { OnOk result (steps.old + sum_by sets_least sets.now ≤ steps.new) }
{
    let mut rows = Seq::new(alloc);
    for process in 0..sets.len() {
        steps.tick();
        let row = busy_row(alloc, process as u8, sets[process].as_slice(), steps)?;
        rows.push(row)?;
    }
    Ok(rows)
}
