ghost use Rattle.std.specs.Prelude.{◌≡◌, ◌<◌, ◌≤◌, ◌+◌, ◌*◌, ℕ, [], OnOk, get_or, length};
ghost use Rattle.std.specs.List.{sum_by};
ghost use Rattle.ppd_ast.specs.Members.{AreBelow};
ghost use Rattle.ppd_race_found.specs.Search.{IsRising, race_of, AreOfCells, AreElsewhere, AreInOrder, CanSearch, IsElsewhere, IsWhole, against as against_of, edge_cost, edge_least, found_against, found_if, found_in, found_over, found_with};
ghost use Rattle.ppd_race_found.specs.Lists.{GrowsBy, total};

use crate::apart::window;
use crate::busy::{Accessor, Against, Busy};
use crate::by_cell::ByCell;
use crate::lists::{Lists, push_at};
use ppd_ast::limits::MOST_SHARED_CELLS;
use ppd_ast::{Memory, Steps};
use ppd_graph::SyncGraph;
use ppd_model::{EdgeId, Race, RaceKind};
use std::sync::ledger::Ledger;

/// The races of each busy edge of a process.
pub type Found = Lists<Race>;

fn race(a: EdgeId, against: Against) -> Race
    ensures { result ≡ race_of a against.edge against.cell against.kind }
{
    Race {
        p: a.process,
        i: a.edge,
        q: against.edge.process,
        j: against.edge.edge,
        cell: against.cell,
        kind: against.kind,
    }
}

fn against(edge: EdgeId, cell: u16, kind: RaceKind) -> Against
    ensures { result ≡ against_of edge cell kind }
{
    Against { edge, cell, kind }
}

// Adds to each edge of the list its race, where it is neither before the other edge nor after it.
fn add_against<L: Ledger>(
    found: &mut Found,
    graph: &SyncGraph,
    list: &[Accessor],
    against: Against,
    steps: &mut Steps<L>,
) -> Result<(), Memory>
    ensures long { OnOk result (length found.new.items ≡ length found.old.items) }
    ensures grows { OnOk result
        (IsRising graph.now → (p : ℕ) → AreInOrder graph.now p list.now → IsElsewhere graph.now p against.edge
        → GrowsBy (found_against graph.now list.now against) found.old.items found.new.items) }
    ensures cost { OnOk result (steps.new + total found.old.items ≤ steps.old + total found.new.items + 128) }
    ensures least { OnOk result (steps.old + total found.new.items ≤ steps.new + total found.old.items) }
{
    let apart = window(graph, list, against.edge, steps);
    for one in apart {
        push_at(found, one.place, race(one.edge, against), steps)?;
    }
    Ok(())
}

fn add_if<L: Ledger>(
    found: &mut Found,
    holds: bool,
    graph: &SyncGraph,
    list: &[Accessor],
    against: Against,
    steps: &mut Steps<L>,
) -> Result<(), Memory>
    ensures long { OnOk result (length found.new.items ≡ length found.old.items) }
    ensures grows { OnOk result
        (IsRising graph.now → (p : ℕ) → AreInOrder graph.now p list.now → IsElsewhere graph.now p against.edge
        → GrowsBy (found_if holds graph.now list.now against) found.old.items found.new.items) }
    ensures cost { OnOk result (steps.new + total found.old.items ≤ steps.old + total found.new.items + 128) }
    ensures least { OnOk result (steps.old + total found.new.items ≤ steps.new + total found.old.items) }
{
    if holds {
        return add_against(found, graph, list, against, steps);
    }
    Ok(())
}

// The edges listed for a cell.
fn listed(lists: &Lists<Accessor>, cell: u16) -> &[Accessor]
    requires { cell < length lists.now.items }
    ensures { result.now ≡ get_or lists.now.items cell [] }
{
    lists[cell as usize].as_slice()
}

// The races over a cell with an edge of a later process.
fn add_cell<L: Ledger>(
    found: &mut Found,
    graph: &SyncGraph,
    lists: &ByCell,
    b: &Busy,
    cell: u16,
    steps: &mut Steps<L>,
) -> Result<(), Memory>
    requires whole { IsWhole lists.now }
    requires cell { cell < MOST_SHARED_CELLS }
    ensures long { OnOk result (length found.new.items ≡ length found.old.items) }
    ensures grows { OnOk result
        ((p : ℕ) → CanSearch graph.now p lists.now → IsElsewhere graph.now p b.now.edge
        → GrowsBy (found_over graph.now lists.now b.now cell) found.old.items found.new.items) }
    ensures cost { OnOk result (steps.new + total found.old.items ≤ steps.old + total found.new.items + 384) }
    ensures least { OnOk result (steps.old + total found.new.items ≤ steps.new + total found.old.items) }
{
    let reads = b.reads.contains(cell);
    let writes = b.writes.contains(cell);
    let readers = listed(&lists.readers, cell);
    let writers = listed(&lists.writers, cell);
    let read_write = against(b.edge, cell, RaceKind::ReadWrite);
    let write_read = against(b.edge, cell, RaceKind::WriteRead);
    let write_write = against(b.edge, cell, RaceKind::WriteWrite);
    add_if(found, writes, graph, readers, read_write, steps)?;
    add_if(found, reads, graph, writers, write_read, steps)?;
    add_if(found, writes, graph, writers, write_write, steps)?;
    Ok(())
}

// The races with an edge of a later process.
fn add_edge<L: Ledger>(
    found: &mut Found,
    graph: &SyncGraph,
    lists: &ByCell,
    b: &Busy,
    steps: &mut Steps<L>,
) -> Result<(), Memory>
    requires whole { IsWhole lists.now }
    requires below { AreBelow MOST_SHARED_CELLS b.now.cells }
    ensures long { OnOk result (length found.new.items ≡ length found.old.items) }
    ensures grows { OnOk result
        ((p : ℕ) → CanSearch graph.now p lists.now → IsElsewhere graph.now p b.now.edge
        → GrowsBy (found_with graph.now lists.now b.now) found.old.items found.new.items) }
    ensures cost { OnOk result
        (steps.new + total found.old.items ≤ steps.old + total found.new.items + 385 * length b.now.cells) }
    ensures least { OnOk result
        (steps.old + total found.new.items + length b.now.cells ≤ steps.new + total found.old.items) }
{
    let cells = b.cells.as_slice();
    for cell in cells {
        steps.tick();
        add_cell(found, graph, lists, b, *cell, steps)?;
    }
    Ok(())
}

/// Adds the races of the listed edges with the busy edges of a later process. `Memory` is want of memory: some of them
/// may have been added.
pub fn add_row<L: Ledger>(
    found: &mut Found,
    graph: &SyncGraph,
    lists: &ByCell,
    row: &[Busy],
    steps: &mut Steps<L>,
) -> Result<(), Memory>
    requires whole { IsWhole lists.now }
    requires cells { AreOfCells row.now }
    ensures long { OnOk result (length found.new.items ≡ length found.old.items) }
    ensures grows { OnOk result
        ((p : ℕ) → CanSearch graph.now p lists.now → AreElsewhere graph.now p row.now
        → GrowsBy (found_in graph.now lists.now row.now) found.old.items found.new.items) }
    ensures cost { OnOk result
        (steps.new + total found.old.items ≤ steps.old + total found.new.items + sum_by edge_cost row.now) }
    ensures least { OnOk result
        (steps.old + total found.new.items + sum_by edge_least row.now ≤ steps.new + total found.old.items) }
{
    for b in row {
        steps.tick();
        add_edge(found, graph, lists, b, steps)?;
    }
    Ok(())
}
