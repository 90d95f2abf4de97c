ghost use Rattle.std.specs.Prelude.{◌<◌, ◌≤◌, ◌+◌, ◌*◌, IfOk, OnOk, length};
ghost use Rattle.std.specs.List.{sum_by};
ghost use Rattle.ppd_ast.specs.Members.{RisesFrom, AreBelow};
ghost use Rattle.ppd_race.specs.ByCell.{IsByCell, accessor as accessor_of, listed_if, listed_in, listing_cost, listing_least};
ghost use Rattle.ppd_race_found.specs.Search.{AreOfCells};
ghost use Rattle.ppd_race_found.specs.Lists.{GrowsBy};

use ppd_ast::limits::MOST_SHARED_CELLS;
use ppd_ast::{Memory, Steps};
use ppd_race_found::{Accessor, Busy, ByCell, Lists, no_lists, push_at};
use ppd_sets::CellSet;
use std::alloc::Global;
use std::sync::ledger::Ledger;

fn push_if<L: Ledger>(
    lists: &mut Lists<Accessor>,
    holds: bool,
    cell: u16,
    one: Accessor,
    steps: &mut Steps<L>,
) -> Result<(), Memory>
    ensures listed { OnOk result (GrowsBy (listed_if holds cell one) lists.old.items lists.new.items) }
    ensures cost { steps.new ≤ steps.old + 1 }
    ensures on { steps.old ≤ steps.new }
{
    if holds {
        return push_at(lists, cell as usize, one, steps);
    }
    Ok(())
}

// Lists an edge for those of its cells that are in the set.
fn list_cells<L: Ledger>(
    lists: &mut Lists<Accessor>,
    set: &CellSet,
    cells: &[u16],
    one: Accessor,
    steps: &mut Steps<L>,
) -> Result<(), Memory>
    requires below { AreBelow MOST_SHARED_CELLS cells.now }
    ensures listed { OnOk result
        (RisesFrom 0 cells.now → GrowsBy (listed_in set.now cells.now one) lists.old.items lists.new.items) }
    ensures cost { steps.new ≤ steps.old + 2 * length cells.now }
    ensures least { OnOk result (steps.old + length cells.now ≤ steps.new) }
{
    for cell in cells {
        steps.tick();
        push_if(lists, set.contains(*cell), *cell, one, steps)?;
    }
    Ok(())
}

// Lists an edge at its place.
fn list_edge<L: Ledger>(
    lists: &mut ByCell,
    place: usize,
    a: &Busy,
    steps: &mut Steps<L>,
) -> Result<(), Memory>
    requires below { AreBelow MOST_SHARED_CELLS a.now.cells }
    ensures readers { OnOk result
        (RisesFrom 0 a.now.cells
        → GrowsBy (listed_in a.now.reads a.now.cells
        (accessor_of place a.now)) lists.old.readers.items lists.new.readers.items) }
    ensures writers { OnOk result
        (RisesFrom 0 a.now.cells
        → GrowsBy (listed_in a.now.writes a.now.cells
        (accessor_of place a.now)) lists.old.writers.items lists.new.writers.items) }
    ensures cost { steps.new ≤ steps.old + 4 * length a.now.cells }
    ensures least { OnOk result (steps.old + 2 * length a.now.cells ≤ steps.new) }
{
    let one = Accessor {
        place,
        edge: a.edge,
    };
    let cells = a.cells.as_slice();
    list_cells(&mut lists.readers, &a.reads, cells, one, steps)?;
    list_cells(&mut lists.writers, &a.writes, cells, one, steps)?;
    Ok(())
}

/// The busy edges of a process by their cells.
pub(crate) fn list_by_cell<L: Ledger>(
    alloc: Global,
    own: &[Busy],
    steps: &mut Steps<L>,
) -> Result<ByCell, Memory>
    requires cells { AreOfCells own.now }
    ensures lists { IfOk result (IsByCell own.now) }
    ensures cost { steps.new ≤ steps.old + 2048 + sum_by listing_cost own.now }
    ensures least { OnOk result (steps.old + 2048 + sum_by listing_least own.now ≤ steps.new) }
{
    let mut lists = ByCell {
        readers: no_lists(alloc, MOST_SHARED_CELLS, steps)?,
        writers: no_lists(alloc, MOST_SHARED_CELLS, steps)?,
    };
    for place in 0..own.len() {
        steps.tick();
        list_edge(&mut lists, place, &own[place], steps)?;
    }
    Ok(lists)
}
