ghost use Rattle.std.specs.Prelude.{◌≡◌, ◌<◌, ◌≤◌, ◌+◌, ◌*◌, ◌||◌, ◌++◌, IfOk, IsTrue, OnOk, drop, length};
ghost use Rattle.ppd_ast.specs.Members.{has, AreBelow};
ghost use Rattle.ppd_race.specs.Union.{HasBelow, IsUnion, do_rise as rise_by, least_of, left_after, push_when, size_of};

use ppd_ast::limits::MOST_SHARED_CELLS;
use ppd_ast::{Cells, Memory, Steps};
use ppd_race_found::EdgeSets;
use ppd_sets::CellSet;
use std::alloc::Global;
use std::sync::ledger::Ledger;

// Whether the cells rise from this one on and are below 1,024.
fn do_rise<L: Ledger>(cells: &[u16], steps: &mut Steps<L>) -> bool
    ensures value { result ≡ rise_by 0 cells.now }
    ensures cost { steps.new ≤ steps.old + length cells.now }
    ensures on { steps.old ≤ steps.new }
    ensures taken { IsTrue result → steps.new ≡ steps.old + length cells.now }
{
    let mut next = 0;
    for cell in cells {
        steps.tick();
        if *cell < next || *cell as usize >= MOST_SHARED_CELLS {
            return false;
        }
        next = *cell + 1;
    }
    true
}

// The least of what is left of two lists.
fn least(reads: &[u16], read: usize, writes: &[u16], write: usize) -> Option<u16>
    ensures { result ≡ least_of (drop read reads.now) (drop write writes.now) }
{
    match (reads.get(read), writes.get(write)) {
        (Some(a), Some(b)) => Some((*a).min(*b)),
        (Some(a), None) => Some(*a),
        (None, Some(b)) => Some(*b),
        (None, None) => None,
    }
}

// Past the cell, where it comes next.
fn past(list: &[u16], place: usize, cell: u16) -> usize
    ensures { drop result list.now ≡ left_after cell (drop place list.now) }
{
    match list.get(place) {
        Some(next) if *next == cell => place + 1,
        _ => place,
    }
}

// The cells of two lists that rise.
fn merged<L: Ledger>(
    alloc: Global,
    reads: &[u16],
    writes: &[u16],
    steps: &mut Steps<L>,
) -> Result<Cells, Memory>
    requires reads { IsTrue (rise_by 0 reads.now) }
    requires writes { IsTrue (rise_by 0 writes.now) }
    ensures union { IfOk result (IsUnion (λ c. has reads.now c || has writes.now c)) }
    ensures size { IfOk result (λ cells. length cells ≤ length reads.now + length writes.now) }
    ensures cost { steps.new ≤ steps.old + length reads.now + length writes.now }
    ensures taken { IfOk result (λ cells. steps.new ≡ steps.old + length cells) }
{
    let mut cells = Cells::new(alloc);
    let mut read = 0;
    let mut write = 0;
    while let Some(cell) = least(reads, read, writes, write) {
        steps.tick();
        cells.push(cell)?;
        read = past(reads, read, cell);
        write = past(writes, write, cell);
    }
    Ok(cells)
}

fn push_if(cells: &mut Cells, holds: bool, cell: u16) -> Result<(), Memory>
    ensures { OnOk result (cells.new ≡ cells.old ++ push_when holds cell) }
{
    if holds {
        return cells.push(cell);
    }
    Ok(())
}

fn is_in_either(reads: &CellSet, writes: &CellSet, cell: u16) -> bool
    requires { cell < MOST_SHARED_CELLS }
    ensures { result ≡ (has reads.now cell || has writes.now cell) }
{
    reads.contains(cell) || writes.contains(cell)
}

// The cells of two sets, all looked at.
fn walked<L: Ledger>(
    alloc: Global,
    reads: &CellSet,
    writes: &CellSet,
    steps: &mut Steps<L>,
) -> Result<Cells, Memory>
    requires reads { AreBelow MOST_SHARED_CELLS reads.now }
    requires writes { AreBelow MOST_SHARED_CELLS writes.now }
    ensures union { IfOk result (IsUnion (λ c. has reads.now c || has writes.now c)) }
    ensures size { IfOk result (λ cells. length cells ≤ MOST_SHARED_CELLS) }
    ensures cost { steps.new ≤ steps.old + MOST_SHARED_CELLS }
    ensures taken { OnOk result (steps.new ≡ steps.old + MOST_SHARED_CELLS) }
{
    let mut cells = Cells::new(alloc);
    for cell in 0..MOST_SHARED_CELLS as u16 {
        steps.tick();
        push_if(&mut cells, is_in_either(reads, writes, cell), cell)?;
    }
    Ok(cells)
}

/// The cells of an edge, from its recorded lists where both rise. Else all cells are looked at.
pub(crate) fn union_of<L: Ledger>(
    alloc: Global,
    sets: &EdgeSets,
    reads: &CellSet,
    writes: &CellSet,
    steps: &mut Steps<L>,
) -> Result<Cells, Memory>
    requires reads { HasBelow reads.now sets.now.reads }
    requires writes { HasBelow writes.now sets.now.writes }
    ensures union { IfOk result (IsUnion (λ c. has reads.now c || has writes.now c)) }
    ensures size { IfOk result (λ cells. length cells ≤ size_of sets.now) }
    ensures cost { steps.new ≤ steps.old + 2 * size_of sets.now }
    ensures on { OnOk result (steps.old ≤ steps.new) }
{
    let read = sets.reads.as_slice();
    let written = sets.writes.as_slice();
    if do_rise(read, steps) && do_rise(written, steps) {
        return merged(alloc, read, written, steps);
    }
    walked(alloc, reads, writes, steps)
}
