ghost use Rattle.std.specs.Prelude.{◌≡◌, ◌<◌, ◌≤◌, ◌+◌, ◌-◌, ◌*◌, [], IfOk, OnOk, get_or, length, map};
ghost use Rattle.std.specs.List.{flat_map, range_with_len, sum_by};
ghost use Rattle.ppd_race.specs.Busy.{AreBusyRows, races_by_rows, races_from};
ghost use Rattle.ppd_race_found.specs.Search.{IsRising, CanSearch, IsWhole, found_after, row_cost};
ghost use Rattle.ppd_race_found.specs.Lists.{GrowsBy, total};
ghost use Rattle.ppd_race.specs.Races.{AreRacesOf};
ghost use Rattle.ppd_race.specs.ByCell.{own_cost};
ghost use Rattle.ppd_race.specs.Spending.{search_cost, search_least, sets_least, work_of};

use crate::by_cell::list_by_cell;
use crate::rows::{are_few, busy_rows};
use ppd_ast::limits::MOST_NAMED;
use ppd_ast::{Memory, Seq, Steps};
use ppd_model::Race;
use ppd_race_found::{Busy, ByCell, Found, Lists, SyncGraph, add_row, no_lists};
use rayon::prelude::*;
use std::alloc::{AllocError, Global};
use std::marker::Brand;
use std::sync::ledger::{Blank, Ledger};
use std::thread::Threads;

// The races with the processes after p.
fn add_later<L: Ledger>(
    found: &mut Found,
    graph: &SyncGraph,
    lists: &ByCell,
    rows: &[Seq<Busy>],
    p: usize,
    steps: &mut Steps<L>,
) -> Result<(), Memory>
    requires few { length rows.now ≤ MOST_NAMED }
    requires there { p < length rows.now }
    requires rows { AreBusyRows graph.now.edges rows.now }
    requires whole { IsWhole lists.now }
    ensures long { OnOk result (length found.new.items ≡ length found.old.items) }
    ensures grows { OnOk result
        (CanSearch graph.now p lists.now
        → GrowsBy (found_after graph.now lists.now rows.now p) found.old.items found.new.items) }
    ensures cost { OnOk result
        (steps.new + total found.old.items ≤ steps.old + total found.new.items + sum_by row_cost rows.now) }
    ensures least { OnOk result
        (steps.old + total found.new.items + (length rows.now - (p + 1)) ≤ steps.new + total found.old.items) }
{
    for q in p + 1..rows.len() {
        steps.tick();
        add_row(found, graph, lists, rows[q].as_slice(), steps)?;
    }
    Ok(())
}

fn joined<L: Ledger>(
    alloc: Global,
    parts: Lists<Race>,
    steps: &mut Steps<L>,
) -> Result<Seq<Race>, Memory>
    ensures races { IfOk result (λ races. races ≡ flat_map (λ part. part) parts.items) }
    ensures cost { steps.new ≤ steps.old + length parts.items }
    ensures taken { OnOk result (steps.new ≡ steps.old + length parts.items) }
{
    let mut races = Seq::new(alloc);
    for part in parts {
        steps.tick();
        races.append(part.into_vec())?;
    }
    Ok(races)
}

// The races of process p with the later ones.
fn races_of_process<L: Ledger>(
    alloc: Global,
    graph: &SyncGraph,
    rows: &[Seq<Busy>],
    p: usize,
    steps: &mut Steps<L>,
) -> Result<Seq<Race>, Memory>
    requires few { length rows.now ≤ MOST_NAMED }
    requires there { p < length rows.now }
    requires rows { AreBusyRows graph.now.edges rows.now }
    ensures races { IfOk result (λ races. IsRising graph.now → races ≡ races_from graph.now rows.now p) }
    ensures cost { IfOk result
        (λ races. steps.new
        ≤ steps.old + 2048 + own_cost (get_or rows.now p []) + sum_by row_cost rows.now + length races) }
    ensures least { IfOk result (λ races. steps.old + 2048 + length races ≤ steps.new) }
{
    let own = rows[p].as_slice();
    let lists = list_by_cell(alloc, own, steps)?;
    let mut found = no_lists(alloc, own.len(), steps)?;
    add_later(&mut found, graph, &lists, rows, p, steps)?;
    let races = joined(alloc, found, steps)?;
    Ok(races)
}

// The same, with steps that nobody reads.
fn own_races_from<L: Ledger>(
    alloc: Global,
    graph: &SyncGraph,
    rows: &[Seq<Busy>],
    p: usize,
    blank: Blank,
) -> Result<Seq<Race>, Memory>
    requires name { blank.name ≡ L.name }
    requires parts { blank.parts ≡ L.parts }
    requires some { 0 < blank.parts }
    requires few { length rows.now ≤ MOST_NAMED }
    requires there { p < length rows.now }
    requires rows { AreBusyRows graph.now.edges rows.now }
    ensures { IfOk result (λ races. IsRising graph.now → races ≡ races_from graph.now rows.now p) }
{
    let mut steps: Steps<L> = Steps::new(blank);
    races_of_process(alloc, graph, rows, p, &mut steps)
}

fn own_races(
    alloc: Global,
    graph: &SyncGraph,
    rows: &[Seq<Busy>],
    p: usize,
) -> Result<Seq<Race>, Memory>
    requires few { length rows.now ≤ MOST_NAMED }
    requires there { p < length rows.now }
    requires rows { AreBusyRows graph.now.edges rows.now }
    ensures { IfOk result (λ races. IsRising graph.now → races ≡ races_from graph.now rows.now p) }
{
    own_races_from::<Brand>(alloc, graph, rows, p, Blank::new(1))
}

// The races of each process with the later ones, each found in whatever thread.
fn races_of_processes(
    rt: &(impl Threads + Sync),
    alloc: Global,
    graph: &SyncGraph,
    rows: &[Seq<Busy>],
) -> Result<Vec<Seq<Race>>, Memory>
    requires few { length rows.now ≤ MOST_NAMED }
    requires rows { AreBusyRows graph.now.edges rows.now }
    ensures { IfOk result
        (λ all. IsRising graph.now
        → all.items ≡ map (races_from graph.now rows.now) (range_with_len 0 (length rows.now))) }
{
    let all: Result<Result<Vec<Seq<Race>>, Memory>, AllocError> = (0..rows.len())
        .into_par_iter()
        .with_min_len(1)
        .map(
            |p: usize| -> Result<Seq<Race>, Memory>
                requires { (p < length rows.now) × (length rows.now ≤ MOST_NAMED)
                    × AreBusyRows graph.now.edges rows.now }
                ensures { IfOk result
                    (λ races. IsRising graph.entry.now → races ≡ races_from graph.entry.now rows.entry.now p) }
            { own_races(alloc, graph, rows, p) },
        )
        .collect(rt, alloc);
    match all {
        Ok(parts) => parts,
        Err(_) => Err(Memory),
    }
}

// The busy edges of each process of a graph.
fn busy_in<L: Ledger>(
    alloc: Global,
    graph: &SyncGraph,
    steps: &mut Steps<L>,
) -> Result<Seq<Seq<Busy>>, Memory>
    ensures few { IfOk result (λ rows. length rows ≤ MOST_NAMED) }
    ensures busy { IfOk result (AreBusyRows graph.now.edges) }
    ensures size { IfOk result (λ rows. sum_by row_cost rows ≤ work_of graph.now) }
    ensures cost { steps.new ≤ steps.old + work_of graph.now + length graph.now.edges }
    ensures least { OnOk result
        (steps.old + length graph.now.edges + sum_by sets_least graph.now.edges ≤ steps.new) }
{
    let sets = graph.edge_sets();
    if !are_few(sets, steps) {
        return Err(Memory);
    }
    busy_rows(alloc, sets, steps)
}

fn all_races<L: Ledger>(
    alloc: Global,
    graph: &SyncGraph,
    rows: &[Seq<Busy>],
    steps: &mut Steps<L>,
) -> Result<Seq<Race>, Memory>
    requires few { length rows.now ≤ MOST_NAMED }
    requires rows { AreBusyRows graph.now.edges rows.now }
    ensures races { IfOk result (λ races. IsRising graph.now → races ≡ races_by_rows graph.now rows.now) }
    ensures cost { IfOk result
        (λ races. steps.new
        ≤ steps.old + length rows.now * (2049 + sum_by row_cost rows.now) + sum_by own_cost rows.now + length races) }
    ensures least { IfOk result (λ races. steps.old + 2049 * length rows.now + length races ≤ steps.new) }
{
    let mut races = Seq::new(alloc);
    for p in 0..rows.len() {
        steps.tick();
        let part = races_of_process(alloc, graph, rows, p, steps)?;
        races.append(part.into_vec())?;
    }
    Ok(races)
}

/// The races of a graph, as `races` lists them, in one thread. They are found in steps that are linear in the accesses
/// of the edges times the processes, and in the races.
pub fn races_in<L: Ledger>(
    alloc: Global,
    graph: &SyncGraph,
    steps: &mut Steps<L>,
) -> Result<Seq<Race>, Memory>
    ensures races { IfOk result (AreRacesOf graph.now) }
    ensures cost { IfOk result (λ races. steps.new ≤ steps.old + search_cost graph.now + length races) }
    ensures least { IfOk result (λ races. steps.old + search_least graph.now + length races ≤ steps.new) }
{
    let rows = busy_in(alloc, graph, steps)?;
    all_races(alloc, graph, rows.as_slice(), steps)
}

// The races that threads find, with steps that nobody reads.
fn races_from_blank<L: Ledger, R: Threads + Sync>(
    rt: &R,
    alloc: Global,
    graph: &SyncGraph,
    blank: Blank,
) -> Result<Seq<Race>, Memory>
    requires name { blank.name ≡ L.name }
    requires parts { blank.parts ≡ L.parts }
    requires some { 0 < blank.parts }
    ensures { IfOk result (AreRacesOf graph.now) }
{
    let mut steps: Steps<L> = Steps::new(blank);
    let rows = busy_in(alloc, graph, &mut steps)?;
    let parts = races_of_processes(rt, alloc, graph, rows.as_slice())?;
    joined(alloc, parts, &mut steps)
}

/// The races of a graph: every pair of internal edges of two processes, neither before the other, with each cell that
/// both access and one of them writes, rising by the first process, its edge, the second process, its edge, the cell
/// and the kind. It is the same list for every number of workers. The edges are looked up by their cells, so that
/// edges that share none are never compared, and each process is searched by the steps that `races_in` counts.
/// `Memory` is want of memory.
pub fn races(
    rt: &(impl Threads + Sync),
    alloc: Global,
    graph: &SyncGraph,
) -> Result<Seq<Race>, Memory>
    ensures { IfOk result (AreRacesOf graph.now) }
{
    races_from_blank::<Brand, _>(rt, alloc, graph, Blank::new(1))
}
