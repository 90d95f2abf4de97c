ghost use Rattle.std.specs.Prelude.{◌≡◌, ◌++◌, ◌∷◌, List, None, IfOk, OnOk, ◌≤◌, ◌+◌, length, map, unwrap_or};
ghost use Rattle.std.specs.List.{sum_by};
ghost use Rattle.ppd_graph.specs.Spending.{list_cost};
ghost use Rattle.ppd_model.specs.declared.entry.Entry.{Entry as EntryOf};
ghost use Rattle.ppd_graph.specs.LogRecord.{edge_sets, no_sets, sets_from};

use ppd_ast::{Cells, Memory, Seq, Steps};
use ppd_model::{Boxed, BoxedCells, Entry};
use std::alloc::Global;
use std::sync::ledger::Ledger;

/// The shared cells that an internal edge accesses, rising.
#[derive(Drop)]
pub struct EdgeSets {
    pub reads: BoxedCells,
    pub writes: BoxedCells,
}

fn copy_of(alloc: Global, cells: &[u16]) -> Result<BoxedCells, Memory>
    ensures { IfOk result (λ copy. copy ≡ cells.now) }
{
    Boxed::from_seq(alloc, Cells::from_vec(Vec::from_slice(alloc, cells)?))
}

fn copy_sets(alloc: Global, reads: &BoxedCells, writes: &BoxedCells) -> Result<EdgeSets, Memory>
    ensures { IfOk result (λ sets. sets ≡ edge_sets reads.now writes.now) }
{
    let reads = copy_of(alloc, reads.as_slice())?;
    let writes = copy_of(alloc, writes.as_slice())?;
    Ok(EdgeSets { reads, writes })
}

// The sets found before, or else these.
fn first_of(
    alloc: Global,
    found: Option<EdgeSets>,
    reads: &BoxedCells,
    writes: &BoxedCells,
) -> Result<EdgeSets, Memory>
    ensures { IfOk result (λ sets. sets ≡ unwrap_or found (edge_sets reads.now writes.now)) }
{
    match found {
        Some(sets) => Ok(sets),
        None => copy_sets(alloc, reads, writes),
    }
}

// Adds the edge that an entry ends, if it ends one. The answer is what is found of the next edge.
fn take_entry(
    alloc: Global,
    edges: &mut Seq<EdgeSets>,
    found: Option<EdgeSets>,
    entry: &Entry,
) -> Result<Option<EdgeSets>, Memory>
    ensures { IfOk result (λ now. (rest : List EntryOf)
        → edges.new ++ sets_from now rest ≡ edges.old ++ sets_from found (entry.now ∷ rest)) }
{
    match entry {
        Entry::Sync { reads, writes, .. } => {
            let sets = copy_sets(alloc, reads, writes)?;
            edges.push(sets)?;
            Ok(None)
        }
        Entry::End { reads, writes, .. } => {
            let sets = first_of(alloc, found, reads, writes)?;
            Ok(Some(sets))
        }
        _ => Ok(found),
    }
}

fn or_none(found: Option<EdgeSets>) -> EdgeSets
    ensures { result ≡ unwrap_or found no_sets }
{
    match found {
        Some(sets) => sets,
        None => EdgeSets {
            reads: Boxed::new(),
            writes: Boxed::new(),
        },
    }
}

// The sets of each edge of a process.
fn own_sets<L: Ledger>(
    alloc: Global,
    entries: &[Entry],
    steps: &mut Steps<L>,
) -> Result<Seq<EdgeSets>, Memory>
    ensures cost { steps.new ≤ steps.old + length entries.now }
    ensures taken { OnOk result (steps.new ≡ steps.old + length entries.now) }
    ensures edges { IfOk result (λ edges. edges ≡ sets_from None entries.now) }
{
    let mut edges = Seq::new(alloc);
    let mut found = None;
    for entry in entries {
        steps.tick();
        found = take_entry(alloc, &mut edges, found, entry)?;
    }
    edges.push(or_none(found))?;
    Ok(edges)
}

/// The sets of each edge of each process.
pub(crate) fn all_sets<L: Ledger>(
    alloc: Global,
    lists: &[Seq<Entry>],
    steps: &mut Steps<L>,
) -> Result<Seq<Seq<EdgeSets>>, Memory>
    ensures cost { steps.new ≤ steps.old + sum_by list_cost lists.now }
    ensures taken { OnOk result (steps.new ≡ steps.old + sum_by list_cost lists.now) }
    ensures edges { IfOk result (λ all. all ≡ map (sets_from None) lists.now) }
{
    let mut all = Seq::new(alloc);
    for list in lists {
        steps.tick();
        let edges = own_sets(alloc, list.as_slice(), steps)?;
        all.push(edges)?;
    }
    Ok(all)
}
