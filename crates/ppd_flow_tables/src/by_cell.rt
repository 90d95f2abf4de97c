// The internal edges of each process by the cells that they write.
ghost use Rattle.std.specs.Prelude.{◌≡◌, ◌<◌, ◌^◌, ◌++◌, ◌∷◌, ℕ, [], IfOk, OnOk, get_or, length};
ghost use Rattle.ppd_flow_past.specs.Pasts.{IsPast};
ghost use Rattle.ppd_model.specs.World.{change};
ghost use Rattle.ppd_race_found.specs.Lists.{one_at};
ghost use Rattle.ppd_flow_tables.specs.Writing.{AreWritingEdges, listed_in, times_in};

use ppd_ast::{Ids, Memory, Seq};
use ppd_flow_past::Past;
use ppd_graph::EdgeSets;
use std::alloc::Global;

/// The internal edges of each process that write each shared cell, in order.
#[derive(Drop)]
pub struct WritingEdges {
    pub(crate) rows: Seq<Seq<Ids>>,
}

fn push_none(lists: &mut Vec<Ids>, alloc: Global) -> Result<(), Memory>
    ensures { OnOk result (lists.new.items ≡ lists.old.items ++ [] ∷ []) }
{
    lists.push(Seq::new(alloc))?;
    Ok(())
}

/// There is a list for the cell.
fn make_room(lists: &mut Vec<Ids>, alloc: Global, cell: u16) -> Result<(), Memory>
    ensures there { OnOk result (cell < length lists.new.items) }
    ensures same { OnOk result ((c : ℕ) → get_or lists.new.items c [] ≡ get_or lists.old.items c []) }
{
    for _place in lists.len()..cell as usize + 1 {
        push_none(lists, alloc)?;
    }
    Ok(())
}

fn push_edge(list: &mut Ids, edge: u32) -> Result<(), Memory>
    ensures { OnOk result (list.new ≡ list.old ++ edge ∷ []) }
{
    list.push(edge)
}

fn push_in(lists: &mut Vec<Ids>, cell: u16, edge: u32) -> Result<(), Memory>
    requires { cell < length lists.old.items }
    ensures { OnOk result (lists.new.items ≡ change (λ list. list ++ edge ∷ []) cell lists.old.items) }
{
    push_edge(&mut lists[cell as usize], edge)
}

/// Lists the edge for a cell.
fn list_edge(lists: &mut Vec<Ids>, alloc: Global, cell: u16, edge: u32) -> Result<(), Memory>
    ensures { OnOk result
        ((c : ℕ) → get_or lists.new.items c [] ≡ get_or lists.old.items c [] ++ one_at cell edge c) }
{
    make_room(lists, alloc, cell)?;
    push_in(lists, cell, edge)?;
    Ok(())
}

/// Lists the edge for each of these cells, once for each time that it stands there.
fn list_writes(lists: &mut Vec<Ids>, alloc: Global, writes: &[u16], edge: u32) -> Result<(), Memory>
    ensures { OnOk result
        ((c : ℕ) → get_or lists.new.items c [] ≡ get_or lists.old.items c [] ++ times_in c edge writes.now) }
{
    for cell in writes {
        list_edge(lists, alloc, *cell, edge)?;
    }
    Ok(())
}

/// The edges of a process by the cells that they write.
fn edges_by_cell(alloc: Global, sets: &[EdgeSets]) -> Result<Seq<Ids>, Memory>
    requires { length sets.now < 2 ^ 32 }
    ensures { IfOk result (λ lists. (c : ℕ) → get_or lists c [] ≡ listed_in c 0 sets.now) }
{
    let mut lists = Vec::new(alloc);
    for edge in 0..sets.len() {
        list_writes(&mut lists, alloc, sets[edge].writes.as_slice(), edge as u32)?;
    }
    Ok(Seq::from_vec(lists))
}

/// The internal edges of each process of a past that write each shared cell. `Memory` is want of memory, also for
/// processes that have no 8-bit numbers.
pub fn writing_edges(alloc: Global, past: &Past) -> Result<WritingEdges, Memory>
    requires { IsPast past.now }
    ensures { IfOk result (AreWritingEdges past.now.graph.now.edges) }
{
    let sets = past.graph.edge_sets();
    if sets.len() > 256 {
        return Err(Memory);
    }
    let mut rows = Seq::new(alloc);
    for process in 0..sets.len() {
        let lists = edges_by_cell(alloc, sets[process].as_slice())?;
        rows.push(lists)?;
    }
    Ok(WritingEdges { rows })
}
