// Copies of entries.
ghost use Rattle.std.specs.Prelude.{◌≡◌, IfOk};
ghost use Rattle.ppd_model.specs.declared.entry.Entry.TheVariants as entry_kind;

use ppd_ast::{Memory, Seq, Status, SyncKind};
use ppd_model::{Boxed, BoxedCells, BoxedNums, Entry};
use std::alloc::Global;

fn copied_nums(alloc: Global, values: &BoxedNums) -> Result<BoxedNums, Memory>
    ensures { IfOk result (λ copy. copy ≡ values.now) }
{
    Boxed::from_seq(
        alloc,
        Seq::from_vec(Vec::from_slice(alloc, values.as_slice())?),
    )
}

fn copied_cells(alloc: Global, cells: &BoxedCells) -> Result<BoxedCells, Memory>
    ensures { IfOk result (λ copy. copy ≡ cells.now) }
{
    Boxed::from_seq(
        alloc,
        Seq::from_vec(Vec::from_slice(alloc, cells.as_slice())?),
    )
}

/// The cells that a synchronization or an end has read and written.
#[derive(Clone, Copy)]
struct Sets<'a> {
    reads: &'a BoxedCells,
    writes: &'a BoxedCells,
}

fn copied_sync(
    alloc: Global,
    kind: SyncKind,
    object: u8,
    number: u32,
    value: i64,
    sets: &Sets,
) -> Result<Entry, Memory>
    ensures { IfOk result
        (λ copy. copy ≡ entry_kind.Sync kind object number value sets.now.reads.now sets.now.writes.now) }
{
    let reads = copied_cells(alloc, sets.reads)?;
    let writes = copied_cells(alloc, sets.writes)?;
    Ok(Entry::Sync {
        kind,
        object,
        number,
        value,
        reads,
        writes,
    })
}

fn copied_end(alloc: Global, status: Status, rest: u32, sets: &Sets) -> Result<Entry, Memory>
    ensures { IfOk result (λ copy. copy ≡ entry_kind.End status rest sets.now.reads.now sets.now.writes.now) }
{
    let reads = copied_cells(alloc, sets.reads)?;
    let writes = copied_cells(alloc, sets.writes)?;
    Ok(Entry::End {
        status,
        rest,
        reads,
        writes,
    })
}

fn copied_prelog(alloc: Global, block: u16, values: &BoxedNums) -> Result<Entry, Memory>
    ensures { IfOk result (λ copy. copy ≡ entry_kind.Prelog block values.now) }
{
    let values = copied_nums(alloc, values)?;
    Ok(Entry::Prelog { block, values })
}

fn copied_unit(alloc: Global, unit: u16, values: &BoxedNums) -> Result<Entry, Memory>
    ensures { IfOk result (λ copy. copy ≡ entry_kind.Unit unit values.now) }
{
    let values = copied_nums(alloc, values)?;
    Ok(Entry::Unit { unit, values })
}

fn copied_postlog(alloc: Global, block: u16, values: &BoxedNums) -> Result<Entry, Memory>
    ensures { IfOk result (λ copy. copy ≡ entry_kind.Postlog block values.now) }
{
    let values = copied_nums(alloc, values)?;
    Ok(Entry::Postlog { block, values })
}

fn copied_entry(alloc: Global, entry: &Entry) -> Result<Entry, Memory>
    ensures { IfOk result (λ copy. copy ≡ entry.now) }
{
    match entry {
        Entry::Prelog { block, values } => copied_prelog(alloc, *block, values),
        Entry::Unit { unit, values } => copied_unit(alloc, *unit, values),
        Entry::Sync {
            kind,
            object,
            number,
            value,
            reads,
            writes,
        } => copied_sync(
            alloc,
            *kind,
            *object,
            *number,
            *value,
            &Sets { reads, writes },
        ),
        Entry::Postlog { block, values } => copied_postlog(alloc, *block, values),
        Entry::End {
            status,
            rest,
            reads,
            writes,
        } => copied_end(alloc, *status, *rest, &Sets { reads, writes }),
    }
}

/// These entries, in memory of their own.
pub(crate) fn copied(alloc: Global, entries: &[Entry]) -> Result<Seq<Entry>, Memory>
    ensures { IfOk result (λ copy. copy ≡ entries.now) }
{
    let mut copy = Seq::new(alloc);
    for entry in entries {
        let own = copied_entry(alloc, entry)?;
        copy.push(own)?;
    }
    Ok(copy)
}
