// Which event of a process last wrote each shared cell in each internal edge.
ghost use Rattle.std.specs.Prelude.{◌≡◌, fold, OnOk};
ghost use Rattle.ppd_whole_writes.specs.Writes.{key as key_of, mark_access as mark_access_of, mark_spot as mark_spot_of, written_past};

use ppd_activations::ByNumber;
use ppd_ast::Memory;
use ppd_sem::{Access, Event, Spot};

/// The number of a cell in an edge.
pub fn key(cell: u16, edge: u32) -> u64
    ensures { result ≡ key_of cell edge }
{
    cell as u64 * 4294967296 + edge as u64
}

fn mark_spot(written: &mut ByNumber<u32>, edge: u32, number: u32, spot: Spot) -> Result<(), Memory>
    ensures { OnOk result (written.new ≡ mark_spot_of edge number written.old spot) }
{
    match spot {
        Spot::Local { .. } => Ok(()),
        Spot::Shared(cell) => written.set(key(cell, edge), number),
    }
}

fn mark_writes(
    written: &mut ByNumber<u32>,
    edge: u32,
    number: u32,
    writes: &[Access],
) -> Result<(), Memory>
    ensures { OnOk result (written.new ≡ fold (mark_access_of edge number) written.old writes.now) }
{
    for access in writes {
        mark_spot(written, edge, number, access.spot)?;
    }
    Ok(())
}

/// The writes of shared cells by event `number`, which lies in this edge; a synchronization writes none. `Memory` is
/// want of memory.
pub fn mark_if(
    written: &mut ByNumber<u32>,
    edge: u32,
    number: u32,
    event: &Event,
) -> Result<(), Memory>
    ensures { OnOk result
        (written.new ≡ written_past event.now.number edge number event.now.writes written.old) }
{
    match event.number {
        Some(_) => Ok(()),
        None => mark_writes(written, edge, number, event.writes.as_slice()),
    }
}
