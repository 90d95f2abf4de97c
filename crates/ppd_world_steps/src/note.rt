ghost use Rattle.std.specs.Prelude.{◌≡◌, ◌≤◌, ◌++◌, ◌∷◌, length, take, drop, IfOk, IfSome, IfNone, OnOk};
ghost use Rattle.ppd_ast.specs.Members.{with_cell};
ghost use Rattle.ppd_model.specs.Logs.{with_access};
ghost use Rattle.ppd_world_steps.specs.Entries.{noted};

use ppd_ast::{Cells, Memory, Seq};
use ppd_model::Logging;
use ppd_sem::Need;
use std::alloc::Global;

/// What becomes of the cells that a process accessed since its last synchronization.
#[derive(Drop)]
pub enum Note {
    /// They stay.
    Nothing,
    /// These are read now.
    Reads(Cells),
    /// These are written now.
    Writes(Cells),
    /// None is accessed any more.
    Anew,
}

/// The place at which a cell is missing in a rising list, and None where it is there.
fn missing_at(cells: &[u16], cell: u16) -> Option<usize>
    ensures within { IfSome result (λ place. place ≤ length cells.now) }
    ensures some { IfSome result
        (λ place. with_cell cell cells.now ≡ take place cells.now ++ cell ∷ drop place cells.now) }
    ensures none { IfNone result (with_cell cell cells.now ≡ cells.now) }
{
    for index in 0..cells.len() {
        if cells[index] == cell {
            return None;
        }
        if cells[index] > cell {
            return Some(index);
        }
    }
    Some(cells.len())
}

fn extend(items: &mut Vec<u16>, more: &[u16]) -> Result<(), Memory>
    ensures { OnOk result (items.new.items ≡ items.old.items ++ more.now) }
{
    items.extend_from_slice(more)?;
    Ok(())
}

/// The cells with one more at this place.
fn with_cell_at(alloc: Global, cells: &[u16], place: usize, cell: u16) -> Result<Cells, Memory>
    requires { place ≤ length cells.now }
    ensures { IfOk result (λ more. more ≡ take place cells.now ++ cell ∷ drop place cells.now) }
{
    let (front, back) = cells.split_at(place);
    let mut items = Vec::new(alloc);
    extend(&mut items, front)?;
    extend(&mut items, &[cell])?;
    extend(&mut items, back)?;
    Ok(Seq::from_vec(items))
}

fn note_read(alloc: Global, logging: &Logging, cell: u16) -> Result<Note, Memory>
    ensures { IfOk result
        (λ note. noted note logging.now ≡ record logging.now { reads = with_cell cell logging.now.reads }) }
{
    let cells = logging.reads.as_slice();
    match missing_at(cells, cell) {
        Some(place) => Ok(Note::Reads(with_cell_at(alloc, cells, place, cell)?)),
        None => Ok(Note::Nothing),
    }
}

fn note_write(alloc: Global, logging: &Logging, cell: u16) -> Result<Note, Memory>
    ensures { IfOk result
        (λ note. noted note logging.now ≡ record logging.now { writes = with_cell cell logging.now.writes }) }
{
    let cells = logging.writes.as_slice();
    match missing_at(cells, cell) {
        Some(place) => Ok(Note::Writes(with_cell_at(alloc, cells, place, cell)?)),
        None => Ok(Note::Nothing),
    }
}

/// What becomes of the accessed cells at a step of this need. `Memory` is want of memory.
pub fn note_of(alloc: Global, logging: &Logging, need: Need) -> Result<Note, Memory>
    ensures { IfOk result (λ note. noted note logging.now ≡ with_access need logging.now) }
{
    match need {
        Need::Read(cell) => note_read(alloc, logging, cell),
        Need::Write(cell, _) => note_write(alloc, logging, cell),
        Need::P { .. }
        | Need::V { .. }
        | Need::Send { .. }
        | Need::Offer { .. }
        | Need::Done { .. }
        | Need::Recv { .. } => Ok(Note::Anew),
        _ => Ok(Note::Nothing),
    }
}

/// Does what the note says.
pub fn apply(note: Note, logging: &mut Logging)
    ensures { logging.new ≡ noted note logging.old }
{
    match note {
        Note::Nothing => {}
        Note::Reads(cells) => logging.reads = cells,
        Note::Writes(cells) => logging.writes = cells,
        Note::Anew => {
            logging.reads.clear();
            logging.writes.clear();
        }
    }
}
