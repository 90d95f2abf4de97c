ghost use Rattle.std.specs.Prelude.{◌≡◌, ◌<◌, None, Some, slice_set, replicate, pos};
ghost use Rattle.std.specs.List.{range_with_len};
ghost use Rattle.ppd_ast.specs.Lookups.{kind_of};
ghost use Rattle.ppd_sem.specs.Process.{into_of, receive_at as receive_at_of, returned, on_top, into_at as into_at_of, with_values};

use crate::proc::Frame;
use crate::stack::Stack;
use ppd_ast::{Kind, Nums, Program};

/// Writes a cell of the top frame.
pub(crate) fn write_top(frames: &mut Stack<Frame>, cell: u16, value: i64)
    ensures { frames.new ≡ on_top (λ cells. slice_set cells cell value) frames.old }
{
    let count = frames.items.len();
    if count > 0 {
        frames.items[count - 1].cells.set(cell as usize, value);
    }
}

#[tactic(auto, using(crate::proofs::Zeros::zeros_written))]
fn clear_cells(cells: &mut Nums, base: u16, len: u16)
    ensures { cells.new ≡ with_values (range_with_len base len) (replicate len (pos 0)) cells.old }
{
    for index in 0..len {
        cells.set(base as usize + index as usize, 0);
    }
}

/// Writes 0 to these cells of the top frame.
pub(crate) fn clear_top(frames: &mut Stack<Frame>, base: u16, len: u16)
    ensures { frames.new ≡ on_top (with_values (range_with_len base len) (replicate len (pos 0))) frames.old }
{
    let count = frames.items.len();
    if count > 0 {
        clear_cells(&mut frames.items[count - 1].cells, base, len);
    }
}

/// The cell in which a call receives its value.
pub(crate) fn into_at(program: &Program, call: u32) -> Option<u16>
    ensures { result ≡ into_of (kind_of program.now call) }
{
    match program.stmts.get(call as usize) {
        Some(stmt) => match stmt.kind {
            Kind::Call { into, .. } => into,
            _ => None,
        },
        None => None,
    }
}

pub(crate) fn receive_at(frames: &mut Stack<Frame>, into: Option<u16>, value: Option<i64>)
    ensures { frames.new ≡ receive_at_of into value frames.old }
{
    if let (Some(cell), Some(value)) = (into, value) {
        write_top(frames, cell, value);
    }
}

fn return_to(program: &Program, frames: &mut Stack<Frame>, call: Option<u32>, value: Option<i64>)
    ensures { frames.new ≡ receive_at_of (into_at_of program.now call) value frames.old }
{
    if let Some(call) = call {
        receive_at(frames, into_at(program, call), value);
    }
}

/// Takes the top frame off; the caller's receives the value.
pub(crate) fn return_from(program: &Program, frames: &mut Stack<Frame>, value: Option<i64>)
    ensures { frames.new ≡ returned program.now value frames.old }
{
    if let Some(frame) = frames.pop() {
        return_to(program, frames, frame.call, value);
    }
}
