// The line of each shared cell with its last value and the write of it.
ghost use Rattle.std.specs.Prelude.{◌≡◌, ◌++◌, OnOk};
ghost use Rattle.ppd_text.specs.Edges.{last_line};

use crate::cell_names::put_cell;
use crate::edges::put_from;
use crate::text::put_equal;
use ppd_ast::{Memory, Program};
use ppd_model::Origin;

/// Appends the line `CELL=V from REF` of a shared cell with its last value and the write of it.
pub fn put_last(
    text: &mut Vec<u8>,
    program: &Program,
    cell: u16,
    value: i64,
    origin: Origin,
) -> Result<(), Memory>
    ensures { OnOk result (text.new.items ≡ text.old.items ++ last_line program.now cell (value, origin)) }
{
    put_cell(text, program.shared.as_slice(), cell)?;
    put_equal(text, value)?;
    put_from(text, program, origin)
}
