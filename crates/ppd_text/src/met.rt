// The variables that have a cell in a list.
ghost use Rattle.std.specs.Prelude.{◌≡◌, ◌+◌, ◌++◌, OnOk, IfOk, unwrap_or};
ghost use Rattle.std.specs.List.{list_any};
ghost use Rattle.ppd_ast.specs.Cells.{after, holds};
ghost use Rattle.ppd_sets.specs.Used.{vars_met};
ghost use Rattle.ppd_text.specs.Plans.{cells_text};

use crate::names::put_names;
use ppd_ast::{Cells, Memory, Var};
use std::alloc::Global;

// How many cells the variable has.
fn size_of(var: &Var) -> u16
    ensures { result ≡ unwrap_or var.now.len 1 }
{
    match var.len {
        None => 1,
        Some(len) => len,
    }
}

// The cell after the variable's last one.
fn after(var: &Var) -> u32
    ensures { result ≡ after var.now }
{
    var.base as u32 + size_of(var) as u32
}

// Whether the cell is one of the variable's.
fn holds(cell: u16, var: &Var) -> bool
    ensures { result ≡ holds cell var.now }
{
    var.base <= cell && (cell as u32) < after(var)
}

// Whether a cell of the variable is in the list.
fn is_met(cells: &[u16], var: &Var) -> bool
    ensures { result ≡ list_any (λ c. holds c var.now) cells.now }
{
    for cell in cells {
        if holds(*cell, var) {
            return true;
        }
    }
    false
}

// The variables that have a cell in the list, by number, rising. Numbers have 16 bits.
fn vars_met(alloc: Global, vars: &[Var], cells: &[u16]) -> Result<Cells, Memory>
    ensures { IfOk result (λ numbers. numbers ≡ vars_met vars.now cells.now) }
{
    let mut numbers = Cells::new(alloc);
    for number in 0..vars.len().min(65_536) {
        if is_met(cells, &vars[number]) {
            numbers.push(number as u16)?;
        }
    }
    Ok(numbers)
}

// Appends the names of the variables that have a cell in the list, each after a space, or `-` for none.
pub(crate) fn put_cells(text: &mut Vec<u8>, vars: &[Var], cells: &[u16]) -> Result<(), Memory>
    ensures { OnOk result (text.new.items ≡ text.old.items ++ cells_text vars.now cells.now) }
{
    let numbers = vars_met(*text.allocator(), vars, cells)?;
    put_names(text, vars, numbers.as_slice())
}
