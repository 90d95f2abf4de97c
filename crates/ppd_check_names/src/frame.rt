// What a body has declared so far.
ghost use Rattle.std.specs.Prelude.{◌≡◌, ◌++◌, [], ◌∷◌, OnOk, IfOk, ◌≤◌, ◌+◌, decimal};
ghost use Rattle.ppd_check_names.specs.Faults.{first, first_of_both};
ghost use Rattle.ppd_check_names.specs.Names.{innermost};
ghost use Rattle.ppd_check_names.specs.Frames.{after_cells, declared, twice_faults, variable_of, with_hidden};
ghost use Rattle.ppd_check_names.specs.Nodes.{label_name};

use crate::fault::{Cause, Fault, note_if};
use crate::meaning::Meaning;
use crate::nodes::Label;
use crate::scopes::Scopes;
use itoa::Buffer;
use ppd_ast::{Bytes, Memory, Place, Seq, Steps};
use std::alloc::Global;
use std::sync::ledger::Ledger;

/// A variable with its length, where it is an array, and the place of its name or, of a hidden one, of its statement.
#[derive(Drop)]
pub struct Variable {
    pub name: Bytes,
    pub length: Option<u16>,
    pub place: Place,
}

/// The scopes round a place, the variables of the body up to there, in the order of their cells, the first cell
/// after them, and how many of them are hidden.
#[derive(Drop)]
pub struct Frame {
    pub scopes: Scopes,
    pub variables: Seq<Variable>,
    pub cells: u16,
    pub hidden: u16,
}

/// The cell after a variable.
pub fn after_cells(cell: u16, length: Option<u16>) -> u16
    ensures { result ≡ after_cells cell length }
{
    match length {
        None => cell.saturating_add(1),
        Some(length) => cell.saturating_add(length),
    }
}

/// A list of bytes. `Memory` is want of memory.
pub fn bytes_of<L: Ledger>(
    alloc: Global,
    bytes: &[u8],
    steps: &mut Steps<L>,
) -> Result<Bytes, Memory>
    ensures value { IfOk result (λ list. list ≡ bytes.now) }
    ensures cost { steps.new ≤ steps.old + 1 }
{
    steps.tick();
    Ok(Seq::from_vec(Vec::from_slice(alloc, bytes)?))
}

// The name of a body's hidden variable with this number.
fn hidden_name<L: Ledger>(alloc: Global, number: u16, steps: &mut Steps<L>) -> Result<Bytes, Memory>
    ensures value { IfOk result (λ name. name ≡ 37 ∷ decimal number) }
    ensures cost { steps.new ≤ steps.old + 1 }
{
    steps.tick();
    let mut items = Vec::new(alloc);
    items.push(b'%')?;
    let mut buffer = Buffer::new();
    items.extend_from_slice(buffer.format(number).as_bytes())?;
    Ok(Seq::from_vec(items))
}

// One more variable, in the order of their cells.
pub fn push_variable<L: Ledger>(
    alloc: Global,
    variables: &mut Seq<Variable>,
    label: Label<'_>,
    length: Option<u16>,
    steps: &mut Steps<L>,
) -> Result<(), Memory>
    ensures pushed { OnOk result
        (variables.new ≡ variables.old ++ variable_of (label_name label.entry) length ∷ []) }
    ensures cost { steps.new ≤ steps.old + 2 }
{
    steps.tick();
    let name = bytes_of(alloc, label.text, steps)?;
    variables.push(Variable {
        name,
        length,
        place: label.place,
    })
}

/// One more variable, which its name means from here on; a second one in its scope is noted. `Memory` is want of
/// memory: the frame may be in part as after it.
pub fn declare<L: Ledger>(
    frame: &mut Frame,
    label: Label<'_>,
    length: Option<u16>,
    found: &mut Option<Fault>,
    steps: &mut Steps<L>,
) -> Result<(), Memory>
    ensures frame { OnOk result (frame.new ≡ declared length frame.old (label_name label.entry)) }
    ensures faults { OnOk result
        (found.new ≡ first_of_both found.old
        (first (twice_faults (innermost frame.old.scopes) (label_name label.entry)))) }
    ensures cost { steps.new ≤ steps.old + 5 }
{
    let alloc = frame.scopes.alloc();
    let meaning = Meaning::Local(frame.cells, length);
    let twice = frame.scopes.declare(label.text, meaning, steps)?;
    note_if(found, twice, label.place, Cause::Twice);
    push_variable(alloc, &mut frame.variables, label, length, steps)?;
    frame.cells = after_cells(frame.cells, length);
    Ok(())
}

/// One more variable, which no name means; its cell. `Memory` is want of memory.
pub fn hide<L: Ledger>(frame: &mut Frame, place: Place, steps: &mut Steps<L>) -> Result<u16, Memory>
    ensures frame { OnOk result (frame.new ≡ with_hidden place frame.old) }
    ensures cell { IfOk result (λ cell. cell ≡ frame.old.cells) }
    ensures cost { steps.new ≤ steps.old + 2 }
{
    let alloc = frame.scopes.alloc();
    let cell = frame.cells;
    let number = frame.hidden.saturating_add(1);
    steps.tick();
    frame.variables.push(Variable {
        name: hidden_name(alloc, number, steps)?,
        length: None,
        place,
    })?;
    frame.cells = cell.saturating_add(1);
    frame.hidden = number;
    Ok(cell)
}
